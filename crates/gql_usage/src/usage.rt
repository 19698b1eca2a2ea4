//! What is known of the use of a part of a schema.

use crate::reader::Reader;
use gql_ast::{Fault, Shared};
use gql_removal::Part;

/// The use of a part of a schema: what kind of part the word names, who reads it, whether operations may
/// get or send values of it and need not name it, and the faults that its removal brings to the schema.
#[derive(Clone, Copy)]
pub struct Usage<'u> {
    pub word: &'u str,
    pub part: Part,
    pub readers: &'u [Reader],
    pub is_answered: bool,
    pub brought: &'u [Shared<Fault>],
}
