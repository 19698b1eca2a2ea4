//! What selections are collected with.

use gql_coerce::CoercedObject;
use gql_facts::Fragments;
use gql_types::Schema;

/// What selections are collected with.
#[derive(Clone, Copy)]
pub struct Context<'a, 'v> {
    pub schema: &'a Schema,
    /// The fragments of the documents.
    pub fragments: &'a Fragments,
    /// The values of the operation's variables, as an object.
    pub values: &'v CoercedObject,
}
