//! What the usages of variables are checked against, and where they are.

use gql_ast::{FileName, FilePlace, VariableDefinition};
use gql_inputs::ExpectedType;
use std::collections::HashMap;

/// What usages are checked against: their operation, the file that they are in, and the first
/// variable of each name.
#[derive(Clone, Copy)]
pub struct UsageCheck<'c, 't> {
    pub owner: &'c FilePlace,
    pub file: &'c FileName,
    pub first: &'c HashMap<&'t str, &'t VariableDefinition>,
}

/// Where a variable is used: the type that is expected there, and whether it has a default value.
#[derive(Clone, Copy)]
pub struct Location<'t> {
    pub expected: ExpectedType<'t>,
    pub has_default: bool,
}
