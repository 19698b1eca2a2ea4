//! The state of an execution.

use crate::outcome::Step;
use gql_text::Place;

/// Why a field has an error.
#[derive(Clone, Copy)]
pub enum Reason<'d> {
    NullForNonNull,
    NotAList,
    NotAnObject,
    /// The value is not of this leaf type.
    NotOfType(&'d str),
    /// The value names no possible type of this abstract type.
    NoPossibleType(&'d str),
    /// The data have no list of this name.
    NoList(&'d str),
    /// The arguments are refused, with this message.
    Refused(&'d str),
}

/// An error of a field (GraphQL specification, 6.4.4). Its place is the start of the first node.
#[derive(Drop)]
pub struct FieldError<'d> {
    pub message: String,
    pub place: Place,
    pub path: Vec<Step<'d>>,
}

/// The text written so far, the errors so far, the path of the present value, how many more values
/// may be completed, and whether the present field has an error of its own.
#[derive(Drop)]
pub struct Run<'d> {
    pub out: Vec<u8>,
    pub errors: Vec<FieldError<'d>>,
    pub path: Vec<Step<'d>>,
    pub left: usize,
    pub raised: bool,
}
