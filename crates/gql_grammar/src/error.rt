//! Why a parsing function reads nothing.

ghost use Rattle.std.specs.Prelude.{◌≡◌};
ghost use Rattle.gql_grammar.specs.declared.error.ParseError.TheVariants as errors;

use std::alloc::{AllocError, AllocFailed};

/// The next token cannot appear where it does, or the tokens end too early. The cursor is at that
/// token, or at the end.
#[derive(Clone, Copy, Debug, PartialEq, Eq)]
pub struct Unexpected;

/// Why nothing was read.
#[derive(Clone, Copy, Debug, PartialEq, Eq)]
pub enum ParseError {
    /// An allocation failed. The cursor is at one of the tokens that it had before, or at the end.
    Memory,
    /// The next token cannot appear where it does, or the tokens end too early. The cursor is at
    /// that token, or at the end.
    Unexpected,
}

impl From<Unexpected> for ParseError {
    ghost from_gives = { λ _ e. e ≡ errors.Unexpected };

    fn from(_: Unexpected) -> ParseError {
        ParseError::Unexpected
    }
}

impl From<AllocError> for ParseError {
    ghost from_gives = { λ _ e. e ≡ errors.Memory };

    fn from(_: AllocError) -> ParseError {
        ParseError::Memory
    }
}

impl<T: Drop> From<AllocFailed<T>> for ParseError {
    ghost from_gives = { λ _ e. e ≡ errors.Memory };

    fn from(_: AllocFailed<T>) -> ParseError {
        ParseError::Memory
    }
}
