//! Why an input is refused, and where in it.
ghost use Rattle.std.specs.Prelude.{◌≡◌};
ghost use Rattle.gql_coerce.specs.Refusals as spec;

use gql_ast::{Items, Text};

/// Why an input has no value (GraphQL specification, 3.5 to 3.12). Each has a number that users
/// see.
#[derive(Clone, Copy, Debug, PartialEq, Eq)]
pub enum Reason {
    /// 121: `null`, or no argument, where the type is Non-Null (3.12).
    NullForNonNull,
    /// 122: an input of another kind than the type takes.
    WrongKind,
    /// 123: an integer of more bits than the type takes (3.5.1).
    OutOfRange,
    /// 124: a name that is not a value of the enum (3.9).
    NotInEnum,
    /// 125: a field that the input object does not define (3.10).
    UnknownField,
    /// 126: a field of Non-Null type without default that is not given (3.10).
    MissingField,
}

impl Reason {
    /// The number of the refusal, from 121 to 126.
    pub fn number(self) -> u16
        ensures { result ≡ spec.number self }
    {
        match self {
            Reason::NullForNonNull => 121,
            Reason::WrongKind => 122,
            Reason::OutOfRange => 123,
            Reason::NotInEnum => 124,
            Reason::UnknownField => 125,
            Reason::MissingField => 126,
        }
    }

    /// The text that a user sees.
    pub fn text(self) -> &'static str
        ensures { result.now ≡ spec.text self }
    {
        match self {
            Reason::NullForNonNull => "null for a Non-Null type",
            Reason::WrongKind => "wrong kind of value",
            Reason::OutOfRange => "integer out of range",
            Reason::NotInEnum => "not a value of the enum",
            Reason::UnknownField => "unknown input field",
            Reason::MissingField => "missing input field",
        }
    }
}

/// A step into an input: to a field of an object, or to an item of a list, counted from 0.
#[derive(Debug, Drop)]
pub enum Segment {
    Key(Text),
    Index(usize),
}

/// Why an input is refused, and the steps that lead to the place. For 125 and 126 the path ends in
/// the field.
#[derive(Debug, Drop)]
pub struct Refusal {
    pub reason: Reason,
    pub path: Items<Segment>,
}
