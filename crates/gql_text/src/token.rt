//! Tokens, their kinds, and why a text has none.

ghost use Rattle.std.specs.Prelude.{◌≡◌, ◌≢◌, true, false};
ghost use Rattle.gql_text.specs.Kinds.{same_kind};
ghost use Rattle.gql_text.specs.Numbers.{number_of};
ghost use Rattle.gql_text.specs.declared.token.LexFault.TheVariants.{Memory};

use crate::place::Place;
use std::alloc::AllocFailed;

/// What a token is: a punctuator, a name, a number or a text (GraphQL specification, 2.1.6 and
/// appendix B.1).
#[derive(Clone, Copy, Debug, PartialEq, Eq)]
pub enum Kind {
    /// The end of the text, which a parser sees after the last token. No token of a text has this
    /// kind.
    EndOfText,
    Bang,
    Dollar,
    Ampersand,
    LeftParenthesis,
    RightParenthesis,
    /// Three dots.
    Ellipsis,
    Colon,
    Equals,
    At,
    LeftBracket,
    RightBracket,
    LeftBrace,
    Pipe,
    RightBrace,
    Name,
    IntValue,
    FloatValue,
    /// A string: `"text"`.
    StringValue,
    /// A block string, within three quotes on each side.
    BlockString,
}

impl Kind {
    /// Whether the two kinds are the same.
    pub fn is(self, other: Kind) -> bool
        ensures value { result ≡ same_kind self other }
        ensures same { result ≡ true → self ≡ other }
        ensures other { result ≡ false → self ≢ other }
    {
        self == other
    }
}

/// A token, whose text is a slice of the source.
#[derive(Clone, Copy, Debug)]
pub struct Token<'a> {
    pub kind: Kind,
    pub text: &'a str,
    pub place: Place,
}

/// Why a text has no tokens.
#[derive(Clone, Copy, Debug, PartialEq, Eq)]
pub enum LexRefusal {
    /// 101: neither a token nor anything ignored begins with this character, or it is not a source
    /// character.
    BadCharacter,
    /// 102: a number that isn't finished, or that runs into a name, a digit or a dot.
    BadNumber,
    /// 103: a string that ends with its line or with the text, or a block string that ends with the
    /// text.
    UnfinishedText,
    /// 104: an escape that isn't one of those of the specification.
    BadEscape,
    /// 105: an escape for one half of a surrogate pair, without the other.
    LoneSurrogate,
    /// 106: the text has more than 65,536 bytes.
    TooLong,
}

impl LexRefusal {
    /// The number that users see: 101 to 106.
    pub fn number(self) -> u16
        ensures { result ≡ number_of self }
    {
        match self {
            LexRefusal::BadCharacter => 101,
            LexRefusal::BadNumber => 102,
            LexRefusal::UnfinishedText => 103,
            LexRefusal::BadEscape => 104,
            LexRefusal::LoneSurrogate => 105,
            LexRefusal::TooLong => 106,
        }
    }
}

/// Why a text has no tokens, and where; or an allocation failed.
#[derive(Clone, Copy, Debug, PartialEq, Eq)]
pub enum LexFault {
    At { number: LexRefusal, place: Place },
    Memory,
}

impl<T: Drop> From<AllocFailed<T>> for LexFault {
    ghost from_gives = { λ _ e. e ≡ Memory };

    fn from(_e: AllocFailed<T>) -> LexFault {
        LexFault::Memory
    }
}
