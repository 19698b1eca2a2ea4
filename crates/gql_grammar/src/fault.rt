//! Syntax faults: why a text is refused, and where.

ghost use Rattle.std.specs.Prelude.{◌≡◌};
ghost use Rattle.gql_grammar.specs.Files.{fault_of, number_of, refusal_of};

use gql_text::{LexFault, LexRefusal, Place};

/// Why a text is refused: by its lexer (101 to 106) or by the grammar.
#[derive(Clone, Copy, Debug, PartialEq, Eq)]
pub enum SyntaxRefusal {
    /// 101: neither a token nor anything ignored begins with this character, or it is not a source
    /// character.
    BadCharacter,
    /// 102: a number that is not finished, or that runs into a name, a digit or a dot.
    BadNumber,
    /// 103: a string that ends with its line or with the text, or a block string that ends with the
    /// text.
    UnfinishedText,
    /// 104: an escape that is not one of those of the specification.
    BadEscape,
    /// 105: an escape for one half of a surrogate pair, without the other.
    LoneSurrogate,
    /// 106: the text has more than 65,536 bytes.
    TooLong,
    /// 111: a token that cannot appear where it does, or a text that ends early.
    Unexpected,
    /// 112: the brace or bracket that would be the 101st open at one time.
    TooDeep,
}

impl SyntaxRefusal {
    /// The number that users see: 101 to 106, 111, 112.
    pub fn number(self) -> u16
        ensures { result ≡ number_of self }
    {
        match self {
            SyntaxRefusal::BadCharacter => 101,
            SyntaxRefusal::BadNumber => 102,
            SyntaxRefusal::UnfinishedText => 103,
            SyntaxRefusal::BadEscape => 104,
            SyntaxRefusal::LoneSurrogate => 105,
            SyntaxRefusal::TooLong => 106,
            SyntaxRefusal::Unexpected => 111,
            SyntaxRefusal::TooDeep => 112,
        }
    }

    /// The lexer's refusal, with the same number.
    pub fn of(refusal: LexRefusal) -> SyntaxRefusal
        ensures { result ≡ refusal_of refusal }
    {
        match refusal {
            LexRefusal::BadCharacter => SyntaxRefusal::BadCharacter,
            LexRefusal::BadNumber => SyntaxRefusal::BadNumber,
            LexRefusal::UnfinishedText => SyntaxRefusal::UnfinishedText,
            LexRefusal::BadEscape => SyntaxRefusal::BadEscape,
            LexRefusal::LoneSurrogate => SyntaxRefusal::LoneSurrogate,
            LexRefusal::TooLong => SyntaxRefusal::TooLong,
        }
    }
}

/// Why a text has no tree, and where; or an allocation failed.
#[derive(Clone, Copy, Debug, PartialEq, Eq)]
pub enum SyntaxFault {
    At { number: SyntaxRefusal, place: Place },
    Memory,
}

impl SyntaxFault {
    /// The lexer's fault, as a fault of the text.
    pub fn of(fault: LexFault) -> SyntaxFault
        ensures { result ≡ fault_of fault }
    {
        match fault {
            LexFault::At { number, place } => SyntaxFault::At {
                number: SyntaxRefusal::of(number),
                place,
            },
            LexFault::Memory => SyntaxFault::Memory,
        }
    }
}
