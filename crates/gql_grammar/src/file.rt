//! Whole texts: the tokens that are read, and faults with their places.
ghost use Rattle.std.specs.Prelude.{◌≡◌, ◌≤◌, ◌<◌, ◌++◌, List, [], ◌∷◌, length, map, take};
ghost use Rattle.gql_text.specs.Lexeme.{Lexeme, lexeme};
ghost use Rattle.gql_grammar.specs.Levels.{depth, level, looked_at as the_looked_at, most_levels, shift};
ghost use lib.Dec.{leb};
ghost use Rattle.gql_grammar.specs.Files.{fault_by, last_place as the_last_place, placed as the_placed};

use crate::cursor::Cursor;
use crate::error::ParseError;
use crate::fault::{SyntaxFault, SyntaxRefusal};
use gql_text::{Kind, Place, Token};

/// How many `{` and `[` may be open at one time.
pub const MAX_LEVELS: usize = 100;

/// How many are open after a token of this kind.
fn shifted(level: usize, kind: Kind) -> usize
    requires { level ≤ 100 }
    ensures { result ≡ shift kind level }
{
    match kind {
        Kind::LeftBrace | Kind::LeftBracket => level + 1,
        Kind::RightBrace | Kind::RightBracket if level > 0 => level - 1,
        _ => level,
    }
}

/// How many of the tokens are read, and whether at most 100 levels are open at one time.
#[tactic(auto, using(crate::proofs::Levels::deep_none, crate::proofs::Levels::deep_here, crate::proofs::Levels::deep_later))]
fn look(tokens: &[Token<'_>]) -> (usize, bool)
    ensures within { result.0 ≤ length tokens.now }
    ensures value { map lexeme (take result.0 tokens.now) ≡ the_looked_at (map lexeme tokens.now) }
    ensures shallow { result.1 ≡ leb (depth (map lexeme tokens.now)) most_levels }
{
    let mut level = 0;
    'tokens: for i in 0..tokens.len() {
        level = shifted(level, tokens[i].kind);
        if level > MAX_LEVELS {
            return (i + 1, false);
        }
    }
    (tokens.len(), true)
}

/// How many of the tokens are read: all, or those up to and including the first that opens level
/// 101.
pub fn looked_at(tokens: &[Token<'_>]) -> usize
    ensures within { result ≤ length tokens.now }
    ensures value { map lexeme (take result tokens.now) ≡ the_looked_at (map lexeme tokens.now) }
{
    look(tokens).0
}

/// The place of the last token, or the end if there is none.
#[tactic(auto, using(crate::proofs::Cursors::place_back, crate::proofs::Cursors::place_end))]
fn last_place(tokens: &[Token<'_>], end: Place) -> Place
    ensures { result ≡ the_last_place end (map lexeme tokens.now) }
{
    let at = tokens.len().saturating_sub(1);
    if at < tokens.len() {
        tokens[at].place
    } else {
        end
    }
}

/// The fault of tokens, if those that are read end too early.
fn placed_at_end(tokens: &[Token<'_>], end: Place) -> SyntaxFault
    ensures { result ≡ fault_by end (map lexeme tokens.now) [] }
{
    let (count, shallow) = look(tokens);
    if shallow {
        return SyntaxFault::At {
            number: SyntaxRefusal::Unexpected,
            place: end,
        };
    }
    SyntaxFault::At {
        number: SyntaxRefusal::TooDeep,
        place: last_place(&tokens[..count], end),
    }
}

/// The fault of a text, from the error of reading its tokens up to the first that opens level 101.
/// The cursor that read them is at the token that cannot appear there, or at the end.
pub fn placed(
    error: ParseError,
    cursor: &Cursor<'_>,
    tokens: &[Token<'_>],
    end: Place,
) -> SyntaxFault
    ensures { result ≡ the_placed end (map lexeme tokens.now) cursor.now error }
{
    match (error, cursor.place()) {
        (ParseError::Memory, _) => SyntaxFault::Memory,
        (ParseError::Unexpected, Some(place)) => SyntaxFault::At {
            number: SyntaxRefusal::Unexpected,
            place,
        },
        (ParseError::Unexpected, None) => placed_at_end(tokens, end),
    }
}

/// The tokens that are read are all, or those up to and including the first that opens level 101.
pub fn levels_law()
    ensures front { (ts : List Lexeme) → (rest : List Lexeme) × (the_looked_at ts ++ rest ≡ ts) }
    ensures all { (ts : List Lexeme) → depth ts ≤ most_levels → the_looked_at ts ≡ ts }
    ensures over { (ts : List Lexeme) → most_levels < depth ts → level 0 (the_looked_at ts) ≡ 101 }
    ensures first { (ts before : List Lexeme) (t : Lexeme) → the_looked_at ts ≡ before ++ t ∷ []
        → depth before ≤ most_levels }
{}
