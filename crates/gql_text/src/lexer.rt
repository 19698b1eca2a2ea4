//! The lexer: the tokens of a text, or its first fault.

ghost use Rattle.std.specs.Prelude.{◌≡◌, ◌≤◌, ◌<◌, ◌+◌, ◌-◌, map, length, take, drop, IfOk, IfErr};
ghost use Rattle.std.specs.List.{prefix_len};
ghost use Rattle.std.specs.Str.{IsCharBoundary};
ghost use Rattle.gql_text.specs.Chars.{is_blank};
ghost use Rattle.gql_text.specs.Place.{place_after};
ghost use Rattle.gql_text.specs.Lexeme.{lexeme};
ghost use Rattle.gql_text.specs.Lexis.{Stands, IsLexed, IsLexFault, text_limit};
ghost use Rattle.gql_text.specs.Parts.{Fits, CutsBehind, is_value};
ghost use Rattle.gql_text.specs.declared.front.Part.TheVariants.{Taken};

use crate::blanks::past_blanks;
use crate::ends::place_at_end;
use crate::front::{Part, first_part};
use crate::place::{Place, START, past, past_plain};
use crate::token::{Kind, LexFault, LexRefusal, Token};
use std::alloc::Global;

/// How many bytes a text may have, where nothing else is said.
pub const TEXT_LIMIT: usize = 65_536;

/// The list of tokens has room for a token in each so many bytes from the start, and grows if there
/// are more.
const BYTES_PER_TOKEN: usize = 4;

/// What is at an offset of the text.
fn part_at(source: &str, offset: usize) -> Part
    requires some { offset < length source.now }
    requires short { length source.now ≤ 16777216 }
    requires cut { IsCharBoundary source.now offset }
    ensures stands { Stands (drop offset source.now) result }
    ensures fits { Fits 0 (length source.now - offset) result }
    ensures cuts { CutsBehind source.now offset result }
{
    first_part(&source.as_bytes()[offset..])
}

/// The place after the next bytes.
fn past_part(source: &str, place: Place, count: usize) -> Place
    requires within { place.offset + count ≤ length source.now }
    requires short { length source.now ≤ 16777216 }
    requires known { place ≡ place_after (take place.offset source.now) }
    ensures value { result ≡ place_after (take (place.offset + count) source.now) }
    ensures moved { result.offset ≡ place.offset + count }
{
    past(source.as_bytes(), place, count)
}

/// Whether a token of this kind is a number or a text. Any other has only characters of one byte.
fn is_value(kind: Kind) -> bool
    ensures { result ≡ is_value kind }
{
    matches!(
        kind,
        Kind::IntValue | Kind::FloatValue | Kind::StringValue | Kind::BlockString
    )
}

/// The place after the token that is at this place.
fn past_token(source: &str, place: Place, kind: Kind, count: usize) -> Place
    requires within { place.offset + count ≤ length source.now }
    requires short { length source.now ≤ 16777216 }
    requires known { place ≡ place_after (take place.offset source.now) }
    requires token { Stands (drop place.offset source.now) (Taken kind count) }
    ensures value { result ≡ place_after (take (place.offset + count) source.now) }
    ensures moved { result.offset ≡ place.offset + count }
{
    if is_value(kind) {
        past_part(source, place, count)
    } else {
        past_plain(source.as_bytes(), place, count)
    }
}

/// The place after the blanks that are at this place.
fn after_blanks(source: &str, place: Place) -> Place
    requires short { length source.now ≤ 16777216 }
    requires known { place ≡ place_after (take place.offset source.now) }
    requires cut { IsCharBoundary source.now place.offset }
    ensures value { result ≡ place_after (take result.offset source.now) }
    ensures moved { result.offset
        ≡ place.offset + prefix_len is_blank (drop place.offset source.now) }
    ensures within { result.offset ≤ length source.now }
    ensures cut { IsCharBoundary source.now result.offset }
{
    past_blanks(source.as_bytes(), place)
}

/// The tokens of a text, in order, or its first fault, 101 to 106 (2.1); `Memory` if an allocation
/// fails. A text has at most 65,536 bytes. The tokens borrow it.
pub fn lex<'a>(alloc: Global, source: &'a str) -> Result<Vec<Token<'a>>, LexFault>
    ensures tokens { IfOk result (λ found. IsLexed text_limit source.now (map lexeme found.items)) }
    ensures fault { IfErr result (λ fault. IsLexFault text_limit source.now fault) }
{
    lex_within(alloc, source, TEXT_LIMIT)
}

/// The same for a text of at most so many bytes: a longer one has fault 106.
pub fn lex_within<'a>(
    alloc: Global,
    source: &'a str,
    limit: usize,
) -> Result<Vec<Token<'a>>, LexFault>
    requires { limit ≤ 16777216 }
    ensures tokens { IfOk result (λ found. IsLexed limit source.now (map lexeme found.items)) }
    ensures fault { IfErr result (λ fault. IsLexFault limit source.now fault) }
{
    let mut place = START;
    if source.len() > limit {
        return Err(LexFault::At {
            number: LexRefusal::TooLong,
            place,
        });
    }
    let Ok(mut tokens) = Vec::with_capacity(alloc, source.len() / BYTES_PER_TOKEN) else {
        return Err(LexFault::Memory);
    };
    'parts: while place.offset < source.len() {
        match part_at(source, place.offset) {
            Part::Dropped(count) => {
                let after = past_part(source, place, count);
                place = after_blanks(source, after);
            }
            Part::Taken(kind, count) => {
                let text = &source[place.offset..place.offset + count];
                let after = past_token(source, place, kind, count);
                tokens.push(Token { kind, text, place })?;
                place = after_blanks(source, after);
            }
            Part::Refused(number, count) => {
                let place = past_part(source, place, count);
                return Err(LexFault::At { number, place });
            }
        }
    }
    Ok(tokens)
}

/// The place after the whole text, where a text that ends too early is refused.
pub fn end_place(source: &str) -> Place
    requires { length source.now ≤ 16777216 }
    ensures { result ≡ place_after source.now }
{
    place_at_end(source.as_bytes())
}
