//! The pieces of strings and block strings (GraphQL specification, 2.9.4).

ghost use Rattle.std.specs.Prelude.{◌≡◌, ◌+◌, ◌*◌, ◌<◌, ◌≤◌, ◌&&◌, IsTrue, IfSome, length};
ghost use Rattle.std.specs.List.{prefix_len};
ghost use Rattle.std.specs.Char.{is_ascii_hexdigit};
ghost use Rattle.gql_text.specs.Chars.{three_quotes, is_break};
ghost use Rattle.gql_text.specs.Pieces.{hex_value, four_digits, is_high, is_low, escaped_number, short_escape, number_piece, digits_piece, escape_piece, string_piece, block_piece};
ghost use Rattle.gql_text.specs.Lexis.{Run, refused_at};
ghost use Rattle.gql_text.specs.Parts.{is_simple};
ghost use Rattle.gql_text.specs.declared.token.Kind.TheVariants.{StringValue, BlockString};

use crate::front::{Part, Piece};
use crate::token::{Kind, LexRefusal};

/// Whether three quotes are at the front.
pub fn is_three_quotes(bytes: &[u8]) -> bool
    ensures { result ≡ three_quotes bytes.now }
{
    matches!(bytes, [b'"', b'"', b'"', ..])
}

fn ends_line(byte: u8) -> bool
    ensures { result ≡ is_break byte }
{
    byte == b'\n' || byte == b'\r'
}

/// The value of a hexadecimal digit.
fn digit_value(byte: u8) -> u32
    ensures value { result ≡ hex_value byte }
    ensures small { result < 256 }
{
    let byte = u32::from(byte);
    if byte >= 97 {
        byte - 87
    } else if byte >= 65 {
        byte - 55
    } else {
        byte.saturating_sub(48)
    }
}

/// Whether these four bytes are hexadecimal digits.
fn are_digits(a: u8, b: u8, c: u8, d: u8) -> bool
    ensures { result ≡
        (is_ascii_hexdigit a && is_ascii_hexdigit b && is_ascii_hexdigit c && is_ascii_hexdigit d) }
{
    a.is_ascii_hexdigit() && b.is_ascii_hexdigit() && c.is_ascii_hexdigit() && d.is_ascii_hexdigit()
}

/// The number of the four hexadecimal digits at the front.
#[tactic(auto, unfolding(crate::specs::Pieces::four_digits))]
pub fn hexadecimal(bytes: &[u8]) -> Option<u32>
    ensures value { result ≡ four_digits bytes.now }
    ensures long { IfSome result (λ _. 4 ≤ length bytes.now) }
{
    let [a, b, c, d, ..] = bytes else {
        return None;
    };
    if are_digits(*a, *b, *c, *d) {
        Some(
            digit_value(*a) * 4096 + digit_value(*b) * 256 + digit_value(*c) * 16 + digit_value(*d),
        )
    } else {
        None
    }
}

pub fn is_high_half(number: u32) -> bool
    ensures { result ≡ is_high number }
{
    0xD800 <= number && number < 0xDC00
}

pub fn is_low_half(number: u32) -> bool
    ensures { result ≡ is_low number }
{
    0xDC00 <= number && number < 0xE000
}

/// The number of the escape `\u` at the front, or 0 if there is none.
#[tactic(auto, unfolding(crate::specs::Pieces::escaped_number))]
pub fn number_ahead(bytes: &[u8]) -> u32
    ensures { result ≡ escaped_number bytes.now }
{
    match bytes {
        [b'\\', b'u', behind @ ..] => hexadecimal(behind).unwrap_or(0),
        _ => 0,
    }
}

fn hexadecimal_len(bytes: &[u8]) -> usize
    ensures value { result ≡ prefix_len is_ascii_hexdigit bytes.now }
    ensures short { result ≤ length bytes.now }
{
    bytes
        .iter()
        .take_while(|byte| byte.is_ascii_hexdigit())
        .count()
}

/// An escape with too few digits, with the bytes after them.
fn cut_escape(rest: &[u8]) -> Piece
    ensures { result ≡ short_escape rest.now }
{
    match rest {
        [b'\n' | b'\r', ..] | [] => Piece::Stops(LexRefusal::UnfinishedText),
        _ => Piece::Stops(LexRefusal::BadEscape),
    }
}

/// An escape `\u` of this number, with the bytes after its digits.
fn numbered(number: u32, behind: &[u8]) -> Piece
    ensures { result ≡ number_piece number behind.now }
{
    if is_high_half(number) {
        if is_low_half(number_ahead(behind)) {
            Piece::Goes(12)
        } else {
            Piece::Stops(LexRefusal::LoneSurrogate)
        }
    } else if is_low_half(number) {
        Piece::Stops(LexRefusal::LoneSurrogate)
    } else {
        Piece::Goes(6)
    }
}

/// What follows a backslash and a `u`.
fn digits(bytes: &[u8]) -> Piece
    ensures { result ≡ digits_piece (four_digits bytes.now) bytes.now }
{
    match hexadecimal(bytes) {
        Some(number) => numbered(number, &bytes[4..]),
        None => cut_escape(&bytes[hexadecimal_len(bytes)..]),
    }
}

/// What follows a backslash.
#[tactic(auto, unfolding(crate::specs::Pieces::escape_piece))]
pub fn escape(bytes: &[u8]) -> Piece
    ensures { result ≡ escape_piece bytes.now }
{
    let Some((first, behind)) = bytes.split_first() else {
        return Piece::Stops(LexRefusal::UnfinishedText);
    };
    match *first {
        b'\n' | b'\r' => Piece::Stops(LexRefusal::UnfinishedText),
        b'"' | b'\\' | b'/' | b'b' | b'f' | b'n' | b'r' | b't' => Piece::Goes(2),
        b'u' => digits(behind),
        _ => Piece::Stops(LexRefusal::BadEscape),
    }
}

/// Whether this byte is by itself a part of a string and of a block string: a tab or a byte that is
/// no control character, and neither a quote nor a backslash.
fn is_simple(byte: u8) -> bool
    ensures { result ≡ is_simple byte }
{
    byte >= 32 && byte != b'"' && byte != b'\\' || byte == b'\t'
}

/// How many bytes at the front are parts of a string by themselves.
fn simple_len(bytes: &[u8]) -> usize
    ensures value { result ≡ prefix_len is_simple bytes.now }
    ensures short { result ≤ length bytes.now }
{
    bytes.iter().take_while(|byte| is_simple(**byte)).count()
}

/// What is at the front of the rest of a string.
#[tactic(auto, unfolding(crate::specs::Pieces::string_piece))]
fn next_piece(bytes: &[u8]) -> Piece
    ensures { result ≡ string_piece bytes.now }
{
    let Some((first, behind)) = bytes.split_first() else {
        return Piece::Stops(LexRefusal::UnfinishedText);
    };
    match *first {
        b'\n' | b'\r' => Piece::Stops(LexRefusal::UnfinishedText),
        b'"' => Piece::Closes(1),
        b'\\' => escape(behind),
        b'\t' | 32.. => Piece::Goes(1),
        _ => Piece::Stops(LexRefusal::BadCharacter),
    }
}

/// What is at the front of the rest of a block string.
#[tactic(auto, unfolding(crate::specs::Pieces::block_piece))]
fn next_block_piece(bytes: &[u8]) -> Piece
    ensures { result ≡ block_piece bytes.now }
{
    let Some((first, behind)) = bytes.split_first() else {
        return Piece::Stops(LexRefusal::UnfinishedText);
    };
    if is_three_quotes(bytes) {
        Piece::Closes(3)
    } else if *first == b'\\' && is_three_quotes(behind) {
        Piece::Goes(4)
    } else if ends_line(*first) || *first == b'\t' || *first >= 32 {
        Piece::Goes(1)
    } else {
        Piece::Stops(LexRefusal::BadCharacter)
    }
}

/// Where a refusal is reported: at the opening quote for unfinished text, else at the piece.
fn refusal_offset(refusal: LexRefusal, read: usize) -> usize
    ensures { result ≡ refused_at refusal read }
{
    match refusal {
        LexRefusal::UnfinishedText => 0,
        _ => read,
    }
}

/// The string after its opening quote.
pub fn string_part(bytes: &[u8]) -> Part
    requires { length bytes.now ≤ 16777216 }
    ensures { Run string_piece StringValue 1 bytes.now result }
{
    let mut read = 0;
    'pieces: while read <= bytes.len() {
        read += simple_len(&bytes[read..]);
        match next_piece(&bytes[read..]) {
            Piece::Closes(count) => return Part::Taken(Kind::StringValue, 1 + read + count),
            Piece::Goes(count) => read += count,
            Piece::Stops(refusal) => {
                return Part::Refused(refusal, refusal_offset(refusal, 1 + read));
            }
        }
    }
    unreachable!()
}

/// The block string after its opening quotes.
pub fn block_part(bytes: &[u8]) -> Part
    requires { length bytes.now ≤ 16777216 }
    ensures { Run block_piece BlockString 3 bytes.now result }
{
    let mut read = 0;
    'pieces: while read <= bytes.len() {
        read += simple_len(&bytes[read..]);
        match next_block_piece(&bytes[read..]) {
            Piece::Closes(count) => return Part::Taken(Kind::BlockString, 3 + read + count),
            Piece::Goes(count) => read += count,
            Piece::Stops(refusal) => {
                return Part::Refused(refusal, refusal_offset(refusal, 3 + read));
            }
        }
    }
    unreachable!()
}
