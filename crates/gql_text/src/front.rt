//! What is at the front of a text, or of the rest of a string: a token, ignored bytes, or a
//! refusal.

ghost use Rattle.std.specs.Prelude.{◌≡◌, ◌+◌, ◌<◌, ◌≤◌, ◌∷◌, IsTrue, None, false, length, drop};
ghost use Rattle.std.specs.List.{prefix_len};
ghost use Rattle.gql_text.specs.Chars.{is_name_start, is_name_byte, is_source_byte, is_blank};
ghost use Rattle.gql_text.specs.Marks.{mark_kind, dots_part, order_part, comment_part, plain_part};
ghost use Rattle.gql_text.specs.Lexis.{Stands};
ghost use Rattle.gql_text.specs.Tables.{name_class, is_table};

use crate::number::number;
use crate::pieces::{block_part, is_three_quotes, string_part};
use crate::token::{Kind, LexRefusal};

/// What is at the front of a text.
#[derive(Clone, Copy, Debug, PartialEq, Eq)]
pub enum Part {
    /// This many ignored bytes.
    Dropped(usize),
    /// A token of this many bytes.
    Taken(Kind, usize),
    /// A refusal, whose place is this many bytes ahead.
    Refused(LexRefusal, usize),
}

/// What is at the front of the rest of a string or of a block string.
#[derive(Clone, Copy, Debug, PartialEq, Eq)]
pub enum Piece {
    /// Its closing quotes, of this many bytes.
    Closes(usize),
    /// This many bytes that belong to it.
    Goes(usize),
    Stops(LexRefusal),
}

/// For each byte, 32 in a row: 2 if a name starts with it, 1 if it only continues a name, else 0.
static NAME_BYTES: [u8; 256] = [
    0, 0, 0, 0, 0, 0, 0, 0, 0, 0, 0, 0, 0, 0, 0, 0, 0, 0, 0, 0, 0, 0, 0, 0, 0, 0, 0, 0, 0, 0, 0, 0,
    0, 0, 0, 0, 0, 0, 0, 0, 0, 0, 0, 0, 0, 0, 0, 0, 1, 1, 1, 1, 1, 1, 1, 1, 1, 1, 0, 0, 0, 0, 0, 0,
    0, 2, 2, 2, 2, 2, 2, 2, 2, 2, 2, 2, 2, 2, 2, 2, 2, 2, 2, 2, 2, 2, 2, 2, 2, 2, 2, 0, 0, 0, 0, 2,
    0, 2, 2, 2, 2, 2, 2, 2, 2, 2, 2, 2, 2, 2, 2, 2, 2, 2, 2, 2, 2, 2, 2, 2, 2, 2, 2, 0, 0, 0, 0, 0,
    0, 0, 0, 0, 0, 0, 0, 0, 0, 0, 0, 0, 0, 0, 0, 0, 0, 0, 0, 0, 0, 0, 0, 0, 0, 0, 0, 0, 0, 0, 0, 0,
    0, 0, 0, 0, 0, 0, 0, 0, 0, 0, 0, 0, 0, 0, 0, 0, 0, 0, 0, 0, 0, 0, 0, 0, 0, 0, 0, 0, 0, 0, 0, 0,
    0, 0, 0, 0, 0, 0, 0, 0, 0, 0, 0, 0, 0, 0, 0, 0, 0, 0, 0, 0, 0, 0, 0, 0, 0, 0, 0, 0, 0, 0, 0, 0,
    0, 0, 0, 0, 0, 0, 0, 0, 0, 0, 0, 0, 0, 0, 0, 0, 0, 0, 0, 0, 0, 0, 0, 0, 0, 0, 0, 0, 0, 0, 0, 0,
];

/// The entry for this byte in the table of the bytes of names.
fn class_in(table: &[u8], byte: u8) -> u8
    requires long { length table.now ≡ 256 }
    requires names { IsTrue (is_table name_class 0 table.now) }
    ensures { result ≡ name_class byte }
{
    table[usize::from(byte)]
}

/// Whether a name starts with this byte.
fn starts_name(byte: u8) -> bool
    ensures { result ≡ is_name_start byte }
{
    class_in(&NAME_BYTES, byte) == 2
}

/// Whether a name goes on with this byte.
pub fn continues_name(byte: u8) -> bool
    ensures { result ≡ is_name_byte byte }
{
    class_in(&NAME_BYTES, byte) != 0
}

/// Whether this byte is a blank: a tab, a space, a line end or a comma.
pub fn is_ignored(byte: u8) -> bool
    ensures { result ≡ is_blank byte }
{
    byte == b'\t' || byte == b' ' || byte == b'\n' || byte == b'\r' || byte == b','
}

fn name_len(bytes: &[u8]) -> usize
    ensures value { result ≡ prefix_len is_name_byte bytes.now }
    ensures short { result ≤ length bytes.now }
{
    bytes
        .iter()
        .take_while(|byte| continues_name(**byte))
        .count()
}

fn line_len(bytes: &[u8]) -> usize
    ensures value { result ≡ prefix_len is_source_byte bytes.now }
    ensures short { result ≤ length bytes.now }
{
    bytes
        .iter()
        .take_while(|byte| **byte == b'\t' || **byte >= 32)
        .count()
}

/// A comment of this many bytes, which ends at the end of its line.
fn comment(len: usize, rest: &[u8]) -> Part
    ensures { result ≡ comment_part len rest.now }
{
    match rest {
        [b'\n' | b'\r', ..] | [] => Part::Dropped(len),
        _ => Part::Refused(LexRefusal::BadCharacter, len),
    }
}

/// The punctuator of three dots, from the bytes after its first dot.
fn dots(behind: &[u8]) -> Part
    ensures { result ≡ dots_part behind.now }
{
    match behind {
        [b'.', b'.', ..] => Part::Taken(Kind::Ellipsis, 3),
        _ => Part::Refused(LexRefusal::BadCharacter, 0),
    }
}

/// The byte order mark U+FEFF, from the bytes after its first.
fn order_mark(behind: &[u8]) -> Part
    ensures { result ≡ order_part behind.now }
{
    match behind {
        [187, 191, ..] => Part::Dropped(3),
        _ => Part::Refused(LexRefusal::BadCharacter, 0),
    }
}

/// The punctuator that is this byte.
fn punctuator(byte: u8) -> Option<Kind>
    ensures { result ≡ mark_kind byte }
{
    match byte {
        b'!' => Some(Kind::Bang),
        b'$' => Some(Kind::Dollar),
        b'&' => Some(Kind::Ampersand),
        b'(' => Some(Kind::LeftParenthesis),
        b')' => Some(Kind::RightParenthesis),
        b':' => Some(Kind::Colon),
        b'=' => Some(Kind::Equals),
        b'@' => Some(Kind::At),
        b'[' => Some(Kind::LeftBracket),
        b']' => Some(Kind::RightBracket),
        b'{' => Some(Kind::LeftBrace),
        b'|' => Some(Kind::Pipe),
        b'}' => Some(Kind::RightBrace),
        _ => None,
    }
}

/// What is at the front of a text that begins with this byte, which is not a quote, and with which
/// neither a name nor a punctuator of one byte begins.
#[tactic(auto, unfolding(crate::specs::Marks::plain_part))]
fn plain(first: u8, bytes: &[u8], behind: &[u8]) -> Part
    requires whole { bytes.now ≡ first ∷ behind.now }
    requires short { length bytes.now ≤ 16777216 }
    requires name { is_name_start first ≡ false }
    requires mark { mark_kind first ≡ None }
    ensures { result ≡ plain_part first behind.now }
{
    match first {
        b'\t' | b' ' | b'\n' | b'\r' | b',' => Part::Dropped(1),
        b'0'..=b'9' => number(0, bytes),
        b'-' => number(1, behind),
        b'#' => {
            let count = line_len(behind);
            comment(1 + count, &behind[count..])
        }
        b'.' => dots(behind),
        239 => order_mark(behind),
        _ => Part::Refused(LexRefusal::BadCharacter, 0),
    }
}

/// What is at the front of a text that begins with this byte, with which neither a name nor a
/// punctuator of one byte begins.
fn other_part(first: u8, bytes: &[u8], behind: &[u8]) -> Part
    requires whole { bytes.now ≡ first ∷ behind.now }
    requires short { length bytes.now ≤ 16777216 }
    requires name { is_name_start first ≡ false }
    requires mark { mark_kind first ≡ None }
    ensures { Stands bytes.now result }
{
    if first != b'"' {
        plain(first, bytes, behind)
    } else if is_three_quotes(bytes) {
        block_part(&bytes[3..])
    } else {
        string_part(behind)
    }
}

/// What is at the front of a text. Names and punctuators, the most frequent, come first.
pub fn first_part(bytes: &[u8]) -> Part
    requires some { 0 < length bytes.now }
    requires short { length bytes.now ≤ 16777216 }
    ensures { Stands bytes.now result }
{
    let (first, behind) = bytes.split_first().unwrap();
    if starts_name(*first) {
        return Part::Taken(Kind::Name, 1 + name_len(behind));
    }
    match punctuator(*first) {
        Some(kind) => Part::Taken(kind, 1),
        None => other_part(*first, bytes, behind),
    }
}
