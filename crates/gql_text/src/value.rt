//! The value of a string token or of a block string token.

ghost use Rattle.std.specs.Prelude.{◌≡◌, ◌+◌, ◌-◌, ◌*◌, ◌^◌, ◌<◌, ◌≤◌, ◌++◌, ◌==◌, not, true, length, take, drop, codes, IfOk, IsTrue, string_bytes};
ghost use Rattle.std.specs.List.{prefix_len};
ghost use Rattle.std.specs.Str.{IsUtf8, IsCharBoundary};
ghost use Rattle.gql_text.specs.Pieces.{escape_piece};
ghost use Rattle.gql_text.specs.Values.{letter_value, number_value, escape_value, string_value, is_within, between, text_value};
ghost use Rattle.gql_text.specs.Escapes.{goes, StartsEscape};

use crate::block::block_value;
use crate::front::Piece;
use crate::pieces::{escape, hexadecimal, is_high_half, number_ahead};
use crate::token::Token;
use std::alloc::{AllocError, Global};

/// The character of an escape of one letter.
fn letter(byte: u8) -> u32
    ensures value { result ≡ letter_value byte }
{
    match byte {
        b'b' => 8,
        b'f' => 12,
        b'n' => 10,
        b'r' => 13,
        b't' => 9,
        _ => u32::from(byte),
    }
}

/// The character of an escape `\u` of this number, with the bytes after its digits.
fn numbered_character(number: u32, behind: &[u8]) -> u32
    requires { number < 2 ^ 21 }
    ensures { result ≡ number_value number behind.now }
{
    if is_high_half(number) {
        0x1_0000 + (number - 0xD800) * 0x400 + number_ahead(behind).saturating_sub(0xDC00)
    } else {
        number
    }
}

/// The number of the character of an escape, from the bytes after its backslash.
#[tactic(auto, unfolding(crate::specs::Values::escape_value))]
fn escape_number(bytes: &[u8]) -> u32
    ensures { result ≡ escape_value bytes.now }
{
    let Some((first, behind)) = bytes.split_first() else {
        return 0;
    };
    if *first == b'u' {
        match hexadecimal(behind) {
            Some(number) => numbered_character(number, &behind[4..]),
            None => 0,
        }
    } else {
        letter(*first)
    }
}

/// The character of an escape, from the bytes after its backslash.
fn escape_character(bytes: &[u8]) -> char
    requires { IsTrue (goes (escape_piece bytes.now)) }
    ensures { result ≡ escape_value bytes.now }
{
    char::from_u32(escape_number(bytes)).unwrap()
}

/// How many bytes there are before the first backslash.
pub fn plain_len(text: &str) -> usize
    ensures value { result ≡ prefix_len (λ b. not (b == 92)) text.now }
    ensures cut { IsCharBoundary text.now result }
{
    text.as_bytes()
        .iter()
        .take_while(|byte| **byte != b'\\')
        .count()
}

/// Writes the character of the escape at the front, and returns what follows the escape.
fn push_escape<'a>(value: &mut String, text: &'a str) -> Result<&'a str, AllocError>
    requires { StartsEscape text.now }
    ensures value { IfOk result (λ rest.
        string_bytes value.new ++ string_value rest.now
        ≡ string_bytes value.old ++ string_value text.now) }
    ensures shorter { IfOk result (λ rest. length rest.now < length text.now) }
    ensures utf8 { IfOk result (λ rest. IsUtf8 rest.now) }
{
    let bytes = &text.as_bytes()[1..];
    match escape(bytes) {
        Piece::Goes(count) => {
            value.push(escape_character(bytes))?;
            Ok(&text[count..])
        }
        _ => Ok(&text[1..]),
    }
}

/// The value of what is between the quotes of a string.
fn unescaped(alloc: Global, text: &str) -> Result<String, AllocError>
    ensures { IfOk result (λ value. string_bytes value ≡ string_value text.now) }
{
    let mut value = String::new(alloc);
    let mut rest = text;
    'pieces: while !rest.is_empty() {
        let count = plain_len(rest);
        value.push_str(&rest[..count])?;
        rest = &rest[count..];
        if !rest.is_empty() {
            rest = push_escape(&mut value, rest)?;
        }
    }
    Ok(value)
}

/// Whether the text begins and ends with these quotes.
fn is_quoted(text: &[u8], quotes: &[u8]) -> bool
    requires { length quotes.now ≤ 3 }
    ensures { result ≡ is_within quotes.now text.now }
{
    2 * quotes.len() <= text.len() && text.starts_with(quotes) && text.ends_with(quotes)
}

/// What is between quotes of this many bytes.
fn inside(text: &str, quotes: usize) -> &str
    requires room { 2 * quotes ≤ length text.now }
    requires start { IsCharBoundary text.now quotes }
    requires end { IsCharBoundary text.now (length text.now - quotes) }
    ensures { result.now ≡ between quotes text.now }
{
    &text[quotes..text.len() - quotes]
}

/// The value of a token's text: of a string, its characters with the escapes replaced; of a block
/// string, its lines without their common indent (2.9.4). Any other text is its own value. The call
/// fails only if an allocation fails.
pub fn text_value(alloc: Global, token: &Token<'_>) -> Result<String, AllocError>
    ensures { IfOk result (λ value. string_bytes value ≡ text_value token.now.text.now) }
{
    let text = token.text;
    if is_quoted(text.as_bytes(), b"\"\"\"") {
        block_value(alloc, inside(text, 3))
    } else if is_quoted(text.as_bytes(), b"\"") {
        unescaped(alloc, inside(text, 1))
    } else {
        String::from_str(alloc, text)
    }
}
