//! Texts within the texts of a format.

ghost use Rattle.std.specs.Prelude.{◌≡◌, ◌++◌, OnOk, string_bytes};
ghost use Rattle.gql_render.specs.Escapes as spec;

use crate::write::{write_text, write_texts};
use std::alloc::AllocError;

/// Writes the text that stands for a character, or the character itself if that text is empty.
pub fn write_escaped(out: &mut String, character: char, escape: &str) -> Result<(), AllocError>
    ensures { OnOk result (string_bytes out.new
        ≡ string_bytes out.old ++ spec.written character escape.now) }
{
    if escape.is_empty() {
        out.push(character)
    } else {
        write_text(out, escape)
    }
}

/// The text for a character in the text of an annotation of GitHub; empty for the character itself.
fn message_escape(character: char) -> &'static str
    ensures { result.now ≡ spec.message_escape character }
{
    match character {
        '%' => "%25",
        '\r' => "%0D",
        '\n' => "%0A",
        _ => "",
    }
}

/// Writes the text of an annotation of GitHub.
pub fn write_message(out: &mut String, text: &str) -> Result<(), AllocError>
    ensures { OnOk result (string_bytes out.new
        ≡ string_bytes out.old ++ spec.escaped spec.message_escape text.now) }
{
    write_in(out, text, Format::Message)
}

/// The text for a character in a property of an annotation of GitHub; empty for the character
/// itself.
fn property_escape(character: char) -> &'static str
    ensures { result.now ≡ spec.property_escape character }
{
    match character {
        ':' => "%3A",
        ',' => "%2C",
        other => message_escape(other),
    }
}

/// Writes a property of an annotation of GitHub.
pub fn write_property(out: &mut String, text: &str) -> Result<(), AllocError>
    ensures { OnOk result (string_bytes out.new
        ≡ string_bytes out.old ++ spec.escaped spec.property_escape text.now) }
{
    write_in(out, text, Format::Property)
}

/// The digits of hexadecimal numbers.
static HEX_DIGITS: [&str; 16] = [
    "0", "1", "2", "3", "4", "5", "6", "7", "8", "9", "A", "B", "C", "D", "E", "F",
];

/// Writes a byte as `%` and its two hexadecimal digits.
fn write_hex(out: &mut String, byte: u8) -> Result<(), AllocError> {
    let high = HEX_DIGITS[(byte / 16) as usize];
    let low = HEX_DIGITS[(byte % 16) as usize];
    write_texts(out, &["%", high, low])
}

/// Whether a byte is itself in a path of a URI: a letter, a digit, or one of `-._~/`.
fn is_plain_in_uri(byte: u8) -> bool {
    byte.is_ascii_alphanumeric() || matches!(byte, b'-' | b'.' | b'_' | b'~' | b'/')
}

/// Writes a path as a relative URI: other bytes than letters, digits and `-._~/` by `%` and their
/// number.
pub fn write_uri(out: &mut String, path: &str) -> Result<(), AllocError> {
    for byte in path.as_bytes() {
        if is_plain_in_uri(*byte) {
            out.push(char::from(*byte))?;
        } else {
            write_hex(out, *byte)?;
        }
    }
    Ok(())
}

/// The entity for a character in HTML; empty for the character itself.
pub fn html_entity(character: char) -> &'static str
    ensures { result.now ≡ spec.html_entity character }
{
    match character {
        '&' => "&amp;",
        '<' => "&lt;",
        '>' => "&gt;",
        '"' => "&quot;",
        '\'' => "&#39;",
        _ => "",
    }
}

/// Writes a text within HTML.
pub fn write_html(out: &mut String, text: &str) -> Result<(), AllocError>
    ensures { OnOk result (string_bytes out.new
        ≡ string_bytes out.old ++ spec.escaped spec.html_entity text.now) }
{
    write_in(out, text, Format::Html)
}

/// What stands for a character in Markdown that is markup there; else nothing.
fn markdown_entity(character: char) -> &'static str
    ensures { result.now ≡ spec.markdown_entity character }
{
    match character {
        '`' => "&#96;",
        '*' => "&#42;",
        '_' => "&#95;",
        '[' => "&#91;",
        ']' => "&#93;",
        '|' => "&#124;",
        '\\' => "&#92;",
        '~' => "&#126;",
        '\n' => "&#10;",
        '\r' => "&#13;",
        other => html_entity(other),
    }
}

/// Writes a text within Markdown: what is markup there is written as an entity.
pub fn write_markdown(out: &mut String, text: &str) -> Result<(), AllocError>
    ensures { OnOk result (string_bytes out.new
        ≡ string_bytes out.old ++ spec.escaped spec.markdown_entity text.now) }
{
    write_in(out, text, Format::Markdown)
}

/// A format, or a part of one, in which texts are written.
#[derive(Clone, Copy)]
enum Format {
    Message,
    Property,
    Html,
    Markdown,
}

/// What stands for a character in a format; empty for the character itself.
fn escape_in(format: Format, character: char) -> &'static str
    ensures { result.now ≡ spec.escape_in format character }
{
    match format {
        Format::Message => message_escape(character),
        Format::Property => property_escape(character),
        Format::Html => html_entity(character),
        Format::Markdown => markdown_entity(character),
    }
}

/// Writes a text within a format.
fn write_in(out: &mut String, text: &str, format: Format) -> Result<(), AllocError>
    ensures { OnOk result (string_bytes out.new
        ≡ string_bytes out.old ++ spec.escaped (spec.escape_in format) text.now) }
{
    for character in text.chars() {
        write_escaped(out, character, escape_in(format, character))?;
    }
    Ok(())
}
