//! The text of a literal (GraphQL specification, 2.9).
ghost use Rattle.std.specs.Prelude.{◌≡◌, ◌++◌, ◌<◌, false, map, flat_map, OnOk, IfOk};
ghost use Rattle.std.specs.Char.{digit_char};
ghost use Rattle.gql_ast.specs.LiteralTexts as spec;
ghost use Rattle.gql_ast.specs.LiteralTexts.{comma_list, literal_text};

use crate::literal::{Literal, ObjectField};
use std::alloc::{AllocError, Global};

/// A hexadecimal digit, in lower case.
const fn digit(n: u8) -> u8
    requires { n < 16 }
    ensures { result ≡ digit_char n }
{
    if n < 10 { b'0' + n } else { b'a' + (n - 10) }
}

/// Writes one byte of the value of a string, as it is between quotes.
#[tactic(auto, unfolding(crate::specs::LiteralTexts::escaped))]
fn write_byte(byte: u8, out: &mut Vec<u8>) -> Result<(), AllocError>
    ensures { OnOk result (out.new.items ≡ out.old.items ++ spec.escaped byte) }
{
    match byte {
        34 => out.extend_from_slice(b"\\\""),
        92 => out.extend_from_slice(b"\\\\"),
        8 => out.extend_from_slice(b"\\b"),
        9 => out.extend_from_slice(b"\\t"),
        10 => out.extend_from_slice(b"\\n"),
        12 => out.extend_from_slice(b"\\f"),
        13 => out.extend_from_slice(b"\\r"),
        0..=31 => out.extend_from_slice(&[92, 117, 48, 48, digit(byte / 16), digit(byte % 16)]),
        _ => {
            out.push(byte)?;
            Ok(())
        }
    }
}

/// Writes the value of a string, as it is between quotes.
fn write_escaped(bytes: &[u8], out: &mut Vec<u8>) -> Result<(), AllocError>
    ensures { OnOk result (out.new.items ≡ out.old.items ++ flat_map spec.escaped bytes.now) }
{
    for byte in bytes {
        write_byte(*byte, out)?;
    }
    Ok(())
}

/// Writes a string in quotes, with its escapes (2.9.4).
fn write_string(value: &str, out: &mut Vec<u8>) -> Result<(), AllocError>
    ensures { OnOk result (out.new.items ≡ out.old.items ++ spec.string_text value.now) }
{
    out.push(b'"')?;
    write_escaped(value.as_bytes(), out)?;
    out.push(b'"')?;
    Ok(())
}

/// Writes `, ` if a text comes before.
fn write_comma(later: bool, out: &mut Vec<u8>) -> Result<(), AllocError>
    ensures { OnOk result (out.new.items ≡ out.old.items ++ spec.comma_if later) }
{
    if later {
        out.extend_from_slice(b", ")?;
    }
    Ok(())
}

#[cycle(prints)]
fn write_items(items: &[Literal], out: &mut Vec<u8>) -> Result<(), AllocError>
    ensures { OnOk result (out.new.items
        ≡ out.old.items ++ comma_list false (map literal_text items.now)) }
{
    let mut later = false;
    for item in items {
        write_comma(later, out)?;
        write_literal(item, out)?;
        later = true;
    }
    Ok(())
}

#[cycle(prints)]
fn write_fields(fields: &[ObjectField], out: &mut Vec<u8>) -> Result<(), AllocError>
    ensures { OnOk result (out.new.items
        ≡ out.old.items ++ comma_list false (map spec.object_field_text fields.now)) }
{
    let mut later = false;
    for field in fields {
        write_comma(later, out)?;
        out.extend_from_slice(field.name.as_str().as_bytes())?;
        out.extend_from_slice(b": ")?;
        write_literal(&field.value, out)?;
        later = true;
    }
    Ok(())
}

/// Writes the text of a literal after what the vector holds.
#[cycle(prints)]
#[tactic(auto, using(crate::specs::LiteralTexts::text_variable, crate::specs::LiteralTexts::text_int, crate::specs::LiteralTexts::text_float, crate::specs::LiteralTexts::text_string, crate::specs::LiteralTexts::text_boolean, crate::specs::LiteralTexts::text_null, crate::specs::LiteralTexts::text_enum, crate::specs::LiteralTexts::text_list, crate::specs::LiteralTexts::text_object))]
fn write_literal(literal: &Literal, out: &mut Vec<u8>) -> Result<(), AllocError>
    ensures { OnOk result (out.new.items ≡ out.old.items ++ literal_text literal.now) }
{
    match literal {
        Literal::Variable { name, .. } => {
            out.push(b'$')?;
            out.extend_from_slice(name.as_str().as_bytes())?;
            Ok(())
        }
        Literal::Int { text, .. } => out.extend_from_slice(text.as_str().as_bytes()),
        Literal::Float { text, .. } => out.extend_from_slice(text.as_str().as_bytes()),
        Literal::String { value, .. } => write_string(value.as_str(), out),
        Literal::Boolean { value: true, .. } => out.extend_from_slice(b"true"),
        Literal::Boolean { value: false, .. } => out.extend_from_slice(b"false"),
        Literal::Null { .. } => out.extend_from_slice(b"null"),
        Literal::Enum { name, .. } => out.extend_from_slice(name.as_str().as_bytes()),
        Literal::List { items, .. } => {
            out.push(b'[')?;
            write_items(items.as_slice(), out)?;
            out.push(b']')?;
            Ok(())
        }
        Literal::Object { fields, .. } => {
            out.push(b'{')?;
            write_fields(fields.as_slice(), out)?;
            out.push(b'}')?;
            Ok(())
        }
    }
}

/// The text of a literal, in UTF-8: numbers and names as they are written, strings in quotes with
/// their escapes (a block string too, by its value), and lists and objects as `[1, 2]` and
/// `{a: 1, b: 2}` (GraphQL specification, 2.9).
pub fn print_literal(alloc: Global, literal: &Literal) -> Result<Vec<u8>, AllocError>
    ensures { IfOk result (λ text. text.items ≡ literal_text literal.now) }
{
    let mut text = Vec::new(alloc);
    write_literal(literal, &mut text)?;
    Ok(text)
}
