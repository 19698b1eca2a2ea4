//! The text of values of JSON, without blanks. The lists and objects around the part that is being
//! written are on a stack of its own, so that only memory limits how deep they nest.
ghost use Rattle.std.specs.Prelude.{◌≡◌, ◌++◌, IfOk, OnOk, decimal};
ghost use Rattle.std.specs.Fmt.{signed_decimal};
ghost use Rattle.gql_numbers.specs.Doubles.{double_text};
ghost use Rattle.serde_json.specs.View.{items_view, members_view, number_view, view};
ghost use Rattle.serde_json.specs.Written.{comma_if};
ghost use Rattle.gql_steps.specs.JsonText.{items_text, json_text, members_text, number_text};
ghost use Rattle.gql_steps.specs.WriteFrames.{inner_text, rest_text, step_text};

use crate::strings::write_string;
use gql_numbers::write_double;
use serde_json::{Number, Value};
use std::alloc::AllocError;
use std::collections::btree_map::Iter;

/// The rest of a list or an object, a part of which is being written.
#[derive(Drop)]
pub enum TextFrame<'v> {
    /// The items of a list after that part.
    Items(&'v [Value]),
    /// The members of an object after that part.
    Members(Iter<'v, String, Value>),
}

/// What a list or an object has come to.
#[derive(Drop)]
pub enum TextStep<'v> {
    /// It is written.
    Written,
    /// The first one waits for the second one, which is within it and is begun.
    Within(TextFrame<'v>, TextFrame<'v>),
}

/// Writes an integer.
pub fn write_integer(number: i64, out: &mut Vec<u8>) -> Result<(), AllocError>
    ensures { OnOk result (out.new.items ≡ out.old.items ++ signed_decimal number) }
{
    let mut buffer = itoa::Buffer::new();
    out.extend_from_slice(buffer.format(number).as_bytes())?;
    Ok(())
}

/// Writes a number without sign.
pub fn write_unsigned(number: u64, out: &mut Vec<u8>) -> Result<(), AllocError>
    ensures { OnOk result (out.new.items ≡ out.old.items ++ decimal number) }
{
    let mut buffer = itoa::Buffer::new();
    out.extend_from_slice(buffer.format(number).as_bytes())?;
    Ok(())
}

/// Writes a double. One that is not finite has no text; no number of JSON is such a one.
#[tactic(auto, using(crate::proofs::Writing::no_double))]
fn write_real(x: f64, out: &mut Vec<u8>) -> Result<(), AllocError>
    ensures { OnOk result (out.new.items ≡ out.old.items ++ double_text x) }
{
    if !x.is_finite() {
        return Ok(());
    }
    let alloc = *out.allocator();
    write_double(alloc, x, out)
}

/// Writes a number: an integer, or a double.
#[tactic(auto, using(crate::proofs::Writing::real_text))]
fn write_number(number: &Number, out: &mut Vec<u8>) -> Result<(), AllocError>
    ensures { OnOk result (out.new.items ≡ out.old.items ++ number_text (number_view number.now)) }
{
    if let Some(number) = number.as_u64() {
        return write_unsigned(number, out);
    }
    if let Some(number) = number.as_i64() {
        return write_integer(number, out);
    }
    match number.as_f64() {
        Some(x) => write_real(x, out),
        None => Ok(()),
    }
}

/// Writes a comma, if something comes before.
fn write_comma(later: bool, out: &mut Vec<u8>) -> Result<(), AllocError>
    ensures { OnOk result (out.new.items ≡ out.old.items ++ comma_if later) }
{
    if later {
        out.push(b',')?;
    }
    Ok(())
}

/// Writes a value, or the opening bracket of a list or an object.
fn begin_value<'v>(value: &'v Value, out: &mut Vec<u8>) -> Result<Option<TextFrame<'v>>, AllocError>
    ensures { IfOk result (λ inner. out.new.items ++ inner_text inner
        ≡ out.old.items ++ json_text (view value.now)) }
{
    match value {
        Value::Null => out.extend_from_slice(b"null")?,
        Value::Bool(true) => out.extend_from_slice(b"true")?,
        Value::Bool(false) => out.extend_from_slice(b"false")?,
        Value::Number(number) => write_number(number, out)?,
        Value::String(text) => write_string(text.as_str(), out)?,
        Value::Array(items) => {
            out.push(b'[')?;
            return Ok(Some(TextFrame::Items(items.as_slice())));
        }
        Value::Object(members) => {
            out.push(b'{')?;
            return Ok(Some(TextFrame::Members(members.iter())));
        }
    }
    Ok(None)
}

/// Writes items of a list up to one that is a list or an object, or all of them and the closing
/// bracket.
fn write_items<'v>(
    items: &'v [Value],
    later: bool,
    out: &mut Vec<u8>,
) -> Result<TextStep<'v>, AllocError>
    ensures { IfOk result (λ step. out.new.items ++ step_text step
        ≡ out.old.items ++ items_text later (items_view items.now)) }
{
    let mut rest = items;
    let mut later = later;
    while let Some((item, after)) = rest.split_first() {
        rest = after;
        write_comma(later, out)?;
        if let Some(inner) = begin_value(item, out)? {
            return Ok(TextStep::Within(TextFrame::Items(rest), inner));
        }
        later = true;
    }
    out.push(b']')?;
    Ok(TextStep::Written)
}

/// Writes members of an object up to one that is a list or an object, or all of them and the
/// closing bracket.
fn write_members<'v>(
    members: Iter<'v, String, Value>,
    later: bool,
    out: &mut Vec<u8>,
) -> Result<TextStep<'v>, AllocError>
    ensures { IfOk result (λ step. out.new.items ++ step_text step
        ≡ out.old.items ++ members_text later (members_view members.entry)) }
{
    let mut rest = members;
    let mut later = later;
    while let Some((key, member)) = rest.next() {
        write_comma(later, out)?;
        write_string(key.as_str(), out)?;
        out.push(b':')?;
        if let Some(inner) = begin_value(member, out)? {
            return Ok(TextStep::Within(TextFrame::Members(rest), inner));
        }
        later = true;
    }
    out.push(b'}')?;
    Ok(TextStep::Written)
}

/// Goes on with a list or an object, by whether something of it comes before.
fn write_rest<'v>(
    frame: TextFrame<'v>,
    later: bool,
    out: &mut Vec<u8>,
) -> Result<TextStep<'v>, AllocError>
    ensures { IfOk result (λ step. out.new.items ++ step_text step
        ≡ out.old.items ++ rest_text later frame.entry) }
{
    match frame {
        TextFrame::Items(items) => write_items(items, later, out),
        TextFrame::Members(members) => write_members(members, later, out),
    }
}

/// Writes the text of a value, without blanks, to the end of the vector. It gives up after 2^64 - 1
/// steps, which no run reaches.
pub fn write_value(value: &Value, out: &mut Vec<u8>) -> Result<(), AllocError>
    ensures { OnOk result (out.new.items ≡ out.old.items ++ json_text (view value.now)) }
{
    let Some(inner) = begin_value(value, out)? else {
        return Ok(());
    };
    let mut stack = Vec::new(*out.allocator());
    let mut step = write_rest(inner, false, out)?;
    'steps: for _ in 0..u64::MAX {
        step = match step {
            TextStep::Within(outer, inner) => {
                stack.push(outer)?;
                write_rest(inner, false, out)?
            }
            TextStep::Written => match stack.pop() {
                Some(frame) => write_rest(frame, true, out)?,
                None => return Ok(()),
            },
        };
    }
    Err(AllocError)
}
