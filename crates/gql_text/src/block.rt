//! The value of a block string (GraphQL specification, 2.9.4).

ghost use Rattle.std.specs.Prelude.{◌≡◌, ◌+◌, ◌-◌, ◌<◌, ◌≤◌, ◌++◌, ◌==◌, not, List, ℕ, length, drop, map, min, reverse, Option, IfOk, string_bytes, unwrap_or};
ghost use Rattle.std.specs.List.{prefix_len, join_with_byte};
ghost use Rattle.std.specs.Str.{IsUtf8, IsCharBoundary};
ghost use Rattle.gql_text.specs.Chars.{is_break};
ghost use Rattle.gql_text.specs.Values.{raw_value, lines_of, is_white, indent_of, is_blank_line, least, common_indent, without_indent, without_common_indent, from_first, up_to_last, indent_of_text, block_value};
ghost use Rattle.gql_text.specs.Escapes.{StartsEscape, BreaksLine, begins_pair, break_len};

use crate::pieces::is_three_quotes;
use crate::value::plain_len;
use std::alloc::{AllocError, Global};

/// Leaves out the backslash at the front if three quotes follow it, and returns what follows the
/// backslash.
fn push_backslash<'a>(value: &mut String, text: &'a str) -> Result<&'a str, AllocError>
    requires { StartsEscape text.now }
    ensures value { IfOk result (λ rest.
        string_bytes value.new ++ raw_value rest.now
        ≡ string_bytes value.old ++ raw_value text.now) }
    ensures shorter { IfOk result (λ rest. length rest.now < length text.now) }
    ensures utf8 { IfOk result (λ rest. IsUtf8 rest.now) }
{
    let behind = &text[1..];
    if is_three_quotes(behind.as_bytes()) {
        return Ok(behind);
    }
    value.push('\\')?;
    Ok(behind)
}

/// What is between the quotes of a block string, with its escapes replaced.
fn raw(alloc: Global, text: &str) -> Result<String, AllocError>
    ensures { IfOk result (λ value. string_bytes value ≡ raw_value text.now) }
{
    let mut value = String::new(alloc);
    let mut rest = text;
    'pieces: while !rest.is_empty() {
        let count = plain_len(rest);
        value.push_str(&rest[..count])?;
        rest = &rest[count..];
        if !rest.is_empty() {
            rest = push_backslash(&mut value, rest)?;
        }
    }
    Ok(value)
}

/// How many bytes the first line has.
fn line_len(text: &str) -> usize
    ensures value { result ≡ prefix_len (λ b. not (is_break b)) text.now }
    ensures cut { IsCharBoundary text.now result }
{
    text.as_bytes()
        .iter()
        .take_while(|byte| **byte != b'\n' && **byte != b'\r')
        .count()
}

/// Whether CRLF is at the front.
fn is_pair(bytes: &[u8]) -> bool
    ensures { result ≡ begins_pair bytes.now }
{
    matches!(bytes, [b'\r', b'\n', ..])
}

/// What follows the line end at the front.
fn past_break(text: &str) -> &str
    requires { BreaksLine text.now }
    ensures value { result.now ≡ drop (break_len text.now) text.now }
    ensures utf8 { IsUtf8 result.now }
    ensures shorter { length result.now < length text.now }
{
    if is_pair(text.as_bytes()) {
        &text[2..]
    } else {
        &text[1..]
    }
}

/// The lines of a text.
fn lines<'a>(alloc: Global, text: &'a str) -> Result<Vec<&'a str>, AllocError>
    ensures { IfOk result (λ found. map (λ x. x.now) found.items ≡ lines_of text.now) }
{
    let mut found = Vec::new(alloc);
    let mut rest = text;
    'lines: loop {
        let count = line_len(rest);
        found.push(&rest[..count])?;
        let behind = &rest[count..];
        if behind.is_empty() {
            return Ok(found);
        }
        rest = past_break(behind);
    }
}

/// How many tabs and spaces a line begins with.
fn indent_len(line: &str) -> usize
    ensures value { result ≡ indent_of line.now }
    ensures short { result ≤ length line.now }
{
    line.as_bytes()
        .iter()
        .take_while(|byte| **byte == b'\t' || **byte == b' ')
        .count()
}

/// Whether a line has nothing but tabs and spaces.
fn is_blank(line: &str) -> bool
    ensures { result ≡ is_blank_line line.now }
{
    indent_len(line) == line.len()
}

/// How many tabs and spaces a line begins with, unless it is blank.
fn text_indent(line: &str) -> Option<usize>
    ensures { result ≡ indent_of_text line.now }
{
    if is_blank(line) {
        None
    } else {
        Some(indent_len(line))
    }
}

fn least_count(first: Option<usize>, second: Option<usize>) -> Option<usize>
    ensures { result ≡ least first second }
{
    match (first, second) {
        (None, _) => second,
        (_, None) => first,
        (Some(m), Some(n)) => Some(m.min(n)),
    }
}

/// The least indent of the lines that aren't blank.
fn shared_indent(lines: &[&str]) -> Option<usize>
    ensures { result ≡ common_indent (map (λ x. x.now) lines.now) }
{
    let mut count = None;
    for line in lines {
        count = least_count(count, text_indent(line));
    }
    count
}

/// A line without its first tabs and spaces, at most this many.
fn cut(line: &str, count: usize) -> &str
    ensures { result.now ≡ without_indent count line.now }
{
    &line[count.min(indent_len(line))..]
}

/// The lines without the common indent of all but the first.
#[tactic(auto, unfolding(crate::specs::Values::without_common_indent))]
fn cut_lines<'a>(alloc: Global, lines: &[&'a str]) -> Result<Vec<&'a str>, AllocError>
    ensures { IfOk result (λ found.
        map (λ x. x.now) found.items ≡ without_common_indent (map (λ x. x.now) lines.now)) }
{
    let mut found = Vec::new(alloc);
    let Some((first, others)) = lines.split_first() else {
        return Ok(found);
    };
    found.push(*first)?;
    let count = shared_indent(others).unwrap_or(0);
    for line in others {
        found.push(cut(line, count))?;
    }
    Ok(found)
}

/// How many lines at the start are blank.
fn leading_blank(lines: &[&str]) -> usize
    ensures value { result ≡ prefix_len (λ line. is_blank_line line.now) lines.now }
    ensures short { result ≤ length lines.now }
{
    lines.iter().take_while(|line| is_blank(line)).count()
}

/// How many lines at the end are blank.
fn trailing_blank(lines: &[&str]) -> usize
    ensures value { result ≡ prefix_len (λ line. is_blank_line line.now) (reverse lines.now) }
    ensures short { result ≤ length lines.now }
{
    lines.iter().rev().take_while(|line| is_blank(line)).count()
}

/// The lines from the first that isn't blank to the last.
fn trimmed<'a, 'b>(lines: &'a [&'b str]) -> &'a [&'b str]
    ensures { map (λ x. x.now) result.now ≡ up_to_last (from_first (map (λ x. x.now) lines.now)) }
{
    let lines = &lines[leading_blank(lines)..];
    &lines[..lines.len() - trailing_blank(lines)]
}

/// The lines with a line end between each two.
fn joined(alloc: Global, lines: &[&str]) -> Result<String, AllocError>
    ensures { IfOk result (λ text.
        string_bytes text ≡ join_with_byte 10 (map (λ x. x.now) lines.now)) }
{
    let mut text = String::new(alloc);
    let Some((first, others)) = lines.split_first() else {
        return Ok(text);
    };
    text.push_str(first)?;
    for line in others {
        text.push('\n')?;
        text.push_str(line)?;
    }
    Ok(text)
}

/// The value of what is between the quotes of a block string.
#[tactic(auto, unfolding(crate::specs::Values::block_value))]
pub fn block_value(alloc: Global, text: &str) -> Result<String, AllocError>
    ensures { IfOk result (λ value. string_bytes value ≡ block_value text.now) }
{
    let raw = raw(alloc, text)?;
    let lines = lines(alloc, raw.as_str())?;
    let cut = cut_lines(alloc, lines.as_slice())?;
    joined(alloc, trimmed(cut.as_slice()))
}
