//! A text of parts, cut where it would be too long: whole parts as long as there is room, and then how
//! many faults and operations are left out.

ghost use Rattle.std.specs.Prelude.{◌≡◌, ◌++◌, ◌≤◌, IfOk, OnOk, count_by, drop, length, string_bytes};
ghost use Rattle.std.specs.List.{flat_map};
ghost use Rattle.gql_page.specs.Cut as spec;
ghost use Rattle.gql_page.specs.Cut.{IsCut};

use gql_render::phrases::write_count;
use gql_render::write::write_text;
use std::alloc::{AllocError, Global};

/// What a part tells of.
#[derive(Clone, Copy)]
pub enum Entry {
    /// The fault at this place of a list.
    Fault(usize),
    /// The operation at this place of a list.
    Operation(usize),
    /// Something else: a heading, or a cause.
    Other,
}

/// A part of a text: its own text, what has to follow where the whole ends after this part, and what it
/// tells of.
#[derive(Drop)]
pub struct Part {
    pub text: String,
    pub closing: &'static str,
    pub entry: Entry,
}

impl Part {
    ghost use Rattle.std.specs.Prelude.{◌≡◌};
    ghost use Rattle.gql_page.specs.Cut as spec;

    /// Whether the part tells of a fault.
    fn is_of_fault(&self) -> bool
        ensures { result ≡ spec.is_of_fault self.now }
    {
        matches!(self.entry, Entry::Fault(_))
    }

    /// Whether the part tells of an operation.
    fn is_of_operation(&self) -> bool
        ensures { result ≡ spec.is_of_operation self.now }
    {
        matches!(self.entry, Entry::Operation(_))
    }
}

/// The most bytes of a summary: GitHub refuses a comment of more characters.
pub const MOST_BYTES: usize = 65_536;

/// How many bytes at most say how much is left out.
const ROOM: usize = 100;

/// How many parts there is room for, where some are left out.
fn kept(parts: &[Part]) -> usize
    ensures { result ≤ length parts.now }
{
    let mut used = ROOM;
    let mut kept = 0;
    for (index, part) in parts.iter().enumerate() {
        used = used.saturating_add(part.text.len());
        if used.saturating_add(part.closing.len()) <= MOST_BYTES {
            kept = index + 1;
        }
    }
    kept
}

/// Writes the texts of parts.
fn write_parts(out: &mut String, parts: &[Part]) -> Result<(), AllocError>
    ensures { OnOk result (string_bytes out.new
        ≡ string_bytes out.old ++ flat_map spec.text_of parts.now) }
{
    for part in parts {
        write_text(out, part.text.as_str())?;
    }
    Ok(())
}

/// What has to follow where the whole ends after these parts.
pub fn closing(parts: &[Part]) -> &'static str
    ensures { result.now ≡ spec.closing parts.now }
{
    match parts.last() {
        Some(part) => part.closing,
        None => "",
    }
}

/// How many of the parts tell of a fault.
fn fault_count(parts: &[Part]) -> usize
    ensures { result ≡ count_by spec.is_of_fault parts.now }
{
    parts.iter().filter(|part| part.is_of_fault()).count()
}

/// How many of the parts tell of an operation.
fn operation_count(parts: &[Part]) -> usize
    ensures { result ≡ count_by spec.is_of_operation parts.now }
{
    parts.iter().filter(|part| part.is_of_operation()).count()
}

/// Writes how many faults and operations these parts tell of, which are left out.
#[tactic(auto, unfolding(crate::specs::Cut::left_text))]
fn write_left(out: &mut String, parts: &[Part]) -> Result<(), AllocError>
    ensures text { OnOk result (string_bytes out.new
        ≡ string_bytes out.old ++ spec.left_text parts.now) }
    ensures short { OnOk result (length (spec.left_text parts.now) ≤ 100) }
{
    write_text(out, "\nand ")?;
    write_count(out, fault_count(parts), "more fault")?;
    write_text(out, ", ")?;
    write_count(out, operation_count(parts), "more operation")?;
    write_text(out, "\n")
}

/// Writes what is said of the parts that are left out; nothing where there are none.
fn write_rest(out: &mut String, parts: &[Part]) -> Result<(), AllocError>
    ensures text { OnOk result (string_bytes out.new
        ≡ string_bytes out.old ++ spec.rest_text parts.now) }
    ensures short { OnOk result (length (spec.rest_text parts.now) ≤ 100) }
{
    if parts.is_empty() {
        return Ok(());
    }
    write_left(out, parts)
}

/// The text of these parts, cut after so many.
fn text_at(alloc: Global, parts: &[Part], count: usize) -> Result<String, AllocError>
    requires { count ≤ length parts.now }
    ensures text { IfOk result (λ text. string_bytes text ≡ spec.cut_text parts.now count) }
    ensures short { IfOk result (λ text. length (spec.rest_text (drop count parts.now)) ≤ 100) }
{
    let (front, back) = parts.split_at(count);
    let mut out = String::new(alloc);
    write_parts(&mut out, front)?;
    write_text(&mut out, closing(front))?;
    write_rest(&mut out, back)?;
    Ok(out)
}

/// The text of these parts, cut where it would have more bytes than a summary may have.
pub fn cut(alloc: Global, parts: &[Part]) -> Result<String, AllocError>
    ensures { IfOk result (λ text. IsCut parts.now (string_bytes text)) }
{
    let whole = text_at(alloc, parts, parts.len())?;
    if whole.len() <= MOST_BYTES {
        return Ok(whole);
    }
    let front = text_at(alloc, parts, kept(parts))?;
    if front.len() <= MOST_BYTES {
        return Ok(front);
    }
    let bare = text_at(alloc, parts, 0)?;
    Ok(bare)
}
