//! A check as a compiler prints it, for a terminal.

ghost use Rattle.std.specs.Prelude.{◌≡◌, ◌++◌, IfOk, OnOk, string_bytes};
ghost use Rattle.gql_render.specs.Phrases.{first_words};
ghost use Rattle.gql_render.specs.Plain as spec;
ghost use Rattle.gql_render.specs.Plain.{IsPlain};

use crate::caret::write_padding;
use crate::check::{Against, Check, shown};
use crate::phrases::{
    first_words, hidden, write_affected, write_counts, write_rule, write_sentence, write_spot,
};
use crate::write::{write_text, write_texts};
use gql_findings::{Affected, Finding, Findings, Source, Spot, label_at, line_at};
use std::alloc::{AllocError, Global};

/// The bytes that begin and end bold and red text; empty for no colours.
#[derive(Clone, Copy)]
struct Paint {
    bold: &'static str,
    red: &'static str,
    plain: &'static str,
}

fn paint_of(colours: bool) -> Paint {
    if colours {
        Paint {
            bold: "\x1b[1m",
            red: "\x1b[31m",
            plain: "\x1b[0m",
        }
    } else {
        Paint {
            bold: "",
            red: "",
            plain: "",
        }
    }
}

/// Writes the line of a place, and below it a caret at the place.
fn write_caret(
    out: &mut String,
    sources: &[Source],
    spot: &Spot,
    paint: Paint,
    indent: &str,
) -> Result<(), AllocError> {
    let line = line_at(sources, spot);
    if line.is_empty() {
        return Ok(());
    }
    write_texts(out, &[indent, "  ", line, "\n", indent, "  "])?;
    write_padding(out, line, spot.column)?;
    write_texts(out, &[paint.red, "^", paint.plain, "\n"])
}

/// Writes the first line of a fault.
fn write_head(
    out: &mut String,
    sources: &[Source],
    finding: &Finding,
    paint: Paint,
) -> Result<(), AllocError> {
    write_text(out, paint.bold)?;
    match finding.spots.first() {
        Some(spot) => write_spot(out, sources, spot)?,
        None => write_text(out, "schema")?,
    }
    write_text(out, ": ")?;
    write_rule(out, finding)?;
    write_texts(out, &[":", paint.plain, " "])?;
    write_sentence(out, finding)?;
    write_text(out, "\n")
}

/// Writes a place of a fault after the first.
fn write_other(
    out: &mut String,
    sources: &[Source],
    spot: &Spot,
    paint: Paint,
    indent: &str,
) -> Result<(), AllocError> {
    write_texts(out, &[indent, "  and "])?;
    write_spot(out, sources, spot)?;
    write_text(out, "\n")?;
    write_caret(out, sources, spot, paint, indent)
}

/// Writes a fault, each line after the indent.
fn write_finding(
    out: &mut String,
    sources: &[Source],
    finding: &Finding,
    paint: Paint,
    indent: &str,
) -> Result<(), AllocError> {
    write_text(out, indent)?;
    write_head(out, sources, finding, paint)?;
    let Some((first, others)) = finding.spots.as_slice().split_first() else {
        return Ok(());
    };
    write_caret(out, sources, first, paint, indent)?;
    for spot in others {
        write_other(out, sources, spot, paint, indent)?;
    }
    Ok(())
}

/// Writes the faults at these places.
fn write_findings(
    out: &mut String,
    findings: &Findings,
    places: &[usize],
    paint: Paint,
    indent: &str,
) -> Result<(), AllocError> {
    for place in places {
        if let Some(finding) = findings.findings.get(*place) {
            write_finding(out, findings.sources.as_slice(), finding, paint, indent)?;
        }
    }
    Ok(())
}

/// Writes an operation in a line of its own.
fn write_line(out: &mut String, sources: &[Source], affected: &Affected) -> Result<(), AllocError> {
    write_texts(out, &["  ", label_at(sources, &affected.spot), ": "])?;
    write_affected(out, affected)?;
    write_text(out, "\n")
}

/// Writes the operations at these places, after a heading; nothing where there are none.
fn write_operations(
    out: &mut String,
    findings: &Findings,
    places: &[usize],
    heading: &str,
) -> Result<(), AllocError> {
    if places.is_empty() {
        return Ok(());
    }
    write_text(out, heading)?;
    for place in places {
        if let Some(affected) = findings.affected.get(*place) {
            write_line(out, findings.sources.as_slice(), affected)?;
        }
    }
    Ok(())
}

/// Writes what a change mends, breaks and heals.
fn write_changes(
    out: &mut String,
    now: &Findings,
    base: &Against<'_>,
    paint: Paint,
) -> Result<(), AllocError> {
    let comparison = base.comparison;
    let mended = comparison.mended.as_slice();
    if !mended.is_empty() {
        write_text(out, "mended:\n")?;
        write_findings(out, base.findings, mended, paint, "  ")?;
    }
    let broken = comparison.broken.as_slice();
    write_operations(out, now, broken, "operations that this breaks:\n")?;
    let healed = comparison.healed.as_slice();
    write_operations(out, base.findings, healed, "operations that this heals:\n")
}

/// The faults that are shown.
fn faults_text(alloc: Global, check: &Check<'_>, paint: Paint) -> Result<String, AllocError> {
    let places = shown(alloc, check)?;
    let mut out = String::new(alloc);
    write_findings(&mut out, check.now, places.as_slice(), paint, "")?;
    Ok(out)
}

/// What comes after the counts: what the change does, and what a schema with faults hides.
fn rest_text(alloc: Global, check: &Check<'_>, paint: Paint) -> Result<String, AllocError> {
    let mut out = String::new(alloc);
    if let Some(base) = &check.base {
        write_changes(&mut out, check.now, base, paint)?;
    }
    let hidden = hidden(check);
    if !hidden.is_empty() {
        write_texts(&mut out, &[hidden, "\n"])?;
    }
    Ok(out)
}

/// Writes what is said first, in a line of its own; nothing where there is nothing to say.
fn write_first(out: &mut String, check: &Check<'_>) -> Result<(), AllocError>
    ensures { OnOk result (string_bytes out.new
        ≡ string_bytes out.old ++ spec.line_of (first_words check.entry.now)) }
{
    let first = first_words(check);
    if first.is_empty() {
        return Ok(());
    }
    write_text(out, first)?;
    write_text(out, "\n")
}

/// Writes a check: what is said first, the faults, their counts, and the rest.
#[tactic(auto, unfolding(crate::specs::Plain::plain_text))]
fn write_parts(
    out: &mut String,
    check: &Check<'_>,
    faults: &str,
    rest: &str,
) -> Result<(), AllocError>
    ensures { OnOk result (string_bytes out.new
        ≡ string_bytes out.old ++ spec.plain_text check.entry.now faults.now rest.now) }
{
    write_first(out, check)?;
    write_text(out, faults)?;
    write_counts(out, check)?;
    write_text(out, "\n")?;
    write_text(out, rest)
}

/// The check as a compiler prints it: first whether nothing is known of the operations, then each
/// fault with its line and a caret, the counts, and what the change does to operations.
pub fn as_text(alloc: Global, check: &Check<'_>, colours: bool) -> Result<Vec<u8>, AllocError>
    ensures { IfOk result (λ body. IsPlain check.entry.now body.items) }
{
    let paint = paint_of(colours);
    let faults = faults_text(alloc, check, paint)?;
    let rest = rest_text(alloc, check, paint)?;
    let mut out = String::new(alloc);
    write_parts(&mut out, check, faults.as_str(), rest.as_str())?;
    Ok(out.into_bytes())
}
