//! Parts of the page: places, faults and operations.

use gql_findings::{
    Affected, Cause, Finding, Findings, Rule, Source, Spot, label_at, sentence, title,
};
use gql_render::escapes::write_html;
use gql_render::phrases::{write_count, write_operation, write_owner, write_spot};
use gql_render::picking::picked;
use gql_render::write::{write_number, write_text};
use std::alloc::{AllocError, Global};

/// How many places of a cause are shown.
pub const MOST_PLACES: usize = 3;

/// Writes a text within HTML, with the markup before it and after it.
pub fn write_html_between(
    out: &mut String,
    before: &str,
    text: &str,
    after: &str,
) -> Result<(), AllocError> {
    write_text(out, before)?;
    write_html(out, text)?;
    write_text(out, after)
}

/// Writes a text as code.
pub fn write_code(out: &mut String, text: &str) -> Result<(), AllocError> {
    write_html_between(out, "<code>", text, "</code>")
}

/// Writes the name that the line of a place has on the page.
pub fn write_anchor(out: &mut String, source: usize, line: usize) -> Result<(), AllocError> {
    write_text(out, "f")?;
    write_number(out, source)?;
    write_text(out, "-")?;
    write_number(out, line)
}

/// Writes a place.
fn write_place(
    alloc: Global,
    out: &mut String,
    sources: &[Source],
    spot: &Spot,
) -> Result<(), AllocError> {
    let mut place = String::new(alloc);
    write_spot(&mut place, sources, spot)?;
    write_html(out, place.as_str())
}

/// Writes a place as a link to its line on the page.
pub fn write_link(
    alloc: Global,
    out: &mut String,
    sources: &[Source],
    spot: &Spot,
) -> Result<(), AllocError> {
    write_text(out, "<a href=\"#")?;
    write_anchor(out, spot.source, spot.line)?;
    write_text(out, "\">")?;
    write_place(alloc, out, sources, spot)?;
    write_text(out, "</a>")
}

/// Writes a rule, what it is about, and what is at fault.
pub fn write_rule(out: &mut String, rule: Rule, about: &str) -> Result<(), AllocError> {
    write_text(out, rule.name())?;
    if !about.is_empty() {
        write_text(out, " ")?;
        write_code(out, about)?;
    }
    write_html_between(out, ": ", title(rule), ": ")?;
    write_html(out, sentence(rule))
}

/// Writes a fault with its owner, and without its places.
pub fn write_fault(alloc: Global, out: &mut String, fault: &Finding) -> Result<(), AllocError> {
    write_rule(out, fault.rule, fault.about.as_str())?;
    if let Some(owner) = &fault.owner {
        let mut name = String::new(alloc);
        write_owner(&mut name, &owner.owner)?;
        write_html_between(out, " (in ", name.as_str(), ")")?;
    }
    Ok(())
}

/// Writes the first places of a cause.
fn write_first_places(
    alloc: Global,
    out: &mut String,
    findings: &Findings,
    members: &[usize],
) -> Result<(), AllocError> {
    let faults = picked(alloc, findings.findings.as_slice(), members)?;
    for (number, fault) in faults.as_slice().iter().take(MOST_PLACES).enumerate() {
        if let Some(spot) = fault.spots.first() {
            if number > 0 {
                write_text(out, ", ")?;
            }
            write_link(alloc, out, findings.sources.as_slice(), spot)?;
        }
    }
    if faults.len() > MOST_PLACES {
        write_text(out, " ..")?;
    }
    Ok(())
}

/// Writes a cause as a row of a table.
pub fn write_cause(
    alloc: Global,
    out: &mut String,
    findings: &Findings,
    cause: &Cause,
) -> Result<(), AllocError> {
    write_text(out, "<tr><td>")?;
    write_rule(out, cause.rule, cause.about.as_str())?;
    write_text(out, "</td><td>")?;
    write_count(out, cause.members.len(), "fault")?;
    write_text(out, "</td><td>")?;
    write_first_places(alloc, out, findings, cause.members.as_slice())?;
    write_text(out, "</td></tr>\n")
}

/// Writes an operation that is not served, as a list item.
pub fn write_affected(
    alloc: Global,
    out: &mut String,
    sources: &[Source],
    affected: &Affected,
) -> Result<(), AllocError> {
    let mut name = String::new(alloc);
    write_operation(&mut name, affected.kind, &affected.name)?;
    write_text(out, "<li>")?;
    write_code(out, name.as_str())?;
    write_text(out, " in ")?;
    write_html(out, label_at(sources, &affected.spot))?;
    if let Some(through) = &affected.through {
        write_text(out, ", by fragment ")?;
        write_code(out, through.as_str())?;
    }
    write_text(out, "</li>\n")
}

/// Writes a fault that is mended, as a list item.
pub fn write_mended(
    alloc: Global,
    out: &mut String,
    sources: &[Source],
    fault: &Finding,
) -> Result<(), AllocError> {
    write_text(out, "<li>")?;
    if let Some(spot) = fault.spots.first() {
        write_place(alloc, out, sources, spot)?;
        write_text(out, " ")?;
    }
    write_fault(alloc, out, fault)?;
    write_text(out, "</li>\n")
}
