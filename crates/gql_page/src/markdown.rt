//! A check as a summary for a pull request, in Markdown.

ghost use Rattle.std.specs.Prelude.{◌≡◌, ◌++◌, IfOk, OnOk, map, string_bytes};
ghost use Rattle.gql_page.specs.Markdown as spec;
ghost use Rattle.gql_page.specs.Markdown.{IsMarkdown};
ghost use Rattle.gql_page.specs.declared.cut.Entry.TheVariants as entries;

use crate::cut::{Entry, Part, closing, cut};
use crate::parts::MOST_PLACES;
use gql_findings::{
    Affected, Cause, Finding, Findings, Rule, Source, Spot, label_at, sentence, title,
};
use gql_render::check::{Check, broken, shown, shown_causes};
use gql_render::escapes::write_markdown;
use gql_render::phrases::{
    first_words, hidden, write_count, write_counts, write_operation, write_owner, write_spot,
};
use gql_render::picking::picked;
use gql_render::write::{write_text, write_texts};
use std::alloc::{AllocError, Global};
use std::mem;

/// Writes a text within Markdown, with the markup before it and after it.
fn write_between(
    out: &mut String,
    before: &str,
    text: &str,
    after: &str,
) -> Result<(), AllocError> {
    write_text(out, before)?;
    write_markdown(out, text)?;
    write_text(out, after)
}

/// Writes a text as code, which stays in its line.
fn write_code(out: &mut String, text: &str) -> Result<(), AllocError> {
    write_between(out, "<code>", text, "</code>")
}

/// Writes a place as code.
fn write_place(
    alloc: Global,
    out: &mut String,
    sources: &[Source],
    spot: &Spot,
) -> Result<(), AllocError> {
    let mut place = String::new(alloc);
    write_spot(&mut place, sources, spot)?;
    write_code(out, place.as_str())
}

/// Writes an operation that is not served, as a list item.
fn write_item(
    alloc: Global,
    out: &mut String,
    sources: &[Source],
    affected: &Affected,
) -> Result<(), AllocError> {
    let mut name = String::new(alloc);
    write_operation(&mut name, affected.kind, &affected.name)?;
    write_between(out, "- <code>", name.as_str(), "</code> in ")?;
    write_code(out, label_at(sources, &affected.spot))?;
    if let Some(through) = &affected.through {
        write_between(out, " by fragment <code>", through.as_str(), "</code>")?;
    }
    write_text(out, "\n")
}

/// Adds a part.
fn add_part(
    parts: &mut Vec<Part>,
    text: String,
    closing: &'static str,
    entry: Entry,
) -> Result<(), AllocError>
    ensures { OnOk result (spec.told parts.new.items
        ≡ spec.told parts.old.items ++ spec.telling entry) }
{
    parts.push(Part {
        text,
        closing,
        entry,
    })?;
    Ok(())
}

/// The beginning of a section: what closes the section before, and a heading.
fn section(alloc: Global, parts: &[Part], heading: &[&str]) -> Result<String, AllocError> {
    let mut text = String::from_str(alloc, closing(parts))?;
    write_texts(&mut text, heading)?;
    Ok(text)
}

/// The heading of a section on operations.
fn operations_heading(
    alloc: Global,
    parts: &[Part],
    count: usize,
    state: &str,
) -> Result<String, AllocError> {
    let mut text = section(alloc, parts, &["\n**"])?;
    write_count(&mut text, count, "operation")?;
    write_texts(&mut text, &[state, "**\n\n"])?;
    Ok(text)
}

/// Adds the operations at these places, with how many they are; nothing where there are none.
fn add_operations(
    alloc: Global,
    parts: &mut Vec<Part>,
    findings: &Findings,
    places: &[usize],
    state: &str,
) -> Result<(), AllocError>
    ensures { OnOk result (spec.told parts.new.items
        ≡ spec.told parts.old.items ++ map entries.Operation places.now) }
{
    let mut text = operations_heading(alloc, parts.as_slice(), places.len(), state)?;
    for place in places {
        if let Some(affected) = findings.affected.get(*place) {
            write_item(alloc, &mut text, findings.sources.as_slice(), affected)?;
        }
        let whole = mem::replace(&mut text, String::new(alloc));
        add_part(parts, whole, "", Entry::Operation(*place))?;
    }
    Ok(())
}

/// Writes a rule, what it is about, and what is at fault.
fn write_rule(out: &mut String, rule: Rule, about: &str) -> Result<(), AllocError> {
    write_text(out, rule.name())?;
    if !about.is_empty() {
        write_text(out, " ")?;
        write_code(out, about)?;
    }
    write_between(out, ": ", title(rule), ": ")?;
    write_markdown(out, sentence(rule))
}

/// Writes the first places of a cause.
fn write_first_places(
    alloc: Global,
    out: &mut String,
    findings: &Findings,
    members: &[usize],
) -> Result<(), AllocError> {
    let faults = picked(alloc, findings.findings.as_slice(), members)?;
    for (number, fault) in faults.as_slice().iter().take(MOST_PLACES).enumerate() {
        if let Some(spot) = fault.spots.first() {
            if number > 0 {
                write_text(out, ", ")?;
            }
            write_place(alloc, out, findings.sources.as_slice(), spot)?;
        }
    }
    if faults.len() > MOST_PLACES {
        write_text(out, " ..")?;
    }
    Ok(())
}

/// Writes a cause as a row of a table.
fn write_row(
    alloc: Global,
    out: &mut String,
    findings: &Findings,
    cause: &Cause,
) -> Result<(), AllocError> {
    write_text(out, "| ")?;
    write_rule(out, cause.rule, cause.about.as_str())?;
    write_text(out, " | ")?;
    write_count(out, cause.members.len(), "fault")?;
    write_text(out, " | ")?;
    write_first_places(alloc, out, findings, cause.members.as_slice())?;
    write_text(out, " |\n")
}

/// Adds the causes of the faults, the largest first, as rows of a table.
fn add_causes(alloc: Global, parts: &mut Vec<Part>, check: &Check<'_>) -> Result<(), AllocError>
    ensures { OnOk result (spec.told parts.new.items ≡ spec.told parts.old.items) }
{
    let causes = shown_causes(alloc, check)?;
    let heading = "\n| Cause | Faults | First places |\n|---|---|---|\n";
    let mut text = section(alloc, parts.as_slice(), &[heading])?;
    for cause in causes.as_slice() {
        write_row(alloc, &mut text, check.now, cause)?;
        let whole = mem::replace(&mut text, String::new(alloc));
        add_part(parts, whole, "", Entry::Other)?;
    }
    Ok(())
}

/// Writes a fault with all its places, as a list item.
fn write_fault(
    alloc: Global,
    out: &mut String,
    sources: &[Source],
    fault: &Finding,
) -> Result<(), AllocError> {
    write_text(out, "- ")?;
    for spot in fault.spots.as_slice() {
        write_place(alloc, out, sources, spot)?;
        write_text(out, " ")?;
    }
    write_rule(out, fault.rule, fault.about.as_str())?;
    if let Some(owner) = &fault.owner {
        let mut name = String::new(alloc);
        write_owner(&mut name, &owner.owner)?;
        write_between(out, " (in <code>", name.as_str(), "</code>)")?;
    }
    write_text(out, "\n")
}

/// Adds the faults at these places, folded; nothing where there are none.
fn add_faults(
    alloc: Global,
    parts: &mut Vec<Part>,
    findings: &Findings,
    places: &[usize],
    summary: &str,
) -> Result<(), AllocError>
    ensures { OnOk result (spec.told parts.new.items
        ≡ spec.told parts.old.items ++ map entries.Fault places.now) }
{
    let heading = ["\n<details><summary>", summary, "</summary>\n\n"];
    let mut text = section(alloc, parts.as_slice(), &heading)?;
    for place in places {
        if let Some(fault) = findings.findings.get(*place) {
            write_fault(alloc, &mut text, findings.sources.as_slice(), fault)?;
        }
        let whole = mem::replace(&mut text, String::new(alloc));
        add_part(parts, whole, "\n</details>\n", Entry::Fault(*place))?;
    }
    Ok(())
}

/// Adds the operations: without a base those that are not served, else those that the change breaks
/// and heals.
fn add_states(alloc: Global, parts: &mut Vec<Part>, check: &Check<'_>) -> Result<(), AllocError>
    ensures { OnOk result (spec.told parts.new.items
        ≡ spec.told parts.old.items ++ map entries.Operation (spec.operations check.entry.now)) }
{
    let places = broken(alloc, check)?;
    match &check.base {
        None => add_operations(alloc, parts, check.now, places.as_slice(), " not served"),
        Some(base) => {
            let healed = base.comparison.healed.as_slice();
            add_operations(alloc, parts, check.now, places.as_slice(), " broken")?;
            add_operations(alloc, parts, base.findings, healed, " healed")
        }
    }
}

/// Adds the faults that are shown, and then those that are mended.
fn add_each_fault(alloc: Global, parts: &mut Vec<Part>, check: &Check<'_>) -> Result<(), AllocError>
    ensures { OnOk result (spec.told parts.new.items
        ≡ spec.told parts.old.items ++ map entries.Fault (spec.faults check.entry.now)) }
{
    let places = shown(alloc, check)?;
    add_faults(alloc, parts, check.now, places.as_slice(), "Each fault")?;
    match &check.base {
        Some(base) => {
            let mended = base.comparison.mended.as_slice();
            add_faults(alloc, parts, base.findings, mended, "Mended faults")
        }
        None => Ok(()),
    }
}

/// Writes what is said first, in bold; nothing where there is nothing to say.
fn write_first(out: &mut String, first: &str) -> Result<(), AllocError>
    ensures { OnOk result (string_bytes out.new
        ≡ string_bytes out.old ++ spec.bold_line first.now) }
{
    if first.is_empty() {
        return Ok(());
    }
    write_text(out, "**")?;
    write_text(out, first)?;
    write_text(out, "**\n\n")
}

/// What a schema with faults hides, after a heading.
fn hidden_note(alloc: Global, check: &Check<'_>) -> Result<String, AllocError> {
    let hidden = hidden(check);
    let mut text = String::new(alloc);
    if !hidden.is_empty() {
        write_texts(&mut text, &["\n", hidden, "\n"])?;
    }
    Ok(text)
}

/// The head: what is said first, the heading with the counts, and what a schema with faults hides.
#[tactic(auto, unfolding(crate::specs::Markdown::head_text))]
fn head(alloc: Global, check: &Check<'_>, note: &str) -> Result<String, AllocError>
    ensures { IfOk result (λ text. string_bytes text ≡ spec.head_text check.entry.now note.now) }
{
    let mut out = String::new(alloc);
    write_first(&mut out, first_words(check))?;
    write_text(&mut out, "### GraphQL: ")?;
    write_counts(&mut out, check)?;
    write_text(&mut out, "\n")?;
    write_text(&mut out, note)?;
    Ok(out)
}

/// The parts of a check: the head, the operations, the causes, and each fault.
fn parts_of(alloc: Global, check: &Check<'_>) -> Result<Vec<Part>, AllocError>
    ensures { IfOk result (λ parts. spec.told parts.items
        ≡ map entries.Operation (spec.operations check.entry.now)
        ++ map entries.Fault (spec.faults check.entry.now)) }
{
    let note = hidden_note(alloc, check)?;
    let head = head(alloc, check, note.as_str())?;
    let mut parts = Vec::new(alloc);
    add_part(&mut parts, head, "", Entry::Other)?;
    add_states(alloc, &mut parts, check)?;
    add_causes(alloc, &mut parts, check)?;
    add_each_fault(alloc, &mut parts, check)?;
    Ok(parts)
}

/// The check as a summary for a pull request: whether nothing is known of the operations, the counts,
/// the operations that are broken, the causes of the faults, and then, folded, each fault. It has at
/// most 65,536 bytes: of a longer one the first parts are there, and how many entries are left out.
pub fn as_markdown(alloc: Global, check: &Check<'_>) -> Result<Vec<u8>, AllocError>
    ensures { IfOk result (λ body. IsMarkdown check.entry.now body.items) }
{
    let parts = parts_of(alloc, check)?;
    let text = cut(alloc, parts.as_slice())?;
    Ok(text.into_bytes())
}
