//! A check as annotations of a build server of GitHub.

ghost use Rattle.std.specs.Prelude.{◌≡◌, ◌++◌, ◌≤◌, IfOk, OnOk, length, map, string_bytes};
ghost use Rattle.gql_ast.specs.Rules.{name_of};
ghost use Rattle.gql_render.specs.Annotations as spec;
ghost use Rattle.gql_render.specs.Annotations.{AreAnnotations};

use crate::annotation::{Annotation, Level, Place, write_annotation, write_annotations};
use crate::changed::{Changed, changed_files};
use crate::check::{Check, broken_operations};
use crate::phrases::{
    first_words, hidden, write_affected, write_count, write_fault, write_operation, write_spot,
};
use crate::picking::picked;
use crate::telling::ranked;
use crate::write::{write_text, write_texts};
use gql_findings::{Affected, Finding, Source, label_at};
use std::alloc::{AllocError, Global};

/// How many annotations there are beside notices: GitHub shows no more of a step.
const MOST: usize = 10;

/// How many of them show where schema files differ, so that there is room for faults.
const MOST_CHANGED: usize = 5;

/// Writes the text of a fault: its sentence and its further places.
fn write_fault_text(
    text: &mut String,
    sources: &[Source],
    finding: &Finding,
) -> Result<(), AllocError> {
    write_fault(text, finding)?;
    let Some((_first, others)) = finding.spots.as_slice().split_first() else {
        return Ok(());
    };
    for spot in others {
        write_text(text, " And ")?;
        write_spot(text, sources, spot)?;
        write_text(text, ".")?;
    }
    Ok(())
}

/// The place of a fault, if it has one.
fn place_of<'c>(sources: &'c [Source], finding: &Finding) -> Option<Place<'c>> {
    let spot = finding.spots.first()?;
    Some(Place {
        file: label_at(sources, spot),
        line: spot.line,
        column: Some(spot.column),
    })
}

/// The annotation of a fault.
fn fault_annotation<'c>(
    alloc: Global,
    sources: &'c [Source],
    finding: &'c Finding,
) -> Result<Annotation<'c>, AllocError>
    ensures { IfOk result (λ a. a.title.now ≡ name_of finding.entry.now.rule) }
{
    let mut text = String::new(alloc);
    write_fault_text(&mut text, sources, finding)?;
    Ok(Annotation {
        level: Level::Error,
        place: place_of(sources, finding),
        title: finding.rule.name(),
        text,
    })
}

/// The annotations of faults.
fn fault_annotations<'c>(
    alloc: Global,
    sources: &'c [Source],
    faults: &[&'c Finding],
) -> Result<Vec<Annotation<'c>>, AllocError>
    ensures { IfOk result (λ annotations. map (λ a. a.title.now) annotations.items
        ≡ map (λ f. name_of f.now.rule) faults.entry.now) }
{
    let mut annotations = Vec::new(alloc);
    for fault in faults {
        annotations.push(fault_annotation(alloc, sources, fault)?)?;
    }
    Ok(annotations)
}

/// Writes what a change does: how many faults it brings, or which operations it breaks.
fn write_harm(text: &mut String, faults: usize, broken: &[&Affected]) -> Result<(), AllocError> {
    if broken.is_empty() {
        write_text(text, "this change brings ")?;
        return write_count(text, faults, "fault");
    }
    write_text(text, "this change breaks ")?;
    write_count(text, broken.len(), "operation")?;
    write_text(text, ": ")?;
    for (number, affected) in broken.iter().take(MOST).enumerate() {
        if number > 0 {
            write_text(text, ", ")?;
        }
        write_operation(text, affected.kind, &affected.name)?;
    }
    if broken.len() > MOST {
        write_text(text, ", ..")?;
    }
    Ok(())
}

/// The text of an annotation where a schema file differs.
fn harm_text(alloc: Global, check: &Check<'_>) -> Result<String, AllocError> {
    let mut text = String::new(alloc);
    if let Some(base) = &check.base {
        let broken = broken_operations(alloc, check)?;
        write_harm(&mut text, base.comparison.brought.len(), broken.as_slice())?;
    }
    Ok(text)
}

/// The annotations of where schema files differ from those of the base, as many as there is room
/// for.
fn changed_annotations<'c>(
    alloc: Global,
    check: &Check<'c>,
) -> Result<Vec<Annotation<'c>>, AllocError>
    ensures { IfOk result (λ annotations. length annotations.items ≤ 5) }
{
    let text = harm_text(alloc, check)?;
    let files = changed_files(alloc, check)?;
    let mut annotations = Vec::new(alloc);
    for changed in files.as_slice() {
        if annotations.len() < MOST_CHANGED {
            annotations.push(changed_annotation(check, changed, text.clone()?))?;
        }
    }
    Ok(annotations)
}

/// The annotation of where a schema file differs.
fn changed_annotation<'c>(check: &Check<'c>, changed: &Changed, text: String) -> Annotation<'c> {
    let file = match check.now.sources.get(changed.source) {
        Some(source) => source.label(),
        None => "",
    };
    Annotation {
        level: Level::Warning,
        place: Some(Place {
            file,
            line: changed.line,
            column: None,
        }),
        title: "Changed",
        text,
    }
}

/// Writes that the documents of now are hidden, if they are.
fn write_first(out: &mut String, first: &str) -> Result<(), AllocError>
    ensures { OnOk result (string_bytes out.new
        ≡ string_bytes out.old ++ spec.hidden_line first.now) }
{
    if first.is_empty() {
        return Ok(());
    }
    write_text(out, "::error title=Documents::")?;
    write_text(out, first)?;
    write_text(out, "\n")
}

/// Writes how many faults have no annotation.
#[tactic(auto, unfolding(crate::specs::Annotations::more_text))]
fn write_more_text(out: &mut String, count: usize) -> Result<(), AllocError>
    ensures { OnOk result (string_bytes out.new ≡ string_bytes out.old ++ spec.more_text count) }
{
    write_text(out, "::notice title=More::and ")?;
    write_count(out, count, "more fault")?;
    write_text(out, "\n")
}

/// Writes how many faults have no annotation, if there are some.
fn write_more(out: &mut String, count: usize) -> Result<(), AllocError>
    ensures { OnOk result (string_bytes out.new ≡ string_bytes out.old ++ spec.more_line count) }
{
    if count == 0 {
        return Ok(());
    }
    write_more_text(out, count)
}

/// A notice.
fn notice<'c>(title: &'c str, text: String) -> Annotation<'c> {
    Annotation {
        level: Level::Notice,
        place: None,
        title,
        text,
    }
}

/// Writes the text of the notice on operations: a heading, and a line for each operation.
fn write_operations(
    text: &mut String,
    sources: &[Source],
    operations: &[&Affected],
    heading: &str,
) -> Result<(), AllocError> {
    write_text(text, heading)?;
    for affected in operations {
        write_texts(text, &["\n", label_at(sources, &affected.spot), ": "])?;
        write_affected(text, affected)?;
    }
    Ok(())
}

/// Writes the notice on operations that are broken, if there are any.
fn write_broken(alloc: Global, out: &mut String, check: &Check<'_>) -> Result<(), AllocError> {
    let operations = broken_operations(alloc, check)?;
    if operations.is_empty() {
        return Ok(());
    }
    let heading = match &check.base {
        Some(_) => "operations that this breaks:",
        None => "operations that are not served:",
    };
    let sources = check.now.sources.as_slice();
    let mut text = String::new(alloc);
    write_operations(&mut text, sources, operations.as_slice(), heading)?;
    write_annotation(out, &notice("Operations", text))
}

/// The notices: the operations that are broken, and what a schema with faults hides.
fn notices(alloc: Global, check: &Check<'_>) -> Result<String, AllocError> {
    let mut out = String::new(alloc);
    write_broken(alloc, &mut out, check)?;
    let hidden = hidden(check);
    if !hidden.is_empty() {
        let text = String::from_str(alloc, hidden)?;
        write_annotation(&mut out, &notice("Documents", text))?;
    }
    Ok(out)
}

/// How many annotations there are that the documents of now are hidden.
fn first_count(first: &str) -> usize
    ensures value { result ≡ spec.hidden_count first.now }
    ensures few { result ≤ 1 }
{
    if first.is_empty() { 0 } else { 1 }
}

/// Writes the parts of a check, one after the other.
#[tactic(auto, unfolding(crate::specs::Annotations::parts_text))]
fn write_parts(
    out: &mut String,
    first: &str,
    changed: &[Annotation<'_>],
    faults: &[Annotation<'_>],
    others: usize,
    notices: &str,
) -> Result<(), AllocError>
    ensures { OnOk result (string_bytes out.new ≡ string_bytes out.old ++ spec.parts_text
        first.now changed.entry.now faults.entry.now others notices.now) }
{
    write_first(out, first)?;
    write_annotations(out, changed)?;
    write_annotations(out, faults)?;
    write_more(out, others)?;
    write_text(out, notices)
}

/// The check as annotations, those that tell most first and at most ten: that the documents of now
/// are hidden, lines in which schema files differ, and faults. Then come notices: how many faults
/// have no annotation, the operations that are broken, and what a schema with faults hides.
pub fn as_github(alloc: Global, check: &Check<'_>) -> Result<Vec<u8>, AllocError>
    ensures { IfOk result (λ body. AreAnnotations check.entry.now body.items) }
{
    let first = first_words(check);
    let changed = changed_annotations(alloc, check)?;
    let places = ranked(alloc, check)?;
    let room = MOST - changed.len() - first_count(first);
    let (shown, others) = places.as_slice().split_at(room.min(places.len()));
    let findings = picked(alloc, check.now.findings.as_slice(), shown)?;
    let sources = check.now.sources.as_slice();
    let faults = fault_annotations(alloc, sources, findings.as_slice())?;
    let notices = notices(alloc, check)?;
    let mut out = String::new(alloc);
    write_parts(
        &mut out,
        first,
        changed.as_slice(),
        faults.as_slice(),
        others.len(),
        notices.as_str(),
    )?;
    Ok(out.into_bytes())
}
