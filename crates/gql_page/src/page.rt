//! A check as one page of HTML without scripts.

use crate::files::write_files;
use crate::parts::{write_affected, write_cause, write_html_between, write_mended};
use crate::style::STYLE;
use gql_findings::Findings;
use gql_render::check::{Check, broken, shown_causes, shown_faults};
use gql_render::phrases::{first_words, hidden, write_count, write_counts};
use gql_render::picking::picked;
use gql_render::write::{write_text, write_texts};
use std::alloc::{AllocError, Global};

/// The beginning of the page, up to the counts in its title.
const HEAD: &str = "\
<!doctype html>
<html lang=\"en\">
<meta charset=\"utf-8\">
<meta name=\"viewport\" content=\"width=device-width, initial-scale=1\">
<title>GraphQL: ";

/// What comes before what is said first, and after it.
fn around(first: &str) -> (&'static str, &'static str) {
    if first.is_empty() {
        ("", "")
    } else {
        ("<p><strong>", "</strong></p>\n")
    }
}

/// Writes the head of the page, with the counts in its title and in its heading. What is said first
/// comes before both.
fn write_head(out: &mut String, check: &Check<'_>) -> Result<(), AllocError> {
    let first = first_words(check);
    let colon = if first.is_empty() { "" } else { "; " };
    let (before, after) = around(first);
    write_texts(out, &[HEAD, first, colon])?;
    write_counts(out, check)?;
    write_texts(out, &["</title>\n<style>\n", STYLE, "</style>\n"])?;
    write_texts(out, &[before, first, after, "<h1>GraphQL: "])?;
    write_counts(out, check)?;
    write_text(out, "</h1>\n")
}

/// Writes what a schema with faults hides, if it hides anything.
fn write_hidden(out: &mut String, check: &Check<'_>) -> Result<(), AllocError> {
    let hidden = hidden(check);
    if hidden.is_empty() {
        return Ok(());
    }
    write_html_between(out, "<p>", hidden, "</p>\n")
}

/// The beginning of the table of causes.
const CAUSES: &str = "\
<table class=\"causes\">
<tr><th>Cause</th><th>Faults</th><th>First places</th></tr>
";

/// Writes the causes of the faults, the largest first.
fn write_causes(alloc: Global, out: &mut String, check: &Check<'_>) -> Result<(), AllocError> {
    let causes = shown_causes(alloc, check)?;
    if causes.is_empty() {
        return Ok(());
    }
    write_text(out, CAUSES)?;
    for cause in causes.as_slice() {
        write_cause(alloc, out, check.now, cause)?;
    }
    write_text(out, "</table>\n")
}

/// Writes the operations at these places, with how many they are; nothing where there are none.
fn write_operations(
    alloc: Global,
    out: &mut String,
    findings: &Findings,
    places: &[usize],
    state: &str,
) -> Result<(), AllocError> {
    if places.is_empty() {
        return Ok(());
    }
    let operations = picked(alloc, findings.affected.as_slice(), places)?;
    write_text(out, "<h2>")?;
    write_count(out, operations.len(), "operation")?;
    write_texts(out, &[state, "</h2>\n<ul>\n"])?;
    for affected in operations {
        write_affected(alloc, out, findings.sources.as_slice(), affected)?;
    }
    write_text(out, "</ul>\n")
}

/// Writes the faults that are mended, folded; nothing where there are none.
fn write_mended_faults(
    alloc: Global,
    out: &mut String,
    base: &Findings,
    places: &[usize],
) -> Result<(), AllocError> {
    if places.is_empty() {
        return Ok(());
    }
    write_text(out, "<details><summary>Mended faults</summary>\n<ul>\n")?;
    for fault in picked(alloc, base.findings.as_slice(), places)? {
        write_mended(alloc, out, base.sources.as_slice(), fault)?;
    }
    write_text(out, "</ul>\n</details>\n")
}

/// Writes what the change does to operations, or without a base which of them are not served.
fn write_states(alloc: Global, out: &mut String, check: &Check<'_>) -> Result<(), AllocError> {
    let places = broken(alloc, check)?;
    match &check.base {
        None => write_operations(alloc, out, check.now, places.as_slice(), " not served"),
        Some(base) => {
            let comparison = base.comparison;
            let healed = comparison.healed.as_slice();
            write_operations(alloc, out, check.now, places.as_slice(), " broken")?;
            write_operations(alloc, out, base.findings, healed, " healed")?;
            write_mended_faults(alloc, out, base.findings, comparison.mended.as_slice())
        }
    }
}

/// Writes the files that have faults which are shown.
fn write_faulty_files(
    alloc: Global,
    out: &mut String,
    check: &Check<'_>,
) -> Result<(), AllocError> {
    let faults = shown_faults(alloc, check)?;
    write_files(alloc, out, check.now, faults.as_slice())
}

/// The check as one page: the counts, the causes of the faults, the operations that are broken, and
/// the files with faults, each around its faults with the rest folded.
pub fn as_html(alloc: Global, check: &Check<'_>) -> Result<Vec<u8>, AllocError> {
    let mut out = String::new(alloc);
    write_head(&mut out, check)?;
    write_hidden(&mut out, check)?;
    write_causes(alloc, &mut out, check)?;
    write_states(alloc, &mut out, check)?;
    write_faulty_files(alloc, &mut out, check)?;
    write_text(&mut out, "</html>\n")?;
    Ok(out.into_bytes())
}
