//! The files of the page: only those with faults, each around its faults, with the rest folded.

use crate::lines::{Buckets, Piece, faults_by_line, faults_by_source, pieces};
use crate::parts::{write_anchor, write_fault, write_html_between, write_link};
use gql_findings::{Finding, Findings, Source};
use gql_render::escapes::{html_entity, write_escaped};
use gql_render::write::{write_number, write_text};
use std::alloc::{AllocError, Global};

/// For each column of a line, counted from 1, whether a fault is there.
fn marked_columns(alloc: Global, line: &str, faults: &[&Finding]) -> Result<Vec<bool>, AllocError> {
    let mut columns = vec![in alloc; false; line.len()]?;
    for fault in faults {
        if let Some(spot) = fault.spots.first() {
            if let Some(column) = columns.get_mut(spot.column.saturating_sub(1)) {
                *column = true;
            }
        }
    }
    Ok(columns)
}

/// Writes a line, with a mark at each word in which a fault starts.
fn write_marked(out: &mut String, line: &str, columns: &[bool]) -> Result<(), AllocError> {
    let mut is_open = false;
    for (index, character) in line.chars().enumerate() {
        let starts = columns.get(index).copied().unwrap_or(false);
        if is_open && (starts || !(character.is_ascii_alphanumeric() || character == '_')) {
            write_text(out, "</mark>")?;
            is_open = false;
        }
        if starts {
            write_text(out, "<mark>")?;
            is_open = true;
        }
        write_escaped(out, character, html_entity(character))?;
    }
    if is_open {
        write_text(out, "</mark>")?;
    }
    Ok(())
}

/// Writes a fault below its line, with its other places.
fn write_note(
    alloc: Global,
    out: &mut String,
    sources: &[Source],
    fault: &Finding,
) -> Result<(), AllocError> {
    write_text(out, "<div class=\"note\">")?;
    write_fault(alloc, out, fault)?;
    if let Some((_first, others)) = fault.spots.as_slice().split_first() {
        for spot in others {
            write_text(out, " Also at ")?;
            write_link(alloc, out, sources, spot)?;
            write_text(out, ".")?;
        }
    }
    write_text(out, "</div>\n")
}

/// Writes a line without faults.
fn write_plain_line(out: &mut String, source: &Source, line: usize) -> Result<(), AllocError> {
    write_text(out, "<div class=\"line\"><span>")?;
    write_number(out, line)?;
    write_html_between(out, "</span><span>", source.line(line), "</span></div>\n")
}

/// A file on the page: its place in the list of sources, and the faults of each of its lines.
#[derive(Clone, Copy)]
struct Shown<'s, 'f> {
    sources: &'s [Source],
    source: &'s Source,
    number: usize,
    buckets: &'s Buckets<'f>,
}

/// Writes the number of a line, and the place to which links to it lead.
fn write_line_number(out: &mut String, source: usize, line: usize) -> Result<(), AllocError> {
    write_text(out, "<div class=\"line bad\" id=\"")?;
    write_anchor(out, source, line)?;
    write_text(out, "\"><span>")?;
    write_number(out, line)?;
    write_text(out, "</span><span>")
}

/// Writes a line in which these faults start.
fn write_faulty_line(
    alloc: Global,
    out: &mut String,
    shown: &Shown<'_, '_>,
    line: usize,
    faults: &[&Finding],
) -> Result<(), AllocError> {
    let text = shown.source.line(line);
    let columns = marked_columns(alloc, text, faults)?;
    write_line_number(out, shown.number, line)?;
    write_marked(out, text, columns.as_slice())?;
    write_text(out, "</span></div>\n")
}

/// Writes a line, and the faults that start in it.
fn write_line(
    alloc: Global,
    out: &mut String,
    shown: &Shown<'_, '_>,
    line: usize,
) -> Result<(), AllocError> {
    let Some(faults) = shown.buckets.get(line) else {
        return Ok(());
    };
    if faults.is_empty() {
        return write_plain_line(out, shown.source, line);
    }
    write_faulty_line(alloc, out, shown, line, faults.as_slice())?;
    for fault in faults.as_slice() {
        write_note(alloc, out, shown.sources, fault)?;
    }
    Ok(())
}

/// Writes the lines of a piece.
fn write_lines(
    alloc: Global,
    out: &mut String,
    shown: &Shown<'_, '_>,
    piece: Piece,
) -> Result<(), AllocError> {
    for line in piece.first..piece.last {
        write_line(alloc, out, shown, line)?;
    }
    write_line(alloc, out, shown, piece.last)
}

/// Writes the summary that stands for a piece while it is folded.
fn write_summary(out: &mut String, piece: Piece) -> Result<(), AllocError> {
    write_text(out, "<details><summary>lines ")?;
    write_number(out, piece.first)?;
    write_text(out, " to ")?;
    write_number(out, piece.last)?;
    write_text(out, "</summary>\n")
}

/// Writes lines that follow each other, folded where the piece is.
fn write_piece(
    alloc: Global,
    out: &mut String,
    shown: &Shown<'_, '_>,
    piece: Piece,
) -> Result<(), AllocError> {
    if !piece.is_folded {
        return write_lines(alloc, out, shown, piece);
    }
    write_summary(out, piece)?;
    write_lines(alloc, out, shown, piece)?;
    write_text(out, "</details>\n")
}

/// Writes a file that has faults.
fn write_file<'f>(
    alloc: Global,
    out: &mut String,
    sources: &[Source],
    number: usize,
    faults: &[&'f Finding],
) -> Result<(), AllocError> {
    let Some(source) = sources.get(number) else {
        return Ok(());
    };
    let buckets = faults_by_line(alloc, source.line_count(), faults)?;
    let pieces = pieces(alloc, &buckets)?;
    write_html_between(out, "<h2>", source.label(), "</h2>\n<div class=\"file\">\n")?;
    let shown = Shown {
        sources,
        source,
        number,
        buckets: &buckets,
    };
    for piece in pieces.as_slice() {
        write_piece(alloc, out, &shown, *piece)?;
    }
    write_text(out, "</div>\n")
}

/// Writes the files that have some of these faults, in the order of the sources.
pub fn write_files(
    alloc: Global,
    out: &mut String,
    findings: &Findings,
    faults: &[&Finding],
) -> Result<(), AllocError> {
    let sources = findings.sources.as_slice();
    let buckets = faults_by_source(alloc, sources.len(), faults)?;
    for (number, bucket) in buckets.as_slice().iter().enumerate() {
        if !bucket.is_empty() {
            write_file(alloc, out, sources, number, bucket.as_slice())?;
        }
    }
    Ok(())
}
