//! The faults of schema files and of a document file `d`, and the verdicts on its definitions.
ghost use Rattle.gql_verdict.specs.FileOrder.{AreFilesPlaced};

use crate::document_files::document_files;
use crate::faults::written_faults;
use gql_ast::{Fault, Files, Shared};
use gql_facts::{Fragments, Present, SchemaFacts};
use gql_report::in_order;
use gql_schema_rules::schema_faults;
use gql_types::{Schema, assemble};
use gql_verdict::{Meter, Shelf, name_faults, shared_faults};
use std::alloc::{AllocError, Global};
use table_rows::join;

/// The faults of schema files.
fn faults_of_schema(alloc: Global, files: &Files) -> Result<Vec<Shared<Fault>>, AllocError> {
    let schema = assemble(alloc, files)?;
    schema_faults(alloc, files, &schema)
}

/// Makes a shelf current after an edit that leaves these document files.
fn refresh(
    alloc: Global,
    schema: &Schema,
    files: &Files,
    shelf: &mut Shelf,
    meter: &mut Meter,
) -> Option<()>
    requires { AreFilesPlaced files.now.documents }
{
    let facts = SchemaFacts::new(alloc, schema).ok()?;
    let fragments = Fragments::new(alloc, &files.documents).ok()?;
    let mut world = Present::new(&facts, &fragments);
    shelf.refresh(alloc, &mut world, files, meter).ok()
}

/// The faults of the document file `d` with this text, after an edit that puts it.
fn faults_of_document(
    alloc: Global,
    schema: &Schema,
    shelf: &mut Shelf,
    text: &str,
) -> Option<Vec<Shared<Fault>>> {
    let files = document_files(alloc, text)?;
    let mut meter = Meter::new(alloc);
    refresh(alloc, schema, &files, shelf, &mut meter)?;
    let mut faults = shared_faults(alloc, name_faults(alloc, &files).ok()?).ok()?;
    let mut of_definitions = shelf.faults(alloc).ok()?;
    faults.append(&mut of_definitions).ok()?;
    Some(faults)
}

/// The report on schema files and on the document file `d` with this text, in its order: the faults
/// of the schema if it has some, else those of the document file. `None` if it is not a document.
pub fn report_answer(
    alloc: Global,
    files: &Files,
    schema: &Schema,
    shelf: &mut Shelf,
    text: &str,
) -> Option<String> {
    let of_schema = faults_of_schema(alloc, files).ok()?;
    let faults = if of_schema.is_empty() {
        faults_of_document(alloc, schema, shelf, text)?
    } else {
        of_schema
    };
    let report = in_order(alloc, faults).ok()?;
    written_faults(alloc, report.as_slice()).ok()
}

/// The offsets of the definitions that a meter has, or `nothing`.
fn written_meter(alloc: Global, meter: &Meter) -> Option<String> {
    let mut written = String::new(alloc);
    for entry in meter.entries() {
        let offset = entry.offset;
        let offset = format!(in alloc; "{offset}").ok()?;
        join(&mut written, " ", offset.as_str()).ok()?;
    }
    if written.is_empty() {
        written.push_str("nothing").ok()?;
    }
    Some(written)
}

/// Which definitions of the document file `d` with this text are examined when it is put, by their
/// offsets, and the faults of all verdicts after it, in the order of a report.
pub fn verdicts_answer(
    alloc: Global,
    schema: &Schema,
    shelf: &mut Shelf,
    text: &str,
) -> Option<String> {
    let files = document_files(alloc, text)?;
    let mut meter = Meter::new(alloc);
    refresh(alloc, schema, &files, shelf, &mut meter)?;
    let faults = in_order(alloc, shelf.faults(alloc).ok()?).ok()?;
    let faults = written_faults(alloc, faults.as_slice()).ok()?;
    let examined = written_meter(alloc, &meter)?;
    format!(in alloc; "examined {examined}; {faults}").ok()
}
