//! The faults of subscriptions by the rule on their root fields, V30.
use crate::facts::documents_in;
use crate::inputs::file_name;
use gql_ast::Definition;
use gql_facts::{Fragments, Present, SchemaFacts, walk_reads};
use gql_single_root::{RootFault, single_root_faults};
use gql_types::Schema;
use std::alloc::{AllocError, Global};
use table_rows::join;

/// A fault as the rule, what it is about, unless that is empty, and its place.
fn written_fault(alloc: Global, fault: &RootFault) -> Result<String, AllocError> {
    let about = fault.about.as_str();
    let space = if about.is_empty() { "" } else { " " };
    let file = fault.file.as_str();
    let line = fault.place.line;
    let column = fault.place.column;
    format!(in alloc; "V30{space}{about} at {file} {line}:{column}")
}

/// Adds the faults of a definition, after semicolons.
fn add_faults(
    alloc: Global,
    world: &mut Present<'_>,
    definition: &Definition,
    written: &mut String,
) -> Option<()> {
    let Ok(walk) = walk_reads(alloc, world, definition) else {
        return None;
    };
    let members = walk.members.as_slice();
    let Ok(faults) = single_root_faults(alloc, world, definition, members) else {
        return None;
    };
    for fault in faults.as_slice() {
        let fault = written_fault(alloc, fault).ok()?;
        join(written, "; ", fault.as_str()).ok()?;
    }
    Some(())
}

/// The faults by V30 of a document file `d` with this text, those of one definition after those of
/// the ones before it; `None` if the text is not a document.
pub fn root_fields_answer(alloc: Global, schema: &Schema, text: &str) -> Option<String> {
    let facts = SchemaFacts::new(alloc, schema).ok()?;
    let documents = documents_in(alloc, text)?;
    let fragments = Fragments::new(alloc, &documents).ok()?;
    let mut world = Present::new(&facts, &fragments);
    let document = documents.get(&file_name(alloc, "d")?)?.get();
    let mut written = String::new(alloc);
    for definition in document.definitions.as_slice() {
        add_faults(alloc, &mut world, definition, &mut written)?;
    }
    if written.is_empty() {
        return String::from_str(alloc, "no faults").ok();
    }
    Some(written)
}
