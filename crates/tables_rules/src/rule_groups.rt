//! The faults of operations and fragments, by the rules that check one of them by itself, by the
//! rules on variables or by those on the merging of fields.
use crate::facts::documents_in;
use crate::faults::written_faults;
use crate::inputs::file_name;
use gql_ast::{Definition, Document, Fault, Shared};
use gql_facts::{Fragments, Present, SchemaFacts, walk_reads};
use gql_merge::merge_faults;
use gql_report::in_order;
use gql_rules::local_faults;
use gql_types::Schema;
use gql_vars::variable_faults;
use gql_verdict::shared_faults;
use std::alloc::Global;

/// The rules that a question is about.
#[derive(Clone, Copy)]
pub enum Rules {
    Local,
    Variables,
    Merging,
}

fn faults_by(
    alloc: Global,
    world: &mut Present<'_>,
    rules: Rules,
    definition: &Definition,
) -> Option<Vec<Shared<Fault>>> {
    let Ok(walk) = walk_reads(alloc, world, definition) else {
        return None;
    };
    let members = walk.members.as_slice();
    let faults = match rules {
        Rules::Local => local_faults(alloc, world, definition, members).ok()?,
        Rules::Variables => variable_faults(alloc, world, definition, members).ok()?,
        Rules::Merging => return merge_faults(alloc, world, definition, members).ok(),
    };
    shared_faults(alloc, faults).ok()
}

/// The faults of the definitions of a document, each by itself.
fn all_faults(
    alloc: Global,
    world: &mut Present<'_>,
    rules: Rules,
    document: &Document,
) -> Option<Vec<Shared<Fault>>> {
    let mut faults = Vec::new(alloc);
    for definition in document.definitions.as_slice() {
        for fault in faults_by(alloc, world, rules, definition)? {
            faults.push(fault).ok()?;
        }
    }
    Some(faults)
}

/// The faults by these rules of the operations and fragments of a document file `d` with this
/// text, in the order of a report; `None` if the text is not a document.
pub fn operations_answer(
    alloc: Global,
    schema: &Schema,
    rules: Rules,
    text: &str,
) -> Option<String> {
    let facts = SchemaFacts::new(alloc, schema).ok()?;
    let documents = documents_in(alloc, text)?;
    let fragments = Fragments::new(alloc, &documents).ok()?;
    let mut world = Present::new(&facts, &fragments);
    let document = documents.get(&file_name(alloc, "d")?)?.get();
    let faults = all_faults(alloc, &mut world, rules, document)?;
    let report = in_order(alloc, faults).ok()?;
    written_faults(alloc, report.as_slice()).ok()
}
