//! The definitions of documents, and the operations among them.

ghost use Rattle.std.specs.Prelude.{◌≡◌, ◌++◌, IfOk, OnOk, flat_map, map};
ghost use Rattle.gql_found.specs.Findings.{operation_in};
ghost use Rattle.gql_verdict.specs.Definitions.{all_definitions};

use crate::finding::name_of;
use crate::sources::{Sources, start_of};
use gql_ast::{Definition, Document, FileMap, Shared, Tree};
use gql_findings::OperationAt;
use std::alloc::{AllocError, Global};

/// Adds the definitions of a file.
fn add_definitions<'t>(
    definitions: &'t [Definition],
    all: &mut Vec<&'t Definition>,
) -> Result<(), AllocError>
    ensures { OnOk result (map (λ d. d.now) all.new.items
        ≡ map (λ d. d.now) all.old.items ++ definitions.now) }
{
    for definition in definitions {
        all.push(definition)?;
    }
    Ok(())
}

/// All definitions of the document files, in the order of the files' names and of their places.
pub fn definitions_of<'t>(
    alloc: Global,
    documents: &'t FileMap<Shared<Document>>,
) -> Result<Vec<&'t Definition>, AllocError>
    ensures { IfOk result (λ all. map (λ d. d.now) all.items ≡ all_definitions documents.now) }
{
    let mut all = Vec::new(alloc);
    for (_name, document) in documents.entries().iter() {
        add_definitions(document.get().definitions.as_slice(), &mut all)?;
    }
    Ok(all)
}

/// Adds a definition, if it is an operation.
fn add_operation(
    sources: &Sources,
    definition: &Definition,
    operations: &mut Vec<OperationAt>,
) -> Result<(), AllocError>
    ensures { OnOk result (operations.new.items
        ≡ operations.old.items ++ operation_in sources.now definition.now) }
{
    if let Tree::Operation(operation) = &definition.tree {
        let operation = operation.get();
        let start = start_of(definition)?;
        operations.push(OperationAt {
            kind: operation.kind,
            name: name_of(operation)?,
            spot: sources.spot(&start),
        })?;
    }
    Ok(())
}

/// The operations among these definitions.
pub fn operations_of(
    alloc: Global,
    sources: &Sources,
    definitions: &[&Definition],
) -> Result<Vec<OperationAt>, AllocError>
    ensures { IfOk result (λ operations. operations.items
        ≡ flat_map (operation_in sources.now) (map (λ d. d.now) definitions.now)) }
{
    let mut operations = Vec::new(alloc);
    for definition in definitions {
        add_operation(sources, definition, &mut operations)?;
    }
    Ok(operations)
}
