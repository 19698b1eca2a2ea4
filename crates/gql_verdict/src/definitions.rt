//! The definitions of all document files, and their names.
ghost use Rattle.std.specs.Prelude.{◌≡◌, ◌++◌, IfOk, OnOk, map, option_map};
ghost use Rattle.gql_verdict.specs.Definitions as spec;
ghost use Rattle.gql_verdict.specs.FileOrder.{AreFilesPlaced, InFileOrder};

use gql_ast::{Definition, Document, FileMap, Name, Shared, Tree};
use std::alloc::{AllocError, Global};

/// Adds the definitions of a file.
fn add_definitions<'t>(
    definitions: &'t [Definition],
    all: &mut Vec<&'t Definition>,
) -> Result<(), AllocError>
    ensures { OnOk result (map (λ d. d.now) all.new.items
        ≡ map (λ d. d.now) all.old.items ++ definitions.now) }
{
    for definition in definitions {
        all.push(definition)?;
    }
    Ok(())
}

/// The definitions of one file.
pub fn definitions_in<'t>(
    alloc: Global,
    definitions: &'t [Definition],
) -> Result<Vec<&'t Definition>, AllocError>
    ensures { IfOk result (λ all. map (λ d. d.now) all.items ≡ definitions.now) }
{
    let mut all = Vec::new(alloc);
    add_definitions(definitions, &mut all)?;
    Ok(all)
}

/// The definitions of all document files, in the order of the files' names. That is file order, if
/// each file has its own definitions at rising places.
pub fn all_definitions<'t>(
    alloc: Global,
    documents: &'t FileMap<Shared<Document>>,
) -> Result<Vec<&'t Definition>, AllocError>
    ensures all { IfOk result (λ all.
        map (λ d. d.now) all.items ≡ spec.all_definitions documents.now) }
    ensures order { AreFilesPlaced documents.now
        → InFileOrder (spec.all_definitions documents.now) }
{
    let mut all = Vec::new(alloc);
    for (_name, document) in documents.entries().iter() {
        add_definitions(document.get().definitions.as_slice(), &mut all)?;
    }
    Ok(all)
}

/// Whether a definition is an operation.
pub fn is_operation(tree: &Tree) -> bool
    ensures { result ≡ spec.is_operation tree.now }
{
    match tree {
        Tree::Operation(_) => true,
        _ => false,
    }
}

/// The name of an operation that has one.
pub fn operation_name(tree: &Tree) -> Option<&Name>
    ensures { option_map (λ n. n.now) result ≡ spec.operation_name tree.now }
{
    match tree {
        Tree::Operation(operation) => operation.get().name.as_ref(),
        _ => None,
    }
}

/// The name of a fragment.
pub fn fragment_name(tree: &Tree) -> Option<&Name>
    ensures { option_map (λ n. n.now) result ≡ spec.fragment_name tree.now }
{
    match tree {
        Tree::Fragment(fragment) => Some(&fragment.get().name),
        _ => None,
    }
}
