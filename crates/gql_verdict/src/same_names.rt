//! Edits of a document file that change nothing that the rules on names see.
ghost use Rattle.std.specs.Prelude.{◌↔◌, ◌≡◌, IfOk, IsTrue, option_map};
ghost use Rattle.gql_verdict.specs.DocumentEdits.{with_document};
ghost use Rattle.gql_verdict.specs.NameViews as spec;

use crate::spreads::has_same_spreads;
use gql_ast::{Definition, Document, FileName, Files, Name, Tree};
use gql_types::is_same_name;
use std::alloc::{AllocError, Global};

/// Whether two operations have the same name, or none has a name.
fn has_same_title(name: &Option<Name>, other: &Option<Name>) -> bool
    ensures { IsTrue result
        ↔ (option_map (λ n. n.text) name.now ≡ option_map (λ n. n.text) other.now) }
{
    match (name, other) {
        (Some(name), Some(other)) => is_same_name(name.as_str(), other.as_str()),
        (None, None) => true,
        _ => false,
    }
}

/// Whether a definition is one of the type system: neither an operation nor a fragment.
fn is_of_types(tree: &Tree) -> bool
    ensures { IsTrue result ↔ (spec.titled tree.now ≡ spec.of_types) }
{
    match tree {
        Tree::Operation(_) | Tree::Fragment(_) => false,
        _ => true,
    }
}

/// Whether both definitions are operations, or both are fragments, of the same name, or both are of
/// the type system.
fn is_titled_alike(tree: &Tree, other: &Tree) -> bool
    ensures { IsTrue result ↔ (spec.titled tree.now ≡ spec.titled other.now) }
{
    match tree {
        Tree::Operation(one) => match other {
            Tree::Operation(two) => has_same_title(&one.get().name, &two.get().name),
            _ => false,
        },
        Tree::Fragment(one) => match other {
            Tree::Fragment(two) => {
                is_same_name(one.get().name.as_str(), two.get().name.as_str())
            }
            _ => false,
        },
        _ => is_of_types(other),
    }
}

/// Whether the rules on names see the same of two definitions.
fn looks_alike(
    alloc: Global,
    definition: &Definition,
    other: &Definition,
) -> Result<bool, AllocError>
    ensures { IfOk result (λ alike.
        IsTrue alike ↔ (spec.view_of definition.now ≡ spec.view_of other.now)) }
{
    if !is_titled_alike(&definition.tree, &other.tree) {
        return Ok(false);
    }
    let same = has_same_spreads(alloc, &definition.tree, &other.tree)?;
    Ok(same)
}

/// Whether the rules on names see the same of these definitions, in the same order.
fn look_alike(
    alloc: Global,
    definitions: &[Definition],
    others: &[Definition],
) -> Result<bool, AllocError>
    ensures { IfOk result (λ alike.
        IsTrue alike ↔ (spec.views_of definitions.now ≡ spec.views_of others.now)) }
{
    if definitions.len() != others.len() {
        return Ok(false);
    }
    for i in 0..definitions.len() {
        let alike = looks_alike(alloc, &definitions[i], &others[i])?;
        if !alike {
            return Ok(false);
        }
    }
    Ok(true)
}

/// Whether the rules on names see the same of a document file that is put as of the file in its place,
/// if one is there: its definitions are of the same kinds and names, in the same order, and spread the
/// same names. If these rules found no fault before such an edit, they find none after it.
pub fn keeps_names(
    alloc: Global,
    files: &Files,
    name: &FileName,
    document: &Document,
) -> Result<bool, AllocError>
    ensures sound { IfOk result (λ keeps. IsTrue keeps → spec.KeepsNamesSound files.now
        (with_document files.now name.now document.now)) }
    ensures exact { IfOk result (λ keeps.
        IsTrue keeps ↔ spec.SeesTheSame files.now.documents name.now document.now) }
{
    let _in_order = files.documents.entries();
    let Some(before) = files.documents.get(name) else {
        return Ok(false);
    };
    let before = before.get().definitions.as_slice();
    let alike = look_alike(alloc, before, document.definitions.as_slice())?;
    Ok(alike)
}
