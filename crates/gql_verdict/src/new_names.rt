//! Document files that bring only new names, and that use the fragments that they bring.
ghost use Rattle.std.specs.Prelude.{◌↔◌, ◌≡◌, [], Contains, IfOk, IsTrue, map};
ghost use Rattle.gql_facts.specs.Facts.{fragments as fragments_of};
ghost use Rattle.gql_verdict.specs.Definitions.{all_definitions};
ghost use Rattle.gql_verdict.specs.DocumentEdits.{name_of, with_document};
ghost use Rattle.gql_verdict.specs.NameFaults.{faults_of as faults_of_names};
ghost use Rattle.gql_verdict.specs.NameViews.{KeepsNamesSound, titled};
ghost use Rattle.gql_verdict.specs.NewNames as spec;
ghost use Rattle.gql_verdict.specs.Spreads.{Names};

use crate::definitions::definitions_in;
use crate::names::faults_of;
use gql_ast::{Definition, Document, FileName, Files, Tree};
use gql_facts::Fragments;
use gql_types::{HasName, Named};
use std::alloc::{AllocError, Global};

/// Names that can be looked up.
pub trait NameSet {
    ghost names: { Self → Names };

    /// Whether it is one of the names.
    fn has(&self, name: &str) -> bool
        ensures { IsTrue result ↔ Contains (names self.now) name.now };

    /// Whether there are no names.
    fn is_empty(&self) -> bool
        ensures { IsTrue result ↔ (names self.now ≡ []) };
}

/// Whether none of these has a name.
fn is_free<T: HasName>(all: &Named<T>, name: &str) -> bool
    ensures { IsTrue result ↔ spec.IsNoneOf (map T.name all.now) name.now }
{
    all.get(name).is_none()
}

/// Whether an operation of this name is none of these.
fn is_new<O: NameSet>(operations: &O, name: &str) -> bool
    ensures { IsTrue result ↔ spec.IsNoneOf (O.names operations.now) name.now }
{
    !operations.has(name)
}

/// Whether a definition is an operation or a fragment with a name, and none of its kind among these
/// has it.
fn has_new_name<O: NameSet>(tree: &Tree, operations: &O, fragments: &Fragments) -> bool
    ensures { IsTrue result ↔ spec.HasNewName (O.names operations.now)
        (map name_of fragments.now.all) (titled tree.now) }
{
    match tree {
        Tree::Operation(operation) => match &operation.get().name {
            Some(name) => is_new(operations, name.as_str()),
            None => false,
        },
        Tree::Fragment(fragment) => is_free(&fragments.all, fragment.get().name.as_str()),
        _ => false,
    }
}

/// Whether each of these definitions is such an operation or fragment.
fn have_new_names<O: NameSet>(
    definitions: &[Definition],
    operations: &O,
    fragments: &Fragments,
) -> bool
    ensures { IsTrue result ↔ spec.HaveNewNames (O.names operations.now)
        (map name_of fragments.now.all) definitions.now }
{
    for definition in definitions {
        if !has_new_name(&definition.tree, operations, fragments) {
            return false;
        }
    }
    true
}

/// Whether no rule on names finds a fault in these definitions alone.
fn are_sound_alone(alloc: Global, definitions: &[Definition]) -> Result<bool, AllocError>
    ensures { IfOk result (λ sound. IsTrue sound ↔ (faults_of_names definitions.now ≡ [])) }
{
    let all = definitions_in(alloc, definitions)?;
    let faults = faults_of(alloc, all.as_slice())?;
    Ok(faults.is_empty())
}

/// Whether a document file that is put brings only new names, and uses the fragments that it brings.
/// No file of its name is there; each of its definitions is an operation or a fragment with a name
/// that none in the other files has; no rule on names finds a fault in the file alone; and an
/// operation with a name is there before, so that none is without one. If these rules found no fault
/// before such an edit, they find none after it. Names are looked up among the operations and the
/// fragments before it.
pub fn brings_new_names<O: NameSet>(
    alloc: Global,
    files: &Files,
    name: &FileName,
    document: &Document,
    operations: &O,
    fragments: &Fragments,
) -> Result<bool, AllocError>
    requires operations { spec.HaveSameNames (O.names operations.now)
        (spec.names_of_operations (all_definitions files.now.documents)) }
    requires fragments { fragments.now.all ≡ fragments_of files.now.documents }
    ensures sound { IfOk result (λ brings. IsTrue brings → KeepsNamesSound files.now
        (with_document files.now name.now document.now)) }
    ensures exact { IfOk result (λ brings. IsTrue brings
        ↔ spec.BringsNewNames files.now.documents name.now document.now) }
{
    if files.documents.get(name).is_some() || operations.is_empty() {
        return Ok(false);
    }
    let definitions = document.definitions.as_slice();
    if !have_new_names(definitions, operations, fragments) {
        return Ok(false);
    }
    let sound = are_sound_alone(alloc, definitions)?;
    Ok(sound)
}
