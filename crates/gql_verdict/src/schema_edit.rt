//! What an edit of a schema file may have changed.
ghost use Rattle.std.specs.Prelude.{◌≡◌, ◌↔◌, ◌<◌, ◌+◌, ◌++◌, IfOk, IsTrue, OnOk, length, slice_index_or, take};
ghost use Rattle.gql_facts.specs.declared.schema_facts.TypeEntry.{TypeEntry};
ghost use Rattle.gql_verdict.specs.SchemaEdits as spec;

use crate::touched::{SchemaEdit, Touched};
use gql_ast::{Text, same_option};
use gql_facts::SchemaFacts;
use gql_types::Named;
use std::alloc::{AllocError, Global};

/// Whether the type at a place after the edit has the same possible types as before.
fn has_same_possible(before: &SchemaFacts, after: &SchemaFacts, place: usize) -> bool
    requires { place < length after.now.types }
    ensures { (e : TypeEntry) → slice_index_or after.now.types place e ≡ e
        → IsTrue result ↔ spec.IsSamePossible before.now e }
{
    let types = after.types.as_slice();
    let entry = types[place].get();
    match before.types.get_near(place, entry.name.as_str()) {
        Some(earlier) => same_option(&entry.possible, &earlier.get().possible),
        None => entry.possible.is_none(),
    }
}

/// Adds the name of the type at a place after the edit, if it has other possible types than before.
fn add_moved(
    before: &SchemaFacts,
    after: &SchemaFacts,
    place: usize,
    names: &mut Vec<Text>,
) -> Result<(), AllocError>
    requires { place < length after.now.types }
    ensures { OnOk result (spec.AreMoved before.now (take place after.now.types) names.old.items
        → spec.AreMoved before.now (take (place + 1) after.now.types) names.new.items) }
{
    if has_same_possible(before, after, place) {
        return Ok(());
    }
    let types = after.types.as_slice();
    names.push(types[place].get().name.copy()?)?;
    Ok(())
}

/// The names of the types that have other possible types after the edit than before.
fn moved_types(
    alloc: Global,
    before: &SchemaFacts,
    after: &SchemaFacts,
) -> Result<Vec<Text>, AllocError>
    ensures { IfOk result (λ names. spec.AreMoved before.now after.now.types names.items) }
{
    let mut names = Vec::new(alloc);
    for place in 0..after.types.as_slice().len() {
        add_moved(before, after, place, &mut names)?;
    }
    Ok(names)
}

/// Adds copies of names.
fn add_copies(names: &[Text], copies: &mut Vec<Text>) -> Result<(), AllocError>
    ensures { OnOk result (copies.new.items ≡ copies.old.items ++ names.now) }
{
    for name in names {
        copies.push(name.copy()?)?;
    }
    Ok(())
}

impl Touched {
    /// What an edit of a schema file that changes types of these names alone touches, by the facts
    /// of the schema before and after it. That it changes nothing else is the law `edit_schema`.
    pub fn by_schema_edit(
        alloc: Global,
        before: &SchemaFacts,
        after: &SchemaFacts,
        edited: &Named<Text>,
    ) -> Result<Touched, AllocError>
        ensures { IfOk result (spec.IsTouchedBySchema before.now after.now edited.now) }
    {
        let mut moved = moved_types(alloc, before, after)?;
        let mut types = Vec::new(alloc);
        add_copies(edited.as_slice(), &mut types)?;
        types.append(&mut moved)?;
        Ok(Touched::Schema(SchemaEdit {
            types: Named::new(alloc, types)?,
        }))
    }
}
