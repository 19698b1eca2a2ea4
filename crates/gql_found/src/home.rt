//! The definition that a fault of a schema is in.

ghost use Rattle.std.specs.Prelude.{◌≡◌, if◌then◌else◌, Some, IfOk};
ghost use Rattle.std.specs.Option.{option_copied};
ghost use Rattle.gql_found.specs.Homes as spec;

use crate::finding::owner_of;
use gql_ast::{Definition, Fault, FilePlace, FileSide, Files};
use gql_findings::Owner;
use std::alloc::AllocError;

/// Whether a definition starts at or before an offset.
fn starts_by(definition: &Definition, offset: usize) -> bool
    ensures { result ≡ spec.starts_by offset definition.now }
{
    definition.tree.place().offset <= offset
}

/// A definition, if it starts at or before an offset, or else the one found before.
fn later<'d>(
    last: Option<&'d Definition>,
    definition: &'d Definition,
    offset: usize,
) -> Option<&'d Definition>
    ensures { option_copied result ≡ (if spec.starts_by offset definition.now
        then Some definition.now else option_copied last.entry) }
{
    if starts_by(definition, offset) {
        Some(definition)
    } else {
        last
    }
}

/// The last of these definitions that starts at or before an offset.
fn last_by(definitions: &[Definition], offset: usize) -> Option<&Definition>
    ensures { option_copied result ≡ spec.last_by offset definitions.now }
{
    let mut last = None;
    for definition in definitions {
        last = later(last, definition, offset);
    }
    last
}

/// The definitions of the file of a place; none if there is no such file.
fn definitions_at<'f>(files: &'f Files, place: &FilePlace) -> &'f [Definition]
    ensures { result.now ≡ spec.definitions_at files.now place.now }
{
    let files = match place.side {
        FileSide::Schema => &files.schema,
        FileSide::Documents => &files.documents,
    };
    match files.get(&place.file) {
        Some(document) => document.get().definitions.as_slice(),
        None => &[],
    }
}

/// The definition that a place is in.
fn home_at(files: &Files, place: &FilePlace) -> Result<Option<Owner>, AllocError>
    ensures { IfOk result (λ home. home ≡ spec.home_at files.now (Some place.now)) }
{
    match last_by(definitions_at(files, place), place.place.offset) {
        Some(definition) => Ok(Some(owner_of(&definition.tree)?)),
        None => Ok(None),
    }
}

/// The definition that a fault is in, if it has no owner.
pub fn definition_of(files: &Files, fault: &Fault) -> Result<Option<Owner>, AllocError>
    ensures { IfOk result (λ definition. definition ≡ spec.definition_of files.now fault.now) }
{
    if fault.owner.is_some() {
        return Ok(None);
    }
    match fault.places.as_slice().first() {
        Some(place) => home_at(files, place),
        None => Ok(None),
    }
}
