//! The faults of a report, with their places in given texts and the definitions that own them.

ghost use Rattle.std.specs.Prelude.{◌≡◌, IfOk, map};
ghost use Rattle.std.specs.List.{AllZip};
ghost use Rattle.std.specs.Option.{option_copied};
ghost use Rattle.gql_found.specs.Findings.{IsFinding};
ghost use Rattle.gql_found.specs.Owners as spec;
ghost use Rattle.gql_found.specs.Owners.{IsOwnerAt};
ghost use Rattle.gql_found.specs.Spots.{spot_of};
ghost use Rattle.gql_found.specs.Steps.{IsFoundIn};
ghost use Rattle.gql_findings.specs.declared.finding.Owner.TheVariants.{TypeSystem};

use crate::home::definition_of;
use crate::sources::{Sources, start_of};
use gql_ast::{Definition, Fault, FilePlace, Files, Operation, Shared, Text, Tree};
use gql_findings::{Finding, Owner, OwnerAt, Spot, SystemKind};
use std::alloc::{AllocError, Global};

/// The name of an operation, if it has one.
pub fn name_of(operation: &Operation) -> Result<Option<Text>, AllocError>
    ensures { IfOk result (λ name. name ≡ spec.name_of operation.now) }
{
    match &operation.name {
        Some(name) => Ok(Some(name.text.copy()?)),
        None => Ok(None),
    }
}

/// The owner that a definition of the type system is.
fn system(kind: SystemKind, name: Option<&Text>) -> Result<Owner, AllocError>
    ensures { IfOk result (λ owner. owner ≡ TypeSystem kind (option_copied name.entry)) }
{
    let name = match name {
        Some(name) => Some(name.copy()?),
        None => None,
    };
    Ok(Owner::TypeSystem { kind, name })
}

/// A definition, as the owner of faults.
pub fn owner_of(tree: &Tree) -> Result<Owner, AllocError>
    ensures { IfOk result (λ owner. owner ≡ spec.owner_of tree.now) }
{
    match tree {
        Tree::Operation(operation) => {
            let operation = operation.get();
            Ok(Owner::Operation {
                kind: operation.kind,
                name: name_of(operation)?,
            })
        }
        Tree::Fragment(fragment) => Ok(Owner::Fragment(fragment.get().name.text.copy()?)),
        Tree::Schema(_) => system(SystemKind::Schema, None),
        Tree::Type(definition) => system(SystemKind::Type, Some(&definition.get().name.text)),
        Tree::Directive(definition) => {
            system(SystemKind::Directive, Some(&definition.get().name.text))
        }
        Tree::SchemaExtension(_) => system(SystemKind::SchemaExtension, None),
        Tree::TypeExtension(extension) => {
            system(SystemKind::TypeExtension, Some(&extension.get().name.text))
        }
    }
}

/// Whether a definition starts at a place of a document file.
fn is_at(place: &FilePlace, definition: &Definition) -> bool
    ensures { result ≡ spec.is_at place.now definition.now }
{
    place.file == definition.file && place.place.offset == definition.tree.place().offset
}

/// Whether a definition is before a place, by the names of the files and then by the offsets.
fn is_before(definition: &Definition, place: &FilePlace) -> bool {
    let by_file = definition.file.cmp(&place.file);
    let order = by_file.then(definition.tree.place().offset.cmp(&place.place.offset));
    order.is_lt()
}

/// The first of these definitions that starts at a place.
fn first_at<'d>(definitions: &[&'d Definition], place: &FilePlace) -> Option<&'d Definition>
    ensures { IsFoundIn (map (λ d. d.now) definitions.now) place.now (option_copied result) }
{
    for definition in definitions {
        if is_at(place, definition) {
            return Some(*definition);
        }
    }
    None
}

/// The one of these definitions that starts at a place. They are in order, so that it is at the
/// first index where it can be.
fn find_at<'d>(definitions: &[&'d Definition], place: &FilePlace) -> Option<&'d Definition>
    ensures { IsFoundIn (map (λ d. d.now) definitions.now) place.now (option_copied result) }
{
    let at = definitions.partition_point(|definition| is_before(definition, place));
    if let Some(near) = definitions.get(at) {
        if is_at(place, near) {
            return Some(*near);
        }
    }
    first_at(definitions, place)
}

/// The definition that owns a fault, and where it starts.
fn owner_at(
    definitions: &[&Definition],
    sources: &Sources,
    owner: &Option<FilePlace>,
) -> Result<Option<OwnerAt>, AllocError>
    ensures { IfOk result (IsOwnerAt sources.now (map (λ d. d.now) definitions.now) owner.now) }
{
    let Some(place) = owner else {
        return Ok(None);
    };
    let Some(definition) = find_at(definitions, place) else {
        return Ok(None);
    };
    let start = start_of(definition)?;
    Ok(Some(OwnerAt {
        owner: owner_of(&definition.tree)?,
        spot: sources.spot(&start),
    }))
}

/// Places of a report, as places in given texts.
fn spots_of(alloc: Global, sources: &Sources, at: &[FilePlace]) -> Result<Vec<Spot>, AllocError>
    ensures { IfOk result (λ spots. spots.items ≡ map (spot_of sources.now) at.now) }
{
    let mut spots = Vec::new(alloc);
    for place in at {
        spots.push(sources.spot(place))?;
    }
    Ok(spots)
}

/// A fault of a report, with its places and its owner.
fn finding_of(
    alloc: Global,
    files: &Files,
    definitions: &[&Definition],
    sources: &Sources,
    fault: &Fault,
) -> Result<Finding, AllocError>
    ensures { IfOk result
        (IsFinding sources.now files.now (map (λ d. d.now) definitions.now) fault.now) }
{
    Ok(Finding {
        rule: fault.rule,
        about: fault.about.copy()?,
        spots: spots_of(alloc, sources, fault.places.as_slice())?,
        owner: owner_at(definitions, sources, &fault.owner)?,
        definition: definition_of(files, fault)?,
    })
}

/// The faults of a report of these files. These are the definitions of the document files.
pub fn findings_of(
    alloc: Global,
    files: &Files,
    definitions: &[&Definition],
    sources: &Sources,
    faults: &[Shared<Fault>],
) -> Result<Vec<Finding>, AllocError>
    ensures { IfOk result (λ findings. AllZip
        (IsFinding sources.now files.now (map (λ d. d.now) definitions.now))
        faults.now findings.items) }
{
    let mut findings = Vec::new(alloc);
    for fault in faults {
        findings.push(finding_of(alloc, files, definitions, sources, fault.get())?)?;
    }
    Ok(findings)
}
