//! What an edit would do, by what is found before it and what would be found after it.

ghost use Rattle.std.specs.Prelude.{◌≡◌, ◌++◌, IfOk, OnOk, map, slice_get};
ghost use Rattle.std.specs.Option.{option_to_list};
ghost use Rattle.gql_found.specs.EditChecks as spec;
ghost use Rattle.gql_found.specs.EditChecks.{IsCheckOfAny, IsEditCheck, at_places};

use crate::reported::Reported;
use gql_ast::{Fault, OperationKind, Shared, Text};
use gql_findings::{Affected, Source, compare, label_at};
use std::alloc::{AllocError, Global};

/// An operation that an edit would break or heal: its kind, its name if it has one, the path of its
/// file, where it starts there, and the fragment through which it is not served, if the fault is not
/// its own.
#[derive(Debug, Drop)]
pub struct ShownOperation {
    pub kind: OperationKind,
    pub name: Option<Text>,
    pub file: Text,
    pub line: usize,
    pub column: usize,
    pub through: Option<Text>,
}

/// What an edit would do: how many faults the report would have; the faults that it would bring and
/// those that it would mend, each in the order of its report; the operations that it would break, as
/// they would be, and those that it would heal, as they are.
#[derive(Debug, Drop)]
pub struct EditCheck {
    pub faults: u64,
    pub brought: Vec<Shared<Fault>>,
    pub mended: Vec<Shared<Fault>>,
    pub breaks: Vec<ShownOperation>,
    pub heals: Vec<ShownOperation>,
}

/// Adds the fault at a place of a report.
fn add_fault(
    faults: &[Shared<Fault>],
    place: usize,
    picked: &mut Vec<Shared<Fault>>,
) -> Result<(), AllocError>
    ensures { OnOk result (picked.new.items
        ≡ picked.old.items ++ option_to_list (slice_get faults.now place)) }
{
    if let Some(fault) = faults.get(place) {
        picked.push(fault.clone()?)?;
    }
    Ok(())
}

/// The faults at these places of a report.
fn faults_at(
    alloc: Global,
    faults: &[Shared<Fault>],
    places: &[usize],
) -> Result<Vec<Shared<Fault>>, AllocError>
    ensures { IfOk result (λ picked. picked.items ≡ at_places faults.now places.now) }
{
    let mut picked = Vec::new(alloc);
    for place in places {
        add_fault(faults, *place, &mut picked)?;
    }
    Ok(picked)
}

/// An equal name, if there is one.
fn copy_of(name: &Option<Text>) -> Result<Option<Text>, AllocError>
    ensures { IfOk result (λ copy. copy ≡ name.now) }
{
    match name {
        Some(name) => Ok(Some(name.copy()?)),
        None => Ok(None),
    }
}

/// An operation that is not served, with the path of its file.
fn shown(
    alloc: Global,
    sources: &[Source],
    operation: &Affected,
) -> Result<ShownOperation, AllocError>
    ensures { IfOk result (λ shown. shown ≡ spec.shown_in sources.now operation.now) }
{
    Ok(ShownOperation {
        kind: operation.kind,
        name: copy_of(&operation.name)?,
        file: Text::from_str(alloc, label_at(sources, &operation.spot))?,
        line: operation.spot.line,
        column: operation.spot.column,
        through: copy_of(&operation.through)?,
    })
}

/// Adds the operation at a place of a list.
fn add_shown(
    alloc: Global,
    sources: &[Source],
    affected: &[Affected],
    place: usize,
    operations: &mut Vec<ShownOperation>,
) -> Result<(), AllocError>
    ensures { OnOk result (operations.new.items ≡ operations.old.items
        ++ map (spec.shown_in sources.now) (option_to_list (slice_get affected.now place))) }
{
    if let Some(operation) = affected.get(place) {
        operations.push(shown(alloc, sources, operation)?)?;
    }
    Ok(())
}

/// The operations at these places of what is not served.
fn shown_at(
    alloc: Global,
    reported: &Reported,
    places: &[usize],
) -> Result<Vec<ShownOperation>, AllocError>
    ensures { IfOk result (λ shown. shown.items ≡ spec.shown_at reported.now places.now) }
{
    let sources = reported.found.sources.as_slice();
    let affected = reported.found.affected.as_slice();
    let mut operations = Vec::new(alloc);
    for place in places {
        add_shown(alloc, sources, affected, *place, &mut operations)?;
    }
    Ok(operations)
}

/// What an edit would do that leaves what is found after it in place of what is found before it.
pub fn check_edit(
    alloc: Global,
    before: &Reported,
    after: &Reported,
) -> Result<EditCheck, AllocError>
    ensures says { IfOk result (IsEditCheck before.now after.now) }
    ensures of_files { IfOk result (IsCheckOfAny before.now after.now) }
{
    let compared = compare(alloc, &after.found, &before.found)?;
    Ok(EditCheck {
        faults: after.faults.len() as u64,
        brought: faults_at(alloc, after.faults.as_slice(), compared.brought.as_slice())?,
        mended: faults_at(alloc, before.faults.as_slice(), compared.mended.as_slice())?,
        breaks: shown_at(alloc, after, compared.broken.as_slice())?,
        heals: shown_at(alloc, before, compared.healed.as_slice())?,
    })
}
