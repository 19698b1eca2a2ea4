//! Faults at places of schema files.
ghost use Rattle.std.specs.Prelude.{◌≡◌, ◌++◌, ◌∷◌, [], OnOk, IfOk, map};
ghost use Rattle.gql_faults.specs.Faults as spec;
ghost use Rattle.gql_faults.specs.Places.{named, spot};

use crate::place::{NamePlace, Spot};
use gql_ast::{Fault, FileName, FilePlace, FileSide, Items, Rule, Text};
use gql_text::Place;
use std::alloc::{AllocError, Global};

/// A place of a schema file.
fn in_file(file: &FileName, place: Place) -> Result<FilePlace, AllocError>
    ensures { IfOk result (λ at. at ≡ spec.in_file file.now place) }
{
    Ok(FilePlace {
        side: FileSide::Schema,
        file: file.copy()?,
        place,
    })
}

/// A fault of the schema, which has no owner.
fn fault(
    alloc: Global,
    rule: Rule,
    about: &str,
    places: Items<FilePlace>,
) -> Result<Fault, AllocError>
    ensures { IfOk result (λ fault. fault ≡ spec.fault rule about.now places) }
{
    Ok(Fault {
        rule,
        about: Text::from_str(alloc, about)?,
        places,
        owner: None,
    })
}

/// One place as the places of a fault.
fn one_place(alloc: Global, file: &FileName, place: Place) -> Result<Items<FilePlace>, AllocError>
    ensures { IfOk result (λ places. places ≡ spec.in_file file.now place ∷ []) }
{
    let mut places = Items::new(alloc);
    places.push(in_file(file, place)?)?;
    Ok(places)
}

/// Adds a fault at a place, if that is in a schema file.
pub fn add_fault(
    alloc: Global,
    rule: Rule,
    about: &str,
    at: &Spot<'_>,
    faults: &mut Vec<Fault>,
) -> Result<(), AllocError>
    ensures { OnOk result (faults.new.items ≡ faults.old.items
        ++ spec.fault_at rule about.now (spot at.now)) }
{
    if let Some(file) = at.file {
        let places = one_place(alloc, file, at.place)?;
        faults.push(fault(alloc, rule, about, places)?)?;
    }
    Ok(())
}

/// Two places as the places of a fault.
fn two_places(
    alloc: Global,
    file: &FileName,
    place: Place,
    second_file: &FileName,
    second: Place,
) -> Result<Items<FilePlace>, AllocError>
    ensures { IfOk result
        (λ places. places
        ≡ spec.in_file file.now place ∷ spec.in_file second_file.now second ∷ []) }
{
    let mut places = Items::new(alloc);
    places.push(in_file(file, place)?)?;
    places.push(in_file(second_file, second)?)?;
    Ok(places)
}

/// Adds a fault at two places, if both are in schema files.
pub fn add_fault_between(
    alloc: Global,
    rule: Rule,
    about: &str,
    first: &Spot<'_>,
    second: &Spot<'_>,
    faults: &mut Vec<Fault>,
) -> Result<(), AllocError>
    ensures { OnOk result (faults.new.items ≡ faults.old.items
        ++ spec.fault_between rule about.now (spot first.now) (spot second.now)) }
{
    if let Some(file) = first.file {
        if let Some(second_file) = second.file {
            let places = two_places(alloc, file, first.place, second_file, second.place)?;
            faults.push(fault(alloc, rule, about, places)?)?;
        }
    }
    Ok(())
}

/// Adds a fault at a name, about it.
pub fn add_fault_of(
    alloc: Global,
    rule: Rule,
    name: &NamePlace<'_>,
    faults: &mut Vec<Fault>,
) -> Result<(), AllocError>
    ensures { OnOk result (faults.new.items ≡ faults.old.items
        ++ spec.fault_of rule (named name.now)) }
{
    add_fault(alloc, rule, name.name.as_str(), &name.spot(), faults)
}

/// Adds a fault at each of these names, about it.
pub fn add_faults(
    alloc: Global,
    rule: Rule,
    names: &[NamePlace<'_>],
    faults: &mut Vec<Fault>,
) -> Result<(), AllocError>
    ensures { OnOk result (faults.new.items ≡ faults.old.items
        ++ spec.faults_of rule (map named names.now)) }
{
    for name in names {
        add_fault_of(alloc, rule, name, faults)?;
    }
    Ok(())
}
