//! Faults of an operation or a fragment, which is their owner.
ghost use Rattle.std.specs.Prelude.{◌≡◌, ◌++◌, ◌∷◌, [], IfOk, OnOk};
ghost use Rattle.gql_rules.specs.Faults as spec;

use gql_ast::{Fault, FilePlace, FileSide, Items, Name, Rule, Text};
use gql_text::Place;
use std::alloc::{AllocError, Global};

/// A place in the owner's file.
fn in_its_file(owner: &FilePlace, place: Place) -> Result<FilePlace, AllocError>
    ensures { IfOk result (λ at. at ≡ spec.in_its_file owner.now place) }
{
    Ok(FilePlace {
        side: FileSide::Documents,
        file: owner.file.copy()?,
        place,
    })
}

/// Adds a fault at a place of the owner's file.
pub fn add_fault(
    alloc: Global,
    owner: &FilePlace,
    rule: Rule,
    about: &Text,
    place: Place,
    faults: &mut Vec<Fault>,
) -> Result<(), AllocError>
    ensures { OnOk result (faults.new.items ≡ faults.old.items
        ++ spec.fault_at owner.now rule about.now place ∷ []) }
{
    let mut places = Items::new(alloc);
    places.push(in_its_file(owner, place)?)?;
    faults.push(Fault {
        rule,
        about: about.copy()?,
        places,
        owner: Some(owner.copy()?),
    })?;
    Ok(())
}

/// Adds a fault at a name of the owner's file, about it.
pub fn add_fault_of(
    alloc: Global,
    owner: &FilePlace,
    rule: Rule,
    name: &Name,
    faults: &mut Vec<Fault>,
) -> Result<(), AllocError>
    ensures { OnOk result (faults.new.items ≡ faults.old.items
        ++ spec.fault_of owner.now rule name.now ∷ []) }
{
    add_fault(alloc, owner, rule, &name.text, name.place, faults)
}
