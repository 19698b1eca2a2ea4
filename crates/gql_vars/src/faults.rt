//! Faults of an operation at uses of variables.
ghost use Rattle.std.specs.Prelude.{◌≡◌, ◌++◌, ◌∷◌, [], IfOk, OnOk};
ghost use Rattle.gql_vars.specs.Faults as spec;
ghost use Rattle.gql_vars.specs.Lists.{use_of};

use crate::uses::VariableUse;
use gql_ast::{Fault, FilePlace, FileSide, Items, Rule};
use std::alloc::{AllocError, Global};

/// Where a use is.
fn place_of(used: &VariableUse<'_>) -> Result<FilePlace, AllocError>
    ensures { IfOk result (λ at. at ≡ spec.place_of (use_of used.now)) }
{
    Ok(FilePlace {
        side: FileSide::Documents,
        file: used.file.copy()?,
        place: used.place,
    })
}

/// Adds a fault at a use, about the variable.
pub fn add_fault_of_use(
    alloc: Global,
    owner: &FilePlace,
    rule: Rule,
    used: &VariableUse<'_>,
    faults: &mut Vec<Fault>,
) -> Result<(), AllocError>
    ensures { OnOk result (faults.new.items ≡ faults.old.items
        ++ spec.fault_of_use owner.now rule (use_of used.now) ∷ []) }
{
    let mut places = Items::new(alloc);
    places.push(place_of(used)?)?;
    faults.push(Fault {
        rule,
        about: used.name.copy()?,
        places,
        owner: Some(owner.copy()?),
    })?;
    Ok(())
}
