//! V13, Fragments On Composite Types: a type condition names a type that is not composite.
//! <https://spec.graphql.org/October2021/#sec-Fragments-On-Composite-Types>
//!
//! At fault: `{ pet { ... on Int { name } } }`
//! No fault: `{ pet { ... on Dog { name } } }`
ghost use Rattle.std.specs.Prelude.{◌≡◌, ◌++◌, OnOk};
ghost use Rattle.gql_rules.specs.V13FragmentsOnCompositeTypes as spec;

use crate::faults::add_fault_of;
use gql_ast::{Fault, FilePlace, Name, Rule};
use gql_types::TypeKind;
use std::alloc::{AllocError, Global};

/// Adds the fault of a type condition, if the kind of the type is known and not composite.
pub fn check(
    alloc: Global,
    owner: &FilePlace,
    condition: &Name,
    kind: Option<TypeKind>,
    faults: &mut Vec<Fault>,
) -> Result<(), AllocError>
    ensures { OnOk result (faults.new.items ≡ faults.old.items
        ++ spec.faults_by owner.now condition.now kind) }
{
    let Some(kind) = kind else {
        return Ok(());
    };
    if !kind.is_composite() {
        add_fault_of(alloc, owner, Rule::V13, condition, faults)?;
    }
    Ok(())
}
