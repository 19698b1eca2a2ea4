//! V12, Fragment Spread Type Existence: a type condition names no type.
//! <https://spec.graphql.org/October2021/#sec-Fragment-Spread-Type-Existence>
//!
//! At fault: `{ pet { ... on Wolf { name } } }`
//! No fault: `{ pet { ... on Dog { name } } }`
ghost use Rattle.std.specs.Prelude.{◌≡◌, ◌++◌, OnOk};
ghost use Rattle.gql_rules.specs.V12FragmentSpreadTypeExistence as spec;

use crate::faults::add_fault_of;
use gql_ast::{Fault, FilePlace, Name, Rule};
use gql_types::TypeKind;
use std::alloc::{AllocError, Global};

/// Adds the fault of a type condition, if the kind of the type is not known.
pub fn check(
    alloc: Global,
    owner: &FilePlace,
    condition: &Name,
    kind: Option<TypeKind>,
    faults: &mut Vec<Fault>,
) -> Result<(), AllocError>
    ensures { OnOk result (faults.new.items ≡ faults.old.items
        ++ spec.faults_by owner.now condition.now kind) }
{
    match kind {
        None => add_fault_of(alloc, owner, Rule::V12, condition, faults),
        Some(_) => Ok(()),
    }
}
