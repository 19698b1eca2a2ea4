//! S30, Bad Locations: a directive is applied at a location that it does not list.
//! <https://spec.graphql.org/October2021/#sec-Type-System.Directives>
//! <https://spec.graphql.org/October2021/#sec-Directives-Are-In-Valid-Locations>
//!
//! At fault: `type Query { a: Int @d } directive @d on ENUM`
//! No fault: `type Query { a: Int @d } directive @d on FIELD_DEFINITION`
ghost use Rattle.std.specs.Prelude.{◌≡◌, ◌++◌, Some, OnOk, map, flat_map};
ghost use Rattle.gql_node_rules.specs.Borrowed.{application};
ghost use Rattle.gql_node_rules.specs.Resolved.{resolution};
ghost use Rattle.gql_node_rules.specs.S30BadLocations as spec;

use crate::applied::Applied;
use crate::resolved::Resolved;
use crate::signature::Signature;
use gql_ast::{Fault, Rule};
use gql_faults::add_fault;
use std::alloc::{AllocError, Global};

fn check_known(
    alloc: Global,
    signature: &Signature<'_>,
    applied: &Applied<'_>,
    faults: &mut Vec<Fault>,
) -> Result<(), AllocError>
    ensures { OnOk result (faults.new.items ≡ faults.old.items
        ++ spec.fault_by (Some signature.now.definition.now) (application applied.now)) }
{
    if !signature.lists(applied.location) {
        add_fault(alloc, Rule::S30, applied.name(), &applied.spot(), faults)?;
    }
    Ok(())
}

fn check_applied(
    alloc: Global,
    resolved: &Resolved<'_, '_, '_>,
    faults: &mut Vec<Fault>,
) -> Result<(), AllocError>
    ensures { OnOk result (faults.new.items ≡ faults.old.items
        ++ spec.fault_by (resolution resolved.now).known (resolution resolved.now).application) }
{
    match resolved.signature {
        Some(signature) => check_known(alloc, signature, &resolved.applied, faults),
        None => Ok(()),
    }
}

/// Adds the faults of the locations of applied directives.
pub fn check(
    alloc: Global,
    all: &[Resolved<'_, '_, '_>],
    faults: &mut Vec<Fault>,
) -> Result<(), AllocError>
    ensures { OnOk result (faults.new.items ≡ faults.old.items
        ++ flat_map (λ r. spec.fault_by r.known r.application) (map resolution all.now)) }
{
    for resolved in all {
        check_applied(alloc, resolved, faults)?;
    }
    Ok(())
}
