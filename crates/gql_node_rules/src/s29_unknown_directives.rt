//! S29, Unknown Directives: an applied directive is not defined.
//! <https://spec.graphql.org/October2021/#sec-Directives-Are-Defined>
//!
//! At fault: `type Query { a: Int @d }`
//! No fault: `type Query { a: Int @d } directive @d on FIELD_DEFINITION`
ghost use Rattle.std.specs.Prelude.{◌≡◌, ◌++◌, OnOk, map, flat_map};
ghost use Rattle.gql_node_rules.specs.Resolved.{resolution, undefined};

use crate::resolved::Resolved;
use gql_ast::{Fault, Rule};
use gql_faults::add_fault;
use std::alloc::{AllocError, Global};

fn check_applied(
    alloc: Global,
    resolved: &Resolved<'_, '_, '_>,
    faults: &mut Vec<Fault>,
) -> Result<(), AllocError>
    ensures { OnOk result (faults.new.items ≡ faults.old.items
        ++ undefined (resolution resolved.now)) }
{
    if resolved.signature.is_none() {
        let applied = &resolved.applied;
        add_fault(alloc, Rule::S29, applied.name(), &applied.spot(), faults)?;
    }
    Ok(())
}

/// Adds the faults of applied directives.
pub fn check(
    alloc: Global,
    all: &[Resolved<'_, '_, '_>],
    faults: &mut Vec<Fault>,
) -> Result<(), AllocError>
    ensures { OnOk result (faults.new.items ≡ faults.old.items
        ++ flat_map undefined (map resolution all.now)) }
{
    for resolved in all {
        check_applied(alloc, resolved, faults)?;
    }
    Ok(())
}
