//! S20, Unknown Types: a reference names no type.
//! <https://spec.graphql.org/October2021/#sec-Schema>
//!
//! At fault: `type Query { a: A }`
//! No fault: `type Query { a: A } type A { b: Int }`
ghost use Rattle.std.specs.Prelude.{◌≡◌, ◌++◌, OnOk, map, flat_map};
ghost use Rattle.gql_node_rules.specs.Resolved.{reference, unknown};

use crate::p01_float_references::is_float;
use crate::references::Reference;
use gql_ast::{Fault, Rule};
use gql_faults::add_fault_of;
use std::alloc::{AllocError, Global};

fn check_reference(
    alloc: Global,
    referring: &Reference<'_>,
    faults: &mut Vec<Fault>,
) -> Result<(), AllocError>
    ensures { OnOk result (faults.new.items ≡ faults.old.items
        ++ unknown (reference referring.now)) }
{
    if referring.kind.is_none() && !is_float(referring.name.name.as_str()) {
        add_fault_of(alloc, Rule::S20, &referring.name, faults)?;
    }
    Ok(())
}

/// Adds the faults of references.
pub fn check(
    alloc: Global,
    references: &[Reference<'_>],
    faults: &mut Vec<Fault>,
) -> Result<(), AllocError>
    ensures { OnOk result (faults.new.items ≡ faults.old.items
        ++ flat_map unknown (map reference references.now)) }
{
    for referring in references {
        check_reference(alloc, referring, faults)?;
    }
    Ok(())
}
