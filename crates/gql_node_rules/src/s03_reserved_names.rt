//! S03, Reserved Names: a name that a schema file defines begins with two underscores.
//! <https://spec.graphql.org/October2021/#sec-Names>
//!
//! At fault: `type Query { __a: Int }`
//! No fault: `type Query { _a: Int }`
ghost use Rattle.std.specs.Prelude.{◌≡◌, ◌++◌, OnOk, map, flat_map};
ghost use Rattle.gql_faults.specs.Places.{named};
ghost use Rattle.gql_node_rules.specs.S03ReservedNames as spec;

use gql_ast::{Fault, Rule};
use gql_faults::{NamePlace, add_fault_of};
use std::alloc::{AllocError, Global};

fn is_reserved(name: &str) -> bool
    ensures { result ≡ spec.is_reserved name.now }
{
    name.as_bytes().starts_with(b"__")
}

fn check_name(
    alloc: Global,
    name: &NamePlace<'_>,
    faults: &mut Vec<Fault>,
) -> Result<(), AllocError>
    ensures { OnOk result (faults.new.items ≡ faults.old.items
        ++ spec.fault_of_name (named name.now)) }
{
    if is_reserved(name.name.as_str()) {
        add_fault_of(alloc, Rule::S03, name, faults)?;
    }
    Ok(())
}

/// Adds the faults of the names that definitions give.
pub fn check(
    alloc: Global,
    names: &[NamePlace<'_>],
    faults: &mut Vec<Fault>,
) -> Result<(), AllocError>
    ensures { OnOk result (faults.new.items ≡ faults.old.items
        ++ flat_map spec.fault_of_name (map named names.now)) }
{
    for name in names {
        check_name(alloc, name, faults)?;
    }
    Ok(())
}
