//! P01, Float References: a schema file refers to Float, which only --profile october-2021 serves.
//! It is this registry's own rule.
//!
//! At fault: `type Query { a: Float }`
//! No fault: `type Query { a: Int }`
ghost use Rattle.std.specs.Prelude.{◌≡◌, ◌++◌, OnOk, map, flat_map};
ghost use Rattle.gql_node_rules.specs.Resolved.{reference, to_float};
ghost use Rattle.gql_node_rules.specs.P01FloatReferences as spec;

use crate::references::Reference;
use gql_ast::{Fault, Rule};
use gql_faults::add_fault_of;
use gql_types::is_same_name;
use std::alloc::{AllocError, Global};

/// Whether this is the name of Float.
pub fn is_float(name: &str) -> bool
    ensures { result ≡ spec.is_float name.now }
{
    is_same_name(name, "Float")
}

fn check_reference(
    alloc: Global,
    referring: &Reference<'_>,
    faults: &mut Vec<Fault>,
) -> Result<(), AllocError>
    ensures { OnOk result (faults.new.items ≡ faults.old.items
        ++ to_float (reference referring.now)) }
{
    if referring.kind.is_none() && is_float(referring.name.name.as_str()) {
        add_fault_of(alloc, Rule::P01, &referring.name, faults)?;
    }
    Ok(())
}

/// Adds the faults of references.
pub fn check(
    alloc: Global,
    references: &[Reference<'_>],
    faults: &mut Vec<Fault>,
) -> Result<(), AllocError>
    ensures { OnOk result (faults.new.items ≡ faults.old.items
        ++ flat_map to_float (map reference references.now)) }
{
    for referring in references {
        check_reference(alloc, referring, faults)?;
    }
    Ok(())
}
