//! S27, Extensions of Unknown Types: an extension names no type.
//! <https://spec.graphql.org/October2021/#sec-Type-Extensions>
//!
//! At fault: `type Query { a: Int } extend type A { b: Int }`
//! No fault: `type Query { a: A } type A { c: Int } extend type A { b: Int }`
ghost use Rattle.std.specs.Prelude.{◌≡◌, ◌++◌, OnOk, map, flat_map};
ghost use Rattle.gql_faults.specs.Places.{named};
ghost use Rattle.gql_node_rules.specs.Borrowed.{lists};
ghost use Rattle.gql_schema_rules.specs.S27ExtensionsOfUnknownTypes as spec;

use gql_ast::{Fault, Rule};
use gql_faults::{NamePlace, add_fault_of};
use gql_node_rules::{Nodes, names_of};
use gql_types::Schema;
use std::alloc::{AllocError, Global};

/// Adds the fault at the name of the type in an extension.
fn check_name(
    alloc: Global,
    schema: &Schema,
    name: &NamePlace<'_>,
    faults: &mut Vec<Fault>,
) -> Result<(), AllocError>
    ensures { OnOk result (faults.new.items
        ≡ faults.old.items ++ spec.fault_of_name schema.now (named name.now)) }
{
    if schema.get(name.name.as_str()).is_none() {
        add_fault_of(alloc, Rule::S27, name, faults)?;
    }
    Ok(())
}

/// Adds the faults at these names.
fn check_names(
    alloc: Global,
    schema: &Schema,
    names: &[NamePlace<'_>],
    faults: &mut Vec<Fault>,
) -> Result<(), AllocError>
    ensures { OnOk result (faults.new.items
        ≡ faults.old.items ++ flat_map (spec.fault_of_name schema.now) (map named names.now)) }
{
    for name in names {
        check_name(alloc, schema, name, faults)?;
    }
    Ok(())
}

/// Adds the faults by S27.
pub fn check(
    alloc: Global,
    schema: &Schema,
    nodes: &Nodes<'_>,
    faults: &mut Vec<Fault>,
) -> Result<(), AllocError>
    ensures { OnOk result (faults.new.items
        ≡ faults.old.items ++ spec.faults (lists nodes.now) schema.now) }
{
    let names = names_of(alloc, nodes.type_extensions.as_slice())?;
    check_names(alloc, schema, names.as_slice(), faults)?;
    Ok(())
}
