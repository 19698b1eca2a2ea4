//! S09, Bad Interface Names: a type lists a type that is no interface, or lists a name twice.
//! <https://spec.graphql.org/October2021/#sec-Objects>
//! <https://spec.graphql.org/October2021/#sec-Interfaces>
//!
//! At fault: `type Query implements A { a: Int } type A { a: Int }`
//! No fault: `type Query implements A { a: Int } interface A { a: Int }`
ghost use Rattle.std.specs.Prelude.{◌≡◌, ◌++◌, OnOk, flat_map};
ghost use Rattle.gql_iface_rules.specs.S09BadInterfaceNames as spec;

use gql_ast::{Fault, Name, Rule};
use gql_built_in::Sited;
use gql_faults::{NamePlace, add_fault_of, add_repeated_names};
use gql_types::{Batched, Schema, SchemaType, TypeKind};
use std::alloc::{AllocError, Global};

/// Adds the fault at a name that is known and not that of an interface.
fn check_name(
    alloc: Global,
    schema: &Schema,
    name: &Sited<Name>,
    faults: &mut Vec<Fault>,
) -> Result<(), AllocError>
    ensures { OnOk result (faults.new.items
        ≡ faults.old.items ++ spec.unless_interface schema.now name.now) }
{
    match schema.kind(name.node.as_str()) {
        Some(kind) => {
            if kind.is(TypeKind::Interface) {
                Ok(())
            } else {
                add_fault_of(alloc, Rule::S09, &NamePlace::of(name), faults)
            }
        }
        None => Ok(()),
    }
}

/// Adds the faults at these names.
fn check_names(
    alloc: Global,
    schema: &Schema,
    names: &[Sited<Name>],
    faults: &mut Vec<Fault>,
) -> Result<(), AllocError>
    ensures { OnOk result (faults.new.items
        ≡ faults.old.items ++ flat_map (spec.unless_interface schema.now) names.now) }
{
    for name in names {
        check_name(alloc, schema, name, faults)?;
    }
    Ok(())
}

/// Adds the faults of a type.
fn check_type(
    alloc: Global,
    schema: &Schema,
    of_type: &SchemaType,
    faults: &mut Vec<Fault>,
) -> Result<(), AllocError>
    ensures { OnOk result (faults.new.items
        ≡ faults.old.items ++ spec.bad_interface_names schema.now of_type.now) }
{
    check_names(alloc, schema, of_type.interfaces.as_slice(), faults)?;
    add_repeated_names(alloc, Rule::S09, of_type.interfaces.as_slice(), faults)
}

/// Adds the faults of these types by S09.
pub fn check(
    alloc: Global,
    schema: &Schema,
    types: &[Batched<SchemaType>],
    faults: &mut Vec<Fault>,
) -> Result<(), AllocError>
    ensures { OnOk result (faults.new.items
        ≡ faults.old.items ++ flat_map (spec.bad_interface_names schema.now) types.now) }
{
    for of_type in types {
        check_type(alloc, schema, of_type.get(), faults)?;
    }
    Ok(())
}
