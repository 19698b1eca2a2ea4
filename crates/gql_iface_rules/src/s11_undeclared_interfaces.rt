//! S11, Undeclared Interfaces: a type does not declare an interface that one of its own declares.
//! <https://spec.graphql.org/October2021/#sec-Objects>
//! <https://spec.graphql.org/October2021/#sec-Interfaces>
//!
//! At fault:
//! `interface A { a: Int } interface B implements A { a: Int } type Query implements B { a: Int }`
//! No fault:
//! `interface A { a: Int } interface B implements A { a: Int } type Query implements A & B { a: Int }`
ghost use Rattle.std.specs.Prelude.{◌≡◌, ◌++◌, OnOk, flat_map};
ghost use Rattle.gql_iface_rules.specs.Borrowed.{implements};
ghost use Rattle.gql_iface_rules.specs.Implementing.{implemented_by};
ghost use Rattle.gql_iface_rules.specs.S11UndeclaredInterfaces as spec;

use crate::implementing::{Implementation, interface_named};
use crate::name_set::NameSet;
use gql_ast::{Fault, Name, Rule};
use gql_built_in::Sited;
use gql_faults::{NamePlace, add_fault};
use gql_types::{Batched, Schema, SchemaType};
use std::alloc::{AllocError, Global};

/// Adds the fault for an interface, unless it is among these names.
fn check_declared(
    alloc: Global,
    schema: &Schema,
    names: &NameSet<'_>,
    at: &Sited<Name>,
    name: &Sited<Name>,
    faults: &mut Vec<Fault>,
) -> Result<(), AllocError>
    ensures { OnOk result (faults.new.items
        ≡ faults.old.items ++ spec.unless_declared schema.now names.now at.now name.now) }
{
    match interface_named(schema, name.node.as_str()) {
        Some(_interface) => {
            if names.has(name.node.as_str()) {
                Ok(())
            } else {
                let spot = NamePlace::of(at).spot();
                add_fault(alloc, Rule::S11, name.node.as_str(), &spot, faults)
            }
        }
        None => Ok(()),
    }
}

/// Adds the faults for one interface that a type implements.
fn check_implementation(
    alloc: Global,
    schema: &Schema,
    names: &NameSet<'_>,
    implementation: &Implementation<'_>,
    faults: &mut Vec<Fault>,
) -> Result<(), AllocError>
    ensures { OnOk result (faults.new.items ≡ faults.old.items
        ++ spec.undeclared_interfaces schema.now names.now (implements implementation.now)) }
{
    for name in implementation.interface.interfaces.as_slice() {
        check_declared(alloc, schema, names, implementation.name, name, faults)?;
    }
    Ok(())
}

/// Adds the faults for a name in the list of a type, if an interface has the name.
fn check_name(
    alloc: Global,
    schema: &Schema,
    names: &NameSet<'_>,
    of_type: &SchemaType,
    name: &Sited<Name>,
    faults: &mut Vec<Fault>,
) -> Result<(), AllocError>
    ensures { OnOk result (faults.new.items ≡ faults.old.items
        ++ flat_map (spec.undeclared_interfaces schema.now names.now)
        (implemented_by schema.now of_type.now name.now)) }
{
    if let Some(interface) = interface_named(schema, name.node.as_str()) {
        let implementation = Implementation {
            of_type,
            name,
            interface,
        };
        check_implementation(alloc, schema, names, &implementation, faults)?;
    }
    Ok(())
}

/// Adds the faults of a type.
fn check_type(
    alloc: Global,
    schema: &Schema,
    of_type: &SchemaType,
    faults: &mut Vec<Fault>,
) -> Result<(), AllocError>
    ensures { OnOk result (faults.new.items
        ≡ faults.old.items ++ spec.faults_of_type schema.now of_type.now) }
{
    let names = NameSet::new(alloc, of_type.interfaces.as_slice())?;
    for name in of_type.interfaces.as_slice() {
        check_name(alloc, schema, &names, of_type, name, faults)?;
    }
    Ok(())
}

/// Adds the faults of these types by S11.
pub fn check(
    alloc: Global,
    schema: &Schema,
    types: &[Batched<SchemaType>],
    faults: &mut Vec<Fault>,
) -> Result<(), AllocError>
    ensures { OnOk result (faults.new.items
        ≡ faults.old.items ++ flat_map (spec.faults_of_type schema.now) types.now) }
{
    for of_type in types {
        check_type(alloc, schema, of_type.get(), faults)?;
    }
    Ok(())
}
