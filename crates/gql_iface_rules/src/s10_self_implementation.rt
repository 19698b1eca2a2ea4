//! S10, Self-Implementation: an interface implements itself.
//! <https://spec.graphql.org/October2021/#sec-Interfaces>
//!
//! At fault: `type Query { n: N } interface N implements N { a: Int }`
//! No fault: `type Query { n: N } interface N { a: Int }`
ghost use Rattle.std.specs.Prelude.{◌≡◌, ◌++◌, OnOk, flat_map};
ghost use Rattle.gql_iface_rules.specs.S10SelfImplementation as spec;

use gql_ast::{Fault, Name, Rule};
use gql_built_in::Sited;
use gql_faults::{NamePlace, add_fault_of};
use gql_types::{Batched, HasName, SchemaType, TypeKind};
use std::alloc::{AllocError, Global};

/// Adds the fault at a name, if the type has that name.
fn check_name(
    alloc: Global,
    of_type: &SchemaType,
    name: &Sited<Name>,
    faults: &mut Vec<Fault>,
) -> Result<(), AllocError>
    ensures { OnOk result (faults.new.items
        ≡ faults.old.items ++ spec.if_own_name of_type.now name.now) }
{
    if of_type.name() == name.node.as_str() {
        add_fault_of(alloc, Rule::S10, &NamePlace::of(name), faults)?;
    }
    Ok(())
}

/// Adds the faults of an interface.
fn check_interface(
    alloc: Global,
    of_type: &SchemaType,
    faults: &mut Vec<Fault>,
) -> Result<(), AllocError>
    ensures { OnOk result (faults.new.items
        ≡ faults.old.items ++ flat_map (spec.if_own_name of_type.now) of_type.now.interfaces) }
{
    for name in of_type.interfaces.as_slice() {
        check_name(alloc, of_type, name, faults)?;
    }
    Ok(())
}

/// Adds the faults of a type.
fn check_type(
    alloc: Global,
    of_type: &SchemaType,
    faults: &mut Vec<Fault>,
) -> Result<(), AllocError>
    ensures { OnOk result (faults.new.items ≡ faults.old.items ++ spec.faults_of_type of_type.now) }
{
    if of_type.kind.is(TypeKind::Interface) {
        check_interface(alloc, of_type, faults)?;
    }
    Ok(())
}

/// Adds the faults of these types by S10.
pub fn check(
    alloc: Global,
    types: &[Batched<SchemaType>],
    faults: &mut Vec<Fault>,
) -> Result<(), AllocError>
    ensures { OnOk result (faults.new.items
        ≡ faults.old.items ++ flat_map spec.faults_of_type types.now) }
{
    for of_type in types {
        check_type(alloc, of_type.get(), faults)?;
    }
    Ok(())
}
