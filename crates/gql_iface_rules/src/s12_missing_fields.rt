//! S12, Missing Fields: a type has no field for a field of an interface that it implements.
//! <https://spec.graphql.org/October2021/#sec-Objects>
//! <https://spec.graphql.org/October2021/#sec-Interfaces>
//!
//! At fault: `interface N { a: Int } type Query implements N { b: Int }`
//! No fault: `interface N { a: Int } type Query implements N { a: Int b: Int }`
ghost use Rattle.std.specs.Prelude.{◌≡◌, ◌++◌, Contains, OnOk, flat_map, is_some, bytes_eq, true};
ghost use Rattle.std.specs.HashMap as hash;
ghost use Rattle.gql_ast.specs.declared.type_system.FieldDefinition.{FieldDefinition as AField};
ghost use Rattle.gql_built_in.specs.declared.sited.Sited.{Sited as ASited};
ghost use Rattle.gql_iface_rules.specs.Borrowed.{implements};
ghost use Rattle.gql_iface_rules.specs.Implementing.{implementations_of};
ghost use Rattle.gql_iface_rules.specs.S12MissingFields as spec;
ghost use Rattle.gql_iface_rules.specs.Settled.{AreSettled, HasField, missing_by};

use crate::implementing::{Implementation, field_in, interface_named};
use gql_ast::{Fault, FieldDefinition, Name, Rule, Shared};
use gql_built_in::Sited;
use gql_faults::{NamePlace, add_fault};
use gql_types::{Batched, HasName, Schema, SchemaType};
use std::alloc::{AllocError, Global};
use std::collections::HashMap;

/// Adds the fault for a field of the interface, unless the type has a field of its name.
fn check_field(
    alloc: Global,
    implementation: &Implementation<'_>,
    field: &Sited<Shared<FieldDefinition>>,
    faults: &mut Vec<Fault>,
) -> Result<(), AllocError>
    ensures { OnOk result (faults.new.items
        ≡ faults.old.items ++ spec.missing_field (implements implementation.now) field.now) }
{
    match field_in(&implementation.of_type.fields, field.name()) {
        Some(_own) => Ok(()),
        None => {
            let spot = NamePlace::of(implementation.name).spot();
            add_fault(alloc, Rule::S12, field.name(), &spot, faults)
        }
    }
}

/// Adds the faults for one interface that a type implements.
fn check_implementation(
    alloc: Global,
    implementation: &Implementation<'_>,
    faults: &mut Vec<Fault>,
) -> Result<(), AllocError>
    ensures { OnOk result (faults.new.items
        ≡ faults.old.items ++ spec.missing_fields (implements implementation.now)) }
{
    for field in implementation.interface.fields.as_slice() {
        check_field(alloc, implementation, field, faults)?;
    }
    Ok(())
}

/// Whether a type has a field of the name of each of these fields.
fn has_fields(of_type: &SchemaType, fields: &[Sited<Shared<FieldDefinition>>]) -> bool
    ensures { result ≡ true → (f : ASited AField) → Contains fields.now f → HasField of_type.now f }
{
    for field in fields {
        if field_in(&of_type.fields, field.name()).is_none() {
            return false;
        }
    }
    true
}

/// Adds the faults for a name in the list of a type, if an interface has the name. If the type has
/// all fields of the interface, the name is noted, so that it is checked once.
fn check_name<'s>(
    alloc: Global,
    schema: &Schema,
    of_type: &SchemaType,
    name: &'s Sited<Name>,
    settled: &mut HashMap<&'s str, ()>,
    faults: &mut Vec<Fault>,
) -> Result<(), AllocError>
    requires settled { AreSettled schema.now of_type.now
        (λ q. is_some (hash.get_by (λ k. bytes_eq q k.now) settled.old)) }
    ensures settled { OnOk result (AreSettled schema.now of_type.now
        (λ q. is_some (hash.get_by (λ k. bytes_eq q k.now) settled.new))) }
    ensures faults { OnOk result (faults.new.items ≡ faults.old.items
        ++ missing_by schema.now of_type.now name.now) }
{
    if settled.contains_key(name.node.as_str()) {
        return Ok(());
    }
    let Some(interface) = interface_named(schema, name.node.as_str()) else {
        return Ok(());
    };
    if has_fields(of_type, interface.fields.as_slice()) {
        settled.insert(name.node.as_str(), ())?;
        return Ok(());
    }
    let implementation = Implementation {
        of_type,
        name,
        interface,
    };
    check_implementation(alloc, &implementation, faults)
}

/// Adds the faults of a type.
fn check_type(
    alloc: Global,
    schema: &Schema,
    of_type: &SchemaType,
    faults: &mut Vec<Fault>,
) -> Result<(), AllocError>
    ensures { OnOk result (faults.new.items ≡ faults.old.items
        ++ flat_map spec.missing_fields (implementations_of schema.now of_type.now)) }
{
    let mut settled = HashMap::new(alloc);
    for name in of_type.interfaces.as_slice() {
        check_name(alloc, schema, of_type, name, &mut settled, faults)?;
    }
    Ok(())
}

/// Adds the faults of these types by S12.
pub fn check(
    alloc: Global,
    schema: &Schema,
    types: &[Batched<SchemaType>],
    faults: &mut Vec<Fault>,
) -> Result<(), AllocError>
    ensures { OnOk result (faults.new.items ≡ faults.old.items
        ++ flat_map spec.missing_fields (flat_map (implementations_of schema.now) types.now)) }
{
    for of_type in types {
        check_type(alloc, schema, of_type.get(), faults)?;
    }
    Ok(())
}
