//! S05, Empty Types: a type that needs fields, enum values or members has none.
//! <https://spec.graphql.org/October2021/#sec-Objects>
//! <https://spec.graphql.org/October2021/#sec-Interfaces>
//! <https://spec.graphql.org/October2021/#sec-Unions>
//! <https://spec.graphql.org/October2021/#sec-Enums>
//! <https://spec.graphql.org/October2021/#sec-Input-Objects>
//!
//! At fault: `type Query { a: A } type A`
//! No fault: `type Query { a: A } type A extend type A { b: Int }`
ghost use Rattle.std.specs.Prelude.{◌≡◌, ◌++◌, OnOk, flat_map};
ghost use Rattle.gql_schema_rules.specs.S05EmptyTypes as spec;

use gql_ast::{Fault, Rule};
use gql_faults::{NamePlace, add_fault_of};
use gql_types::{Batched, SchemaType, TypeKind};
use std::alloc::{AllocError, Global};

/// Whether a type has none of the parts that its kind needs.
fn is_empty(of_type: &SchemaType) -> bool
    ensures { result ≡ spec.is_empty of_type.now.kind of_type.now }
{
    match of_type.kind {
        TypeKind::Scalar => false,
        TypeKind::Object | TypeKind::Interface => of_type.fields.as_slice().is_empty(),
        TypeKind::Union => of_type.members.as_slice().is_empty(),
        TypeKind::Enum => of_type.values.as_slice().is_empty(),
        TypeKind::InputObject => of_type.input_fields.as_slice().is_empty(),
    }
}

/// Adds the fault of a type.
fn check_type(
    alloc: Global,
    of_type: &SchemaType,
    faults: &mut Vec<Fault>,
) -> Result<(), AllocError>
    ensures { OnOk result (faults.new.items ≡ faults.old.items ++ spec.fault_of_type of_type.now) }
{
    if is_empty(of_type) {
        add_fault_of(
            alloc,
            Rule::S05,
            &NamePlace::of_node(&of_type.definition),
            faults,
        )?;
    }
    Ok(())
}

/// Adds the faults of these types by S05.
pub fn check(
    alloc: Global,
    types: &[Batched<SchemaType>],
    faults: &mut Vec<Fault>,
) -> Result<(), AllocError>
    ensures { OnOk result (faults.new.items
        ≡ faults.old.items ++ flat_map spec.fault_of_type types.now) }
{
    for of_type in types {
        check_type(alloc, of_type.get(), faults)?;
    }
    Ok(())
}
