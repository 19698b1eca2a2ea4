//! S07, Duplicate Values: an enum has two values, or a union two members, of the same name.
//! <https://spec.graphql.org/October2021/#sec-Unions>
//! <https://spec.graphql.org/October2021/#sec-Enums>
//!
//! At fault: `type Query { a: E } enum E { B B }`
//! No fault: `type Query { a: E } enum E { B C }`
ghost use Rattle.std.specs.Prelude.{◌≡◌, ◌++◌, OnOk, flat_map};
ghost use Rattle.gql_schema_rules.specs.S07DuplicateValues as spec;

use gql_ast::{Fault, Rule};
use gql_faults::{add_repeated_names, add_repeated_nodes};
use gql_types::{Batched, SchemaType};
use std::alloc::{AllocError, Global};

/// Adds the faults of a type.
fn check_type(
    alloc: Global,
    of_type: &SchemaType,
    faults: &mut Vec<Fault>,
) -> Result<(), AllocError>
    ensures { OnOk result (faults.new.items ≡ faults.old.items ++ spec.faults_of_type of_type.now) }
{
    add_repeated_nodes(alloc, Rule::S07, of_type.values.as_slice(), faults)?;
    add_repeated_names(alloc, Rule::S07, of_type.members.as_slice(), faults)?;
    Ok(())
}

/// Adds the faults of these types by S07.
pub fn check(
    alloc: Global,
    types: &[Batched<SchemaType>],
    faults: &mut Vec<Fault>,
) -> Result<(), AllocError>
    ensures { OnOk result (faults.new.items
        ≡ faults.old.items ++ flat_map spec.faults_of_type types.now) }
{
    for of_type in types {
        check_type(alloc, of_type.get(), faults)?;
    }
    Ok(())
}
