//! S06, Duplicate Fields: a type has two fields or two input fields of the same name.
//! <https://spec.graphql.org/October2021/#sec-Objects>
//! <https://spec.graphql.org/October2021/#sec-Interfaces>
//! <https://spec.graphql.org/October2021/#sec-Input-Objects>
//!
//! At fault: `type Query { a: Int a: String }`
//! No fault: `type Query { a: Int b: String }`
ghost use Rattle.std.specs.Prelude.{◌≡◌, ◌++◌, OnOk, flat_map};
ghost use Rattle.gql_schema_rules.specs.S06DuplicateFields as spec;

use gql_ast::{Fault, Rule};
use gql_faults::add_repeated_nodes;
use gql_types::{Batched, SchemaType};
use std::alloc::{AllocError, Global};

/// Adds the faults of a type.
fn check_type(
    alloc: Global,
    of_type: &SchemaType,
    faults: &mut Vec<Fault>,
) -> Result<(), AllocError>
    ensures { OnOk result (faults.new.items ≡ faults.old.items ++ spec.faults_of_type of_type.now) }
{
    add_repeated_nodes(alloc, Rule::S06, of_type.fields.as_slice(), faults)?;
    add_repeated_nodes(alloc, Rule::S06, of_type.input_fields.as_slice(), faults)?;
    Ok(())
}

/// Adds the faults of these types by S06.
pub fn check(
    alloc: Global,
    types: &[Batched<SchemaType>],
    faults: &mut Vec<Fault>,
) -> Result<(), AllocError>
    ensures { OnOk result (faults.new.items
        ≡ faults.old.items ++ flat_map spec.faults_of_type types.now) }
{
    for of_type in types {
        check_type(alloc, of_type.get(), faults)?;
    }
    Ok(())
}
