//! V02, Operation Name Uniqueness: two operations have the same name.
//! <https://spec.graphql.org/October2021/#sec-Operation-Name-Uniqueness>
//!
//! At fault: `query A { dog { name } } query A { pet { name } }`
//! No fault: `query A { dog { name } } query B { pet { name } }`
ghost use Rattle.std.specs.Prelude.{◌≡◌, ◌++◌, OnOk, map};
ghost use Rattle.gql_verdict.specs.V02OperationNameUniqueness as spec;

use crate::naming::{add_repeated, named_operations};
use gql_ast::{Definition, Fault, Rule};
use std::alloc::{AllocError, Global};

/// Adds the faults by V02.
pub fn check(
    alloc: Global,
    definitions: &[&Definition],
    faults: &mut Vec<Fault>,
) -> Result<(), AllocError>
    ensures { OnOk result (faults.new.items ≡ faults.old.items
        ++ spec.faults (map (λ d. d.now) definitions.now)) }
{
    let operations = named_operations(alloc, definitions)?;
    add_repeated(alloc, Rule::V02, operations.as_slice(), faults)
}
