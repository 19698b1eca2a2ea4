//! V11, Fragment Name Uniqueness: two fragments have the same name.
//! <https://spec.graphql.org/October2021/#sec-Fragment-Name-Uniqueness>
//!
//! At fault: `{ dog { ...F } } fragment F on Dog { name } fragment F on Dog { nickname }`
//! No fault: `{ dog { ...F ...G } } fragment F on Dog { name } fragment G on Dog { nickname }`
ghost use Rattle.std.specs.Prelude.{◌≡◌, ◌++◌, OnOk, map};
ghost use Rattle.gql_verdict.specs.V11FragmentNameUniqueness as spec;

use crate::naming::{add_repeated, named_fragments};
use gql_ast::{Definition, Fault, Rule};
use std::alloc::{AllocError, Global};

/// Adds the faults by V11.
pub fn check(
    alloc: Global,
    definitions: &[&Definition],
    faults: &mut Vec<Fault>,
) -> Result<(), AllocError>
    ensures { OnOk result (faults.new.items ≡ faults.old.items
        ++ spec.faults (map (λ d. d.now) definitions.now)) }
{
    let fragments = named_fragments(alloc, definitions)?;
    add_repeated(alloc, Rule::V11, fragments.as_slice(), faults)
}
