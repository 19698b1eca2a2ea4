//! V06, Field Selection Merging: two fields of one response name differ in shape.
//! <https://spec.graphql.org/October2021/#sec-Field-Selection-Merging>
//!
//! At fault: `{ pet { ... on Dog { n: name } ... on Cat { n: lives } } }`
//! No fault: `{ pet { ... on Dog { n: name } ... on Cat { n: name } } }`
ghost use Rattle.std.specs.Prelude.{◌≡◌, ◌++◌, OnOk};
ghost use Rattle.gql_merge.specs.Known.{info_in};
ghost use Rattle.gql_merge.specs.PairFaults as spec;

use crate::faults::add_fault_of_pair;
use crate::flat::FlatField;
use gql_ast::{Fault, FilePlace, Rule, Shared};
use std::alloc::{AllocError, Global};

/// Adds the fault of a pair of fields that are compared.
pub fn check(
    alloc: Global,
    owner: &FilePlace,
    first: &FlatField<'_>,
    second: &FlatField<'_>,
    faults: &mut Vec<Shared<Fault>>,
) -> Result<(), AllocError>
    ensures { OnOk result (faults.new.items ≡ faults.old.items
        ++ spec.shape_faults owner.now (info_in first.now.known) (info_in second.now.known)) }
{
    if first.known.shape.as_str() != second.known.shape.as_str() {
        add_fault_of_pair(alloc, owner, Rule::V06, first, second, faults)?;
    }
    Ok(())
}
