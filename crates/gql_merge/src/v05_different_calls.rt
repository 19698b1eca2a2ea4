//! V05, Field Selection Merging: two fields of one response name differ in name or arguments.
//! <https://spec.graphql.org/October2021/#sec-Field-Selection-Merging>
//!
//! At fault: `{ dog { n: name n: nickname } }`
//! No fault: `{ dog { name nickname } }`
ghost use Rattle.std.specs.Prelude.{◌≡◌, ◌++◌, ◌||◌, OnOk, bytes_eq, not};
ghost use Rattle.gql_merge.specs.Known.{info_in};
ghost use Rattle.gql_merge.specs.PairFaults as spec;

use crate::faults::add_fault_of_pair;
use crate::flat::FlatField;
use crate::known::KnownField;
use gql_ast::{Fault, FilePlace, Rule, Shared};
use gql_clashes::Mode;
use std::alloc::{AllocError, Global};

/// Whether the results of two fields may be those of one object.
pub fn do_meet(first: &KnownField<'_>, second: &KnownField<'_>) -> bool
    ensures { result ≡ (bytes_eq first.now.parent second.now.parent
        || not first.now.of_object || not second.now.of_object) }
{
    first.parent.as_str() == second.parent.as_str() || !first.of_object || !second.of_object
}

/// Adds the fault of a pair of fields that are compared.
pub fn check(
    alloc: Global,
    owner: &FilePlace,
    mode: Mode,
    first: &FlatField<'_>,
    second: &FlatField<'_>,
    faults: &mut Vec<Shared<Fault>>,
) -> Result<(), AllocError>
    ensures { OnOk result (faults.new.items ≡ faults.old.items
        ++ spec.call_faults owner.now mode (info_in first.now.known) (info_in second.now.known)) }
{
    let differ = first.known.call.as_str() != second.known.call.as_str();
    if mode == Mode::Merge && do_meet(&first.known, &second.known) && differ {
        add_fault_of_pair(alloc, owner, Rule::V05, first, second, faults)?;
    }
    Ok(())
}
