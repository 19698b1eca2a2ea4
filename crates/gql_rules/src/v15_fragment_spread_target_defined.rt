//! V15, Fragment Spread Target Defined: a spread names no fragment.
//! <https://spec.graphql.org/October2021/#sec-Fragment-spread-target-defined>
//!
//! At fault: `{ dog { ...F } }`
//! No fault: `{ dog { ...F } } fragment F on Dog { name }`
ghost use Rattle.std.specs.Prelude.{◌≡◌, ◌++◌, OnOk};
ghost use Rattle.std.specs.Option.{option_copied};
ghost use Rattle.gql_rules.specs.V15FragmentSpreadTargetDefined as spec;

use crate::faults::add_fault_of;
use gql_ast::{Fault, FilePlace, Rule, Spread};
use gql_facts::FragmentFact;
use std::alloc::{AllocError, Global};

/// Adds the fault of a spread, if the fragment of its name is not known.
pub fn check(
    alloc: Global,
    owner: &FilePlace,
    spread: &Spread,
    known: Option<&FragmentFact>,
    faults: &mut Vec<Fault>,
) -> Result<(), AllocError>
    ensures { OnOk result (faults.new.items ≡ faults.old.items
        ++ spec.faults_by owner.now spread.now (option_copied known.entry)) }
{
    match known {
        None => add_fault_of(alloc, owner, Rule::V15, &spread.name, faults),
        Some(_) => Ok(()),
    }
}
