//! P05, Mutations Without a Root: an operation is a mutation, and the schema has no mutation root.
//! It is this registry's own rule.
//!
//! At fault: `mutation A { dog { name } }`
//! No fault: `query A { dog { name } }`
ghost use Rattle.std.specs.Prelude.{◌≡◌, ◌++◌, OnOk};
ghost use Rattle.gql_facts.specs.Nodes.{root_in};
ghost use Rattle.gql_rules.specs.P05MutationsWithoutARoot as spec;

use crate::faults::add_fault;
use crate::parts::name_or_empty;
use gql_ast::{Fault, FilePlace, Operation, OperationKind, Rule};
use gql_facts::Fact;
use std::alloc::{AllocError, Global};

/// Adds the fault of a mutation, by the answer for the root operation type of its kind.
pub fn check(
    alloc: Global,
    owner: &FilePlace,
    operation: &Operation,
    root: &Fact,
    faults: &mut Vec<Fault>,
) -> Result<(), AllocError>
    ensures { OnOk result (faults.new.items ≡ faults.old.items
        ++ spec.faults_by owner.now operation.now operation.now.kind (root_in root.now)) }
{
    match operation.kind {
        OperationKind::Mutation => match root {
            Fact::Root(_) => Ok(()),
            _ => {
                let about = name_or_empty(alloc, &operation.name)?;
                add_fault(alloc, owner, Rule::P05, &about, operation.place, faults)
            }
        },
        OperationKind::Query | OperationKind::Subscription => Ok(()),
    }
}
