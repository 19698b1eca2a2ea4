//! P03, Subscriptions: an operation is a subscription, and the schema has no subscription root.
//! It is this registry's own rule.
//!
//! At fault: `subscription A { dog { name } }`
//! No fault: `query A { dog { name } }`
ghost use Rattle.std.specs.Prelude.{◌≡◌, ◌++◌, OnOk};
ghost use Rattle.gql_facts.specs.Nodes.{root_in};
ghost use Rattle.gql_rules.specs.P03Subscriptions as spec;

use crate::faults::add_fault;
use crate::parts::name_or_empty;
use gql_ast::{Fault, FilePlace, Operation, OperationKind, Rule};
use gql_facts::Fact;
use std::alloc::{AllocError, Global};

/// Adds the fault of a subscription, by the answer for the root operation type of its kind.
pub fn check(
    alloc: Global,
    owner: &FilePlace,
    operation: &Operation,
    root: &Fact,
    faults: &mut Vec<Fault>,
) -> Result<(), AllocError>
    ensures { OnOk result (faults.new.items ≡ faults.old.items
        ++ spec.faults_by owner.now operation.now operation.now.kind (root_in root.now)) }
{
    match operation.kind {
        OperationKind::Subscription => match root {
            Fact::Root(_) => Ok(()),
            _ => {
                let about = name_or_empty(alloc, &operation.name)?;
                add_fault(alloc, owner, Rule::P03, &about, operation.place, faults)
            }
        },
        OperationKind::Query | OperationKind::Mutation => Ok(()),
    }
}
