//! P02, Subscription Roots: the schema has a subscription root, which only --profile october-2021
//! serves.
//! It is this registry's own rule.
//!
//! At fault: `type Query { a: Int } type Subscription { b: Int }`
//! No fault: `type Query { a: Int }`
ghost use Rattle.std.specs.Prelude.{◌≡◌, ◌++◌, OnOk, flat_map};
ghost use Rattle.gql_schema_rules.specs.P02SubscriptionRoots as spec;

use crate::operation_kinds::is_same;
use gql_ast::{Fault, Files, OperationKind, Rule};
use gql_faults::{NamePlace, add_fault_of};
use gql_types::{Root, Schema};
use std::alloc::{AllocError, Global};

/// Adds the fault of a root operation type.
fn check_root(alloc: Global, root: &Root, faults: &mut Vec<Fault>) -> Result<(), AllocError>
    ensures { OnOk result (faults.new.items ≡ faults.old.items ++ spec.fault_of_root root.now) }
{
    if is_same(root.kind, OperationKind::Subscription) {
        add_fault_of(alloc, Rule::P02, &NamePlace::of(&root.name), faults)?;
    }
    Ok(())
}

/// Adds the faults of root operation types.
fn check_roots(alloc: Global, roots: &[Root], faults: &mut Vec<Fault>) -> Result<(), AllocError>
    ensures { OnOk result (faults.new.items ≡ faults.old.items
        ++ flat_map spec.fault_of_root roots.now) }
{
    for root in roots {
        check_root(alloc, root, faults)?;
    }
    Ok(())
}

/// Adds the faults by P02: none, if the profile of the files serves subscriptions.
pub fn check(
    alloc: Global,
    files: &Files,
    schema: &Schema,
    faults: &mut Vec<Fault>,
) -> Result<(), AllocError>
    ensures { OnOk result (faults.new.items ≡ faults.old.items
        ++ spec.faults files.now schema.now) }
{
    if !files.profile.subscriptions {
        check_roots(alloc, schema.roots(), faults)?;
    }
    Ok(())
}
