//! S24, Non-Object Roots: a root operation type is not an object.
//! <https://spec.graphql.org/October2021/#sec-Root-Operation-Types>
//!
//! At fault: `schema { query: E } enum E { A }`
//! No fault: `schema { query: A } type A { b: Int }`
ghost use Rattle.std.specs.Prelude.{◌≡◌, ◌++◌, OnOk};
ghost use Rattle.gql_schema_rules.specs.S24NonObjectRoots as spec;

use gql_ast::{Fault, Rule};
use gql_faults::{NamePlace, add_fault_of};
use gql_types::{Root, Schema, TypeKind};
use std::alloc::{AllocError, Global};

/// Adds the fault of a root operation type.
fn check_root(
    alloc: Global,
    schema: &Schema,
    root: &Root,
    faults: &mut Vec<Fault>,
) -> Result<(), AllocError>
    ensures { OnOk result (faults.new.items ≡ faults.old.items
        ++ spec.fault_of_root schema.now root.now) }
{
    if let Some(kind) = schema.kind(root.name.node.as_str()) {
        if !kind.is(TypeKind::Object) {
            add_fault_of(alloc, Rule::S24, &NamePlace::of(&root.name), faults)?;
        }
    }
    Ok(())
}

/// Adds the faults by S24.
pub fn check(alloc: Global, schema: &Schema, faults: &mut Vec<Fault>) -> Result<(), AllocError>
    ensures { OnOk result (faults.new.items ≡ faults.old.items ++ spec.faults schema.now) }
{
    for root in schema.roots() {
        check_root(alloc, schema, root, faults)?;
    }
    Ok(())
}
