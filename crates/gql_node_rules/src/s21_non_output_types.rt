//! S21, Non-Output Types: the type of a field is not an output type.
//! <https://spec.graphql.org/October2021/#sec-Objects>
//! <https://spec.graphql.org/October2021/#sec-Interfaces>
//!
//! At fault: `type Query { a: I } input I { b: Int }`
//! No fault: `type Query { a(i: I): Int } input I { b: Int }`
ghost use Rattle.std.specs.Prelude.{◌≡◌, ◌++◌, OnOk, map, flat_map};
ghost use Rattle.gql_ast.specs.declared.rule.Rule.TheVariants as rule;
ghost use Rattle.gql_types.specs.Kinds.{is_output};
ghost use Rattle.gql_node_rules.specs.Resolved.{of_wrong_kind, reference};

use crate::references::Reference;
use gql_ast::{Fault, Rule};
use gql_faults::add_fault_of;
use std::alloc::{AllocError, Global};

fn check_reference(
    alloc: Global,
    referring: &Reference<'_>,
    faults: &mut Vec<Fault>,
) -> Result<(), AllocError>
    ensures { OnOk result (faults.new.items ≡ faults.old.items
        ++ of_wrong_kind is_output rule.S21 (reference referring.now)) }
{
    match referring.kind {
        Some(kind) => {
            if !kind.is_output() {
                add_fault_of(alloc, Rule::S21, &referring.name, faults)?;
            }
            Ok(())
        }
        None => Ok(()),
    }
}

/// Adds the faults of the types of fields.
pub fn check(
    alloc: Global,
    references: &[Reference<'_>],
    faults: &mut Vec<Fault>,
) -> Result<(), AllocError>
    ensures { OnOk result (faults.new.items ≡ faults.old.items
        ++ flat_map (of_wrong_kind is_output rule.S21) (map reference references.now)) }
{
    for referring in references {
        check_reference(alloc, referring, faults)?;
    }
    Ok(())
}
