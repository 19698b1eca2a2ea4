//! S16, Non-Input Types: the type of an argument or an input field is not an input type.
//! <https://spec.graphql.org/October2021/#sec-Field-Arguments>
//! <https://spec.graphql.org/October2021/#sec-Input-Objects>
//! <https://spec.graphql.org/October2021/#sec-Type-System.Directives>
//!
//! At fault: `type Query { a(b: Query): Int }`
//! No fault: `type Query { a(b: Int): Int }`
ghost use Rattle.std.specs.Prelude.{◌≡◌, ◌++◌, OnOk, map, flat_map};
ghost use Rattle.gql_ast.specs.declared.rule.Rule.TheVariants as rule;
ghost use Rattle.gql_types.specs.Kinds.{is_input};
ghost use Rattle.gql_node_rules.specs.Resolved.{of_wrong_kind, reference};

use crate::references::Reference;
use gql_ast::{Fault, Rule};
use gql_faults::add_fault_of;
use std::alloc::{AllocError, Global};

fn check_reference(
    alloc: Global,
    referring: &Reference<'_>,
    faults: &mut Vec<Fault>,
) -> Result<(), AllocError>
    ensures { OnOk result (faults.new.items ≡ faults.old.items
        ++ of_wrong_kind is_input rule.S16 (reference referring.now)) }
{
    match referring.kind {
        Some(kind) => {
            if !kind.is_input() {
                add_fault_of(alloc, Rule::S16, &referring.name, faults)?;
            }
            Ok(())
        }
        None => Ok(()),
    }
}

/// Adds the faults of the types of arguments and input fields.
pub fn check(
    alloc: Global,
    references: &[Reference<'_>],
    faults: &mut Vec<Fault>,
) -> Result<(), AllocError>
    ensures { OnOk result (faults.new.items ≡ faults.old.items
        ++ flat_map (of_wrong_kind is_input rule.S16) (map reference references.now)) }
{
    for referring in references {
        check_reference(alloc, referring, faults)?;
    }
    Ok(())
}
