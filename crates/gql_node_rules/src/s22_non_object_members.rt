//! S22, Non-Object Members: a member of a union is not an object.
//! <https://spec.graphql.org/October2021/#sec-Unions>
//!
//! At fault: `type Query { u: U } union U = E enum E { A }`
//! No fault: `type Query { u: U } union U = A type A { b: Int }`
ghost use Rattle.std.specs.Prelude.{◌≡◌, ◌++◌, OnOk, map, flat_map};
ghost use Rattle.gql_ast.specs.declared.rule.Rule.TheVariants as rule;
ghost use Rattle.gql_types.specs.Kinds.{same_kind};
ghost use Rattle.gql_types.specs.declared.kind.TypeKind.TheVariants as kind;
ghost use Rattle.gql_node_rules.specs.Resolved.{of_wrong_kind, reference};

use crate::references::Reference;
use gql_ast::{Fault, Rule};
use gql_faults::add_fault_of;
use gql_types::TypeKind;
use std::alloc::{AllocError, Global};

fn check_reference(
    alloc: Global,
    referring: &Reference<'_>,
    faults: &mut Vec<Fault>,
) -> Result<(), AllocError>
    ensures { OnOk result (faults.new.items ≡ faults.old.items
        ++ of_wrong_kind (λ k. same_kind k kind.Object) rule.S22 (reference referring.now)) }
{
    match referring.kind {
        Some(kind) => {
            if !kind.is(TypeKind::Object) {
                add_fault_of(alloc, Rule::S22, &referring.name, faults)?;
            }
            Ok(())
        }
        None => Ok(()),
    }
}

/// Adds the faults of the members of unions.
pub fn check(
    alloc: Global,
    references: &[Reference<'_>],
    faults: &mut Vec<Fault>,
) -> Result<(), AllocError>
    ensures { OnOk result (faults.new.items ≡ faults.old.items
        ++ flat_map (of_wrong_kind (λ k. same_kind k kind.Object) rule.S22) (map reference references.now)) }
{
    for referring in references {
        check_reference(alloc, referring, faults)?;
    }
    Ok(())
}
