//! V07, Leaf Field Selections: a leaf field has a selection set, or a composite one has none.
//! <https://spec.graphql.org/October2021/#sec-Leaf-Field-Selections>
//!
//! At fault: `{ dog }`
//! No fault: `{ dog { name } }`
ghost use Rattle.std.specs.Prelude.{◌≡◌, ◌++◌, OnOk, Option, if◌then◌else◌};
ghost use Rattle.gql_types.specs.Kinds.{is_leaf, is_composite};
ghost use Rattle.gql_facts.specs.Nodes.{field_node, has_any};
ghost use Rattle.gql_rules.specs.V07LeafFieldSelections as spec;

use crate::faults::add_fault;
use crate::parts::start_of;
use gql_ast::{Fault, Field, FilePlace, Rule, Selection, Text};
use gql_types::TypeKind;
use std::alloc::{AllocError, Global};

/// Whether a selection set is written.
fn has_selections(selections: &[Selection]) -> bool
    ensures { result ≡ has_any selections.now }
{
    match selections.first() {
        Some(_) => true,
        None => false,
    }
}

/// Whether a field of this kind is wrong with a selection set, or without one.
fn is_wrong(has_selections: bool, kind: TypeKind) -> bool
    ensures { result ≡ (if has_selections then is_leaf kind else is_composite kind) }
{
    if has_selections {
        kind.is_leaf()
    } else {
        kind.is_composite()
    }
}

/// Adds the fault of a field whose type is of this kind, if it is known.
pub fn check(
    alloc: Global,
    owner: &FilePlace,
    parent: &Option<Text>,
    field: &Field,
    kind: Option<TypeKind>,
    faults: &mut Vec<Fault>,
) -> Result<(), AllocError>
    ensures { OnOk result (faults.new.items ≡ faults.old.items
        ++ spec.faults_by owner.now (field_node parent.now field.now) kind) }
{
    let Some(kind) = kind else {
        return Ok(());
    };
    if is_wrong(has_selections(field.selections.as_slice()), kind) {
        add_fault(
            alloc,
            owner,
            Rule::V07,
            &field.name.text,
            start_of(field),
            faults,
        )?;
    }
    Ok(())
}
