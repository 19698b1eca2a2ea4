//! V04, Field Selections: the parent type has no field of this name.
//! <https://spec.graphql.org/October2021/#sec-Field-Selections>
//!
//! At fault: `{ dog { meows } }`
//! No fault: `{ dog { name } }`
ghost use Rattle.std.specs.Prelude.{◌≡◌, ◌++◌, OnOk};
ghost use Rattle.std.specs.Option.{option_copied};
ghost use Rattle.gql_facts.specs.Nodes.{field_node};
ghost use Rattle.gql_rules.specs.V04FieldSelections as spec;

use crate::faults::add_fault;
use crate::parts::start_of;
use gql_ast::{Fault, Field, FilePlace, Rule, Text};
use gql_facts::FieldFact;
use std::alloc::{AllocError, Global};

/// Adds the fault of a field, if its parent type is known and has no field of this name.
pub fn check(
    alloc: Global,
    owner: &FilePlace,
    parent: &Option<Text>,
    field: &Field,
    known: Option<&FieldFact>,
    faults: &mut Vec<Fault>,
) -> Result<(), AllocError>
    ensures { OnOk result (faults.new.items ≡ faults.old.items
        ++ spec.faults_by owner.now (field_node parent.now field.now) parent.now
        (option_copied known.entry)) }
{
    match parent {
        None => Ok(()),
        Some(_) => match known {
            None => add_fault(
                alloc,
                owner,
                Rule::V04,
                &field.name.text,
                start_of(field),
                faults,
            ),
            Some(_) => Ok(()),
        },
    }
}
