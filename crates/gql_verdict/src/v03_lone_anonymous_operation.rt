//! V03, Lone Anonymous Operation: an operation without a name is not the only one.
//! <https://spec.graphql.org/October2021/#sec-Lone-Anonymous-Operation>
//!
//! At fault: `{ dog { name } } query A { pet { name } }`
//! No fault: `query A { dog { name } } query B { pet { name } }`
ghost use Rattle.std.specs.Prelude.{◌≡◌, ◌++◌, OnOk, count_by, flat_map, map};
ghost use Rattle.gql_ast.specs.declared.definition.Definition.{Definition as ADefinition};
ghost use Rattle.gql_verdict.specs.Definitions.{is_operation as is_an_operation};
ghost use Rattle.gql_verdict.specs.V03LoneAnonymousOperation as spec;

use crate::definitions::is_operation;
use gql_ast::{Definition, Fault, Rule, Text, Tree};
use gql_rules::{add_fault, owner_of};
use std::alloc::{AllocError, Global};

/// How many of these are operations.
fn count_operations(definitions: &[&Definition]) -> usize
    ensures { result ≡ count_by (λ (d : ADefinition). is_an_operation d.tree)
        (map (λ d. d.now) definitions.now) }
{
    let mut count = 0;
    for definition in definitions {
        if is_operation(&definition.tree) {
            count += 1;
        }
    }
    count
}

/// Whether a definition is an operation without a name.
fn is_anonymous(tree: &Tree) -> bool
    ensures { result ≡ spec.is_anonymous tree.now }
{
    match tree {
        Tree::Operation(operation) => operation.get().name.is_none(),
        _ => false,
    }
}

fn check_definition(
    alloc: Global,
    definition: &Definition,
    faults: &mut Vec<Fault>,
) -> Result<(), AllocError>
    ensures { OnOk result (faults.new.items ≡ faults.old.items
        ++ spec.fault_if_anonymous definition.now) }
{
    if is_anonymous(&definition.tree) {
        let about = Text::from_str(alloc, "")?;
        let owner = owner_of(definition)?;
        add_fault(
            alloc,
            &owner,
            Rule::V03,
            &about,
            definition.tree.place(),
            faults,
        )?;
    }
    Ok(())
}

/// Adds the faults of operations without a name.
fn check_all(
    alloc: Global,
    definitions: &[&Definition],
    faults: &mut Vec<Fault>,
) -> Result<(), AllocError>
    ensures { OnOk result (faults.new.items ≡ faults.old.items
        ++ flat_map spec.fault_if_anonymous (map (λ d. d.now) definitions.now)) }
{
    for definition in definitions {
        check_definition(alloc, definition, faults)?;
    }
    Ok(())
}

/// Adds the faults by V03.
pub fn check(
    alloc: Global,
    definitions: &[&Definition],
    faults: &mut Vec<Fault>,
) -> Result<(), AllocError>
    ensures { OnOk result (faults.new.items ≡ faults.old.items
        ++ spec.faults (map (λ d. d.now) definitions.now)) }
{
    if count_operations(definitions) > 1 {
        check_all(alloc, definitions, faults)?;
    }
    Ok(())
}
