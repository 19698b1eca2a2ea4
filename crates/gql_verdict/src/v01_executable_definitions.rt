//! V01, Executable Definitions: a document file has a definition of the type system.
//! <https://spec.graphql.org/October2021/#sec-Executable-Definitions>
//!
//! At fault: `type T { a: Int }`
//! No fault: `{ dog { name } }`
ghost use Rattle.std.specs.Prelude.{◌≡◌, ◌++◌, OnOk, map, option_map};
ghost use Rattle.gql_verdict.specs.V01ExecutableDefinitions as spec;

use gql_ast::{Definition, Fault, Rule, Text, Tree};
use gql_rules::{add_fault, owner_of};
use std::alloc::{AllocError, Global};

/// The text for a definition or an extension of the type system.
fn type_system_name(tree: &Tree) -> Option<&str>
    ensures { option_map (λ n. n.now) result ≡ spec.type_system_name tree.now }
{
    match tree {
        Tree::Operation(_) | Tree::Fragment(_) => None,
        Tree::Schema(_) | Tree::SchemaExtension(_) => Some(""),
        Tree::Type(definition) => Some(definition.get().name.as_str()),
        Tree::Directive(definition) => Some(definition.get().name.as_str()),
        Tree::TypeExtension(extension) => Some(extension.get().name.as_str()),
    }
}

fn check_definition(
    alloc: Global,
    definition: &Definition,
    faults: &mut Vec<Fault>,
) -> Result<(), AllocError>
    ensures { OnOk result (faults.new.items ≡ faults.old.items
        ++ spec.fault_of_definition definition.now) }
{
    if let Some(name) = type_system_name(&definition.tree) {
        let about = Text::from_str(alloc, name)?;
        let owner = owner_of(definition)?;
        add_fault(
            alloc,
            &owner,
            Rule::V01,
            &about,
            definition.tree.place(),
            faults,
        )?;
    }
    Ok(())
}

/// Adds the faults by V01.
pub fn check(
    alloc: Global,
    definitions: &[&Definition],
    faults: &mut Vec<Fault>,
) -> Result<(), AllocError>
    ensures { OnOk result (faults.new.items ≡ faults.old.items
        ++ spec.faults (map (λ d. d.now) definitions.now)) }
{
    for definition in definitions {
        check_definition(alloc, definition, faults)?;
    }
    Ok(())
}
