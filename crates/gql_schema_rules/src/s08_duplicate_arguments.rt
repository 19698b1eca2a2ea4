//! S08, Duplicate Arguments: a field or a directive has two arguments of the same name.
//! <https://spec.graphql.org/October2021/#sec-Field-Arguments>
//! <https://spec.graphql.org/October2021/#sec-Type-System.Directives>
//!
//! At fault: `type Query { a(b: Int, b: Int): Int }`
//! No fault: `type Query { a(b: Int, c: Int): Int }`
ghost use Rattle.std.specs.Prelude.{◌≡◌, ◌++◌, IfOk, OnOk, map, flat_map};
ghost use Rattle.gql_faults.specs.Places.{named};
ghost use Rattle.gql_schema_rules.specs.RuleGroups as groups;
ghost use Rattle.gql_schema_rules.specs.S08DuplicateArguments as spec;

use gql_ast::{DirectiveDefinition, Fault, FieldDefinition, InputValueDefinition, Rule, Shared};
use gql_built_in::{Sited, SourceFile, name_of_source};
use gql_faults::{NamePlace, add_repeated, first_directives};
use gql_types::{Batched, Schema, SchemaType};
use std::alloc::{AllocError, Global};

/// The names of arguments.
fn names_in<'t>(
    alloc: Global,
    file: &'t SourceFile,
    arguments: &'t [Shared<InputValueDefinition>],
) -> Result<Vec<NamePlace<'t>>, AllocError>
    ensures { IfOk result (λ names. map named names.items ≡ spec.names_in file.now arguments.now) }
{
    let mut names = Vec::with_capacity(alloc, arguments.len())?;
    for argument in arguments {
        names.push(NamePlace {
            file: name_of_source(file),
            name: &argument.get().name,
        })?;
    }
    Ok(names)
}

/// Adds the faults of the arguments of one field or directive.
fn check_arguments(
    alloc: Global,
    file: &SourceFile,
    arguments: &[Shared<InputValueDefinition>],
    faults: &mut Vec<Fault>,
) -> Result<(), AllocError>
    ensures { OnOk result (faults.new.items ≡ faults.old.items
        ++ spec.faults_in file.now arguments.now) }
{
    if arguments.len() < 2 {
        // one argument is not repeated
        return Ok(());
    }
    let names = names_in(alloc, file, arguments)?;
    add_repeated(alloc, Rule::S08, names.as_slice(), faults)?;
    Ok(())
}

/// Adds the faults of fields.
fn check_fields(
    alloc: Global,
    fields: &[Sited<Shared<FieldDefinition>>],
    faults: &mut Vec<Fault>,
) -> Result<(), AllocError>
    ensures { OnOk result (faults.new.items
        ≡ faults.old.items ++ flat_map spec.faults_of_field fields.now) }
{
    for field in fields {
        let arguments = field.node.get().arguments.as_slice();
        check_arguments(alloc, &field.file, arguments, faults)?;
    }
    Ok(())
}

/// Adds the faults of the fields of types.
fn check_types(
    alloc: Global,
    types: &[Batched<SchemaType>],
    faults: &mut Vec<Fault>,
) -> Result<(), AllocError>
    ensures { OnOk result (faults.new.items
        ≡ faults.old.items ++ flat_map spec.faults_of_type types.now) }
{
    for of_type in types {
        check_fields(alloc, of_type.get().fields.as_slice(), faults)?;
    }
    Ok(())
}

/// Adds the faults of directives.
fn check_directives(
    alloc: Global,
    directives: &[&Sited<Shared<DirectiveDefinition>>],
    faults: &mut Vec<Fault>,
) -> Result<(), AllocError>
    ensures { OnOk result (faults.new.items ≡ faults.old.items
        ++ flat_map spec.faults_of_directive (map (λ d. d.now) directives.now)) }
{
    for directive in directives {
        let arguments = directive.node.get().arguments.as_slice();
        check_arguments(alloc, &directive.file, arguments, faults)?;
    }
    Ok(())
}

/// Adds the faults of the fields of these types, and of all directives, by S08.
pub fn check(
    alloc: Global,
    schema: &Schema,
    types: &[Batched<SchemaType>],
    faults: &mut Vec<Fault>,
) -> Result<(), AllocError>
    ensures { OnOk result (faults.new.items
        ≡ faults.old.items ++ groups.arguments_on schema.now types.now) }
{
    check_types(alloc, types, faults)?;
    let directives = first_directives(alloc, schema.directives())?;
    check_directives(alloc, directives.as_slice(), faults)?;
    Ok(())
}
