//! S18, Bad Default Values: a default value does not fit the type of its argument or input field.
//! It is this registry's own rule.
//!
//! At fault: `type Query { a(b: Int = "c"): Int }`
//! No fault: `type Query { a(b: Int = 3): Int }`
ghost use Rattle.std.specs.Prelude.{◌≡◌, ◌++◌, OnOk, map, flat_map};
ghost use Rattle.gql_schema_rules.specs.RuleGroups as groups;
ghost use Rattle.gql_schema_rules.specs.S18BadDefaultValues as spec;

use gql_ast::{DirectiveDefinition, Fault, FieldDefinition, InputValueDefinition, Rule, Shared};
use gql_built_in::{Sited, SourceFile, name_of_source};
use gql_faults::first_directives;
use gql_node_rules::{ValuePlace, add_unless_fits};
use gql_types::{Batched, Schema, SchemaType};
use std::alloc::{AllocError, Global};

/// Adds the fault of the default value of an argument or an input field, if it has one.
fn check_default(
    alloc: Global,
    schema: &Schema,
    file: &SourceFile,
    definition: &InputValueDefinition,
    faults: &mut Vec<Fault>,
) -> Result<(), AllocError>
    ensures { OnOk result (faults.new.items ≡ faults.old.items
        ++ spec.fault_of_default schema.now file.now definition.now) }
{
    if let Some(value) = &definition.default {
        let given = ValuePlace {
            file: name_of_source(file),
            value,
        };
        add_unless_fits(alloc, Rule::S18, schema, definition, &given, faults)?;
    }
    Ok(())
}

/// Adds the faults of arguments.
fn check_arguments(
    alloc: Global,
    schema: &Schema,
    file: &SourceFile,
    arguments: &[Shared<InputValueDefinition>],
    faults: &mut Vec<Fault>,
) -> Result<(), AllocError>
    ensures { OnOk result (faults.new.items ≡ faults.old.items
        ++ flat_map (spec.fault_of_default schema.now file.now) arguments.now) }
{
    for argument in arguments {
        check_default(alloc, schema, file, argument.get(), faults)?;
    }
    Ok(())
}

/// Adds the faults of input fields.
fn check_input_fields(
    alloc: Global,
    schema: &Schema,
    fields: &[Sited<Shared<InputValueDefinition>>],
    faults: &mut Vec<Fault>,
) -> Result<(), AllocError>
    ensures { OnOk result (faults.new.items ≡ faults.old.items
        ++ flat_map (spec.fault_of_input_field schema.now) fields.now) }
{
    for field in fields {
        check_default(alloc, schema, &field.file, field.node.get(), faults)?;
    }
    Ok(())
}

/// Adds the faults of the arguments of fields.
fn check_fields(
    alloc: Global,
    schema: &Schema,
    fields: &[Sited<Shared<FieldDefinition>>],
    faults: &mut Vec<Fault>,
) -> Result<(), AllocError>
    ensures { OnOk result (faults.new.items ≡ faults.old.items
        ++ flat_map (spec.faults_of_field schema.now) fields.now) }
{
    for field in fields {
        let arguments = field.node.get().arguments.as_slice();
        check_arguments(alloc, schema, &field.file, arguments, faults)?;
    }
    Ok(())
}

/// Adds the faults of a type.
fn check_type(
    alloc: Global,
    schema: &Schema,
    of_type: &SchemaType,
    faults: &mut Vec<Fault>,
) -> Result<(), AllocError>
    ensures { OnOk result (faults.new.items ≡ faults.old.items
        ++ spec.faults_of_type schema.now of_type.now) }
{
    check_input_fields(alloc, schema, of_type.input_fields.as_slice(), faults)?;
    check_fields(alloc, schema, of_type.fields.as_slice(), faults)?;
    Ok(())
}

/// Adds the faults of types.
fn check_types(
    alloc: Global,
    schema: &Schema,
    types: &[Batched<SchemaType>],
    faults: &mut Vec<Fault>,
) -> Result<(), AllocError>
    ensures { OnOk result (faults.new.items ≡ faults.old.items
        ++ flat_map (spec.faults_of_type schema.now) types.now) }
{
    for of_type in types {
        check_type(alloc, schema, of_type.get(), faults)?;
    }
    Ok(())
}

/// Adds the faults of the arguments of directives.
fn check_directives(
    alloc: Global,
    schema: &Schema,
    directives: &[&Sited<Shared<DirectiveDefinition>>],
    faults: &mut Vec<Fault>,
) -> Result<(), AllocError>
    ensures { OnOk result (faults.new.items ≡ faults.old.items
        ++ flat_map (spec.faults_of_directive schema.now) (map (λ d. d.now) directives.now)) }
{
    for directive in directives {
        let arguments = directive.node.get().arguments.as_slice();
        check_arguments(alloc, schema, &directive.file, arguments, faults)?;
    }
    Ok(())
}

/// Adds the faults of these types, and of all directives, by S18.
pub fn check(
    alloc: Global,
    schema: &Schema,
    types: &[Batched<SchemaType>],
    faults: &mut Vec<Fault>,
) -> Result<(), AllocError>
    ensures { OnOk result (faults.new.items
        ≡ faults.old.items ++ groups.defaults_on schema.now types.now) }
{
    check_types(alloc, schema, types, faults)?;
    let directives = first_directives(alloc, schema.directives())?;
    check_directives(alloc, schema, directives.as_slice(), faults)?;
    Ok(())
}
