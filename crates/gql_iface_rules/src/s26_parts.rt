//! The names to which the parts of types and directives lead, for S26.
ghost use Rattle.std.specs.Prelude.{◌≡◌, ◌++◌, IfOk, OnOk, flat_map};
ghost use Rattle.gql_iface_rules.specs.S26DirectiveCycles as spec;

use gql_ast::{
    Directive, EnumValueDefinition, FieldDefinition, InputValueDefinition, Items, Shared, Text,
    TypeExtension,
};
use gql_built_in::Sited;
use gql_faults::named_type;
use std::alloc::{AllocError, Global};

/// The name of a directive with `@` before it.
pub fn at_sign(alloc: Global, name: &str) -> Result<Text, AllocError>
    ensures { IfOk result (λ text. text ≡ spec.at_sign name.now) }
{
    let mut text = String::from_str(alloc, "@")?;
    text.push_str(name)?;
    Text::from_str(alloc, text.as_str())
}

/// Adds the directives that are applied to a node.
pub fn add_applied(
    alloc: Global,
    directives: &[Directive],
    names: &mut Items<Text>,
) -> Result<(), AllocError>
    ensures { OnOk result (names.new ≡ names.old ++ spec.applied directives.now) }
{
    for directive in directives {
        names.push(at_sign(alloc, directive.name.as_str())?)?;
    }
    Ok(())
}

/// Adds the names to which an argument or an input field leads.
fn add_input(
    alloc: Global,
    input: &InputValueDefinition,
    names: &mut Items<Text>,
) -> Result<(), AllocError>
    ensures { OnOk result (names.new ≡ names.old ++ spec.from_input input.now) }
{
    add_applied(alloc, input.directives.as_slice(), names)?;
    names.push(named_type(&input.of_type).text.copy()?)?;
    Ok(())
}

/// Adds the names to which the arguments of a directive lead.
pub fn add_inputs(
    alloc: Global,
    inputs: &[Shared<InputValueDefinition>],
    names: &mut Items<Text>,
) -> Result<(), AllocError>
    ensures { OnOk result (names.new ≡ names.old ++ flat_map spec.from_input inputs.now) }
{
    for input in inputs {
        add_input(alloc, input.get(), names)?;
    }
    Ok(())
}

/// Adds the directives on the arguments of a field.
fn add_on_arguments(
    alloc: Global,
    arguments: &[Shared<InputValueDefinition>],
    names: &mut Items<Text>,
) -> Result<(), AllocError>
    ensures { OnOk result (names.new ≡ names.old ++ spec.on_arguments arguments.now) }
{
    for argument in arguments {
        add_applied(alloc, argument.get().directives.as_slice(), names)?;
    }
    Ok(())
}

/// Adds the names to which a field leads.
fn add_field(
    alloc: Global,
    field: &FieldDefinition,
    names: &mut Items<Text>,
) -> Result<(), AllocError>
    ensures { OnOk result (names.new ≡ names.old ++ spec.from_field field.now) }
{
    add_applied(alloc, field.directives.as_slice(), names)?;
    add_on_arguments(alloc, field.arguments.as_slice(), names)
}

/// Adds the names to which fields lead.
pub fn add_fields(
    alloc: Global,
    fields: &[Sited<Shared<FieldDefinition>>],
    names: &mut Items<Text>,
) -> Result<(), AllocError>
    ensures { OnOk result (names.new ≡ names.old ++ spec.from_fields fields.now) }
{
    for field in fields {
        add_field(alloc, field.node.get(), names)?;
    }
    Ok(())
}

/// Adds the directives that are applied to enum values.
pub fn add_values(
    alloc: Global,
    values: &[Sited<Shared<EnumValueDefinition>>],
    names: &mut Items<Text>,
) -> Result<(), AllocError>
    ensures { OnOk result (names.new ≡ names.old ++ spec.on_values values.now) }
{
    for value in values {
        add_applied(alloc, value.node.get().directives.as_slice(), names)?;
    }
    Ok(())
}

/// Adds the names to which input fields lead.
pub fn add_input_fields(
    alloc: Global,
    fields: &[Sited<Shared<InputValueDefinition>>],
    names: &mut Items<Text>,
) -> Result<(), AllocError>
    ensures { OnOk result (names.new ≡ names.old ++ spec.from_input_fields fields.now) }
{
    for field in fields {
        add_input(alloc, field.node.get(), names)?;
    }
    Ok(())
}

/// Adds the directives that are applied to extensions.
pub fn add_extensions(
    alloc: Global,
    extensions: &[Sited<Shared<TypeExtension>>],
    names: &mut Items<Text>,
) -> Result<(), AllocError>
    ensures { OnOk result (names.new ≡ names.old ++ spec.on_extensions extensions.now) }
{
    for extension in extensions {
        add_applied(alloc, extension.node.get().directives.as_slice(), names)?;
    }
    Ok(())
}
