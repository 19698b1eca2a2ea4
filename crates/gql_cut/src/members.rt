//! The parts of a type without a member, or without an argument of one.
ghost use Rattle.std.specs.Prelude.{◌≡◌, IfOk, map};
ghost use Rattle.gql_cut.specs.Cuts as spec;

use crate::copies::{description_copy, directive_copies, name_copies, shared_copies, type_copy};
use gql_ast::{
    EnumValueDefinition, FieldDefinition, InputValueDefinition, Items, Shared, Text, TypeParts,
};
use std::alloc::{AllocError, Global};

/// The fields but that of this name.
fn fields_but(
    alloc: Global,
    name: &Text,
    fields: &[Shared<FieldDefinition>],
) -> Result<Items<Shared<FieldDefinition>>, AllocError>
    ensures { IfOk result (λ left. left ≡ spec.fields_but name.now fields.now) }
{
    let mut left = Vec::new(alloc);
    for field in fields {
        if name.as_str() != field.get().name.as_str() {
            left.push(field.clone()?)?;
        }
    }
    Ok(Items::from_vec(left))
}

/// The arguments or input fields but that of this name.
pub fn inputs_but(
    alloc: Global,
    name: &Text,
    inputs: &[Shared<InputValueDefinition>],
) -> Result<Items<Shared<InputValueDefinition>>, AllocError>
    ensures { IfOk result (λ left. left ≡ spec.inputs_but name.now inputs.now) }
{
    let mut left = Vec::new(alloc);
    for input in inputs {
        if name.as_str() != input.get().name.as_str() {
            left.push(input.clone()?)?;
        }
    }
    Ok(Items::from_vec(left))
}

/// The values of an enum but that of this name.
fn values_but(
    alloc: Global,
    name: &Text,
    values: &[Shared<EnumValueDefinition>],
) -> Result<Items<Shared<EnumValueDefinition>>, AllocError>
    ensures { IfOk result (λ left. left ≡ spec.values_but name.now values.now) }
{
    let mut left = Vec::new(alloc);
    for value in values {
        if name.as_str() != value.get().name.as_str() {
            left.push(value.clone()?)?;
        }
    }
    Ok(Items::from_vec(left))
}

/// The parts of a type without its field, input field or value of this name.
pub fn parts_but(alloc: Global, name: &Text, parts: &TypeParts) -> Result<TypeParts, AllocError>
    ensures { IfOk result (λ left. left ≡ spec.parts_but name.now parts.now) }
{
    Ok(match parts {
        TypeParts::Object { interfaces, fields } => TypeParts::Object {
            interfaces: name_copies(alloc, interfaces.as_slice())?,
            fields: fields_but(alloc, name, fields.as_slice())?,
        },
        TypeParts::Interface { interfaces, fields } => TypeParts::Interface {
            interfaces: name_copies(alloc, interfaces.as_slice())?,
            fields: fields_but(alloc, name, fields.as_slice())?,
        },
        TypeParts::Enum { values } => TypeParts::Enum {
            values: values_but(alloc, name, values.as_slice())?,
        },
        TypeParts::InputObject { fields } => TypeParts::InputObject {
            fields: inputs_but(alloc, name, fields.as_slice())?,
        },
        TypeParts::Scalar => TypeParts::Scalar,
        TypeParts::Union { members } => TypeParts::Union {
            members: name_copies(alloc, members.as_slice())?,
        },
    })
}

/// A field with these arguments in place of its own.
fn field_with(
    alloc: Global,
    field: &FieldDefinition,
    arguments: Items<Shared<InputValueDefinition>>,
) -> Result<Shared<FieldDefinition>, AllocError>
    ensures { IfOk result (λ made. made ≡ record field.now { arguments = arguments }) }
{
    let description = description_copy(&field.description)?;
    let name = field.name.copy()?;
    let of_type = type_copy(alloc, &field.of_type)?;
    let directives = directive_copies(alloc, field.directives.as_slice())?;
    Shared::new(
        alloc,
        FieldDefinition {
            description,
            name,
            arguments,
            of_type,
            directives,
        },
    )
}

/// A field, without its argument of this name if it is the field of that name.
fn field_without(
    alloc: Global,
    field: &Text,
    name: &Text,
    definition: &Shared<FieldDefinition>,
) -> Result<Shared<FieldDefinition>, AllocError>
    ensures { IfOk result (λ left. left ≡ spec.field_without field.now name.now definition.now) }
{
    let its = definition.get();
    if field.as_str() != its.name.as_str() {
        return definition.clone();
    }
    let arguments = inputs_but(alloc, name, its.arguments.as_slice())?;
    field_with(alloc, its, arguments)
}

/// The fields, that of this name without its argument of that name.
fn fields_without(
    alloc: Global,
    field: &Text,
    name: &Text,
    fields: &[Shared<FieldDefinition>],
) -> Result<Items<Shared<FieldDefinition>>, AllocError>
    ensures { IfOk result (λ left.
        left ≡ map (spec.field_without field.now name.now) fields.now) }
{
    let mut left = Vec::new(alloc);
    for definition in fields {
        left.push(field_without(alloc, field, name, definition)?)?;
    }
    Ok(Items::from_vec(left))
}

/// The parts of a type without the argument of this name of the field of that name.
pub fn parts_without(
    alloc: Global,
    field: &Text,
    name: &Text,
    parts: &TypeParts,
) -> Result<TypeParts, AllocError>
    ensures { IfOk result (λ left. left ≡ spec.parts_without field.now name.now parts.now) }
{
    Ok(match parts {
        TypeParts::Object { interfaces, fields } => TypeParts::Object {
            interfaces: name_copies(alloc, interfaces.as_slice())?,
            fields: fields_without(alloc, field, name, fields.as_slice())?,
        },
        TypeParts::Interface { interfaces, fields } => TypeParts::Interface {
            interfaces: name_copies(alloc, interfaces.as_slice())?,
            fields: fields_without(alloc, field, name, fields.as_slice())?,
        },
        TypeParts::Enum { values } => TypeParts::Enum {
            values: shared_copies(alloc, values.as_slice())?,
        },
        TypeParts::InputObject { fields } => TypeParts::InputObject {
            fields: shared_copies(alloc, fields.as_slice())?,
        },
        TypeParts::Scalar => TypeParts::Scalar,
        TypeParts::Union { members } => TypeParts::Union {
            members: name_copies(alloc, members.as_slice())?,
        },
    })
}
