//! What is removed when a part of a schema is.
ghost use Rattle.std.specs.Prelude.{◌≡◌, ◌++◌, ◌∷◌, [], IfOk, OnOk, bytes_eq, is_some, map};
ghost use Rattle.std.specs.List.{list_any};
ghost use Rattle.gql_built_in.specs.declared.sited.Sited.{Sited as ASited};
ghost use Rattle.gql_ast.specs.declared.text.Name.{Name as AName};
ghost use Rattle.gql_removal.specs.Asked as spec;

use crate::removal::Removal;
use crate::subject::Subject;
use gql_ast::{FieldDefinition, InputValueDefinition, Items, Name, Shared, Text};
use gql_built_in::Sited;
use gql_types::{Schema, SchemaType, TypeKind};
use std::alloc::{AllocError, Global};

/// The kinds of parts of a schema.
#[derive(Clone, Copy, Debug, PartialEq, Eq)]
pub enum Part {
    /// A type (GraphQL specification, 3.4).
    Type,
    /// A field of an object or an interface (3.6, 3.7).
    Field,
    /// An argument of a field (3.6.1).
    Argument,
    /// A field of an input object (3.10).
    InputField,
    /// A value of an enum (3.9).
    EnumValue,
    /// A directive (3.13).
    Directive,
    /// An argument of a directive (3.13).
    DirectiveArgument,
}

/// A part of a schema, and what its removal is.
#[derive(Drop)]
pub struct Asked {
    pub part: Part,
    pub removal: Removal,
}

/// Adds the names of interfaces.
fn add_interfaces(interfaces: &[Sited<Name>], types: &mut Items<Text>) -> Result<(), AllocError>
    ensures { OnOk result (types.new
        ≡ types.old ++ map (λ (i : ASited AName). i.node.text) interfaces.now) }
{
    for interface in interfaces {
        types.push(interface.node.text.copy()?)?;
    }
    Ok(())
}

/// A type, and the interfaces that it implements.
fn with_interfaces(alloc: Global, of_type: &SchemaType) -> Result<Items<Text>, AllocError>
    ensures { IfOk result (λ types. types ≡ spec.with_interfaces of_type.now) }
{
    let mut types = Items::new(alloc);
    types.push(of_type.definition.node.get().name.text.copy()?)?;
    add_interfaces(of_type.interfaces.as_slice(), &mut types)?;
    Ok(types)
}

/// The removal of a field of an object or an interface.
pub fn field_removal(
    alloc: Global,
    of_type: &SchemaType,
    name: &Text,
) -> Result<Removal, AllocError>
    ensures { IfOk result (λ removal. removal ≡ spec.field_removal of_type.now name.now) }
{
    Ok(Removal::Field {
        types: with_interfaces(alloc, of_type)?,
        name: name.copy()?,
    })
}

/// What is removed of a type that has fields, if it has one of this name.
fn field_asked(
    alloc: Global,
    of_type: &SchemaType,
    name: &Text,
) -> Result<Option<Asked>, AllocError>
    ensures { IfOk result (λ found. found ≡ spec.field_asked of_type.now name.now) }
{
    if of_type.fields.get(name.as_str()).is_none() {
        return Ok(None);
    }
    Ok(Some(Asked {
        part: Part::Field,
        removal: field_removal(alloc, of_type, name)?,
    }))
}

/// What is removed of an input object, if it has a field of this name.
fn input_asked(of_type: &SchemaType, name: &Text) -> Result<Option<Asked>, AllocError>
    ensures { IfOk result (λ found. found ≡ spec.input_asked of_type.now name.now) }
{
    if of_type.input_fields.get(name.as_str()).is_none() {
        return Ok(None);
    }
    Ok(Some(Asked {
        part: Part::InputField,
        removal: Removal::InputField {
            of_type: of_type.definition.node.get().name.text.copy()?,
            name: name.copy()?,
        },
    }))
}

/// What is removed of an enum, if it has a value of this name.
fn value_asked(of_type: &SchemaType, name: &Text) -> Result<Option<Asked>, AllocError>
    ensures { IfOk result (λ found. found ≡ spec.value_asked of_type.now name.now) }
{
    if of_type.values.get(name.as_str()).is_none() {
        return Ok(None);
    }
    Ok(Some(Asked {
        part: Part::EnumValue,
        removal: Removal::EnumValue {
            of_type: of_type.definition.node.get().name.text.copy()?,
            name: name.copy()?,
        },
    }))
}

/// What is removed of a type, if it has a member of this name.
fn member_asked(
    alloc: Global,
    of_type: &SchemaType,
    name: &Text,
) -> Result<Option<Asked>, AllocError>
    ensures { IfOk result (λ found. found ≡ spec.member_asked of_type.now.kind of_type.now name.now) }
{
    match of_type.kind {
        TypeKind::Object | TypeKind::Interface => field_asked(alloc, of_type, name),
        TypeKind::InputObject => input_asked(of_type, name),
        TypeKind::Enum => value_asked(of_type, name),
        TypeKind::Scalar | TypeKind::Union => Ok(None),
    }
}

/// Whether one of these arguments has this name.
fn has_argument(arguments: &[Shared<InputValueDefinition>], name: &Text) -> bool
    ensures { result ≡ spec.has_argument arguments.now name.now }
{
    for argument in arguments {
        if name.as_str() == argument.get().name.as_str() {
            return true;
        }
    }
    false
}

/// What is removed of a field of a type, if the field has an argument of this name.
fn argument_asked_of(
    alloc: Global,
    of_type: &SchemaType,
    field: &FieldDefinition,
    name: &Text,
) -> Result<Option<Asked>, AllocError>
    ensures { IfOk result (λ found.
        found ≡ spec.argument_asked_of of_type.now name.now field.now) }
{
    if !has_argument(field.arguments.as_slice(), name) {
        return Ok(None);
    }
    Ok(Some(Asked {
        part: Part::Argument,
        removal: Removal::Argument {
            types: with_interfaces(alloc, of_type)?,
            field: field.name.text.copy()?,
            name: name.copy()?,
        },
    }))
}

/// What is removed of a type, if it has a field of that name with an argument of this name.
fn argument_asked(
    alloc: Global,
    of_type: &SchemaType,
    field: &Text,
    name: &Text,
) -> Result<Option<Asked>, AllocError>
    ensures { IfOk result (λ found.
        found ≡ spec.argument_asked field.now name.now of_type.now) }
{
    match of_type.fields.get(field.as_str()) {
        Some(field) => argument_asked_of(alloc, of_type, field.node.get(), name),
        None => Ok(None),
    }
}

/// What is removed of a schema, if it has a type of this name.
fn type_asked(schema: &Schema, name: &Text) -> Result<Option<Asked>, AllocError>
    ensures { IfOk result (λ found. found ≡ spec.type_asked schema.now name.now) }
{
    if schema.get(name.as_str()).is_none() {
        return Ok(None);
    }
    Ok(Some(Asked {
        part: Part::Type,
        removal: Removal::Type(name.copy()?),
    }))
}

/// What is removed of a schema, if it has a directive of this name.
fn directive_asked(schema: &Schema, name: &Text) -> Result<Option<Asked>, AllocError>
    ensures { IfOk result (λ found. found ≡ spec.directive_asked schema.now name.now) }
{
    if schema.directive(name.as_str()).is_none() {
        return Ok(None);
    }
    Ok(Some(Asked {
        part: Part::Directive,
        removal: Removal::Directive(name.copy()?),
    }))
}

/// What is removed of a schema, if it has that directive, with an argument of this name.
fn directive_argument_asked(
    schema: &Schema,
    directive: &Text,
    name: &Text,
) -> Result<Option<Asked>, AllocError>
    ensures { IfOk result (λ found.
        found ≡ spec.directive_argument_asked schema.now directive.now name.now) }
{
    let Some(found) = schema.directive(directive.as_str()) else {
        return Ok(None);
    };
    if !has_argument(found.node.get().arguments.as_slice(), name) {
        return Ok(None);
    }
    Ok(Some(Asked {
        part: Part::DirectiveArgument,
        removal: Removal::DirectiveArgument {
            directive: directive.copy()?,
            name: name.copy()?,
        },
    }))
}

/// What is removed when the part that a subject names is, or `None` if the schema has no such part.
pub fn removal_of(
    alloc: Global,
    schema: &Schema,
    subject: &Subject,
) -> Result<Option<Asked>, AllocError>
    ensures { IfOk result (λ found. found ≡ spec.removal_in schema.now subject.now) }
{
    match subject {
        Subject::Type(name) => type_asked(schema, name),
        Subject::Member { of_type, name } => match schema.get(of_type.as_str()) {
            Some(of_type) => member_asked(alloc, of_type, name),
            None => Ok(None),
        },
        Subject::Argument {
            of_type,
            field,
            name,
        } => match schema.get(of_type.as_str()) {
            Some(of_type) => argument_asked(alloc, of_type, field, name),
            None => Ok(None),
        },
        Subject::Directive(name) => directive_asked(schema, name),
        Subject::DirectiveArgument { directive, name } => {
            directive_argument_asked(schema, directive, name)
        }
    }
}
