//! Equal trees of types, literals and directives.
ghost use Rattle.std.specs.Prelude.{◌≡◌, IfOk};

use gql_ast::{
    Argument, Boxed, Directive, DirectiveLocation, Items, Literal, Name, ObjectField, Shared, Text,
    TypeRef,
};
use std::alloc::{AllocError, Global};

/// An equal type.
#[cycle(type_copy)]
pub fn type_copy(alloc: Global, of_type: &TypeRef) -> Result<TypeRef, AllocError>
    ensures { IfOk result (λ copy. copy ≡ of_type.now) }
{
    match of_type {
        TypeRef::Named(name) => Ok(TypeRef::Named(name.copy()?)),
        TypeRef::List { place, item } => {
            let item = type_copy(alloc, item.get())?;
            Ok(TypeRef::List {
                place: *place,
                item: Boxed::new(alloc, item)?,
            })
        }
        TypeRef::NonNull(inner) => {
            let inner = type_copy(alloc, inner.get())?;
            Ok(TypeRef::NonNull(Boxed::new(alloc, inner)?))
        }
    }
}

/// An equal literal.
#[cycle(literal_copy)]
fn literal_copy(alloc: Global, literal: &Literal) -> Result<Literal, AllocError>
    ensures { IfOk result (λ copy. copy ≡ literal.now) }
{
    Ok(match literal {
        Literal::Variable { place, name } => Literal::Variable {
            place: *place,
            name: name.copy()?,
        },
        Literal::Int { place, text } => Literal::Int {
            place: *place,
            text: text.copy()?,
        },
        Literal::Float { place, text } => Literal::Float {
            place: *place,
            text: text.copy()?,
        },
        Literal::String { place, value } => Literal::String {
            place: *place,
            value: value.copy()?,
        },
        Literal::Boolean { place, value } => Literal::Boolean {
            place: *place,
            value: *value,
        },
        Literal::Null { place } => Literal::Null { place: *place },
        Literal::Enum { place, name } => Literal::Enum {
            place: *place,
            name: name.copy()?,
        },
        Literal::List { place, items } => Literal::List {
            place: *place,
            items: Items::from_vec(literal_copies(alloc, items.as_slice())?),
        },
        Literal::Object { place, fields } => Literal::Object {
            place: *place,
            fields: Items::from_vec(field_copies(alloc, fields.as_slice())?),
        },
    })
}

/// Equal literals.
#[cycle(literal_copy)]
fn literal_copies(alloc: Global, items: &[Literal]) -> Result<Vec<Literal>, AllocError>
    ensures { IfOk result (λ copies. copies.items ≡ items.now) }
{
    let mut copies = Vec::new(alloc);
    for item in items {
        copies.push(literal_copy(alloc, item)?)?;
    }
    Ok(copies)
}

/// Equal fields of an object literal.
#[cycle(literal_copy)]
fn field_copies(alloc: Global, fields: &[ObjectField]) -> Result<Vec<ObjectField>, AllocError>
    ensures { IfOk result (λ copies. copies.items ≡ fields.now) }
{
    let mut copies = Vec::new(alloc);
    for field in fields {
        let name = field.name.copy()?;
        let value = literal_copy(alloc, &field.value)?;
        copies.push(ObjectField { name, value })?;
    }
    Ok(copies)
}

/// Equal arguments.
fn argument_copies(alloc: Global, arguments: &[Argument]) -> Result<Vec<Argument>, AllocError>
    ensures { IfOk result (λ copies. copies.items ≡ arguments.now) }
{
    let mut copies = Vec::new(alloc);
    for argument in arguments {
        let name = argument.name.copy()?;
        let value = literal_copy(alloc, &argument.value)?;
        copies.push(Argument { name, value })?;
    }
    Ok(copies)
}

/// An equal directive.
fn directive_copy(alloc: Global, directive: &Directive) -> Result<Directive, AllocError>
    ensures { IfOk result (λ copy. copy ≡ directive.now) }
{
    let name = directive.name.copy()?;
    let arguments = argument_copies(alloc, directive.arguments.as_slice())?;
    Ok(Directive {
        place: directive.place,
        name,
        arguments: Items::from_vec(arguments),
    })
}

/// Equal directives.
pub fn directive_copies(
    alloc: Global,
    directives: &[Directive],
) -> Result<Items<Directive>, AllocError>
    ensures { IfOk result (λ copies. copies ≡ directives.now) }
{
    let mut copies = Vec::new(alloc);
    for directive in directives {
        copies.push(directive_copy(alloc, directive)?)?;
    }
    Ok(Items::from_vec(copies))
}

/// Equal names.
pub fn name_copies(alloc: Global, names: &[Name]) -> Result<Items<Name>, AllocError>
    ensures { IfOk result (λ copies. copies ≡ names.now) }
{
    let mut copies = Vec::new(alloc);
    for name in names {
        copies.push(name.copy()?)?;
    }
    Ok(Items::from_vec(copies))
}

/// Equal locations.
pub fn location_copies(
    alloc: Global,
    locations: &[DirectiveLocation],
) -> Result<Items<DirectiveLocation>, AllocError>
    ensures { IfOk result (λ copies. copies ≡ locations.now) }
{
    let mut copies = Vec::new(alloc);
    for location in locations {
        copies.push(*location)?;
    }
    Ok(Items::from_vec(copies))
}

/// Equal values, which both lists share.
pub fn shared_copies<T: Drop>(
    alloc: Global,
    values: &[Shared<T>],
) -> Result<Items<Shared<T>>, AllocError>
    ensures { IfOk result (λ copies. copies ≡ values.now) }
{
    let mut copies = Vec::new(alloc);
    for value in values {
        copies.push(value.clone()?)?;
    }
    Ok(Items::from_vec(copies))
}

/// An equal description, if there is one.
pub fn description_copy(description: &Option<Text>) -> Result<Option<Text>, AllocError>
    ensures { IfOk result (λ copy. copy ≡ description.now) }
{
    match description {
        Some(text) => Ok(Some(text.copy()?)),
        None => Ok(None),
    }
}
