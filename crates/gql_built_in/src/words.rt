//! Helpers that build the trees of the built-in definitions.
ghost use Rattle.std.specs.Prelude.{◌≡◌, [], ◌∷◌, ◌++◌, map, IfOk, OnOk};
ghost use Rattle.gql_built_in.specs.BuiltInWords as spec;

use crate::sited::Sited;
use gql_ast::{
    Boxed, DirectiveDefinition, DirectiveLocation, EnumValueDefinition, FieldDefinition,
    InputValueDefinition, Items, Literal, Name, Shared, Text, Tree, TypeDefinition, TypeParts,
    TypeRef,
};
use gql_text::Place;
use std::alloc::{AllocError, Global};

/// The place of what is in no file. Places in files have lines from 1.
const NOWHERE: Place = Place {
    line: 0,
    column: 0,
    offset: 0,
};

#[tactic(auto, unfolding(crate::specs::BuiltInWords::word))]
fn word(alloc: Global, text: &str) -> Result<Name, AllocError>
    ensures { IfOk result (λ x. x ≡ spec.word text.now) }
{
    Ok(Name {
        place: NOWHERE,
        text: Text::from_str(alloc, text)?,
    })
}

/// The type of that name (GraphQL specification, 2.11).
#[tactic(auto, unfolding(crate::specs::BuiltInWords::named))]
pub fn named(alloc: Global, name: &str) -> Result<TypeRef, AllocError>
    ensures { IfOk result (λ x. x ≡ spec.named name.now) }
{
    Ok(TypeRef::Named(word(alloc, name)?))
}

/// A list of that type (GraphQL specification, 2.11).
#[tactic(auto, unfolding(crate::specs::BuiltInWords::list))]
fn list(alloc: Global, item: TypeRef) -> Result<TypeRef, AllocError>
    ensures { IfOk result (λ x. x ≡ spec.list item) }
{
    Ok(TypeRef::List {
        place: NOWHERE,
        item: Boxed::new(alloc, item)?,
    })
}

/// The type with `!` after it (GraphQL specification, 2.11).
#[tactic(auto, unfolding(crate::specs::BuiltInWords::required))]
fn required(alloc: Global, nullable: TypeRef) -> Result<TypeRef, AllocError>
    ensures { IfOk result (λ x. x ≡ spec.required nullable) }
{
    Ok(TypeRef::NonNull(Boxed::new(alloc, nullable)?))
}

/// `T!`, of that name.
pub fn required_named(alloc: Global, name: &str) -> Result<TypeRef, AllocError>
    ensures { IfOk result (λ x. x ≡ spec.required (spec.named name.now)) }
{
    required(alloc, named(alloc, name)?)
}

/// `[T!]`, of that name.
pub fn list_of(alloc: Global, name: &str) -> Result<TypeRef, AllocError>
    ensures { IfOk result (λ x. x ≡ spec.list_of (spec.named name.now)) }
{
    list(alloc, required_named(alloc, name)?)
}

/// `[T!]!`, of that name.
pub fn required_list_of(alloc: Global, name: &str) -> Result<TypeRef, AllocError>
    ensures { IfOk result (λ x. x ≡ spec.required_list_of (spec.named name.now)) }
{
    required(alloc, list_of(alloc, name)?)
}

/// A boolean value (GraphQL specification, 2.9.3).
#[tactic(auto, unfolding(crate::specs::BuiltInWords::boolean_value))]
pub fn boolean_value(value: bool) -> Literal
    ensures { result ≡ spec.boolean_value value }
{
    Literal::Boolean {
        place: NOWHERE,
        value,
    }
}

/// A string value (GraphQL specification, 2.9.4).
#[tactic(auto, unfolding(crate::specs::BuiltInWords::string_value))]
pub fn string_value(alloc: Global, value: &str) -> Result<Literal, AllocError>
    ensures { IfOk result (λ x. x ≡ spec.string_value value.now) }
{
    Ok(Literal::String {
        place: NOWHERE,
        value: Text::from_str(alloc, value)?,
    })
}

/// One argument alone (GraphQL specification, 3.6.1).
#[tactic(auto, unfolding(crate::specs::BuiltInWords::argument))]
pub fn one_argument(
    alloc: Global,
    name: &str,
    of_type: TypeRef,
    default: Option<Literal>,
) -> Result<Items<Shared<InputValueDefinition>>, AllocError>
    ensures { IfOk result (λ xs. xs ≡ spec.argument name.now of_type default ∷ []) }
{
    let argument = InputValueDefinition {
        description: None,
        name: word(alloc, name)?,
        of_type,
        default,
        directives: Items::new(alloc),
    };
    let mut arguments = Items::new(alloc);
    arguments.push(Shared::new(alloc, argument)?)?;
    Ok(arguments)
}

/// Adds a field (GraphQL specification, 3.6).
#[tactic(auto, unfolding(crate::specs::BuiltInWords::field_with))]
pub fn field_with(
    alloc: Global,
    fields: &mut Items<Shared<FieldDefinition>>,
    name: &str,
    arguments: Items<Shared<InputValueDefinition>>,
    of_type: TypeRef,
) -> Result<(), AllocError>
    ensures { OnOk result (fields.new ≡ fields.old ++ spec.field_with name.now arguments of_type
        ∷ []) }
{
    let field = FieldDefinition {
        description: None,
        name: word(alloc, name)?,
        arguments,
        of_type,
        directives: Items::new(alloc),
    };
    fields.push(Shared::new(alloc, field)?)
}

/// Adds a field without arguments (GraphQL specification, 3.6).
pub fn field(
    alloc: Global,
    fields: &mut Items<Shared<FieldDefinition>>,
    name: &str,
    of_type: TypeRef,
) -> Result<(), AllocError>
    ensures { OnOk result (fields.new ≡ fields.old ++ spec.field name.now of_type ∷ []) }
{
    field_with(alloc, fields, name, Items::new(alloc), of_type)
}

#[tactic(auto, unfolding(crate::specs::BuiltInWords::enum_value))]
fn enum_value(alloc: Global, name: &str) -> Result<Shared<EnumValueDefinition>, AllocError>
    ensures { IfOk result (λ x. x ≡ spec.enum_value name.now) }
{
    let value = EnumValueDefinition {
        description: None,
        name: word(alloc, name)?,
        directives: Items::new(alloc),
    };
    Shared::new(alloc, value)
}

fn enum_values(
    alloc: Global,
    names: &[&str],
) -> Result<Items<Shared<EnumValueDefinition>>, AllocError>
    ensures { IfOk result (λ xs. xs ≡ map spec.enum_value (map (λ n. n.now) names.now)) }
{
    let mut values = Items::new(alloc);
    'names: for name in names {
        values.push(enum_value(alloc, name)?)?;
    }
    Ok(values)
}

#[tactic(auto, unfolding(crate::specs::BuiltInWords::type_of))]
fn type_of(alloc: Global, name: &str, parts: TypeParts) -> Result<TypeDefinition, AllocError>
    ensures { IfOk result (λ x. x ≡ spec.type_of name.now parts) }
{
    Ok(TypeDefinition {
        place: NOWHERE,
        description: None,
        name: word(alloc, name)?,
        directives: Items::new(alloc),
        parts,
    })
}

/// A scalar (GraphQL specification, 3.5).
pub fn scalar(alloc: Global, name: &str) -> Result<TypeDefinition, AllocError>
    ensures { IfOk result (λ x. x ≡ spec.scalar name.now) }
{
    type_of(alloc, name, TypeParts::Scalar)
}

/// An object without interfaces (GraphQL specification, 3.6).
fn object_type(
    alloc: Global,
    name: &str,
    fields: Items<Shared<FieldDefinition>>,
) -> Result<TypeDefinition, AllocError>
    ensures { IfOk result (λ x. x ≡ spec.object_type name.now fields) }
{
    let interfaces = Items::new(alloc);
    type_of(alloc, name, TypeParts::Object { interfaces, fields })
}

/// An enum of the values of these names (GraphQL specification, 3.9).
pub fn enum_type(alloc: Global, name: &str, values: &[&str]) -> Result<TypeDefinition, AllocError>
    ensures { IfOk result (λ x. x ≡ spec.enum_type name.now (map (λ n. n.now) values.now)) }
{
    let values = enum_values(alloc, values)?;
    type_of(alloc, name, TypeParts::Enum { values })
}

/// A directive that is not repeatable (GraphQL specification, 3.13).
#[tactic(auto, unfolding(crate::specs::BuiltInWords::directive))]
pub fn directive(
    alloc: Global,
    name: &str,
    arguments: Items<Shared<InputValueDefinition>>,
    locations: &[DirectiveLocation],
) -> Result<DirectiveDefinition, AllocError>
    ensures { IfOk result (λ x. x ≡ spec.directive name.now arguments locations.now) }
{
    Ok(DirectiveDefinition {
        place: NOWHERE,
        description: None,
        name: word(alloc, name)?,
        arguments,
        is_repeatable: false,
        locations: Items::from_slice(alloc, locations)?,
    })
}

#[tactic(auto, unfolding(crate::specs::BuiltInWords::of_no_file))]
fn of_no_file(tree: Tree) -> Sited<Tree>
    ensures { result ≡ spec.of_no_file tree }
{
    Sited {
        file: None,
        node: tree,
    }
}

/// Adds a type.
pub fn a_type(
    alloc: Global,
    definitions: &mut Items<Sited<Tree>>,
    definition: TypeDefinition,
) -> Result<(), AllocError>
    ensures { OnOk result (definitions.new ≡ definitions.old ++ spec.a_type definition ∷ []) }
{
    definitions.push(of_no_file(Tree::Type(Shared::new(alloc, definition)?)))
}

/// Adds an object without interfaces (GraphQL specification, 3.6).
pub fn object(
    alloc: Global,
    definitions: &mut Items<Sited<Tree>>,
    name: &str,
    fields: Items<Shared<FieldDefinition>>,
) -> Result<(), AllocError>
    ensures { OnOk result (definitions.new ≡ definitions.old
        ++ spec.a_type (spec.object_type name.now fields) ∷ []) }
{
    a_type(alloc, definitions, object_type(alloc, name, fields)?)
}

/// Adds a directive.
pub fn a_directive(
    alloc: Global,
    definitions: &mut Items<Sited<Tree>>,
    definition: DirectiveDefinition,
) -> Result<(), AllocError>
    ensures { OnOk result (definitions.new ≡ definitions.old ++ spec.a_directive definition ∷ []) }
{
    definitions.push(of_no_file(Tree::Directive(Shared::new(alloc, definition)?)))
}
