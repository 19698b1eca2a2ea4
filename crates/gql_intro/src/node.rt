//! The nodes of introspection (GraphQL specification, 4.2).
ghost use Rattle.std.specs.Prelude.{◌≡◌, option_map};
ghost use Rattle.gql_types.specs.Written.{written};
ghost use Rattle.gql_intro.specs.Borrowed.{node_of};
ghost use Rattle.gql_intro.specs.Nodes as spec;

use gql_ast::{
    DirectiveDefinition, EnumValueDefinition, FieldDefinition, InputValueDefinition, TypeRef,
};
use gql_types::{Schema, SchemaType};

/// A node of introspection: an object whose fields `intro_resolve` resolves.
#[derive(Clone, Copy)]
pub enum IntroNode<'s> {
    /// The query root, with its fields `__schema` and `__type`.
    QueryRoot,
    /// `__Schema` (4.2.1).
    Schema,
    /// `__Type`: a type of the schema (4.2.2).
    Named(&'s SchemaType),
    /// `__Type`: the list type of these items (4.2.2).
    List(&'s TypeRef),
    /// `__Type`: the Non-Null type of this nullable type (4.2.2).
    NonNull(&'s TypeRef),
    /// `__Field` (4.2.3).
    Field(&'s FieldDefinition),
    /// `__InputValue` (4.2.4).
    InputValue(&'s InputValueDefinition),
    /// `__EnumValue` (4.2.5).
    EnumValue(&'s EnumValueDefinition),
    /// `__Directive` (4.2.6).
    Directive(&'s DirectiveDefinition),
}

/// The type of that name, if the schema has one.
pub fn named_node<'s>(schema: &'s Schema, name: &str) -> Option<IntroNode<'s>>
    ensures { option_map node_of result ≡ spec.named_node schema.now name.now }
{
    match schema.get(name) {
        Some(of_type) => Some(IntroNode::Named(of_type)),
        None => None,
    }
}

/// The type that is written in this way, if the schema has it.
#[tactic(auto, using(gql_types::specs::Written::written_named, gql_types::specs::Written::written_list, gql_types::specs::Written::written_non_null))]
pub fn type_node<'s>(schema: &'s Schema, of_type: &'s TypeRef) -> Option<IntroNode<'s>>
    ensures { option_map node_of result ≡ spec.type_node schema.now (written of_type.now) }
{
    match of_type {
        TypeRef::Named(name) => named_node(schema, name.as_str()),
        TypeRef::List { item, .. } => Some(IntroNode::List(item.get())),
        TypeRef::NonNull(nullable) => Some(IntroNode::NonNull(nullable.get())),
    }
}
