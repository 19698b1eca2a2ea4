//! The parts of a type of the schema, as lists of nodes (GraphQL specification, 4.2.2).
ghost use Rattle.std.specs.Prelude.{◌≡◌};
ghost use Rattle.gql_intro.specs.Borrowed.{answer_of};
ghost use Rattle.gql_intro.specs.Introspection as spec;
ghost use Rattle.gql_types.specs.declared.schema.Schema.{Schema as ASchema};

use crate::answer::IntroAnswer;
use crate::nodes::IntroNodes;
use gql_types::{HasName, Schema, SchemaType, TypeKind};

/// The fields of an object or an interface.
pub fn fields_of(of_type: &SchemaType, deprecated: bool) -> IntroAnswer<'_>
    ensures { (s : ASchema) → answer_of s result
        ≡ spec.fields_of of_type.now.kind deprecated of_type.now }
{
    match of_type.kind {
        TypeKind::Object | TypeKind::Interface => {
            IntroAnswer::Nodes(IntroNodes::Fields(of_type.fields.as_slice(), deprecated))
        }
        TypeKind::Scalar | TypeKind::Union | TypeKind::Enum | TypeKind::InputObject => {
            IntroAnswer::Null
        }
    }
}

/// The interfaces that an object or an interface implements.
pub fn interfaces_of(of_type: &SchemaType) -> IntroAnswer<'_>
    ensures { (s : ASchema) → answer_of s result
        ≡ spec.interfaces_of of_type.now.kind s of_type.now }
{
    match of_type.kind {
        TypeKind::Object | TypeKind::Interface => {
            IntroAnswer::Nodes(IntroNodes::Interfaces(of_type.interfaces.as_slice()))
        }
        TypeKind::Scalar | TypeKind::Union | TypeKind::Enum | TypeKind::InputObject => {
            IntroAnswer::Null
        }
    }
}

fn possible_nodes<'s>(schema: &'s Schema, of_type: &'s SchemaType) -> IntroAnswer<'s>
    ensures { answer_of schema.now result ≡ spec.possible_nodes schema.now of_type.now }
{
    match schema.possible(of_type.name()) {
        Some(names) => IntroAnswer::Nodes(IntroNodes::Types(names)),
        None => IntroAnswer::Null,
    }
}

/// The possible types of an interface or a union.
pub fn possible_of<'s>(schema: &'s Schema, of_type: &'s SchemaType) -> IntroAnswer<'s>
    ensures { answer_of schema.now result
        ≡ spec.possible_of of_type.now.kind schema.now of_type.now }
{
    match of_type.kind {
        TypeKind::Interface | TypeKind::Union => possible_nodes(schema, of_type),
        TypeKind::Scalar | TypeKind::Object | TypeKind::Enum | TypeKind::InputObject => {
            IntroAnswer::Null
        }
    }
}

/// The values of an enum.
pub fn values_of(of_type: &SchemaType, deprecated: bool) -> IntroAnswer<'_>
    ensures { (s : ASchema) → answer_of s result
        ≡ spec.values_of of_type.now.kind deprecated of_type.now }
{
    match of_type.kind {
        TypeKind::Enum => {
            IntroAnswer::Nodes(IntroNodes::EnumValues(of_type.values.as_slice(), deprecated))
        }
        TypeKind::Scalar
        | TypeKind::Object
        | TypeKind::Interface
        | TypeKind::Union
        | TypeKind::InputObject => IntroAnswer::Null,
    }
}

/// The fields of an input object.
pub fn inputs_of(of_type: &SchemaType, deprecated: bool) -> IntroAnswer<'_>
    ensures { (s : ASchema) → answer_of s result
        ≡ spec.inputs_of of_type.now.kind deprecated of_type.now }
{
    match of_type.kind {
        TypeKind::InputObject => {
            IntroAnswer::Nodes(IntroNodes::InputFields(of_type.input_fields.as_slice(), deprecated))
        }
        TypeKind::Scalar
        | TypeKind::Object
        | TypeKind::Interface
        | TypeKind::Union
        | TypeKind::Enum => IntroAnswer::Null,
    }
}
