//! The fields of `__Type` (GraphQL specification, 4.2.2).
ghost use Rattle.std.specs.Prelude.{◌≡◌, option_map};
ghost use Rattle.gql_types.specs.Written.{written};
ghost use Rattle.gql_intro.specs.Borrowed.{answer_of};
ghost use Rattle.gql_intro.specs.Introspection.{kind_name as kind_name_of, part_rows, type_rows, wrapper_rows};
ghost use Rattle.gql_intro.specs.Nodes.{answer_in, enum_name, optional_text as optional_text_of};
ghost use Rattle.gql_types.specs.declared.schema.Schema.{Schema as ASchema};

use crate::answer::{IntroAnswer, node_or_null, optional_text, text_or_null};
use crate::applied::specified_by_url;
use crate::names::kind_name;
use crate::node::type_node;
use crate::parts::{fields_of, inputs_of, interfaces_of, possible_of, values_of};
use gql_ast::TypeRef;
use gql_types::{Schema, SchemaType};

/// The kind of a type.
fn kind_of(of_type: &SchemaType) -> IntroAnswer<'_>
    ensures { (s : ASchema) → answer_of s result ≡ enum_name (kind_name_of of_type.now.kind) }
{
    IntroAnswer::EnumValue(kind_name(of_type.kind))
}

/// The description of a type: that of its definition.
fn description_of(of_type: &SchemaType) -> IntroAnswer<'_>
    ensures { (s : ASchema) → answer_of s result
        ≡ optional_text_of of_type.now.definition.node.description }
{
    optional_text(&of_type.definition.node.get().description)
}

/// What a field of `__Type` that depends on the kind of the type resolves to.
fn part_of<'s>(
    schema: &'s Schema,
    of_type: &'s SchemaType,
    deprecated: bool,
    field: &str,
) -> Option<IntroAnswer<'s>>
    ensures { option_map (answer_of schema.now) result
        ≡ answer_in (part_rows schema.now of_type.now deprecated) field.now }
{
    Some(match field {
        "fields" => fields_of(of_type, deprecated),
        "interfaces" => interfaces_of(of_type),
        "possibleTypes" => possible_of(schema, of_type),
        "enumValues" => values_of(of_type, deprecated),
        "inputFields" => inputs_of(of_type, deprecated),
        _ => return None,
    })
}

/// What a field of a type of the schema resolves to.
pub fn of_named<'s>(
    schema: &'s Schema,
    of_type: &'s SchemaType,
    deprecated: bool,
    field: &str,
) -> Option<IntroAnswer<'s>>
    ensures { option_map (answer_of schema.now) result
        ≡ answer_in (type_rows schema.now of_type.now deprecated) field.now }
{
    Some(match field {
        "__typename" => IntroAnswer::Text("__Type"),
        "kind" => kind_of(of_type),
        "name" => IntroAnswer::Text(of_type.definition.node.get().name.as_str()),
        "description" => description_of(of_type),
        "ofType" => IntroAnswer::Null,
        "specifiedByURL" => text_or_null(specified_by_url(of_type)),
        _ => return part_of(schema, of_type, deprecated, field),
    })
}

/// What a field of a list or a Non-Null type, of another type, resolves to.
pub fn of_wrapper<'s>(
    schema: &'s Schema,
    kind: &'s str,
    of_type: &'s TypeRef,
    field: &str,
) -> Option<IntroAnswer<'s>>
    ensures { option_map (answer_of schema.now) result
        ≡ answer_in (wrapper_rows schema.now kind.now (written of_type.now)) field.now }
{
    Some(match field {
        "__typename" => IntroAnswer::Text("__Type"),
        "kind" => IntroAnswer::EnumValue(kind),
        "name" => IntroAnswer::Null,
        "description" => IntroAnswer::Null,
        "fields" => IntroAnswer::Null,
        "interfaces" => IntroAnswer::Null,
        "possibleTypes" => IntroAnswer::Null,
        "enumValues" => IntroAnswer::Null,
        "inputFields" => IntroAnswer::Null,
        "ofType" => node_or_null(type_node(schema, of_type)),
        "specifiedByURL" => IntroAnswer::Null,
        _ => return None,
    })
}
