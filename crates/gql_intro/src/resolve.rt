//! What each field of each node resolves to (GraphQL specification, 4.1 and 4.2).
ghost use Rattle.std.specs.Prelude.{◌≡◌, None, Some, option_and_then, option_map};
ghost use Rattle.std.specs.Option.{option_copied};
ghost use Rattle.gql_intro.specs.Borrowed.{answer_of, given_of, node_of};
ghost use Rattle.gql_intro.specs.Introspection as spec;
ghost use Rattle.gql_intro.specs.InFiles.{resolve_in};
ghost use Rattle.gql_intro.specs.Made.{made_of};
ghost use Rattle.gql_intro.specs.Nodes.{answer_in};
ghost use Rattle.gql_ast.specs.declared.files.Files.{Files as AFiles};
ghost use Rattle.gql_types.specs.Schemas.{schema_of};
ghost use Rattle.gql_types.specs.declared.schema.Schema.{Schema as ASchema};

use crate::answer::{IntroAnswer, IntroArguments, node_or_null, optional_text, text_or_null};
use crate::applied::{deprecation_reason, is_deprecated};
use crate::made::IntroSchema;
use crate::named_type::{of_named, of_wrapper};
use crate::node::{IntroNode, named_node, type_node};
use crate::nodes::IntroNodes;
use gql_ast::{
    DirectiveDefinition, EnumValueDefinition, FieldDefinition, InputValueDefinition, Literal,
    OperationKind, Shared,
};
use gql_types::Schema;

fn root_node(schema: &Schema, kind: OperationKind) -> Option<IntroNode<'_>>
    ensures { option_map node_of result ≡ spec.root_node schema.now kind }
{
    match schema.root(kind) {
        Some(root) => named_node(schema, root.name.node.as_str()),
        None => None,
    }
}

fn root_name(schema: &Schema) -> Option<&str>
    ensures { option_copied result ≡ spec.root_name schema.now }
{
    match schema.root(OperationKind::Query) {
        Some(root) => Some(root.name.node.as_str()),
        None => None,
    }
}

fn type_called<'s>(
    schema: &'s Schema,
    made: &IntroSchema,
    name: Option<&str>,
) -> Option<IntroNode<'s>>
    ensures { option_map node_of result
        ≡ option_and_then (spec.type_called schema.now made.now) (option_copied name.entry) }
{
    match name {
        Some(name) => {
            if made.shows(name) {
                named_node(schema, name)
            } else {
                None
            }
        }
        None => None,
    }
}

fn of_root<'s>(
    schema: &'s Schema,
    made: &'s IntroSchema,
    arguments: IntroArguments<'_>,
    field: &str,
) -> Option<IntroAnswer<'s>>
    ensures { option_map (answer_of schema.now) result
        ≡ answer_in (spec.root_rows schema.now made.now (given_of arguments.entry)) field.now }
{
    Some(match field {
        "__typename" => text_or_null(root_name(schema)),
        "__schema" => IntroAnswer::Node(IntroNode::Schema),
        "__type" => node_or_null(type_called(schema, made, arguments.name)),
        _ => return None,
    })
}

fn of_schema<'s>(schema: &'s Schema, made: &'s IntroSchema, field: &str) -> Option<IntroAnswer<'s>>
    ensures { option_map (answer_of schema.now) result
        ≡ answer_in (spec.schema_rows schema.now made.now) field.now }
{
    Some(match field {
        "__typename" => IntroAnswer::Text("__Schema"),
        "description" => optional_text(made.description()),
        "types" => IntroAnswer::Nodes(IntroNodes::AllTypes(made.types())),
        "queryType" => node_or_null(root_node(schema, OperationKind::Query)),
        "mutationType" => node_or_null(root_node(schema, OperationKind::Mutation)),
        "subscriptionType" => node_or_null(root_node(schema, OperationKind::Subscription)),
        "directives" => IntroAnswer::Nodes(IntroNodes::Directives(schema.directives())),
        _ => return None,
    })
}

/// The arguments of a field or a directive.
fn arguments_of(arguments: &[Shared<InputValueDefinition>], deprecated: bool) -> IntroAnswer<'_>
    ensures { (s : ASchema) → answer_of s result ≡ spec.arguments_of deprecated arguments.now }
{
    IntroAnswer::Nodes(IntroNodes::Arguments(arguments, deprecated))
}

fn of_field<'s>(
    schema: &'s Schema,
    definition: &'s FieldDefinition,
    deprecated: bool,
    field: &str,
) -> Option<IntroAnswer<'s>>
    ensures { option_map (answer_of schema.now) result
        ≡ answer_in (spec.field_rows schema.now definition.now deprecated) field.now }
{
    let directives = definition.directives.as_slice();
    Some(match field {
        "__typename" => IntroAnswer::Text("__Field"),
        "name" => IntroAnswer::Text(definition.name.as_str()),
        "description" => optional_text(&definition.description),
        "args" => arguments_of(definition.arguments.as_slice(), deprecated),
        "type" => node_or_null(type_node(schema, &definition.of_type)),
        "isDeprecated" => IntroAnswer::Boolean(is_deprecated(directives)),
        "deprecationReason" => text_or_null(deprecation_reason(directives)),
        _ => return None,
    })
}

/// The text of a default value, or null.
fn default_of(default: &Option<Literal>) -> IntroAnswer<'_>
    ensures { (s : ASchema) → answer_of s result ≡ spec.default_text default.now }
{
    match default {
        Some(literal) => IntroAnswer::Literal(literal),
        None => IntroAnswer::Null,
    }
}

fn of_input<'s>(
    schema: &'s Schema,
    definition: &'s InputValueDefinition,
    field: &str,
) -> Option<IntroAnswer<'s>>
    ensures { option_map (answer_of schema.now) result
        ≡ answer_in (spec.input_rows schema.now definition.now) field.now }
{
    let directives = definition.directives.as_slice();
    Some(match field {
        "__typename" => IntroAnswer::Text("__InputValue"),
        "name" => IntroAnswer::Text(definition.name.as_str()),
        "description" => optional_text(&definition.description),
        "type" => node_or_null(type_node(schema, &definition.of_type)),
        "defaultValue" => default_of(&definition.default),
        "isDeprecated" => IntroAnswer::Boolean(is_deprecated(directives)),
        "deprecationReason" => text_or_null(deprecation_reason(directives)),
        _ => return None,
    })
}

fn of_value<'s>(definition: &'s EnumValueDefinition, field: &str) -> Option<IntroAnswer<'s>>
    ensures { (s : ASchema) → option_map (answer_of s) result
        ≡ answer_in (spec.value_rows definition.now) field.now }
{
    let directives = definition.directives.as_slice();
    Some(match field {
        "__typename" => IntroAnswer::Text("__EnumValue"),
        "name" => IntroAnswer::Text(definition.name.as_str()),
        "description" => optional_text(&definition.description),
        "isDeprecated" => IntroAnswer::Boolean(is_deprecated(directives)),
        "deprecationReason" => text_or_null(deprecation_reason(directives)),
        _ => return None,
    })
}

fn of_directive<'s>(
    definition: &'s DirectiveDefinition,
    deprecated: bool,
    field: &str,
) -> Option<IntroAnswer<'s>>
    ensures { (s : ASchema) → option_map (answer_of s) result
        ≡ answer_in (spec.directive_rows definition.now deprecated) field.now }
{
    Some(match field {
        "__typename" => IntroAnswer::Text("__Directive"),
        "name" => IntroAnswer::Text(definition.name.as_str()),
        "description" => optional_text(&definition.description),
        "locations" => IntroAnswer::Locations(definition.locations.as_slice()),
        "args" => arguments_of(definition.arguments.as_slice(), deprecated),
        "isRepeatable" => IntroAnswer::Boolean(definition.is_repeatable),
        _ => return None,
    })
}

/// What the field of that name of a node resolves to, by the form of the node.
fn of_node<'s>(
    schema: &'s Schema,
    made: &'s IntroSchema,
    node: IntroNode<'s>,
    field: &str,
    arguments: IntroArguments<'_>,
) -> Option<IntroAnswer<'s>>
    ensures { option_map (answer_of schema.now) result
        ≡ spec.resolve schema.now made.now (given_of arguments.entry)
        (node_of node.entry) field.now }
{
    let deprecated = arguments.includes_deprecated();
    match node {
        IntroNode::QueryRoot => of_root(schema, made, arguments, field),
        IntroNode::Schema => of_schema(schema, made, field),
        IntroNode::Named(of_type) => of_named(schema, of_type, deprecated, field),
        IntroNode::List(item) => of_wrapper(schema, "LIST", item, field),
        IntroNode::NonNull(nullable) => of_wrapper(schema, "NON_NULL", nullable, field),
        IntroNode::Field(definition) => of_field(schema, definition, deprecated, field),
        IntroNode::InputValue(definition) => of_input(schema, definition, field),
        IntroNode::EnumValue(definition) => of_value(definition, field),
        IntroNode::Directive(definition) => of_directive(definition, deprecated, field),
    }
}

/// What the field of that name of a node resolves to, called with these arguments; `None` if the
/// node has no such field. `made` is what `intro_schema` made for the schema; where the schema is
/// that of schema files, `files` says what the field resolves to there.
pub fn intro_resolve<'s>(
    schema: &'s Schema,
    made: &'s IntroSchema,
    node: IntroNode<'s>,
    field: &str,
    arguments: IntroArguments<'_>,
) -> Option<IntroAnswer<'s>>
    ensures made { option_map (answer_of schema.now) result
        ≡ spec.resolve schema.now made.now (given_of arguments.entry)
        (node_of node.entry) field.now }
    ensures files { (files : AFiles) → schema.now ≡ schema_of files
        → made.now ≡ made_of files schema.now
        → option_map (answer_of schema.now) result
        ≡ resolve_in files (given_of arguments.entry) (node_of node.entry) field.now }
{
    of_node(schema, made, node, field, arguments)
}
