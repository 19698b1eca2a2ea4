//! Lists of nodes, which borrow the schema.
ghost use Rattle.std.specs.Prelude.{◌≡◌, ◌&&◌, not, length, option_map};
ghost use Rattle.gql_types.specs.declared.schema.Schema.{Schema as ASchema};
ghost use Rattle.gql_intro.specs.Borrowed.{elements, element_at, node_of};
ghost use Rattle.gql_intro.specs.Introspection.{shown_field, shown_input, shown_value};

use crate::applied::is_deprecated;
use crate::node::{IntroNode, named_node};
use crate::sorted_names::SortedNames;
use gql_ast::{
    DirectiveDefinition, EnumValueDefinition, FieldDefinition, InputValueDefinition, Name, Shared,
    Text,
};
use gql_types::{Schema, Sited};

/// A list of nodes, which borrows the schema. An element may have no node: a name that is the name
/// of no type, or a deprecated definition if these are not included (the second part of `Fields`,
/// `EnumValues`, `InputFields` and `Arguments` says whether they are).
#[derive(Clone, Copy)]
pub enum IntroNodes<'s> {
    /// Types, by their names.
    Types(&'s [Text]),
    /// All types that introspection shows, by their names.
    AllTypes(&'s SortedNames),
    Interfaces(&'s [Sited<Name>]),
    Fields(&'s [Sited<Shared<FieldDefinition>>], bool),
    EnumValues(&'s [Sited<Shared<EnumValueDefinition>>], bool),
    InputFields(&'s [Sited<Shared<InputValueDefinition>>], bool),
    Arguments(&'s [Shared<InputValueDefinition>], bool),
    Directives(&'s [Sited<Shared<DirectiveDefinition>>]),
}

/// A field, unless it is deprecated and deprecated ones are not included.
fn field_node<'s>(
    field: &'s Sited<Shared<FieldDefinition>>,
    deprecated: bool,
) -> Option<IntroNode<'s>>
    ensures { option_map node_of result ≡ shown_field deprecated field.now }
{
    let definition = field.node.get();
    if !deprecated && is_deprecated(definition.directives.as_slice()) {
        None
    } else {
        Some(IntroNode::Field(definition))
    }
}

/// An enum value, unless it is deprecated and deprecated ones are not included.
fn value_node<'s>(
    value: &'s Sited<Shared<EnumValueDefinition>>,
    deprecated: bool,
) -> Option<IntroNode<'s>>
    ensures { option_map node_of result ≡ shown_value deprecated value.now }
{
    let definition = value.node.get();
    if !deprecated && is_deprecated(definition.directives.as_slice()) {
        None
    } else {
        Some(IntroNode::EnumValue(definition))
    }
}

/// An argument or an input field, unless it is deprecated and deprecated ones are not included.
fn input_node<'s>(definition: &'s InputValueDefinition, deprecated: bool) -> Option<IntroNode<'s>>
    ensures { option_map node_of result ≡ shown_input deprecated definition.now }
{
    if !deprecated && is_deprecated(definition.directives.as_slice()) {
        None
    } else {
        Some(IntroNode::InputValue(definition))
    }
}

impl<'s> IntroNodes<'s> {
    /// How many elements the list has.
    pub fn len(&self) -> usize
        ensures { (s : ASchema) → result ≡ length (elements s self.now) }
    {
        match self {
            IntroNodes::Types(names) => names.len(),
            IntroNodes::AllTypes(names) => names.len(),
            IntroNodes::Interfaces(names) => names.len(),
            IntroNodes::Fields(fields, _) => fields.len(),
            IntroNodes::EnumValues(values, _) => values.len(),
            IntroNodes::InputFields(fields, _) => fields.len(),
            IntroNodes::Arguments(arguments, _) => arguments.len(),
            IntroNodes::Directives(directives) => directives.len(),
        }
    }

    /// The node of an element, if it has one.
    #[tactic(auto, using(crate::proofs::Listed::listed))]
    pub fn get(&self, schema: &'s Schema, index: usize) -> Option<IntroNode<'s>>
        ensures { option_map node_of result ≡ element_at schema.now self.now index }
    {
        match *self {
            IntroNodes::Types(names) => match names.get(index) {
                Some(name) => named_node(schema, name.as_str()),
                None => None,
            },
            IntroNodes::AllTypes(names) => match names.get(index) {
                Some(name) => named_node(schema, name.as_str()),
                None => None,
            },
            IntroNodes::Interfaces(names) => match names.get(index) {
                Some(name) => named_node(schema, name.node.as_str()),
                None => None,
            },
            IntroNodes::Fields(fields, deprecated) => match fields.get(index) {
                Some(field) => field_node(field, deprecated),
                None => None,
            },
            IntroNodes::EnumValues(values, deprecated) => match values.get(index) {
                Some(value) => value_node(value, deprecated),
                None => None,
            },
            IntroNodes::InputFields(fields, deprecated) => match fields.get(index) {
                Some(field) => input_node(field.node.get(), deprecated),
                None => None,
            },
            IntroNodes::Arguments(arguments, deprecated) => match arguments.get(index) {
                Some(argument) => input_node(argument.get(), deprecated),
                None => None,
            },
            IntroNodes::Directives(directives) => match directives.get(index) {
                Some(directive) => Some(IntroNode::Directive(directive.node.get())),
                None => None,
            },
        }
    }
}
