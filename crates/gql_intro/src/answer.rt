//! What the fields of nodes resolve to (GraphQL specification, 4.2).
ghost use Rattle.std.specs.Prelude.{◌≡◌, option_map};
ghost use Rattle.std.specs.Option.{option_copied};
ghost use Rattle.gql_intro.specs.Borrowed.{answer_of, given_of, node_of};
ghost use Rattle.gql_intro.specs.Introspection.{includes_deprecated};
ghost use Rattle.gql_intro.specs.Nodes as spec;
ghost use Rattle.gql_types.specs.declared.schema.Schema.{Schema as ASchema};

use crate::node::IntroNode;
use crate::nodes::IntroNodes;
use gql_ast::{DirectiveLocation, Literal, Text};

/// What a field of a node resolves to.
#[derive(Clone, Copy)]
pub enum IntroAnswer<'s> {
    Null,
    Text(&'s str),
    Boolean(bool),
    /// The name of a value of an enum.
    EnumValue(&'s str),
    /// The text of this literal, as `gql_ast::print_literal` prints it.
    Literal(&'s Literal),
    Node(IntroNode<'s>),
    Nodes(IntroNodes<'s>),
    /// A list of values of `__DirectiveLocation`, each by its `location_name`.
    Locations(&'s [DirectiveLocation]),
}

/// The arguments of a field, as they were coerced. Each is `None` if the field has no such
/// argument, or if it is null.
#[derive(Clone, Copy)]
pub struct IntroArguments<'a> {
    /// `name` of `__type`.
    pub name: Option<&'a str>,
    /// `includeDeprecated` of `fields`, `enumValues`, `inputFields` and `args`. Null counts as
    /// false.
    pub include_deprecated: Option<bool>,
}

impl IntroArguments<'_> {
    /// Whether deprecated elements are included.
    pub(crate) fn includes_deprecated(self) -> bool
        ensures { result ≡ includes_deprecated (given_of self.entry) }
    {
        self.include_deprecated.unwrap_or(false)
    }
}

/// A text, or null.
pub fn text_or_null<'s>(text: Option<&'s str>) -> IntroAnswer<'s>
    ensures { (s : ASchema) → answer_of s result ≡ spec.optional_text (option_copied text.entry) }
{
    match text {
        Some(text) => IntroAnswer::Text(text),
        None => IntroAnswer::Null,
    }
}

/// The text that a definition may have, or null.
pub fn optional_text(text: &Option<Text>) -> IntroAnswer<'_>
    ensures { (s : ASchema) → answer_of s result ≡ spec.optional_text text.now }
{
    match text {
        Some(text) => IntroAnswer::Text(text.as_str()),
        None => IntroAnswer::Null,
    }
}

/// A node, or null.
pub fn node_or_null<'s>(node: Option<IntroNode<'s>>) -> IntroAnswer<'s>
    ensures { (s : ASchema)
        → answer_of s result ≡ spec.optional_node (option_map node_of node.entry) }
{
    match node {
        Some(node) => IntroAnswer::Node(node),
        None => IntroAnswer::Null,
    }
}
