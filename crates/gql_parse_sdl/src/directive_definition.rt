//! Directive definitions (GraphQL specification, 3.13).
ghost use Rattle.std.specs.Prelude.{◌≡◌, ◌<◌, ◌≤◌, length, OnOk};
ghost use Rattle.gql_grammar.specs.Symbol.{Gives, IsRest, Reads};
ghost use Rattle.gql_parse_sdl.specs.DirectiveDefinitions as spec;

use crate::description::{Description, start, text_of};
use crate::input_values::optional_argument_definitions;
use crate::unions::optional_pipe;
use gql_ast::{DirectiveDefinition, DirectiveLocation, Items};
use gql_grammar::{Cursor, ParseError, Unexpected};
use gql_parse::name;
use gql_text::Kind;
use std::alloc::Global;

fn executable_location(text: &str) -> Option<DirectiveLocation>
    ensures { result ≡ spec.executable_location text.now }
{
    if text == "QUERY" {
        Some(DirectiveLocation::Query)
    } else if text == "MUTATION" {
        Some(DirectiveLocation::Mutation)
    } else if text == "SUBSCRIPTION" {
        Some(DirectiveLocation::Subscription)
    } else if text == "FIELD" {
        Some(DirectiveLocation::Field)
    } else if text == "FRAGMENT_DEFINITION" {
        Some(DirectiveLocation::FragmentDefinition)
    } else if text == "FRAGMENT_SPREAD" {
        Some(DirectiveLocation::FragmentSpread)
    } else if text == "INLINE_FRAGMENT" {
        Some(DirectiveLocation::InlineFragment)
    } else if text == "VARIABLE_DEFINITION" {
        Some(DirectiveLocation::VariableDefinition)
    } else {
        None
    }
}

fn type_system_location(text: &str) -> Option<DirectiveLocation>
    ensures { result ≡ spec.type_system_location text.now }
{
    if text == "SCHEMA" {
        Some(DirectiveLocation::Schema)
    } else if text == "SCALAR" {
        Some(DirectiveLocation::Scalar)
    } else if text == "OBJECT" {
        Some(DirectiveLocation::Object)
    } else if text == "FIELD_DEFINITION" {
        Some(DirectiveLocation::FieldDefinition)
    } else if text == "ARGUMENT_DEFINITION" {
        Some(DirectiveLocation::ArgumentDefinition)
    } else if text == "INTERFACE" {
        Some(DirectiveLocation::Interface)
    } else if text == "UNION" {
        Some(DirectiveLocation::Union)
    } else if text == "ENUM" {
        Some(DirectiveLocation::Enum)
    } else if text == "ENUM_VALUE" {
        Some(DirectiveLocation::EnumValue)
    } else if text == "INPUT_OBJECT" {
        Some(DirectiveLocation::InputObject)
    } else if text == "INPUT_FIELD_DEFINITION" {
        Some(DirectiveLocation::InputFieldDefinition)
    } else {
        None
    }
}

/// The location of this name, of the nineteen.
fn location_named(text: &str) -> Option<DirectiveLocation>
    ensures { result ≡ spec.location_named text.now }
{
    match executable_location(text) {
        Some(found) => Some(found),
        None => type_system_location(text),
    }
}

#[tactic(auto, using(gql_grammar::proofs::Rests::rests), unfolding(crate::specs::DirectiveDefinitions::location_at))]
fn location(cursor: &mut Cursor<'_>) -> Result<DirectiveLocation, Unexpected>
    ensures value { Gives (λ found. found) (spec.location.read cursor.old) result cursor.new }
    ensures shorter { OnOk result (length cursor.new < length cursor.old) }
    ensures rest { IsRest cursor.new cursor.old }
{
    match location_named(cursor.text()) {
        Some(found) => {
            cursor.expect(Kind::Name)?;
            Ok(found)
        }
        None => Err(Unexpected),
    }
}

#[tactic(auto, using(gql_grammar::proofs::Rests::rests), unfolding(crate::specs::DirectiveDefinitions::further_location))]
fn further_location(cursor: &mut Cursor<'_>) -> Result<DirectiveLocation, Unexpected>
    ensures value { Gives (λ found. found)
        (spec.further_location.read cursor.old) result cursor.new }
    ensures shorter { OnOk result (length cursor.new < length cursor.old) }
    ensures rest { IsRest cursor.new cursor.old }
{
    cursor.expect(Kind::Pipe)?;
    location(cursor)
}

#[tactic(auto, using(gql_grammar::proofs::Rests::rests, gql_grammar::proofs::Loops::going_init, gql_grammar::proofs::Loops::going_on))]
fn location_names(
    alloc: Global,
    cursor: &mut Cursor<'_>,
) -> Result<Items<DirectiveLocation>, ParseError>
    ensures value { Reads (spec.location_names.read cursor.old) result cursor.new }
    ensures shorter { OnOk result (length cursor.new < length cursor.old) }
    ensures rest { IsRest cursor.new cursor.old }
{
    let mut found = Items::new(alloc);
    found.push(location(cursor)?)?;
    'locations: while cursor.sees(Kind::Pipe) {
        found.push(further_location(cursor)?)?;
    }
    Ok(found)
}

#[tactic(auto, using(gql_grammar::proofs::Rests::rests), unfolding(crate::specs::DirectiveDefinitions::locations))]
fn locations(alloc: Global, cursor: &mut Cursor<'_>) -> Result<Items<DirectiveLocation>, ParseError>
    ensures value { Reads (spec.locations.read cursor.old) result cursor.new }
    ensures shorter { OnOk result (length cursor.new < length cursor.old) }
    ensures rest { IsRest cursor.new cursor.old }
{
    cursor.expect_word("on")?;
    optional_pipe(cursor)?;
    location_names(alloc, cursor)
}

#[tactic(auto, using(gql_grammar::proofs::Rests::rests), unfolding(crate::specs::DirectiveDefinitions::repeatable))]
fn optional_repeatable(cursor: &mut Cursor<'_>) -> Result<bool, Unexpected>
    ensures value { Gives (λ found. found)
        (spec.optional_repeatable.read cursor.old) result cursor.new }
    ensures shorter { OnOk result (length cursor.new ≤ length cursor.old) }
    ensures rest { IsRest cursor.new cursor.old }
{
    if !cursor.sees_word("repeatable") {
        return Ok(false);
    }
    cursor.expect_word("repeatable")?;
    Ok(true)
}

/// The definition of a directive, after its description.
#[tactic(auto, using(gql_grammar::proofs::Rests::rests), unfolding(crate::specs::DirectiveDefinitions::directive_definition))]
pub fn directive_definition(
    alloc: Global,
    cursor: &mut Cursor<'_>,
    description: Option<Description>,
) -> Result<DirectiveDefinition, ParseError>
    ensures value { Reads
        ((spec.directive_definition description).read cursor.old) result cursor.new }
    ensures shorter { OnOk result (length cursor.new < length cursor.old) }
    ensures rest { IsRest cursor.new cursor.old }
{
    let mark = cursor.expect_word("directive")?;
    cursor.expect(Kind::At)?;
    let name = name(alloc, cursor)?;
    let arguments = optional_argument_definitions(alloc, cursor)?;
    let is_repeatable = optional_repeatable(cursor)?;
    let locations = locations(alloc, cursor)?;
    Ok(DirectiveDefinition {
        place: start(&description, mark.place),
        description: text_of(description),
        name,
        arguments,
        is_repeatable,
        locations,
    })
}
