//! Arguments in definitions (GraphQL specification, 3.6.1) and the fields of input objects (3.10).
ghost use Rattle.std.specs.Prelude.{◌<◌, ◌≤◌, length, OnOk};
ghost use Rattle.gql_grammar.specs.Symbol.{IsRest, Reads};
ghost use Rattle.gql_parse_sdl.specs.InputValues as spec;

use crate::description::{optional_description, text_of};
use gql_ast::{InputValueDefinition, Items, Shared};
use gql_grammar::{Cursor, ParseError};
use gql_parse::{ValueForm, directives, name, optional_default, type_ref};
use gql_text::Kind;
use std::alloc::Global;

#[tactic(auto, using(gql_grammar::proofs::Rests::rests), unfolding(crate::specs::InputValues::input_value))]
fn input_value(
    alloc: Global,
    cursor: &mut Cursor<'_>,
) -> Result<Shared<InputValueDefinition>, ParseError>
    ensures value { Reads (spec.input_value.read cursor.old) result cursor.new }
    ensures shorter { OnOk result (length cursor.new < length cursor.old) }
    ensures rest { IsRest cursor.new cursor.old }
{
    let description = optional_description(alloc, cursor)?;
    let name = name(alloc, cursor)?;
    cursor.expect(Kind::Colon)?;
    let of_type = type_ref(alloc, cursor)?;
    let default = optional_default(alloc, cursor)?;
    let directives = directives(alloc, cursor, ValueForm::Constant)?;
    let definition = InputValueDefinition {
        description: text_of(description),
        name,
        of_type,
        default,
        directives,
    };
    Ok(Shared::new(alloc, definition)?)
}

/// One or more input values, up to the closing mark.
#[tactic(auto, using(gql_grammar::proofs::Rests::rests, gql_grammar::proofs::Loops::going_init, gql_grammar::proofs::Loops::going_on))]
fn input_values(
    alloc: Global,
    cursor: &mut Cursor<'_>,
    close: Kind,
) -> Result<Items<Shared<InputValueDefinition>>, ParseError>
    ensures value { Reads ((spec.input_values close).read cursor.old) result cursor.new }
    ensures shorter { OnOk result (length cursor.new < length cursor.old) }
    ensures rest { IsRest cursor.new cursor.old }
{
    let mut found = Items::new(alloc);
    found.push(input_value(alloc, cursor)?)?;
    'values: while cursor.before(close) {
        found.push(input_value(alloc, cursor)?)?;
    }
    Ok(found)
}

/// The arguments that a field or a directive takes, or none.
#[tactic(auto, using(gql_grammar::proofs::Rests::rests), unfolding(crate::specs::InputValues::argument_definitions))]
pub fn optional_argument_definitions(
    alloc: Global,
    cursor: &mut Cursor<'_>,
) -> Result<Items<Shared<InputValueDefinition>>, ParseError>
    ensures value { Reads (spec.optional_argument_definitions.read cursor.old) result cursor.new }
    ensures shorter { OnOk result (length cursor.new ≤ length cursor.old) }
    ensures rest { IsRest cursor.new cursor.old }
{
    if !cursor.sees(Kind::LeftParenthesis) {
        return Ok(Items::new(alloc));
    }
    cursor.expect(Kind::LeftParenthesis)?;
    let found = input_values(alloc, cursor, Kind::RightParenthesis)?;
    cursor.expect(Kind::RightParenthesis)?;
    Ok(found)
}

/// The fields of an input object, or none if no `{` follows.
#[tactic(auto, using(gql_grammar::proofs::Rests::rests), unfolding(crate::specs::InputValues::input_fields))]
pub fn optional_input_fields(
    alloc: Global,
    cursor: &mut Cursor<'_>,
) -> Result<Items<Shared<InputValueDefinition>>, ParseError>
    ensures value { Reads (spec.optional_input_fields.read cursor.old) result cursor.new }
    ensures shorter { OnOk result (length cursor.new ≤ length cursor.old) }
    ensures rest { IsRest cursor.new cursor.old }
{
    if !cursor.sees(Kind::LeftBrace) {
        return Ok(Items::new(alloc));
    }
    cursor.expect(Kind::LeftBrace)?;
    let found = input_values(alloc, cursor, Kind::RightBrace)?;
    cursor.expect(Kind::RightBrace)?;
    Ok(found)
}
