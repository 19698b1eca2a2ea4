//! Descriptions (GraphQL specification, 3.2).
ghost use Rattle.std.specs.Prelude.{◌≡◌, ◌<◌, ◌≤◌, length, OnOk};
ghost use Rattle.gql_grammar.specs.Symbol.{IsRest, Reads};
ghost use Rattle.gql_parse_sdl.specs.Descriptions as spec;

use gql_ast::Text;
use gql_grammar::{Cursor, ParseError};
use gql_text::{Kind, Place, text_value};
use std::alloc::Global;

/// A description and its place.
#[derive(Drop)]
pub struct Description {
    pub place: Place,
    pub text: Text,
}

#[tactic(auto, using(gql_grammar::proofs::Rests::rests), unfolding(crate::specs::Descriptions::string))]
fn string(alloc: Global, cursor: &mut Cursor<'_>) -> Result<Option<Description>, ParseError>
    ensures value { Reads (spec.string.read cursor.old) result cursor.new }
    ensures shorter { OnOk result (length cursor.new < length cursor.old) }
    ensures rest { IsRest cursor.new cursor.old }
{
    let token = cursor.expect(Kind::StringValue)?;
    let value = text_value(alloc, &token)?;
    Ok(Some(Description {
        place: token.place,
        text: Text::from_str(alloc, value.as_str())?,
    }))
}

#[tactic(auto, using(gql_grammar::proofs::Rests::rests), unfolding(crate::specs::Descriptions::block_string))]
fn block_string(alloc: Global, cursor: &mut Cursor<'_>) -> Result<Option<Description>, ParseError>
    ensures value { Reads (spec.block_string.read cursor.old) result cursor.new }
    ensures shorter { OnOk result (length cursor.new < length cursor.old) }
    ensures rest { IsRest cursor.new cursor.old }
{
    let token = cursor.expect(Kind::BlockString)?;
    let value = text_value(alloc, &token)?;
    Ok(Some(Description {
        place: token.place,
        text: Text::from_str(alloc, value.as_str())?,
    }))
}

/// The description that follows, or none.
#[tactic(auto, using(gql_grammar::proofs::Rests::rests))]
pub fn optional_description(
    alloc: Global,
    cursor: &mut Cursor<'_>,
) -> Result<Option<Description>, ParseError>
    ensures value { Reads (spec.optional_description.read cursor.old) result cursor.new }
    ensures shorter { OnOk result (length cursor.new ≤ length cursor.old) }
    ensures rest { IsRest cursor.new cursor.old }
{
    match cursor.kind() {
        Kind::StringValue => string(alloc, cursor),
        Kind::BlockString => block_string(alloc, cursor),
        _ => Ok(None),
    }
}

/// The text of a description, if there is one.
pub fn text_of(description: Option<Description>) -> Option<Text>
    ensures { result ≡ spec.text_of description }
{
    match description {
        Some(found) => Some(found.text),
        None => None,
    }
}

/// Where a definition starts: at its description, or else at its first word.
pub fn start(description: &Option<Description>, word: Place) -> Place
    ensures { result ≡ spec.start description.now word }
{
    match description {
        Some(found) => found.place,
        None => word,
    }
}
