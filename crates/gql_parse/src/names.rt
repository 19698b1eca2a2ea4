//! Names (GraphQL specification, 2.1.9).
ghost use Rattle.std.specs.Prelude.{◌<◌, ◌≤◌, length, OnOk};
ghost use Rattle.gql_grammar.specs.Symbol.{IsRest, Reads};
ghost use Rattle.gql_parse.specs.Names as spec;

use gql_ast::{Name, Text};
use gql_grammar::{Cursor, ParseError};
use gql_text::Kind;
use std::alloc::Global;

/// A name (GraphQL specification, 2.1.9), with its place.
#[tactic(auto, using(gql_grammar::proofs::Rests::rests), unfolding(crate::specs::Names::name))]
pub fn name(alloc: Global, cursor: &mut Cursor<'_>) -> Result<Name, ParseError>
    ensures value { Reads (spec.name.read cursor.old) result cursor.new }
    ensures shorter { OnOk result (length cursor.new < length cursor.old) }
    ensures rest { IsRest cursor.new cursor.old }
{
    let token = cursor.expect(Kind::Name)?;
    Ok(Name {
        place: token.place,
        text: Text::from_str(alloc, token.text)?,
    })
}

/// The name of an operation, which may be absent (2.3).
#[tactic(auto, using(gql_grammar::proofs::Rests::rests), unfolding(crate::specs::Names::some_name))]
pub fn optional_name(alloc: Global, cursor: &mut Cursor<'_>) -> Result<Option<Name>, ParseError>
    ensures value { Reads (spec.optional_name.read cursor.old) result cursor.new }
    ensures shorter { OnOk result (length cursor.new ≤ length cursor.old) }
    ensures rest { IsRest cursor.new cursor.old }
{
    if !cursor.sees(Kind::Name) {
        return Ok(None);
    }
    Ok(Some(name(alloc, cursor)?))
}
