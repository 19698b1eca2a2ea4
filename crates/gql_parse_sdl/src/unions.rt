//! The members of unions (GraphQL specification, 3.8).
ghost use Rattle.std.specs.Prelude.{◌<◌, ◌≤◌, length, OnOk};
ghost use Rattle.gql_grammar.specs.Symbol.{Gives, IsRest, Reads};
ghost use Rattle.gql_parse_sdl.specs.Unions as spec;

use gql_ast::{Items, Name};
use gql_grammar::{Cursor, ParseError, Unexpected};
use gql_parse::name;
use gql_text::Kind;
use std::alloc::Global;

/// The `|` that may precede the first of several names.
#[tactic(auto, using(gql_grammar::proofs::Rests::rests), unfolding(crate::specs::Unions::pipe))]
pub fn optional_pipe(cursor: &mut Cursor<'_>) -> Result<(), Unexpected>
    ensures value { Gives (λ found. found) (spec.optional_pipe.read cursor.old) result cursor.new }
    ensures shorter { OnOk result (length cursor.new ≤ length cursor.old) }
    ensures rest { IsRest cursor.new cursor.old }
{
    if cursor.sees(Kind::Pipe) {
        cursor.expect(Kind::Pipe)?;
    }
    Ok(())
}

#[tactic(auto, using(gql_grammar::proofs::Rests::rests), unfolding(crate::specs::Unions::further_member))]
fn further_member(alloc: Global, cursor: &mut Cursor<'_>) -> Result<Name, ParseError>
    ensures value { Reads (spec.further_member.read cursor.old) result cursor.new }
    ensures shorter { OnOk result (length cursor.new < length cursor.old) }
    ensures rest { IsRest cursor.new cursor.old }
{
    cursor.expect(Kind::Pipe)?;
    name(alloc, cursor)
}

#[tactic(auto, using(gql_grammar::proofs::Rests::rests, gql_grammar::proofs::Loops::going_init, gql_grammar::proofs::Loops::going_on))]
fn member_names(alloc: Global, cursor: &mut Cursor<'_>) -> Result<Items<Name>, ParseError>
    ensures value { Reads (spec.member_names.read cursor.old) result cursor.new }
    ensures shorter { OnOk result (length cursor.new < length cursor.old) }
    ensures rest { IsRest cursor.new cursor.old }
{
    let mut found = Items::new(alloc);
    found.push(name(alloc, cursor)?)?;
    'names: while cursor.sees(Kind::Pipe) {
        found.push(further_member(alloc, cursor)?)?;
    }
    Ok(found)
}

/// The members of a union, or none if no `=` follows.
#[tactic(auto, using(gql_grammar::proofs::Rests::rests), unfolding(crate::specs::Unions::members))]
pub fn optional_members(alloc: Global, cursor: &mut Cursor<'_>) -> Result<Items<Name>, ParseError>
    ensures value { Reads (spec.optional_members.read cursor.old) result cursor.new }
    ensures shorter { OnOk result (length cursor.new ≤ length cursor.old) }
    ensures rest { IsRest cursor.new cursor.old }
{
    if !cursor.sees(Kind::Equals) {
        return Ok(Items::new(alloc));
    }
    cursor.expect(Kind::Equals)?;
    optional_pipe(cursor)?;
    member_names(alloc, cursor)
}
