//! Type references (GraphQL specification, 2.11).
ghost use Rattle.std.specs.Prelude.{◌<◌, ◌≤◌, length, OnOk};
ghost use Rattle.gql_grammar.specs.Symbol.{IsRest, Reads, by_kind};
ghost use Rattle.gql_parse.specs.Types as spec;

use crate::names::name;
use gql_ast::{Boxed, TypeRef};
use gql_grammar::{Cursor, ParseError};
use gql_text::Kind;
use std::alloc::Global;

#[tactic(auto, using(gql_grammar::proofs::Rests::rests), unfolding(crate::specs::Types::named_type))]
fn named_type(alloc: Global, cursor: &mut Cursor<'_>) -> Result<TypeRef, ParseError>
    ensures value { Reads (spec.named_type.read cursor.old) result cursor.new }
    ensures shorter { OnOk result (length cursor.new < length cursor.old) }
    ensures rest { IsRest cursor.new cursor.old }
{
    Ok(TypeRef::Named(name(alloc, cursor)?))
}

/// A type as it is written (GraphQL specification, 2.11).
#[cycle(type_ref)]
#[tactic(auto, using(gql_grammar::proofs::Rests::rests, crate::proofs::Rules::type_ref_is))]
pub fn type_ref(alloc: Global, cursor: &mut Cursor<'_>) -> Result<TypeRef, ParseError>
    ensures value { Reads (spec.type_ref.read cursor.old) result cursor.new }
    ensures shorter { OnOk result (length cursor.new < length cursor.old) }
    ensures rest { IsRest cursor.new cursor.old }
{
    let nullable = nullable(alloc, cursor)?;
    marked(alloc, cursor, nullable)
}

#[cycle(type_ref)]
#[tactic(auto, using(gql_grammar::proofs::Rests::rests))]
fn nullable(alloc: Global, cursor: &mut Cursor<'_>) -> Result<TypeRef, ParseError>
    ensures value { Reads
        ((by_kind (spec.nullable_by spec.type_ref)).read cursor.old) result cursor.new }
    ensures shorter { OnOk result (length cursor.new < length cursor.old) }
    ensures rest { IsRest cursor.new cursor.old }
{
    match cursor.kind() {
        Kind::Name => named_type(alloc, cursor),
        Kind::LeftBracket => list_type(alloc, cursor),
        _ => Err(ParseError::Unexpected),
    }
}

#[cycle(type_ref)]
#[tactic(auto, using(gql_grammar::proofs::Rests::rests), unfolding(crate::specs::Types::list_type_of))]
fn list_type(alloc: Global, cursor: &mut Cursor<'_>) -> Result<TypeRef, ParseError>
    ensures value { Reads ((spec.list_type_of spec.type_ref).read cursor.old) result cursor.new }
    ensures shorter { OnOk result (length cursor.new < length cursor.old) }
    ensures rest { IsRest cursor.new cursor.old }
{
    let mark = cursor.expect(Kind::LeftBracket)?;
    let item = type_ref(alloc, cursor)?;
    cursor.expect(Kind::RightBracket)?;
    Ok(TypeRef::List {
        place: mark.place,
        item: Boxed::new(alloc, item)?,
    })
}

/// The type, with the `!` after it if there is one.
#[tactic(auto, using(gql_grammar::proofs::Rests::rests), unfolding(crate::specs::Types::non_null))]
fn marked(alloc: Global, cursor: &mut Cursor<'_>, nullable: TypeRef) -> Result<TypeRef, ParseError>
    ensures value { Reads ((spec.marked nullable).read cursor.old) result cursor.new }
    ensures shorter { OnOk result (length cursor.new ≤ length cursor.old) }
    ensures rest { IsRest cursor.new cursor.old }
{
    if !cursor.sees(Kind::Bang) {
        return Ok(nullable);
    }
    cursor.expect(Kind::Bang)?;
    Ok(TypeRef::NonNull(Boxed::new(alloc, nullable)?))
}
