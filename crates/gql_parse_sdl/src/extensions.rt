//! Extensions of the schema and of types (GraphQL specification, 3.1).
ghost use Rattle.std.specs.Prelude.{◌≡◌, ◌<◌, ◌≤◌, length, OnOk};
ghost use Rattle.gql_grammar.specs.Symbol.{IsRest, Reads};
ghost use Rattle.gql_parse_sdl.specs.Extensions as spec;

use crate::schema::optional_roots;
use crate::type_body::body;
use crate::type_keyword::TypeKeyword;
use gql_ast::{SchemaExtension, Shared, Tree, TypeExtension};
use gql_grammar::{Cursor, ParseError};
use gql_parse::{ValueForm, directives, name};
use gql_text::{Kind, Place};
use std::alloc::Global;

fn begins_braces(cursor: &Cursor<'_>) -> bool
    ensures { result ≡ spec.begins_braces cursor.now }
{
    cursor.sees(Kind::At) || cursor.sees(Kind::LeftBrace)
}

/// Whether a part that a type of this keyword may have follows.
fn begins_part(cursor: &Cursor<'_>, keyword: TypeKeyword) -> bool
    ensures { result ≡ spec.begins_part keyword cursor.now }
{
    match keyword {
        TypeKeyword::Scalar => cursor.sees(Kind::At),
        TypeKeyword::Object | TypeKeyword::Interface => {
            begins_braces(cursor) || cursor.sees_word("implements")
        }
        TypeKeyword::Union => cursor.sees(Kind::At) || cursor.sees(Kind::Equals),
        TypeKeyword::Enum | TypeKeyword::InputObject => begins_braces(cursor),
    }
}

#[tactic(auto, using(gql_grammar::proofs::Rests::rests), unfolding(crate::specs::Extensions::type_extension))]
fn type_extension(
    alloc: Global,
    cursor: &mut Cursor<'_>,
    place: Place,
    keyword: TypeKeyword,
) -> Result<TypeExtension, ParseError>
    ensures value { Reads ((spec.type_extension place keyword).read cursor.old) result cursor.new }
    ensures shorter { OnOk result (length cursor.new < length cursor.old) }
    ensures rest { IsRest cursor.new cursor.old }
{
    cursor.expect_word(keyword.spelling())?;
    let name = name(alloc, cursor)?;
    if !begins_part(cursor, keyword) {
        return Err(ParseError::Unexpected);
    }
    let body = body(alloc, cursor, keyword)?;
    Ok(TypeExtension {
        place,
        name,
        directives: body.directives,
        parts: body.parts,
    })
}

#[tactic(auto, using(gql_grammar::proofs::Rests::rests), unfolding(crate::specs::Extensions::schema_extension))]
fn schema_extension(
    alloc: Global,
    cursor: &mut Cursor<'_>,
    place: Place,
) -> Result<SchemaExtension, ParseError>
    ensures value { Reads ((spec.schema_extension place).read cursor.old) result cursor.new }
    ensures shorter { OnOk result (length cursor.new < length cursor.old) }
    ensures rest { IsRest cursor.new cursor.old }
{
    cursor.expect_word("schema")?;
    if !begins_braces(cursor) {
        return Err(ParseError::Unexpected);
    }
    let directives = directives(alloc, cursor, ValueForm::Constant)?;
    let roots = optional_roots(alloc, cursor)?;
    Ok(SchemaExtension {
        place,
        directives,
        roots,
    })
}

#[tactic(auto, using(gql_grammar::proofs::Rests::rests))]
fn extended(alloc: Global, cursor: &mut Cursor<'_>, place: Place) -> Result<Tree, ParseError>
    ensures value { Reads ((spec.extended place).read cursor.old) result cursor.new }
    ensures shorter { OnOk result (length cursor.new < length cursor.old) }
    ensures rest { IsRest cursor.new cursor.old }
{
    if cursor.sees_word("schema") {
        let extension = schema_extension(alloc, cursor, place)?;
        return Ok(Tree::SchemaExtension(Shared::new(alloc, extension)?));
    }
    match TypeKeyword::of(cursor.text()) {
        Some(keyword) => {
            let extension = type_extension(alloc, cursor, place, keyword)?;
            Ok(Tree::TypeExtension(Shared::new(alloc, extension)?))
        }
        None => Err(ParseError::Unexpected),
    }
}

/// An extension, with at least one part after what it extends.
#[tactic(auto, using(gql_grammar::proofs::Rests::rests), unfolding(crate::specs::Extensions::extension))]
pub fn extension(alloc: Global, cursor: &mut Cursor<'_>) -> Result<Tree, ParseError>
    ensures value { Reads (spec.extension.read cursor.old) result cursor.new }
    ensures shorter { OnOk result (length cursor.new < length cursor.old) }
    ensures rest { IsRest cursor.new cursor.old }
{
    let mark = cursor.expect_word("extend")?;
    extended(alloc, cursor, mark.place)
}
