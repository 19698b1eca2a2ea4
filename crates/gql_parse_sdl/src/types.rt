//! The definitions of types (GraphQL specification, 3.4).
ghost use Rattle.std.specs.Prelude.{◌<◌, length, OnOk};
ghost use Rattle.gql_grammar.specs.Symbol.{IsRest, Reads};
ghost use Rattle.gql_parse_sdl.specs.Types as spec;

use crate::description::{Description, start, text_of};
use crate::type_body::body;
use crate::type_keyword::TypeKeyword;
use gql_ast::TypeDefinition;
use gql_grammar::{Cursor, ParseError};
use gql_parse::name;
use std::alloc::Global;

/// The definition of a type of this kind, after its description.
#[tactic(auto, using(gql_grammar::proofs::Rests::rests), unfolding(crate::specs::Types::type_definition))]
pub fn type_definition(
    alloc: Global,
    cursor: &mut Cursor<'_>,
    description: Option<Description>,
    keyword: TypeKeyword,
) -> Result<TypeDefinition, ParseError>
    ensures value { Reads
        ((spec.type_definition description keyword).read cursor.old) result cursor.new }
    ensures shorter { OnOk result (length cursor.new < length cursor.old) }
    ensures rest { IsRest cursor.new cursor.old }
{
    let mark = cursor.expect_word(keyword.spelling())?;
    let name = name(alloc, cursor)?;
    let body = body(alloc, cursor, keyword)?;
    Ok(TypeDefinition {
        place: start(&description, mark.place),
        description: text_of(description),
        name,
        directives: body.directives,
        parts: body.parts,
    })
}
