//! Definitions and extensions of the type system (GraphQL specification, 3).
ghost use Rattle.std.specs.Prelude.{◌<◌, length, OnOk};
ghost use Rattle.gql_grammar.specs.Symbol.{IsRest, Reads};
ghost use Rattle.gql_parse_sdl.specs.TypeSystem as spec;

use crate::description::{Description, optional_description};
use crate::directive_definition::directive_definition;
use crate::extensions::extension;
use crate::schema::schema;
use crate::type_keyword::TypeKeyword;
use crate::types::type_definition;
use gql_ast::{Shared, Tree};
use gql_grammar::{Cursor, ParseError};
use std::alloc::Global;

/// A definition, after its description.
#[tactic(auto, using(gql_grammar::proofs::Rests::rests))]
fn defined(
    alloc: Global,
    cursor: &mut Cursor<'_>,
    description: Option<Description>,
) -> Result<Tree, ParseError>
    ensures value { Reads ((spec.defined description).read cursor.old) result cursor.new }
    ensures shorter { OnOk result (length cursor.new < length cursor.old) }
    ensures rest { IsRest cursor.new cursor.old }
{
    if cursor.sees_word("schema") {
        let definition = schema(alloc, cursor, description)?;
        return Ok(Tree::Schema(Shared::new(alloc, definition)?));
    }
    if cursor.sees_word("directive") {
        let definition = directive_definition(alloc, cursor, description)?;
        return Ok(Tree::Directive(Shared::new(alloc, definition)?));
    }
    match TypeKeyword::of(cursor.text()) {
        Some(keyword) => {
            let definition = type_definition(alloc, cursor, description, keyword)?;
            Ok(Tree::Type(Shared::new(alloc, definition)?))
        }
        None => Err(ParseError::Unexpected),
    }
}

#[tactic(auto, using(gql_grammar::proofs::Rests::rests), unfolding(crate::specs::TypeSystem::definition))]
fn definition(alloc: Global, cursor: &mut Cursor<'_>) -> Result<Tree, ParseError>
    ensures value { Reads (spec.definition.read cursor.old) result cursor.new }
    ensures shorter { OnOk result (length cursor.new < length cursor.old) }
    ensures rest { IsRest cursor.new cursor.old }
{
    let description = optional_description(alloc, cursor)?;
    defined(alloc, cursor, description)
}

/// A definition or an extension of the type system.
#[tactic(auto, using(gql_grammar::proofs::Rests::rests))]
pub fn type_system(alloc: Global, cursor: &mut Cursor<'_>) -> Result<Tree, ParseError>
    ensures value { Reads (spec.type_system.read cursor.old) result cursor.new }
    ensures shorter { OnOk result (length cursor.new < length cursor.old) }
    ensures rest { IsRest cursor.new cursor.old }
{
    if cursor.sees_word("extend") {
        extension(alloc, cursor)
    } else {
        definition(alloc, cursor)
    }
}
