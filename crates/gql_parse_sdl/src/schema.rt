//! Schema definitions (GraphQL specification, 3.3).
ghost use Rattle.std.specs.Prelude.{◌≡◌, ◌<◌, ◌≤◌, length, OnOk};
ghost use Rattle.gql_text.specs.Lexeme.{lexeme};
ghost use Rattle.gql_text.specs.declared.token.Kind.TheVariants as k;
ghost use Rattle.gql_grammar.specs.Symbol.{Gives, IsRest, Reads, before};
ghost use Rattle.gql_grammar.specs.Repetition.{some_while};
ghost use Rattle.gql_parse.specs.Operations as operations;
ghost use Rattle.gql_parse_sdl.specs.Schemas as spec;

use crate::description::{Description, start, text_of};
use gql_ast::{Items, OperationKind, RootOperation, SchemaDefinition};
use gql_grammar::{Cursor, ParseError, Unexpected};
use gql_parse::{ValueForm, directives, name};
use gql_text::{Kind, Token};
use std::alloc::Global;

/// Whether this text is the keyword of an operation.
fn is_operation_type(text: &str) -> bool
    ensures { result ≡ operations.is_operation_type text.now }
{
    text == "query" || text == "mutation" || text == "subscription"
}

fn operation_kind(text: &str) -> OperationKind
    ensures { result ≡ operations.operation_kind text.now }
{
    if text == "query" {
        OperationKind::Query
    } else if text == "mutation" {
        OperationKind::Mutation
    } else {
        OperationKind::Subscription
    }
}

#[tactic(auto, using(gql_grammar::proofs::Rests::rests), unfolding(gql_parse::specs::Operations::operation_word, gql_grammar::specs::Symbol::name_where, gql_grammar::specs::Symbol::sees_name))]
fn operation_word<'a>(cursor: &mut Cursor<'a>) -> Result<Token<'a>, Unexpected>
    ensures value { Gives lexeme (operations.operation_word.read cursor.old) result cursor.new }
    ensures shorter { OnOk result (length cursor.new < length cursor.old) }
    ensures rest { IsRest cursor.new cursor.old }
{
    let fits = cursor.sees(Kind::Name) && is_operation_type(cursor.text());
    cursor.take_if(fits)
}

#[tactic(auto, using(gql_grammar::proofs::Rests::rests), unfolding(crate::specs::Schemas::root))]
fn root(alloc: Global, cursor: &mut Cursor<'_>) -> Result<RootOperation, ParseError>
    ensures value { Reads (spec.root.read cursor.old) result cursor.new }
    ensures shorter { OnOk result (length cursor.new < length cursor.old) }
    ensures rest { IsRest cursor.new cursor.old }
{
    let word = operation_word(cursor)?;
    cursor.expect(Kind::Colon)?;
    let name = name(alloc, cursor)?;
    Ok(RootOperation {
        place: word.place,
        kind: operation_kind(word.text),
        name,
    })
}

#[tactic(auto, using(gql_grammar::proofs::Rests::rests, gql_grammar::proofs::Loops::going_init, gql_grammar::proofs::Loops::going_on))]
fn root_list(alloc: Global, cursor: &mut Cursor<'_>) -> Result<Items<RootOperation>, ParseError>
    ensures value { Reads
        ((some_while (before k.RightBrace) spec.root).read cursor.old) result cursor.new }
    ensures shorter { OnOk result (length cursor.new < length cursor.old) }
    ensures rest { IsRest cursor.new cursor.old }
{
    let mut found = Items::new(alloc);
    found.push(root(alloc, cursor)?)?;
    'roots: while cursor.before(Kind::RightBrace) {
        found.push(root(alloc, cursor)?)?;
    }
    Ok(found)
}

#[tactic(auto, using(gql_grammar::proofs::Rests::rests), unfolding(crate::specs::Schemas::roots))]
fn roots(alloc: Global, cursor: &mut Cursor<'_>) -> Result<Items<RootOperation>, ParseError>
    ensures value { Reads (spec.roots.read cursor.old) result cursor.new }
    ensures shorter { OnOk result (length cursor.new < length cursor.old) }
    ensures rest { IsRest cursor.new cursor.old }
{
    cursor.expect(Kind::LeftBrace)?;
    let found = root_list(alloc, cursor)?;
    cursor.expect(Kind::RightBrace)?;
    Ok(found)
}

/// The root operation types of an extension, or none if no `{` follows.
#[tactic(auto, using(gql_grammar::proofs::Rests::rests))]
pub fn optional_roots(
    alloc: Global,
    cursor: &mut Cursor<'_>,
) -> Result<Items<RootOperation>, ParseError>
    ensures value { Reads (spec.optional_roots.read cursor.old) result cursor.new }
    ensures shorter { OnOk result (length cursor.new ≤ length cursor.old) }
    ensures rest { IsRest cursor.new cursor.old }
{
    if !cursor.sees(Kind::LeftBrace) {
        return Ok(Items::new(alloc));
    }
    roots(alloc, cursor)
}

/// A schema definition, after its description.
#[tactic(auto, using(gql_grammar::proofs::Rests::rests), unfolding(crate::specs::Schemas::schema))]
pub fn schema(
    alloc: Global,
    cursor: &mut Cursor<'_>,
    description: Option<Description>,
) -> Result<SchemaDefinition, ParseError>
    ensures value { Reads ((spec.schema description).read cursor.old) result cursor.new }
    ensures shorter { OnOk result (length cursor.new < length cursor.old) }
    ensures rest { IsRest cursor.new cursor.old }
{
    let mark = cursor.expect_word("schema")?;
    let directives = directives(alloc, cursor, ValueForm::Constant)?;
    let roots = roots(alloc, cursor)?;
    Ok(SchemaDefinition {
        place: start(&description, mark.place),
        description: text_of(description),
        keyword: mark.place,
        directives,
        roots,
    })
}
