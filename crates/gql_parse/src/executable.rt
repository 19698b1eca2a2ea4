//! Executable documents (GraphQL specification, 2.2).
ghost use Rattle.std.specs.Prelude.{◌≡◌, ◌<◌, [], length, OnOk};
ghost use Rattle.gql_text.specs.declared.token.Kind.TheVariants as k;
ghost use Rattle.gql_grammar.specs.Symbol.{IsRest, Reads, before};
ghost use Rattle.gql_grammar.specs.Repetition.{some_while};
ghost use Rattle.gql_parse.specs.Documents as spec;

use crate::operations::{fragment, operation};
use gql_ast::{Definition, Document, FileName, Items, Tree};
use gql_grammar::{Cursor, ParseError};
use gql_text::Kind;
use std::alloc::Global;

/// An operation or a fragment (GraphQL specification, 2.2).
#[tactic(auto, using(gql_grammar::proofs::Rests::rests), unfolding(crate::specs::Documents::definition))]
pub fn definition(alloc: Global, cursor: &mut Cursor<'_>) -> Result<Tree, ParseError>
    ensures value { Reads (spec.definition.read cursor.old) result cursor.new }
    ensures shorter { OnOk result (length cursor.new < length cursor.old) }
    ensures rest { IsRest cursor.new cursor.old }
{
    if cursor.sees_word("fragment") {
        Ok(Tree::Fragment(fragment(alloc, cursor)?))
    } else {
        Ok(Tree::Operation(operation(alloc, cursor)?))
    }
}

#[tactic(auto, using(gql_grammar::proofs::Rests::rests), unfolding(crate::specs::Documents::definition_in))]
fn definition_in(
    alloc: Global,
    cursor: &mut Cursor<'_>,
    file: &FileName,
) -> Result<Definition, ParseError>
    ensures value { Reads ((spec.definition_in file.now).read cursor.old) result cursor.new }
    ensures shorter { OnOk result (length cursor.new < length cursor.old) }
    ensures rest { IsRest cursor.new cursor.old }
{
    let tree = definition(alloc, cursor)?;
    Ok(Definition {
        file: file.copy()?,
        tree,
    })
}

#[tactic(auto, using(gql_grammar::proofs::Rests::rests, gql_grammar::proofs::Loops::going_init, gql_grammar::proofs::Loops::going_on))]
fn definitions(
    alloc: Global,
    cursor: &mut Cursor<'_>,
    file: &FileName,
) -> Result<Items<Definition>, ParseError>
    ensures value { Reads
        ((some_while (before k.EndOfText) (spec.definition_in file.now)).read cursor.old)
        result cursor.new }
    ensures shorter { OnOk result (length cursor.new < length cursor.old) }
    ensures rest { IsRest cursor.new cursor.old }
{
    let mut found = Items::new(alloc);
    found.push(definition_in(alloc, cursor, file)?)?;
    'definitions: while cursor.before(Kind::EndOfText) {
        found.push(definition_in(alloc, cursor, file)?)?;
    }
    Ok(found)
}

/// The document of all tokens.
#[tactic(auto, unfolding(crate::specs::Documents::executable, crate::specs::Documents::document))]
pub fn document(
    alloc: Global,
    cursor: &mut Cursor<'_>,
    file: &FileName,
) -> Result<Document, ParseError>
    ensures value { Reads ((spec.executable file.now).read cursor.old) result cursor.new }
    ensures all { OnOk result (cursor.new ≡ []) }
{
    let definitions = definitions(alloc, cursor, file)?;
    cursor.end()?;
    Ok(Document { definitions })
}
