//! Schema files (GraphQL specification, 3).
ghost use Rattle.std.specs.Prelude.{◌≡◌, ◌<◌, ◌≤◌, ◌⊎◌, ℕ, List, IfOk, OnOk, Ok, Err, [], length, map};
ghost use Rattle.gql_text.specs.Lexeme.{lexeme};
ghost use Rattle.gql_text.specs.Lexis.{text_limit};
ghost use Rattle.gql_text.specs.declared.place.Place.{Place as ThePlace};
ghost use Rattle.gql_ast.specs.declared.definition.Document.{Document as TheDocument};
ghost use Rattle.gql_grammar.specs.Symbol.{IsRest, Reads};
ghost use Rattle.gql_grammar.specs.Files.{Parses, OrMemory};
ghost use Rattle.gql_grammar.specs.declared.fault.SyntaxFault.{SyntaxFault as TheFault};
ghost use Rattle.gql_grammar.specs.declared.fault.SyntaxRefusal.{SyntaxRefusal as TheRefusal};
ghost use Rattle.gql_parse_sdl.specs.SchemaFiles as spec;

use crate::type_system::type_system;
use gql_ast::{Definition, Document, FileName, Items};
use gql_grammar::{Cursor, ParseError, SyntaxFault, looked_at, placed};
use gql_text::{Kind, Place, TEXT_LIMIT, Token, end_place, lex_within};
use std::alloc::Global;

#[tactic(auto, using(gql_grammar::proofs::Rests::rests), unfolding(crate::specs::SchemaFiles::definition))]
fn definition(
    alloc: Global,
    file: &FileName,
    cursor: &mut Cursor<'_>,
) -> Result<Definition, ParseError>
    ensures value { Reads ((spec.definition file.now).read cursor.old) result cursor.new }
    ensures shorter { OnOk result (length cursor.new < length cursor.old) }
    ensures rest { IsRest cursor.new cursor.old }
{
    let tree = type_system(alloc, cursor)?;
    Ok(Definition {
        file: file.copy()?,
        tree,
    })
}

#[tactic(auto, using(gql_grammar::proofs::Rests::rests, gql_grammar::proofs::Loops::going_init, gql_grammar::proofs::Loops::going_on))]
fn definitions(
    alloc: Global,
    file: &FileName,
    cursor: &mut Cursor<'_>,
) -> Result<Items<Definition>, ParseError>
    ensures value { Reads ((spec.definitions file.now).read cursor.old) result cursor.new }
    ensures shorter { OnOk result (length cursor.new < length cursor.old) }
    ensures rest { IsRest cursor.new cursor.old }
{
    let mut found = Items::new(alloc);
    found.push(definition(alloc, file, cursor)?)?;
    'definitions: while cursor.before(Kind::EndOfText) {
        found.push(definition(alloc, file, cursor)?)?;
    }
    Ok(found)
}

#[tactic(auto, unfolding(crate::specs::SchemaFiles::schema_file, crate::specs::SchemaFiles::document))]
fn document(alloc: Global, file: &FileName, cursor: &mut Cursor<'_>) -> Result<Document, ParseError>
    ensures value { Reads ((spec.schema_file file.now).read cursor.old) result cursor.new }
    ensures all { OnOk result (cursor.new ≡ []) }
{
    let definitions = definitions(alloc, file, cursor)?;
    cursor.end()?;
    Ok(Document { definitions })
}

fn from_tokens(
    alloc: Global,
    file: &FileName,
    tokens: &[Token<'_>],
    end: Place,
) -> Result<Document, SyntaxFault>
    ensures { Parses (spec.schema_file file.now) end (map lexeme tokens.now) result }
{
    let looked = looked_at(tokens);
    let mut cursor = Cursor::new(&tokens[..looked]);
    match document(alloc, file, &mut cursor) {
        Ok(document) => Ok(document),
        Err(error) => Err(placed(error, &cursor, tokens, end)),
    }
}

/// The tree of a schema file: one or more definitions and extensions of the type system (GraphQL
/// specification, 3). Any other text is refused at the first place where it cannot go on: by the
/// lexer (101 to 106), or else by the grammar (111, and 112 for the 101st brace or bracket open at
/// one time). The text has at most 65,536 bytes.
pub fn parse_sdl(alloc: Global, file: FileName, source: &str) -> Result<Document, SyntaxFault>
    // A document that is returned derives from the source's tokens, with at most 100 levels.
    ensures accepted { IfOk result (spec.IsSchemaFile text_limit file source.now) }
    // A document that derives from the source's tokens is returned.
    ensures complete { (d : TheDocument) → spec.IsSchemaFile text_limit file source.now d
        → OrMemory result (Ok d) }
    // A fault that is returned is that of the source.
    ensures refused { (number : TheRefusal) (place : ThePlace)
        → result ≡ Err (SyntaxFault.At number place)
        → spec.IsSchemaFault text_limit file source.now (SyntaxFault.At number place) }
    // The fault of the source is returned.
    ensures faulty { (fault : TheFault) → spec.IsSchemaFault text_limit file source.now fault
        → OrMemory result (Err fault) }
{
    parse_sdl_within(alloc, file, source, TEXT_LIMIT)
}

/// The same for a text of at most so many bytes.
pub fn parse_sdl_within(
    alloc: Global,
    file: FileName,
    source: &str,
    limit: usize,
) -> Result<Document, SyntaxFault>
    requires { limit ≤ 16777216 }
    // A document that is returned derives from the source's tokens, with at most 100 levels.
    ensures accepted { IfOk result (spec.IsSchemaFile limit file source.now) }
    // A document that derives from the source's tokens is returned.
    ensures complete { (d : TheDocument) → spec.IsSchemaFile limit file source.now d
        → OrMemory result (Ok d) }
    // A fault that is returned is that of the source.
    ensures refused { (number : TheRefusal) (place : ThePlace)
        → result ≡ Err (SyntaxFault.At number place)
        → spec.IsSchemaFault limit file source.now (SyntaxFault.At number place) }
    // The fault of the source is returned.
    ensures faulty { (fault : TheFault) → spec.IsSchemaFault limit file source.now fault
        → OrMemory result (Err fault) }
{
    match lex_within(alloc, source, limit) {
        Ok(tokens) => from_tokens(alloc, &file, tokens.as_slice(), end_place(source)),
        Err(fault) => Err(SyntaxFault::of(fault)),
    }
}

/// A source is one schema file or has one fault, and never both, whatever the limit.
pub fn one_answer()
    ensures document { (limit : ℕ) (file source : List ℕ) (a b : TheDocument)
        → spec.IsSchemaFile limit file source a → spec.IsSchemaFile limit file source b → a ≡ b }
    ensures fault { (limit : ℕ) (file source : List ℕ) (f g : TheFault)
        → spec.IsSchemaFault limit file source f → spec.IsSchemaFault limit file source g → f ≡ g }
    ensures apart { (limit : ℕ) (file source : List ℕ) (d : TheDocument) (f : TheFault)
        → spec.IsSchemaFile limit file source d → spec.IsSchemaFault limit file source f → ⊥ }
    ensures some { (limit : ℕ) (file source : List ℕ)
        → ((d : TheDocument) × spec.IsSchemaFile limit file source d)
        ⊎ ((f : TheFault) × spec.IsSchemaFault limit file source f) }
{}
