//! Document files (GraphQL specification, 2.2).
ghost use Rattle.std.specs.Prelude.{◌≡◌, ◌<◌, ◌≤◌, ◌⊎◌, ℕ, List, IfOk, OnOk, Ok, Err, Some, [], length, map};
ghost use Rattle.gql_text.specs.Lexeme.{lexeme};
ghost use Rattle.gql_text.specs.Lexis.{text_limit};
ghost use Rattle.gql_text.specs.declared.place.Place.{Place as ThePlace};
ghost use Rattle.gql_ast.specs.declared.definition.Document.{Document as TheDocument};
ghost use Rattle.gql_grammar.specs.Symbol.{IsRest, Reads, place_of};
ghost use Rattle.gql_ast.specs.Trees as trees;
ghost use Rattle.gql_grammar.specs.Files.{Parses, OrMemory};
ghost use Rattle.gql_grammar.specs.declared.fault.SyntaxFault.{SyntaxFault as TheFault};
ghost use Rattle.gql_grammar.specs.declared.fault.SyntaxRefusal.{SyntaxRefusal as TheRefusal};
ghost use Rattle.gql_parse_sdl.specs.DocumentFiles as spec;
ghost use Rattle.gql_parse_sdl.specs.Placed.{ArePlaced, Rising};

use crate::type_system::type_system;
use gql_ast::{Definition, Document, FileName, Items, Tree};
use gql_grammar::{Cursor, ParseError, SyntaxFault, looked_at, placed};
use gql_parse::definition as executable;
use gql_text::{Kind, Place, TEXT_LIMIT, Token, end_place, lex_within};
use std::alloc::Global;

/// Whether an operation or a fragment begins with this word.
fn is_executable_word(text: &str) -> bool
    ensures { result ≡ spec.is_executable_word text.now }
{
    text == "fragment" || text == "query" || text == "mutation" || text == "subscription"
}

#[tactic(auto, unfolding(gql_grammar::specs::Symbol::sees_name))]
fn begins_executable(cursor: &Cursor<'_>) -> bool
    ensures { result ≡ spec.begins_executable cursor.now }
{
    cursor.sees(Kind::LeftBrace) || cursor.sees(Kind::Name) && is_executable_word(cursor.text())
}

#[tactic(auto, using(gql_grammar::proofs::Rests::rests))]
fn any_definition(alloc: Global, cursor: &mut Cursor<'_>) -> Result<Tree, ParseError>
    ensures value { Reads (spec.any_definition.read cursor.old) result cursor.new }
    ensures shorter { OnOk result (length cursor.new < length cursor.old) }
    ensures rest { IsRest cursor.new cursor.old }
{
    if begins_executable(cursor) {
        executable(alloc, cursor)
    } else {
        type_system(alloc, cursor)
    }
}

#[tactic(auto, using(gql_grammar::proofs::Rests::rests), unfolding(crate::specs::DocumentFiles::definition))]
fn definition(
    alloc: Global,
    file: &FileName,
    cursor: &mut Cursor<'_>,
) -> Result<Definition, ParseError>
    ensures value { Reads ((spec.definition file.now).read cursor.old) result cursor.new }
    ensures shorter { OnOk result (length cursor.new < length cursor.old) }
    ensures rest { IsRest cursor.new cursor.old }
    ensures starts { IfOk result (λ d. (place_of cursor.old ≡ Some (trees.place_of d.tree))
        × (d.file ≡ file.now)) }
{
    let tree = any_definition(alloc, cursor)?;
    Ok(Definition {
        file: file.copy()?,
        tree,
    })
}

#[tactic(auto, using(gql_grammar::proofs::Rests::rests, gql_grammar::proofs::Loops::going_init, gql_grammar::proofs::Loops::going_on))]
fn definitions(
    alloc: Global,
    file: &FileName,
    cursor: &mut Cursor<'_>,
) -> Result<Items<Definition>, ParseError>
    requires rising { Rising cursor.old }
    ensures value { Reads ((spec.definitions file.now).read cursor.old) result cursor.new }
    ensures shorter { OnOk result (length cursor.new < length cursor.old) }
    ensures rest { IsRest cursor.new cursor.old }
    ensures placed { IfOk result (ArePlaced file.now) }
{
    let mut found = Items::new(alloc);
    found.push(definition(alloc, file, cursor)?)?;
    'definitions: while cursor.before(Kind::EndOfText) {
        found.push(definition(alloc, file, cursor)?)?;
    }
    Ok(found)
}

#[tactic(auto, unfolding(crate::specs::DocumentFiles::document_file, crate::specs::DocumentFiles::document))]
fn document(alloc: Global, file: &FileName, cursor: &mut Cursor<'_>) -> Result<Document, ParseError>
    requires rising { Rising cursor.old }
    ensures value { Reads ((spec.document_file file.now).read cursor.old) result cursor.new }
    ensures all { OnOk result (cursor.new ≡ []) }
    ensures placed { IfOk result (λ d. ArePlaced file.now d.definitions) }
{
    let definitions = definitions(alloc, file, cursor)?;
    cursor.end()?;
    Ok(Document { definitions })
}

fn from_tokens(
    alloc: Global,
    file: &FileName,
    tokens: &[Token<'_>],
    end: Place,
) -> Result<Document, SyntaxFault>
    requires rising { Rising (map lexeme tokens.now) }
    ensures parses { Parses (spec.document_file file.now) end (map lexeme tokens.now) result }
    ensures placed { IfOk result (λ d. ArePlaced file.now d.definitions) }
{
    let looked = looked_at(tokens);
    let mut cursor = Cursor::new(&tokens[..looked]);
    match document(alloc, file, &mut cursor) {
        Ok(document) => Ok(document),
        Err(error) => Err(placed(error, &cursor, tokens, end)),
    }
}

/// The tree of a document file: one or more definitions of any kind, operations and fragments or
/// those of the type system (GraphQL specification, 2.2). Any other text is refused at the first
/// place where it cannot go on: by the lexer (101 to 106), or else by the grammar (111, and 112 for
/// the 101st brace or bracket open at one time). The text has at most 65,536 bytes.
pub fn parse_any(alloc: Global, file: FileName, source: &str) -> Result<Document, SyntaxFault>
    // A document that is returned derives from the source's tokens, with at most 100 levels.
    ensures accepted { IfOk result (spec.IsDocumentFile text_limit file source.now) }
    // A document that derives from the source's tokens is returned.
    ensures complete { (d : TheDocument) → spec.IsDocumentFile text_limit file source.now d
        → OrMemory result (Ok d) }
    // A fault that is returned is that of the source.
    ensures refused { (number : TheRefusal) (place : ThePlace)
        → result ≡ Err (SyntaxFault.At number place)
        → spec.IsDocumentFault text_limit file source.now (SyntaxFault.At number place) }
    // The fault of the source is returned.
    ensures faulty { (fault : TheFault) → spec.IsDocumentFault text_limit file source.now fault
        → OrMemory result (Err fault) }
    // The definitions have the file's name, and their offsets rise.
    ensures placed { IfOk result (λ d. ArePlaced file d.definitions) }
{
    parse_any_within(alloc, file, source, TEXT_LIMIT)
}

/// The same for a text of at most so many bytes.
pub fn parse_any_within(
    alloc: Global,
    file: FileName,
    source: &str,
    limit: usize,
) -> Result<Document, SyntaxFault>
    requires { limit ≤ 16777216 }
    // A document that is returned derives from the source's tokens, with at most 100 levels.
    ensures accepted { IfOk result (spec.IsDocumentFile limit file source.now) }
    // A document that derives from the source's tokens is returned.
    ensures complete { (d : TheDocument) → spec.IsDocumentFile limit file source.now d
        → OrMemory result (Ok d) }
    // A fault that is returned is that of the source.
    ensures refused { (number : TheRefusal) (place : ThePlace)
        → result ≡ Err (SyntaxFault.At number place)
        → spec.IsDocumentFault limit file source.now (SyntaxFault.At number place) }
    // The fault of the source is returned.
    ensures faulty { (fault : TheFault) → spec.IsDocumentFault limit file source.now fault
        → OrMemory result (Err fault) }
    // The definitions have the file's name, and their offsets rise.
    ensures placed { IfOk result (λ d. ArePlaced file d.definitions) }
{
    match lex_within(alloc, source, limit) {
        Ok(tokens) => from_tokens(alloc, &file, tokens.as_slice(), end_place(source)),
        Err(fault) => Err(SyntaxFault::of(fault)),
    }
}

/// A source is one document file or has one fault, and never both, whatever the limit.
pub fn one_document_answer()
    ensures document { (limit : ℕ) (file source : List ℕ) (a b : TheDocument)
        → spec.IsDocumentFile limit file source a → spec.IsDocumentFile limit file source b → a ≡ b }
    ensures fault { (limit : ℕ) (file source : List ℕ) (f g : TheFault)
        → spec.IsDocumentFault limit file source f → spec.IsDocumentFault limit file source g → f ≡ g }
    ensures apart { (limit : ℕ) (file source : List ℕ) (d : TheDocument) (f : TheFault)
        → spec.IsDocumentFile limit file source d → spec.IsDocumentFault limit file source f → ⊥ }
    ensures some { (limit : ℕ) (file source : List ℕ)
        → ((d : TheDocument) × spec.IsDocumentFile limit file source d)
        ⊎ ((f : TheFault) × spec.IsDocumentFault limit file source f) }
{}
