//! Whole documents: from a source to its tree, or to the one fault that it has.
ghost use Rattle.std.specs.Prelude.{◌≡◌, ◌⊎◌, ℕ, List, map, IfOk, Ok, Err};
ghost use Rattle.gql_text.specs.Lexeme.{lexeme};
ghost use Rattle.gql_text.specs.Lexis.{text_limit};
ghost use Rattle.gql_text.specs.declared.place.Place.{Place as ThePlace};
ghost use Rattle.gql_ast.specs.declared.definition.Document.{Document as TheDocument};
ghost use Rattle.gql_grammar.specs.Files.{Accepts, OrMemory, Parses, Refuses};
ghost use Rattle.gql_grammar.specs.Sources.{IsFaultOf, IsSourceOf};
ghost use Rattle.gql_grammar.specs.declared.fault.SyntaxFault.{SyntaxFault as TheFault};
ghost use Rattle.gql_grammar.specs.declared.fault.SyntaxRefusal.{SyntaxRefusal as TheRefusal};
ghost use Rattle.gql_parse.specs.Documents.{executable};

use crate::executable::document;
use gql_ast::{Document, FileName};
use gql_grammar::{Cursor, SyntaxFault, looked_at, placed};
use gql_text::{Place, Token, end_place, lex};
use std::alloc::Global;

/// No token after the one that opens level 101 is read, which also bounds how deep the calls nest.
fn parse_looked_at(
    alloc: Global,
    tokens: &[Token<'_>],
    file: &FileName,
    end: Place,
) -> Result<Document, SyntaxFault>
    ensures { Parses (executable file.now) end (map lexeme tokens.now) result }
{
    let looked = looked_at(tokens);
    let mut cursor = Cursor::new(&tokens[..looked]);
    match document(alloc, &mut cursor, file) {
        Ok(document) => Ok(document),
        Err(error) => Err(placed(error, &cursor, tokens, end)),
    }
}

/// The document of these tokens, or their fault. `end` is the place after the text.
pub fn parse_tokens(
    alloc: Global,
    tokens: &[Token<'_>],
    file: &FileName,
    end: Place,
) -> Result<Document, SyntaxFault>
    // A document that is returned derives from the tokens, with at most 100 levels.
    ensures accepted { IfOk result (λ d. Accepts (executable file.now) (map lexeme tokens.now) d) }
    // A document that derives from the tokens, with at most 100 levels, is returned.
    ensures complete { (d : TheDocument) → Accepts (executable file.now) (map lexeme tokens.now) d
        → OrMemory result (Ok d) }
    // The tokens are refused with a fault that is returned.
    ensures refused { (number : TheRefusal) (place : ThePlace)
        → result ≡ Err (SyntaxFault.At number place)
        → Refuses (executable file.now) end (map lexeme tokens.now) (SyntaxFault.At number place) }
    // A fault with which the tokens are refused is returned.
    ensures faulty { (fault : TheFault)
        → Refuses (executable file.now) end (map lexeme tokens.now) fault
        → OrMemory result (Err fault) }
{
    parse_looked_at(alloc, tokens, file, end)
}

/// The document of a source, or its fault: one of the lexer, else 111 or 112.
pub fn parse(alloc: Global, file: FileName, source: &str) -> Result<Document, SyntaxFault>
    // A document that is returned derives from the source's tokens, with at most 100 levels.
    ensures accepted { IfOk result (λ d. IsSourceOf (executable file) text_limit source.now d) }
    // A document that derives from the source's tokens is returned.
    ensures complete { (d : TheDocument) → IsSourceOf (executable file) text_limit source.now d
        → OrMemory result (Ok d) }
    // A fault that is returned is that of the source.
    ensures refused { (number : TheRefusal) (place : ThePlace)
        → result ≡ Err (SyntaxFault.At number place)
        → IsFaultOf (executable file) text_limit source.now (SyntaxFault.At number place) }
    // The fault of the source is returned.
    ensures faulty { (fault : TheFault) → IsFaultOf (executable file) text_limit source.now fault
        → OrMemory result (Err fault) }
{
    match lex(alloc, source) {
        Ok(tokens) => parse_looked_at(alloc, tokens.as_slice(), &file, end_place(source)),
        Err(fault) => Err(SyntaxFault::of(fault)),
    }
}

/// A source has one document or one fault, and never both, whatever the limit.
pub fn one_answer()
    ensures document { (limit : ℕ) (file source : List ℕ) (a b : TheDocument)
        → IsSourceOf (executable file) limit source a
        → IsSourceOf (executable file) limit source b → a ≡ b }
    ensures fault { (limit : ℕ) (file source : List ℕ) (f g : TheFault)
        → IsFaultOf (executable file) limit source f
        → IsFaultOf (executable file) limit source g → f ≡ g }
    ensures apart { (limit : ℕ) (file source : List ℕ) (d : TheDocument) (f : TheFault)
        → IsSourceOf (executable file) limit source d
        → IsFaultOf (executable file) limit source f → ⊥ }
    ensures some { (limit : ℕ) (file source : List ℕ)
        → ((d : TheDocument) × IsSourceOf (executable file) limit source d)
        ⊎ ((f : TheFault) × IsFaultOf (executable file) limit source f) }
{}
