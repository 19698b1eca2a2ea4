//! The definitions of a text, each with the part of the text that it is.

ghost use Rattle.std.specs.Prelude.{◌≡◌, ◌≢◌, IfErr, IfOk, IfSome, map, string_bytes};
ghost use Rattle.gql_grammar.specs.declared.fault.SyntaxFault.{SyntaxFault};
ghost use Rattle.gql_manifest.specs.Origins.{place_of};
ghost use Rattle.gql_manifest.specs.Pieces.{AreParts, Brings, HasTokens, IsPart, IsTextFault, OrMemory, SaysFault, brought_at, next_start, parsed_as, part_of};
ghost use Rattle.gql_parse_sdl.specs.DocumentFiles.{IsDocumentFile};
ghost use Rattle.gql_text.specs.Lexis.{text_limit};

use crate::fault::ManifestFault;
use crate::origin::Origin;
use crate::texts::push_all;
use gql_ast::{Definition, Document, FileName, Tree};
use gql_grammar::SyntaxFault;
use gql_parse_sdl::parse_any;
use gql_text::lex;
use std::alloc::{AllocError, Global};

/// A definition of a text, and its bytes: from its first token to the next definition.
#[derive(Drop)]
pub struct Piece<'t> {
    pub tree: Tree,
    pub bytes: &'t [u8],
    /// The tokens of the definition, with a blank between each two: two definitions with the same
    /// tokens mean the same.
    pub tokens: String,
}

/// The fault of a text that is refused.
fn refused(at: &Origin, fault: SyntaxFault) -> ManifestFault
    ensures { OrMemory (SaysFault (place_of at.now) fault) result }
{
    let SyntaxFault::At { number, place } = fault else {
        return ManifestFault::Memory;
    };
    match at.copy() {
        Ok(at) => ManifestFault::Refused {
            at,
            line: place.line,
            column: place.column,
            number: number.number(),
        },
        Err(_) => ManifestFault::Memory,
    }
}

/// The tree of the text of an operation.
fn parsed(alloc: Global, at: &Origin, text: &str) -> Result<Document, ManifestFault>
    ensures ok { IfOk result (IsDocumentFile text_limit parsed_as text.now) }
    ensures err { IfErr result (OrMemory (IsTextFault (place_of at.now) text.now)) }
{
    let Some(name) = FileName::read(alloc, "manifest", 8)? else {
        return Err(ManifestFault::Memory);
    };
    match parse_any(alloc, name, text) {
        Ok(document) => Ok(document),
        Err(fault) => Err(refused(at, fault)),
    }
}

/// The tokens of a definition's text, with a blank after each. None if it has none, which is not so
/// for a part of a text that has tokens.
fn tokens_of(alloc: Global, text: &str) -> Result<String, ManifestFault>
    ensures ok { IfOk result (λ tokens. HasTokens text.now (string_bytes tokens)) }
    ensures err { IfErr result (λ fault. fault ≡ ManifestFault.Memory) }
{
    let Ok(tokens) = lex(alloc, text) else {
        return Err(ManifestFault::Memory);
    };
    let mut joined = String::new(alloc);
    for token in tokens.as_slice() {
        push_all(&mut joined, &[token.text, " "])?;
    }
    Ok(joined)
}

/// The part of a text between two offsets, without white space at its end. None if a character of
/// the text is cut there.
fn part(text: &str, start: usize, end: usize) -> Option<&str>
    ensures { IfSome result (λ part. part.now ≡ part_of text.now start end) }
{
    match text.get(start..end) {
        Some(part) => Some(part.trim_end()),
        None => None,
    }
}

/// The piece of a definition of a text, which ends at this offset.
fn piece_of<'t>(
    alloc: Global,
    at: &Origin,
    text: &'t str,
    definition: &Definition,
    end: usize,
) -> Result<Piece<'t>, ManifestFault>
    ensures ok { IfOk result (λ piece. IsPart (place_of at.now) text.now definition.now end
        (brought_at (place_of at.now) piece)) }
    ensures err { IfErr result (λ fault. fault ≡ ManifestFault.Memory) }
{
    let start = definition.tree.place().offset;
    let Some(part) = part(text, start, end) else {
        return Err(ManifestFault::Memory);
    };
    Ok(Piece {
        tree: definition.tree.copy()?,
        bytes: part.as_bytes(),
        tokens: tokens_of(alloc, part)?,
    })
}

/// Where the first of some definitions of a text begins, or if there is none the text's end.
fn end_before(text: &str, definitions: &[Definition]) -> usize
    ensures { result ≡ next_start text.now definitions.now }
{
    match definitions {
        [next, ..] => next.tree.place().offset,
        [] => text.len(),
    }
}

/// The definitions of the text of an operation, in their order.
pub fn pieces_of<'t>(
    alloc: Global,
    at: &Origin,
    text: &'t str,
) -> Result<Vec<Piece<'t>>, ManifestFault>
    ensures ok { IfOk result (λ pieces. Brings (place_of at.now) text.now
        (map (brought_at (place_of at.now)) pieces.items)) }
    ensures err { IfErr result (OrMemory (IsTextFault (place_of at.now) text.now)) }
{
    let document = parsed(alloc, at, text)?;
    let mut pieces = Vec::new(alloc);
    let mut left = document.definitions.as_slice();
    while let [definition, others @ ..] = left {
        let end = end_before(text, others);
        pieces.push(piece_of(alloc, at, text, definition, end)?)?;
        left = others;
    }
    Ok(pieces)
}
