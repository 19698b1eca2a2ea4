//! Pieces of text, put together in as few files as hold them in their order.

ghost use Rattle.std.specs.Prelude.{◌≡◌, ◌+◌, ◌<◌, ◌≤◌, ◌↔◌, ◌++◌, [], ◌∷◌, IfOk, IsTrue, length};
ghost use Rattle.gql_manifest.specs.Packing.{IsPacked, IsTextFor, pieces_of, texts_of};

use std::alloc::{AllocError, Global};

/// A copy of these bytes, with a line break at its end.
pub fn with_line_break(alloc: Global, bytes: &[u8]) -> Result<Vec<u8>, AllocError>
    ensures { IfOk result (λ copied. copied.items ≡ bytes.now ++ 10 ∷ []) }
{
    let mut copied = Vec::new(alloc);
    copied.extend_from_slice(bytes)?;
    copied.push(b'\n')?;
    Ok(copied)
}

/// Whether a piece, with the empty line after it, would make a text longer than this.
fn is_full(text: &[u8], piece: &[u8], most: usize) -> bool
    ensures { IsTrue result
        ↔ ((0 < length text.now) × (most ≤ length text.now + length piece.now)) }
{
    !text.is_empty() && text.len().saturating_add(piece.len()) >= most
}

/// The text that a piece is added to: this one, or if it is full an empty one, and it is done.
fn text_for(
    alloc: Global,
    texts: &mut Vec<Vec<u8>>,
    text: Vec<u8>,
    piece: &[u8],
    most: usize,
) -> Result<Vec<u8>, AllocError>
    ensures { IfOk result (IsTextFor most piece.now texts.old.items text texts.new.items) }
{
    if !is_full(text.as_slice(), piece, most) {
        return Ok(text);
    }
    texts.push(text)?;
    Ok(Vec::new(alloc))
}

/// The texts of files that have these pieces in their order, each with an empty line after it: as
/// few as hold them in this many bytes each. A piece ends with a line break. One that is longer
/// than that is a text alone.
pub fn packed(alloc: Global, pieces: &[&[u8]], most: usize) -> Result<Vec<Vec<u8>>, AllocError>
    ensures { IfOk result (λ texts. IsPacked most (pieces_of pieces.now) (texts_of texts.items)) }
{
    let mut texts = Vec::new(alloc);
    let mut text = Vec::new(alloc);
    for piece in pieces {
        text = text_for(alloc, &mut texts, text, piece, most)?;
        text.extend_from_slice(piece)?;
        text.push(b'\n')?;
    }
    if text.is_empty() {
        return Ok(texts);
    }
    texts.push(text)?;
    Ok(texts)
}
