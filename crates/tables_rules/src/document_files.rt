//! The document file `d` of a row, as files.
ghost use Rattle.std.specs.Prelude.{IfOk, IfSome};
ghost use Rattle.gql_parse_sdl.specs.Placed.{ArePlaced};
ghost use Rattle.gql_verdict.specs.FileOrder.{AreFilesPlaced};

use crate::inputs::file_name;
use gql_ast::{Document, FileName, Files, Shared};
use gql_grammar::SyntaxFault;
use gql_parse_sdl::parse_any;
use std::alloc::{AllocError, Global};

/// A document file alone.
fn one_file(alloc: Global, name: FileName, document: Shared<Document>) -> Result<Files, AllocError>
    requires { ArePlaced name document.definitions }
    ensures { IfOk result (λ files. AreFilesPlaced files.documents) }
{
    let mut files = Files::new(alloc);
    files.documents.put(name, document)?;
    Ok(files)
}

/// No file.
fn no_files(alloc: Global) -> Files
    ensures { AreFilesPlaced result.documents }
{
    Files::new(alloc)
}

/// The document that a text is.
fn document_in(alloc: Global, name: &FileName, text: &str) -> Result<Document, SyntaxFault>
    ensures { IfOk result (λ d. ArePlaced name.now d.definitions) }
{
    let Ok(name) = name.copy() else {
        return Err(SyntaxFault::Memory);
    };
    parse_any(alloc, name, text)
}

/// The document file `d` with this text; no file if it is empty. `None` if it is not a document.
pub fn document_files(alloc: Global, text: &str) -> Option<Files>
    ensures { IfSome result (λ files. AreFilesPlaced files.documents) }
{
    if text.is_empty() {
        return Some(no_files(alloc));
    }
    let name = file_name(alloc, "d")?;
    let document = document_in(alloc, &name, text).ok()?;
    let document = Shared::new(alloc, document).ok()?;
    match one_file(alloc, name, document) {
        Ok(files) => Some(files),
        Err(_) => None,
    }
}
