//! The two sides of files: what is read as a file of a side, and put on it.
ghost use Rattle.std.specs.Prelude.{◌≡◌, Err, IfOk, OnOk};
ghost use Rattle.gql_grammar.specs.declared.fault.SyntaxFault.TheVariants.{At};
ghost use Rattle.gql_grammar.specs.declared.fault.SyntaxRefusal.{SyntaxRefusal as TheRefusal};
ghost use Rattle.gql_text.specs.declared.place.Place.{Place as ThePlace};
ghost use Rattle.gql_registry.specs.Checks.{IsPlacedOn};
ghost use Rattle.gql_registry.specs.Sides as spec;

use gql_ast::{Document, FileMap, FileName, FileSide, Files, Profile, Shared};
use gql_grammar::SyntaxFault;
use gql_parse_sdl::{parse_any_within, parse_sdl_within};
use std::alloc::{AllocError, Global};

/// The most bytes of a text that can be parsed (`longest_text` in contracts). A profile has a limit of
/// its own, which comes first.
const LONGEST_TEXT: usize = 16_777_216;

/// The greatest number of bytes of a file of a side.
pub fn limit_on(profile: Profile, side: FileSide) -> usize
    ensures { result ≡ spec.limit_on profile side }
{
    match side {
        FileSide::Schema => profile.limits.schema_file,
        FileSide::Documents => profile.limits.document_file,
    }
}

/// The files of a side.
pub fn files_on(files: &Files, side: FileSide) -> &FileMap<Shared<Document>>
    ensures { result.now ≡ spec.files_on side files.now }
{
    match side {
        FileSide::Schema => &files.schema,
        FileSide::Documents => &files.documents,
    }
}

/// The tree of a file of a side, or the fault of its text.
pub fn parse_on(
    alloc: Global,
    side: FileSide,
    name: FileName,
    text: &str,
) -> Result<Document, SyntaxFault>
    ensures accepted { IfOk result (spec.IsFileOn side name text.now) }
    ensures placed { IfOk result (IsPlacedOn side name) }
    ensures refused { (number : TheRefusal) (place : ThePlace) → result ≡ Err (At number place)
        → spec.IsFaultOn side name text.now (At number place) }
{
    match side {
        FileSide::Schema => parse_sdl_within(alloc, name, text, LONGEST_TEXT),
        FileSide::Documents => parse_any_within(alloc, name, text, LONGEST_TEXT),
    }
}

/// Puts a file on a side, in place of any of its name. If an allocation fails, nothing is changed.
pub fn put_on(
    alloc: Global,
    files: &mut Files,
    side: FileSide,
    name: FileName,
    document: Document,
) -> Result<(), AllocError>
    ensures { OnOk result (files.new ≡ spec.with_put side files.old name document) }
{
    let document = Shared::new(alloc, document)?;
    match side {
        FileSide::Schema => files.schema.put(name, document),
        FileSide::Documents => files.documents.put(name, document),
    }
}

/// Removes the file of a name from a side, if there is one.
pub fn remove_on(files: &mut Files, side: FileSide, name: &FileName)
    ensures { files.new ≡ spec.with_removed side files.old name.now }
{
    match side {
        FileSide::Schema => {
            files.schema.remove(name);
        }
        FileSide::Documents => {
            files.documents.remove(name);
        }
    }
}
