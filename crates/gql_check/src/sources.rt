//! The files given, as the files of a check.

ghost use Rattle.std.specs.Prelude.{◌≡◌, ◌++◌, [], IfOk, IsUtf8, OnOk, codes, string_bytes};
ghost use Rattle.std.specs.List.{AllZip};
ghost use Rattle.gql_check.specs.GivenSources.{AreSources, IsSource};
ghost use Rattle.gql_check.specs.Steps.{AreNamedAll};
ghost use Rattle.gql_found.specs.Spots.{HaveSameNames, files_of};

use gql_ast::FileSide;
use gql_findings::Source;
use gql_folder::{Folder, GivenFile, NamedFile};
use gql_found::Sources;
use std::alloc::{AllocError, Global};
use std::str;

/// A path below a folder.
fn label_of(alloc: Global, folder: &str, path: &str) -> Result<String, AllocError>
    ensures { IfOk result (λ label. string_bytes label
        ≡ folder.now ++ codes "/" ++ path.now) }
{
    let mut label = String::from_str(alloc, folder)?;
    label.push_str("/")?;
    label.push_str(path)?;
    Ok(label)
}

/// Bytes as a text: empty, if they are not UTF-8.
fn text_of(alloc: Global, bytes: &[u8]) -> Result<String, AllocError>
    ensures text { IfOk result (λ text. IsUtf8 bytes.now → string_bytes text ≡ bytes.now) }
    ensures no_text { IfOk result (λ text. (IsUtf8 bytes.now → ⊥) → string_bytes text ≡ []) }
{
    match str::from_utf8(bytes) {
        Ok(text) => String::from_str(alloc, text),
        Err(_) => Ok(String::new(alloc)),
    }
}

/// A file given, with its path below this folder.
fn source_of(alloc: Global, folder: &str, file: &GivenFile) -> Result<Source, AllocError>
    ensures { IfOk result (IsSource folder.now file.now) }
{
    let label = label_of(alloc, folder, file.path.as_str())?;
    let path = file.path.clone()?;
    let text = text_of(alloc, file.bytes.as_slice())?;
    let source = Source::new(alloc, label, path, text)?;
    Ok(source)
}

/// Adds the files given, each with its path below this folder.
fn add_given(
    alloc: Global,
    folder: &str,
    files: &[GivenFile],
    sources: &mut Sources,
) -> Result<(), AllocError>
    requires { files_of sources.old ≡ [] }
    ensures listed { OnOk result (AllZip (IsSource folder.now) files.now (files_of sources.new)) }
    ensures names { OnOk result (HaveSameNames sources.old sources.new) }
{
    for file in files {
        let source = source_of(alloc, folder, file)?;
        sources.push(source)?;
    }
    Ok(())
}

/// Gives their names to the files of a side.
fn name_side(side: FileSide, named: &[NamedFile], sources: &mut Sources) -> Result<(), AllocError>
    ensures listed { OnOk result (files_of sources.new ≡ files_of sources.old) }
    ensures names { OnOk result (AreNamedAll side named.now sources.old sources.new) }
{
    for file in named {
        sources.put_name(side, file.name.copy()?, file.at)?;
    }
    Ok(())
}

/// The files given, each with its path below this folder, and under the name that it has in a
/// registry.
pub fn sources_of(
    alloc: Global,
    folder: &str,
    files: &[GivenFile],
    named: &Folder,
) -> Result<Sources, AllocError>
    ensures { IfOk result (AreSources folder.now files.now named.now) }
{
    let mut sources = Sources::new(alloc);
    add_given(alloc, folder, files, &mut sources)?;
    name_side(FileSide::Schema, named.schema.as_slice(), &mut sources)?;
    name_side(
        FileSide::Documents,
        named.documents.as_slice(),
        &mut sources,
    )?;
    Ok(sources)
}
