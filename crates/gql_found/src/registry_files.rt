//! The files of a registry, as the files of a check.

ghost use Rattle.std.specs.Prelude.{◌≡◌, ◌++◌, ◌∷◌, [], IfOk, OnOk, length, string_bytes};
ghost use Rattle.gql_found.specs.RegistryFiles as spec;
ghost use Rattle.gql_found.specs.RegistryFiles.{AreSourcesOf};
ghost use Rattle.gql_found.specs.Spots.{IsNamed, files_of};

use crate::sources::Sources;
use gql_ast::{FileName, FileSide};
use gql_findings::Source;
use std::alloc::{AllocError, Global};

/// The text of a file of a registry, with its side and its name.
#[derive(Clone, Copy)]
pub struct FileText<'t> {
    pub side: FileSide,
    pub name: &'t FileName,
    pub text: &'t str,
}

/// The path of the files of a side.
fn folder_of(side: FileSide) -> &'static str
    ensures { result.now ≡ spec.folder_of side }
{
    match side {
        FileSide::Schema => "schema/",
        FileSide::Documents => "documents/",
    }
}

/// The path of a file of a registry: that of its route.
fn path_of(alloc: Global, file: &FileText<'_>) -> Result<String, AllocError>
    ensures { IfOk result (λ path. string_bytes path
        ≡ spec.path_on file.now.side file.now.name.now) }
{
    let mut path = String::from_str(alloc, folder_of(file.side))?;
    path.push_str(file.name.as_str())?;
    Ok(path)
}

/// A file of a registry, as one of a check.
fn source_of(alloc: Global, file: &FileText<'_>) -> Result<Source, AllocError>
    ensures { IfOk result (λ source. source ≡ spec.source_of file.now) }
{
    let label = path_of(alloc, file)?;
    let path = path_of(alloc, file)?;
    let text = String::from_str(alloc, file.text)?;
    let source = Source::new(alloc, label, path, text)?;
    Ok(source)
}

/// Adds a file of a registry.
fn add_file(alloc: Global, file: &FileText<'_>, sources: &mut Sources) -> Result<(), AllocError>
    ensures listed { OnOk result
        (files_of sources.new ≡ files_of sources.old ++ spec.source_of file.now ∷ []) }
    ensures names { OnOk result (IsNamed file.now.side file.now.name.now
        (length (files_of sources.old)) sources.old sources.new) }
{
    let at = sources.count();
    let source = source_of(alloc, file)?;
    sources.push(source)?;
    sources.put_name(file.side, file.name.copy()?, at)
}

/// These files of a registry, in this order, each under the path of its route. Of two files of one
/// name the first has it.
pub fn registry_sources(alloc: Global, files: &[FileText<'_>]) -> Result<Sources, AllocError>
    ensures { IfOk result (AreSourcesOf files.now) }
{
    let mut sources = Sources::new(alloc);
    for file in files {
        add_file(alloc, file, &mut sources)?;
    }
    Ok(sources)
}
