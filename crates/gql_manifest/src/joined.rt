//! The files of a folder together with those that manifests are made into.
ghost use Rattle.std.specs.Prelude.{◌≡◌, ◌++◌, IfErr, IfOk, MatchOption, OnOk, length, slice_get, string_bytes};
ghost use Rattle.std.specs.Option.{option_copied};
ghost use Rattle.gql_folder.specs.Roles.{role_at};
ghost use Rattle.gql_manifest.specs.Joining.{AddsName, AreAllNames, AreApart, AreNames, IsFree, IsJoinFault, IsTaken, SaysClash, files_made, index_in};

use crate::fault::ManifestFault;
use crate::files::MadeFile;
use gql_ast::{FileName, FileSide};
use gql_folder::{GivenFile, Role, role_of};
use std::alloc::{AllocError, Global};
use std::collections::BTreeMap;

/// The files of a folder by their names, on both sides: under each name the index of a file that
/// has it.
#[derive(Drop)]
struct FolderNames {
    schema: BTreeMap<FileName, usize>,
    documents: BTreeMap<FileName, usize>,
}

/// Adds the name of the file at this path and index, if it is one of this side. A name has at most
/// so many bytes.
fn add_name(
    alloc: Global,
    names: &mut BTreeMap<FileName, usize>,
    side: FileSide,
    path: &str,
    at: usize,
    most: usize,
) -> Result<(), AllocError>
    ensures { OnOk result (AddsName most side path.now at names.old names.new) }
{
    let role = role_of(alloc, path, most)?;
    let Role::File(its_side, name) = role else {
        return Ok(());
    };
    if its_side != side {
        return Ok(());
    }
    names.insert(name, at)?;
    Ok(())
}

/// The files of a side by their names.
fn names_on(
    alloc: Global,
    side: FileSide,
    files: &[GivenFile],
    most: usize,
) -> Result<BTreeMap<FileName, usize>, AllocError>
    ensures { IfOk result (AreNames most side files.now (length files.now)) }
{
    let mut names = BTreeMap::new(alloc);
    for (at, file) in files.iter().enumerate() {
        add_name(alloc, &mut names, side, file.path.as_str(), at, most)?;
    }
    Ok(names)
}

impl FolderNames {
    /// The names of these files.
    fn new(alloc: Global, files: &[GivenFile], most: usize) -> Result<FolderNames, AllocError>
        ensures { IfOk result (AreAllNames most files.now) }
    {
        Ok(FolderNames {
            schema: names_on(alloc, FileSide::Schema, files, most)?,
            documents: names_on(alloc, FileSide::Documents, files, most)?,
        })
    }

    /// The index of a file that has the name of the file at a path.
    fn find(&self, alloc: Global, path: &str, most: usize) -> Result<Option<usize>, AllocError>
        ensures { IfOk result (λ at. at ≡ index_in self.now (role_at most path.now)) }
    {
        let role = role_of(alloc, path, most)?;
        match role {
            Role::File(FileSide::Schema, name) => Ok(self.schema.get(&name).copied()),
            Role::File(FileSide::Documents, name) => Ok(self.documents.get(&name).copied()),
            _ => Ok(None),
        }
    }
}

/// The file at an index.
fn file_at(files: &[GivenFile], at: usize) -> Option<&GivenFile>
    ensures { option_copied result ≡ slice_get files.now at }
{
    files.get(at)
}

/// The file among these, whose names are given, that has the name of the file at a path.
fn named_as<'f>(
    alloc: Global,
    names: &FolderNames,
    files: &'f [GivenFile],
    path: &str,
    most: usize,
) -> Result<Option<&'f GivenFile>, AllocError>
    requires { AreAllNames most files.now names.now }
    ensures { IfOk result (λ found. MatchOption found (IsFree most files.now path.now)
        (λ file. IsTaken most files.now path.now file.now)) }
{
    let found = names.find(alloc, path, most)?;
    match found {
        Some(at) => Ok(file_at(files, at)),
        None => Ok(None),
    }
}

/// The fault of a file of this folder that has the name of one that is made.
fn clash(
    alloc: Global,
    folder: &str,
    file: &GivenFile,
    made: &MadeFile,
) -> Result<ManifestFault, AllocError>
    ensures { IfOk result
        (SaysClash (string_bytes made.now.file.path) (string_bytes made.now.source)) }
{
    let path = file.path.as_str();
    Ok(ManifestFault::Clash {
        path: format!(in alloc; "{folder}/{path}")?,
        made: made.file.path.clone()?,
        source: made.source.clone()?,
    })
}

/// That no file of this folder has the name of one that is made.
fn stay_apart(
    alloc: Global,
    folder: &str,
    made: &[MadeFile],
    files: &[GivenFile],
    most: usize,
) -> Result<(), ManifestFault>
    ensures apart { OnOk result (AreApart most files.now made.now) }
    ensures err { IfErr result (IsJoinFault most files.now made.now files.now) }
{
    let names = FolderNames::new(alloc, files, most)?;
    for one in made {
        let found = named_as(alloc, &names, files, one.file.path.as_str(), most)?;
        if let Some(file) = found {
            return Err(clash(alloc, folder, file, one)?);
        }
    }
    Ok(())
}

/// Adds the files that manifests are made into to those of a folder. None may have the name of one
/// of the folder; a name has at most so many bytes. Where an allocation fails, some may have been
/// added.
pub fn add_files(
    alloc: Global,
    folder: &str,
    made: Vec<MadeFile>,
    files: &mut Vec<GivenFile>,
    most: usize,
) -> Result<(), ManifestFault>
    ensures ok { OnOk result (files.new.items ≡ files.old.items ++ files_made made.items) }
    ensures apart { OnOk result (AreApart most files.old.items made.items) }
    ensures err { IfErr result (IsJoinFault most files.old.items made.items files.new.items) }
{
    stay_apart(alloc, folder, made.as_slice(), files.as_slice(), most)?;
    for one in made {
        let MadeFile { file, source: _ } = one;
        files.push(file)?;
    }
    Ok(())
}
