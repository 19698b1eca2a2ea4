//! The files of a folder, by their names in a registry.
ghost use Rattle.std.specs.Prelude.{◌≡◌, ◌+◌, ◌<◌, ◌++◌, ◌∷◌, [], ℕ, List, IfErr, IfOk, OnOk, Contains, MatchOption, Some, length, map, slice_get};
ghost use Rattle.gql_folder.specs.Adding.{IsAddFault, IsFound, IsFresh};
ghost use Rattle.gql_folder.specs.Folders.{IsFolder, IsFolderFault, paths_of};

use crate::role::{Role, role_of};
use gql_ast::{FileName, FileSide, Limits};
use std::alloc::{AllocError, AllocFailed, Global};
use thiserror::Error;

/// A file that is given: its path below the folder, with `/` between its parts, and its bytes.
#[derive(Drop)]
pub struct GivenFile {
    pub path: String,
    pub bytes: Vec<u8>,
}

/// A file of a registry: its name there, and the index of the file given.
#[derive(Debug, Drop)]
pub struct NamedFile {
    pub name: FileName,
    pub at: usize,
}

/// The files of a folder by their names, and the index of its data, if it has some. No two schema
/// files have one name, and no two document files.
#[derive(Drop)]
pub struct Folder {
    pub schema: Vec<NamedFile>,
    pub documents: Vec<NamedFile>,
    pub data: Option<usize>,
}

/// Why a folder is refused.
#[derive(Debug, Drop, Error)]
pub enum FolderFault {
    /// The path of the file at this index gives no name.
    #[error("a file has a name that is not accepted")]
    Misnamed { at: usize },
    /// The paths of the files at these two indices give one name.
    #[error("two files have one name")]
    Twice { first: usize, at: usize },
    /// There are more files of this side than there may be.
    #[error("too many files")]
    TooMany { side: FileSide },
    /// An allocation failed.
    #[error("out of memory")]
    Memory,
}

impl From<AllocError> for FolderFault {
    ghost use Rattle.std.specs.Prelude.{◌≡◌};
    ghost use Rattle.gql_folder.specs.declared.folder.FolderFault.TheVariants.{Memory};

    ghost from_gives = { λ _ e. e ≡ Memory };

    fn from(_: AllocError) -> FolderFault {
        FolderFault::Memory
    }
}

impl<T: Drop> From<AllocFailed<T>> for FolderFault {
    ghost use Rattle.std.specs.Prelude.{◌≡◌};
    ghost use Rattle.gql_folder.specs.declared.folder.FolderFault.TheVariants.{Memory};

    ghost from_gives = { λ _ e. e ≡ Memory };

    fn from(_: AllocFailed<T>) -> FolderFault {
        FolderFault::Memory
    }
}

/// The file of a name among these.
fn find_named<'n>(named: &'n [NamedFile], name: &FileName) -> Option<&'n NamedFile>
    ensures { MatchOption result (IsFresh name.now named.now)
        (λ file. IsFound name.now named.now file.now) }
{
    named.iter().find(|file| file.name == *name)
}

/// Adds a file of a side, unless there is one of that name, or there are as many as there may be.
fn add_named(
    most: usize,
    named: &mut Vec<NamedFile>,
    side: FileSide,
    name: FileName,
    at: usize,
) -> Result<(), FolderFault>
    ensures added { OnOk result (named.new.items
        ≡ named.old.items ++ (record { name = name; at = at }) ∷ []) }
    ensures fresh { OnOk result (IsFresh name named.old.items) }
    ensures few { OnOk result (length named.old.items < most) }
    ensures err { IfErr result (IsAddFault most side name at named.old.items) }
{
    if let Some(first) = find_named(named.as_slice(), &name) {
        return Err(FolderFault::Twice {
            first: first.at,
            at,
        });
    }
    if named.len() >= most {
        return Err(FolderFault::TooMany { side });
    }
    named.push(NamedFile { name, at })?;
    Ok(())
}

impl Folder {
    /// Adds the file at a path, within these limits.
    fn add(
        &mut self,
        alloc: Global,
        limits: Limits,
        path: &str,
        at: usize,
    ) -> Result<(), FolderFault>
        ensures ok { (paths : List (List ℕ)) → slice_get paths at ≡ Some path.now
            → IsFolder limits paths at self.old
            → OnOk result (IsFolder limits paths (at + 1) self.new) }
        ensures err { (paths : List (List ℕ)) → slice_get paths at ≡ Some path.now
            → IsFolder limits paths at self.old → IfErr result (IsFolderFault limits paths) }
    {
        let most = limits.files;
        let role = role_of(alloc, path, limits.name)?;
        match role {
            Role::File(FileSide::Schema, name) => {
                add_named(most, &mut self.schema, FileSide::Schema, name, at)
            }
            Role::File(FileSide::Documents, name) => {
                add_named(most, &mut self.documents, FileSide::Documents, name, at)
            }
            Role::Data => {
                self.data = Some(at);
                Ok(())
            }
            Role::Misnamed => Err(FolderFault::Misnamed { at }),
            Role::Other => Ok(()),
        }
    }
}

/// The files of a folder by their names, or why they are not the files of a registry with these
/// limits.
pub fn read_folder(
    alloc: Global,
    files: &[GivenFile],
    limits: Limits,
) -> Result<Folder, FolderFault>
    ensures folder { IfOk result (IsFolder limits (paths_of files.now) (length files.now)) }
    ensures err { IfErr result (IsFolderFault limits (paths_of files.now)) }
{
    let mut folder = Folder {
        schema: Vec::new(alloc),
        documents: Vec::new(alloc),
        data: None,
    };
    for (at, file) in files.iter().enumerate() {
        folder.add(alloc, limits, file.path.as_str(), at)?;
    }
    Ok(folder)
}
