//! The files of a folder, put into a new registry.

ghost use Rattle.std.specs.Prelude.{◌≡◌, ◌≢◌, ◌==◌, ◌<◌, ◌++◌, [], None, IfErr, IfOk, OnOk, length, map};
ghost use Rattle.gql_check.specs.Faults as fault;
ghost use Rattle.gql_check.specs.Faults.{IsFault};
ghost use Rattle.gql_check.specs.Loads as spec;
ghost use Rattle.gql_check.specs.Loads.{IsFolderOf, IsLoaded, folder_edit, folder_indices, indices_of, put_on};
ghost use Rattle.gql_check.specs.Steps.{ArePuts, IsLoadFault};
ghost use Rattle.gql_registry.specs.Changes.{edit_of};
ghost use Rattle.gql_registry.specs.Edits.{Accepts};
ghost use Rattle.gql_registry.specs.State.{empty_in, state_of};

use crate::fault::CheckFault;
use crate::refusals::put_fault;
use gql_ast::{FileSide, Profile};
use gql_folder::{Folder, GivenFile, NamedFile, read_folder};
use gql_registry::{Change, Registry};
use gql_verdict::Meter;
use std::alloc::{AllocError, Global};

/// The changes that put files and data, and the index of each among the files given.
pub struct Puts<'g> {
    pub puts: Vec<Change<'g>>,
    pub indices: Vec<usize>,
}

impl Drop for Puts<'_> {
    fn drop(self) {
        let Puts {
            puts: _,
            indices: _,
        } = self;
    }
}

/// The bytes of the file at an index; none where there is no file.
fn bytes_at(given: &[GivenFile], at: usize) -> &[u8]
    ensures { result.now ≡ spec.bytes_at given.now at }
{
    match given.get(at) {
        Some(file) => file.bytes.as_slice(),
        None => &[],
    }
}

/// Adds the files of a side.
fn add_side<'g>(
    side: FileSide,
    named: &[NamedFile],
    given: &'g [GivenFile],
    puts: &mut Puts<'g>,
) -> Result<(), AllocError>
    ensures edit { OnOk result (edit_of puts.new.puts.items
        ≡ edit_of puts.old.puts.items ++ map (put_on side given.now) named.now) }
    ensures indices { OnOk result (puts.new.indices.items
        ≡ puts.old.indices.items ++ indices_of named.now) }
{
    for file in named {
        puts.puts.push(Change::Put {
            side,
            name: file.name.copy()?,
            bytes: bytes_at(given, file.at),
        })?;
        puts.indices.push(file.at)?;
    }
    Ok(())
}

/// Adds the data, if there are some.
fn add_data<'g>(
    data_at: Option<usize>,
    given: &'g [GivenFile],
    puts: &mut Puts<'g>,
) -> Result<(), AllocError>
    ensures edit { OnOk result (edit_of puts.new.puts.items
        ≡ edit_of puts.old.puts.items ++ spec.data_changes given.now data_at) }
    ensures indices { OnOk result (puts.new.indices.items
        ≡ puts.old.indices.items ++ spec.data_indices data_at) }
{
    if let Some(at) = data_at {
        puts.puts.push(Change::PutData {
            bytes: bytes_at(given, at),
        })?;
        puts.indices.push(at)?;
    }
    Ok(())
}

/// What is put for the files of a folder: the schema files, the documents and the data.
fn puts_of<'g>(
    alloc: Global,
    folder: &Folder,
    given: &'g [GivenFile],
) -> Result<Puts<'g>, AllocError>
    ensures { IfOk result (ArePuts given.now folder.now) }
{
    let mut puts = Puts {
        puts: Vec::new(alloc),
        indices: Vec::new(alloc),
    };
    add_side(FileSide::Schema, folder.schema.as_slice(), given, &mut puts)?;
    add_side(
        FileSide::Documents,
        folder.documents.as_slice(),
        given,
        &mut puts,
    )?;
    add_data(folder.data, given, &mut puts)?;
    Ok(puts)
}

/// Whether a folder has no schema file, no document and no data.
fn is_empty(folder: &Folder) -> bool
    ensures { result ≡ (length (folder_indices folder.now) == 0) }
{
    folder.schema.is_empty() && folder.documents.is_empty() && folder.data.is_none()
}

/// The files of a registry of this profile among those given, of which there has to be one.
pub fn folder_of(alloc: Global, profile: Profile, given: &[GivenFile]) -> Result<Folder, CheckFault>
    ensures folder { IfOk result (IsFolderOf profile given.now) }
    ensures err { IfErr result (IsFault profile given.now) }
{
    let folder = read_folder(alloc, given, profile.limits)?;
    if is_empty(&folder) {
        return Err(CheckFault::Empty);
    }
    Ok(folder)
}

/// The registry that putting the files of a folder into a new one of this profile leaves.
pub fn load(
    alloc: Global,
    profile: Profile,
    folder: &Folder,
    given: &[GivenFile],
) -> Result<Registry, CheckFault>
    ensures loaded { IfOk result (λ r.
        Accepts (empty_in profile) None (folder_edit given.now folder.now) (state_of r)) }
    ensures err { IfErr result (IsLoadFault profile given.now folder.now) }
{
    let puts = puts_of(alloc, folder, given)?;
    let mut registry = Registry::with(alloc, profile)?;
    let mut meter = Meter::new(alloc);
    match registry.edit(puts.puts.as_slice(), None, &mut meter) {
        Ok(_) => Ok(registry),
        Err(refused) => Err(put_fault(alloc, profile, &puts, &refused)),
    }
}

/// The registry that putting these files of a folder into a new one of this profile leaves. It is
/// refused if none of them is a file of a registry, if their paths are not those of a registry's
/// files, and with all files that the registry refuses.
pub fn load_files(
    alloc: Global,
    profile: Profile,
    given: &[GivenFile],
) -> Result<Registry, CheckFault>
    ensures loaded { IfOk result (IsLoaded profile given.now) }
    ensures err { IfErr result (IsFault profile given.now) }
{
    let folder = folder_of(alloc, profile, given)?;
    let registry = load(alloc, profile, &folder, given)?;
    Ok(registry)
}
