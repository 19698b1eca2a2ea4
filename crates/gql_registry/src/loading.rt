//! What the changes of an edit put together, one after the other.
ghost use Rattle.std.specs.Prelude.{◌≡◌, ℕ, IfErr, IfOk, OnOk, Some};
ghost use Rattle.std.specs.List.{list_any};
ghost use Rattle.gql_registry.specs.Changes.{change_of, edit_of};
ghost use Rattle.gql_registry.specs.Checks.{IsListRefusal};
ghost use Rattle.gql_registry.specs.Edits as edits;
ghost use Rattle.gql_registry.specs.Edits.{MakesAll};
ghost use Rattle.gql_registry.specs.PreparedEdits.{data_after};
ghost use Rattle.gql_registry.specs.Working.{IsFilePut, IsFileRefusal, IsFileRemoved, state_in, state_over};
ghost use Rattle.gql_registry.specs.declared.change.Change.{Change as GivenChange};
ghost use Rattle.gql_verdict.specs.FileOrder.{AreFilesPlaced};
ghost use Rattle.serde_json.specs.Data.{Data as TheData};
ghost use Rattle.serde_json.specs.View.{view};

use crate::change::{Change, EditRefusal};
use crate::reading::{copy_data, has_room, read_data, read_file};
use crate::refusal::Refusal;
use crate::sides::{files_on, put_on, remove_on};
use gql_ast::{FileName, FileSide, Files};
use gql_parse_sdl::{one_answer, one_document_answer};
use gql_stored::StoredData;
use serde_json::Value;
use std::alloc::{AllocError, Global};

/// What is being put together: the files, and the data if there are new ones.
#[derive(Drop)]
pub struct Loading {
    pub files: Files,
    pub new_data: Option<Value>,
}

/// Whether a change is one of a file.
fn is_of_file(change: &Change<'_>) -> bool
    ensures { result ≡ edits.is_of_file (change_of change.now) }
{
    match change {
        Change::Put { .. } => true,
        Change::Remove { .. } => true,
        Change::PutData { .. } => false,
        Change::SetData { .. } => false,
    }
}

/// Whether some change of an edit is one of a file.
pub fn changes_files(edit: &[Change<'_>]) -> bool
    ensures { result ≡ list_any (λ (c : GivenChange). edits.is_of_file (change_of c)) edit.now }
{
    edit.iter().any(is_of_file)
}

/// Puts bytes as the file of a name on a side. The refusals are 203, 202, 201 and 205, in this
/// order.
fn put_file(
    alloc: Global,
    files: &mut Files,
    side: FileSide,
    name: &FileName,
    bytes: &[u8],
) -> Result<(), Refusal>
    ensures put { OnOk result (IsFilePut side name.now bytes.now files.old files.new) }
    ensures err { IfErr result (IsFileRefusal (edits.put side name.now bytes.now) files.old) }
{
    // The laws that a text has a tree or a fault, and never both.
    one_answer();
    one_document_answer();
    let profile = files.profile;
    let document = read_file(alloc, profile, side, name, bytes)?;
    if !has_room(files_on(files, side), name, profile.limits.files) {
        return Err(Refusal::FilesFull);
    }
    put_on(alloc, files, side, name.copy()?, document)?;
    Ok(())
}

/// Removes the file of a name from a side. The refusal is 204.
fn remove_file(files: &mut Files, side: FileSide, name: &FileName) -> Result<(), Refusal>
    ensures removed { OnOk result (IsFileRemoved side name.now files.old files.new) }
    ensures err { IfErr result (IsFileRefusal (edits.remove side name.now) files.old) }
{
    if !files_on(files, side).has(name) {
        return Err(Refusal::NoFile);
    }
    remove_on(files, side, name);
    Ok(())
}

/// Replaces the data, if there are new ones.
pub fn replace_data(stored: &mut StoredData, new_data: Option<Value>)
    ensures { view stored.new ≡ data_after (view stored.old) new_data }
{
    if let Some(data) = new_data {
        *stored = StoredData::new(data);
    }
}

/// Sets the new data.
fn set_data(new_data: &mut Option<Value>, value: Value)
    ensures { new_data.new ≡ Some value }
{
    *new_data = Some(value);
}

impl Loading {
    ghost use Rattle.std.specs.Prelude.{◌≡◌, ℕ, IfErr, OnOk};
    ghost use Rattle.gql_registry.specs.Changes.{change_of, edit_of};
    ghost use Rattle.gql_registry.specs.Checks.{IsChangeRefusal, IsListRefusal};
    ghost use Rattle.gql_registry.specs.Edits.{MakesAll};
    ghost use Rattle.gql_registry.specs.Working.{Takes, state_in};
    ghost use Rattle.gql_verdict.specs.FileOrder.{AreFilesPlaced};
    ghost use Rattle.serde_json.specs.Data.{Data as TheData};

    /// Makes a change. The refusals are those of its kind.
    fn make(&mut self, alloc: Global, change: &Change<'_>) -> Result<(), Refusal>
        ensures made { OnOk result ((stored : TheData) (revision : ℕ)
            → Takes (state_in stored revision self.old) (change_of change.now)
            (state_in stored revision self.new)) }
        ensures placed { OnOk result (AreFilesPlaced self.old.files.documents
            → AreFilesPlaced self.new.files.documents) }
        ensures err { IfErr result (λ r. (stored : TheData) (revision : ℕ)
            → IsChangeRefusal (state_in stored revision self.old) (change_of change.now) r) }
    {
        let profile = self.files.profile;
        match change {
            Change::Put { side, name, bytes } => {
                put_file(alloc, &mut self.files, *side, name, bytes)?;
            }
            Change::Remove { side, name } => {
                remove_file(&mut self.files, *side, name)?;
            }
            Change::PutData { bytes } => {
                let data = read_data(alloc, profile, bytes)?;
                set_data(&mut self.new_data, data);
            }
            Change::SetData { value } => {
                let data = copy_data(profile, value)?;
                set_data(&mut self.new_data, data);
            }
        }
        Ok(())
    }

    /// Makes all of these changes in turn, or stops at the first that is refused.
    fn make_each(&mut self, alloc: Global, edit: &[Change<'_>]) -> Result<(), EditRefusal>
        ensures made { OnOk result ((stored : TheData) (revision : ℕ)
            → MakesAll (state_in stored revision self.old) (edit_of edit.now)
            (state_in stored revision self.new)) }
        ensures placed { OnOk result (AreFilesPlaced self.old.files.documents
            → AreFilesPlaced self.new.files.documents) }
        ensures err { IfErr result (λ r. (stored : TheData) (revision : ℕ)
            → IsListRefusal (state_in stored revision self.old) (edit_of edit.now) r) }
    {
        for (at, change) in edit.iter().enumerate() {
            if let Err(refusal) = self.make(alloc, change) {
                return Err(EditRefusal { at, refusal });
            }
        }
        Ok(())
    }
}

/// Nothing is changed yet in these files.
fn begun(files: &Files) -> Result<Loading, AllocError>
    ensures state { IfOk result (λ l. (stored : TheData) (revision : ℕ)
        → state_in stored revision l ≡ state_over files.now stored revision) }
    ensures files { IfOk result (λ l. l.files ≡ files.now) }
{
    Ok(Loading {
        files: files.copy()?,
        new_data: None,
    })
}

/// What all of these changes come to, in turn, over these files.
pub fn load_all(alloc: Global, files: &Files, edit: &[Change<'_>]) -> Result<Loading, EditRefusal>
    requires { AreFilesPlaced files.now.documents }
    ensures made { IfOk result (λ l. (stored : TheData) (revision : ℕ)
        → MakesAll (state_over files.now stored revision) (edit_of edit.now)
        (state_in stored revision l)) }
    ensures placed { IfOk result (λ l. AreFilesPlaced l.files.documents) }
    ensures err { IfErr result (λ r. (stored : TheData) (revision : ℕ)
        → IsListRefusal (state_over files.now stored revision) (edit_of edit.now) r) }
{
    let mut loading = begun(files)?;
    loading.make_each(alloc, edit)?;
    Ok(loading)
}
