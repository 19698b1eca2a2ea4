//! The body of a batch: the edit that it says.
ghost use Rattle.std.specs.Prelude.{◌≡◌, ◌++◌, ◌∷◌, [], true, Some, None, IfErr, IfOk, IsUtf8, OnOk, ℕ, option_map};
ghost use Rattle.json.specs.Json.{document};
ghost use Rattle.serde_json.specs.Read.{read};
ghost use Rattle.serde_json.specs.View.{members_view, view};
ghost use Rattle.gql_registry.specs.Changes.{change_of, edit_of};
ghost use Rattle.gql_registry.specs.Edits.{Edit};
ghost use Rattle.gql_http.specs.Batches as spec;
ghost use Rattle.gql_http.specs.BatchValues.{datum};
ghost use Rattle.gql_http.specs.declared.batch.BatchFault.TheVariants as fault;

use crate::twice::{is_of_files, is_once};
use gql_ast::{FileName, FileSide};
use gql_registry::Change;
use serde_json::{Map, Value};
use std::alloc::{AllocError, Global};
use std::str;
use thiserror::Error;

/// Why a body says no edit.
#[derive(Clone, Copy, Debug, Drop, Error, PartialEq, Eq)]
pub enum BatchFault {
    /// 312: the body does not have the form of a batch.
    #[error("bad batch")]
    BadBatch,
    /// An allocation failed.
    #[error("out of memory")]
    Memory,
}

impl BatchFault {
    ghost use Rattle.gql_http.specs.Called.{batch_number};

    /// The number of the refusal: 312, or 211 if an allocation failed.
    pub fn number(self) -> u16
        ensures { result ≡ batch_number self }
    {
        match self {
            BatchFault::BadBatch => 312,
            BatchFault::Memory => 211,
        }
    }
}

impl From<AllocError> for BatchFault {
    ghost use Rattle.std.specs.Prelude.{◌≡◌};
    ghost use Rattle.gql_http.specs.declared.batch.BatchFault.TheVariants.{Memory};

    ghost from_gives = { λ _ e. e ≡ Memory };

    fn from(_: AllocError) -> BatchFault {
        BatchFault::Memory
    }
}

/// The change that the member of a file says, if it says one.
fn file_change<'b>(side: FileSide, name: FileName, value: &'b Value) -> Option<Change<'b>>
    ensures { option_map change_of result ≡ spec.file_change side name (view value.now) }
{
    match value {
        Value::String(text) => Some(Change::Put {
            side,
            name,
            bytes: text.as_str().as_bytes(),
        }),
        Value::Null => Some(Change::Remove { side, name }),
        _ => None,
    }
}

/// The same, if a file may have the name, which has at most so many bytes.
fn named_change<'b>(
    alloc: Global,
    most: usize,
    side: FileSide,
    name: &str,
    value: &'b Value,
) -> Result<Option<Change<'b>>, AllocError>
    ensures { IfOk result (λ c. option_map change_of c
        ≡ spec.named_change most side name.now (view value.now)) }
{
    let name = FileName::read(alloc, name, most)?;
    match name {
        Some(name) => Ok(file_change(side, name, value)),
        None => Ok(None),
    }
}

/// Adds a change at the end of an edit.
fn add<'b>(change: Change<'b>, edit: &mut Vec<Change<'b>>) -> Result<(), AllocError>
    ensures { OnOk result (edit.new.items ≡ edit.old.items ++ change.entry ∷ []) }
{
    edit.push(change)?;
    Ok(())
}

/// Adds the changes of the files of a side.
fn add_changes<'b>(
    alloc: Global,
    most: usize,
    side: FileSide,
    files: &'b Map<String, Value>,
    edit: &mut Vec<Change<'b>>,
) -> Result<(), BatchFault>
    ensures ok { OnOk result ((e : Edit)
        × (spec.file_changes most side (members_view files.now.entries) ≡ Some e)
        × (edit_of edit.new.items ≡ edit_of edit.old.items ++ e)) }
    ensures err { IfErr result (λ f. f ≡ fault.BadBatch
        → spec.file_changes most side (members_view files.now.entries) ≡ None) }
{
    for (name, value) in files.iter() {
        let Some(change) = named_change(alloc, most, side, name.as_str(), value)? else {
            return Err(BatchFault::BadBatch);
        };
        add(change, edit)?;
    }
    Ok(())
}

/// Adds the changes of a side, if a batch has a member for it.
fn add_side<'b>(
    alloc: Global,
    most: usize,
    side: FileSide,
    files: Option<&'b Value>,
    edit: &mut Vec<Change<'b>>,
) -> Result<(), BatchFault>
    ensures ok { OnOk result ((e : Edit)
        × (spec.side_changes most side (datum files.entry) ≡ Some e)
        × (edit_of edit.new.items ≡ edit_of edit.old.items ++ e)) }
    ensures err { IfErr result (λ f. f ≡ fault.BadBatch
        → spec.side_changes most side (datum files.entry) ≡ None) }
{
    let Some(files) = files else {
        return Ok(());
    };
    let Some(files) = files.as_object() else {
        return Err(BatchFault::BadBatch);
    };
    add_changes(alloc, most, side, files, edit)
}

/// Adds the change of the data, if a batch has a member for it.
fn add_data<'b>(value: Option<&'b Value>, edit: &mut Vec<Change<'b>>) -> Result<(), BatchFault>
    ensures ok { OnOk result ((e : Edit) × (spec.data_change (datum value.entry) ≡ Some e)
        × (edit_of edit.new.items ≡ edit_of edit.old.items ++ e)) }
    ensures err { IfErr result (λ f. f ≡ fault.BadBatch
        → spec.data_change (datum value.entry) ≡ None) }
{
    let Some(value) = value else {
        return Ok(());
    };
    if value.is_null() {
        return Err(BatchFault::BadBatch);
    }
    add(Change::SetData { value }, edit)?;
    Ok(())
}

/// Whether a batch may have a member of this name.
fn is_batch_member(name: &str) -> bool
    ensures { result ≡ spec.is_batch_member name.now }
{
    is_of_files(name) || name == "data"
}

/// Whether there is another member.
fn has_unknown(members: &Map<String, Value>) -> bool
    ensures { result ≡ spec.has_unknown (members_view members.now.entries) }
{
    for (name, _value) in members.iter() {
        if !is_batch_member(name.as_str()) {
            return true;
        }
    }
    false
}

/// The edit that a value says, where the name of a file has at most so many bytes: the schema files,
/// the document files, each in the order of their names, and then the data.
pub fn edit_in<'b>(
    alloc: Global,
    most: usize,
    batch: &'b Value,
) -> Result<Vec<Change<'b>>, BatchFault>
    ensures ok { IfOk result
        (λ edit. spec.edit_in most (view batch.now) ≡ Some (edit_of edit.items)) }
    ensures err { IfErr result
        (λ f. f ≡ fault.BadBatch → spec.edit_in most (view batch.now) ≡ None) }
{
    let Some(members) = batch.as_object() else {
        return Err(BatchFault::BadBatch);
    };
    if has_unknown(members) {
        return Err(BatchFault::BadBatch);
    }
    let mut edit = Vec::new(alloc);
    add_side(
        alloc,
        most,
        FileSide::Schema,
        batch.get("schema"),
        &mut edit,
    )?;
    add_side(
        alloc,
        most,
        FileSide::Documents,
        batch.get("documents"),
        &mut edit,
    )?;
    add_data(batch.get("data"), &mut edit)?;
    Ok(edit)
}

/// The value of a text of JSON in which no name occurs twice.
fn value_in(alloc: Global, text: &str) -> Result<Value, BatchFault>
    ensures ok { IfOk result (λ v. (read text.now ≡ Some (view v))
        × (spec.is_once (document text.now) ≡ true)) }
    ensures err { IfErr result (λ f. f ≡ fault.BadBatch → spec.IsNoValue text.now) }
{
    if !is_once(alloc, text)? {
        return Err(BatchFault::BadBatch);
    }
    match Value::from_str(alloc, text) {
        Ok(value) => Ok(value),
        Err(error) => {
            if error.is_memory() {
                Err(BatchFault::Memory)
            } else {
                Err(BatchFault::BadBatch)
            }
        }
    }
}

/// The value of the body of a batch.
pub fn batch_in(alloc: Global, body: &[u8]) -> Result<Value, BatchFault>
    ensures ok { IfOk result (λ v. IsUtf8 body.now × (read body.now ≡ Some (view v))
        × (spec.is_once (document body.now) ≡ true)) }
    ensures err { IfErr result
        (λ f. f ≡ fault.BadBatch → (most : ℕ) → spec.Says most body.now None) }
{
    match str::from_utf8(body) {
        Ok(text) => value_in(alloc, text),
        Err(_) => Err(BatchFault::BadBatch),
    }
}
