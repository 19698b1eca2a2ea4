//! Edits of a request, made on the registry.
ghost use Rattle.std.specs.Prelude.{◌≡◌, ◌++◌, ◌∷◌, [], Err, IfOk, Some, OnErr, OnOk, Result, option_map, string_bytes};
ghost use Rattle.gql_registry.specs.Changes.{change_of, edit_of};
ghost use Rattle.gql_registry.specs.Edits.{Makes};
ghost use Rattle.gql_registry.specs.State.{state_of};
ghost use Rattle.gql_registry.specs.declared.change.EditRefusal.{EditRefusal as AnEditRefusal};
ghost use Rattle.gql_registry.specs.declared.registry.Edited.{Edited as AnEdited};
ghost use Rattle.serde_json.specs.View.{view};
ghost use Rattle.gql_http.specs.Answers.{Said};
ghost use Rattle.gql_http.specs.Called.{kind_said};
ghost use Rattle.gql_http.specs.Editing.{Edits, EditsValue, changed_text, edit_said, named_at, single_edit};
ghost use Rattle.gql_http.specs.Routes.{batch};
ghost use Rattle.gql_http.specs.Said.{answer_said, ended_bytes};

use crate::answer::{Answer, Ending};
use crate::batch::{batch_in, edit_in};
use crate::places::file_text;
use crate::refusal_answer::{batch_answer, refusal_answer};
use crate::route::EditKind;
use crate::write_answer::{write_answer, write_edited};
use gql_registry::{Change, EditRefusal, Registry};
use gql_verdict::Meter;
use serde_json::Value;
use std::alloc::{AllocError, Global};
use std::slice;

/// What a change is of, as the refusal of a batch names it.
fn changed_text(alloc: Global, change: &Change<'_>) -> Result<String, AllocError>
    ensures { IfOk result (λ text. string_bytes text ≡ changed_text (change_of change.now)) }
{
    match change {
        Change::Put { side, name, .. } | Change::Remove { side, name } => {
            file_text(alloc, *side, name)
        }
        Change::PutData { .. } | Change::SetData { .. } => String::from_str(alloc, "data"),
    }
}

/// What a refusal at this index names.
fn named_at(
    alloc: Global,
    named: bool,
    edit: &[Change<'_>],
    at: usize,
) -> Result<Option<String>, AllocError>
    ensures { IfOk result (λ text. option_map string_bytes text
        ≡ named_at named (edit_of edit.now) at) }
{
    if !named {
        return Ok(None);
    }
    match edit.get(at) {
        Some(change) => Ok(Some(changed_text(alloc, change)?)),
        None => Ok(None),
    }
}

/// The answer to an edit that is refused. There is none if an allocation failed.
fn refused_answer(
    alloc: Global,
    named: bool,
    edit: &[Change<'_>],
    refused: &EditRefusal,
) -> Result<Answer, AllocError>
    ensures { IfOk result (λ a. edit_said named (edit_of edit.now) (Err refused.now)
        ≡ Some (answer_said a)) }
{
    match named_at(alloc, named, edit, refused.at)? {
        Some(name) => refusal_answer(alloc, &refused.refusal, Some(name.as_str())),
        None => refusal_answer(alloc, &refused.refusal, None),
    }
}

/// Makes an edit and writes its answer; if it is refused and `named` is true, the answer names what
/// the change is of. The answer is written before the edit is committed: where there is no room for
/// it, nothing has changed.
fn make_edit(
    alloc: Global,
    registry: &mut Registry,
    out: &mut Vec<u8>,
    edit: &[Change<'_>],
    expected: Option<u64>,
    named: bool,
    ending: Ending,
) -> Result<(), AllocError>
    ensures ok { OnOk result ((r : Result AnEdited AnEditRefusal) × (a : Said)
        × (edit_said named (edit_of edit.now) r ≡ Some a)
        × Makes (state_of registry.old) expected (edit_of edit.now) r (state_of registry.new)
        × (out.new.items ≡ out.old.items ++ ended_bytes ending a)) }
    ensures err { OnErr result ((state_of registry.new ≡ state_of registry.old)
        × (out.new.items ≡ out.old.items)) }
{
    let mut meter = Meter::new(alloc);
    match registry.prepare_edit(edit, expected, &mut meter) {
        Ok(prepared) => {
            write_edited(out, prepared.edited(), ending)?;
            registry.commit_edit(prepared);
            Ok(())
        }
        Err(refused) => write_answer(out, &refused_answer(alloc, named, edit, &refused)?, ending),
    }
}

/// Makes the edit that the value of a batch says, and writes its answer.
fn answer_value(
    alloc: Global,
    registry: &mut Registry,
    out: &mut Vec<u8>,
    expected: Option<u64>,
    value: &Value,
    ending: Ending,
) -> Result<(), AllocError>
    ensures ok { OnOk result ((a : Said)
        × EditsValue (state_of registry.old) expected (view value.now) a (state_of registry.new)
        × (out.new.items ≡ out.old.items ++ ended_bytes ending a)) }
    ensures err { OnErr result ((state_of registry.new ≡ state_of registry.old)
        × (out.new.items ≡ out.old.items)) }
{
    let most = registry.profile().limits.name;
    match edit_in(alloc, most, value) {
        Ok(edit) => make_edit(
            alloc,
            registry,
            out,
            edit.as_slice(),
            expected,
            true,
            ending,
        ),
        Err(fault) => write_answer(out, &batch_answer(alloc, fault)?, ending),
    }
}

fn answer_batch(
    alloc: Global,
    registry: &mut Registry,
    out: &mut Vec<u8>,
    expected: Option<u64>,
    body: &[u8],
    ending: Ending,
) -> Result<(), AllocError>
    ensures ok { OnOk result ((a : Said)
        × Edits (state_of registry.old) expected batch body.now a (state_of registry.new)
        × (out.new.items ≡ out.old.items ++ ended_bytes ending a)) }
    ensures err { OnErr result ((state_of registry.new ≡ state_of registry.old)
        × (out.new.items ≡ out.old.items)) }
{
    match batch_in(alloc, body) {
        Ok(value) => answer_value(alloc, registry, out, expected, &value, ending),
        Err(fault) => write_answer(out, &batch_answer(alloc, fault)?, ending),
    }
}

/// The change of an edit that is of one file or of the data.
fn single_change<'b>(kind: EditKind, body: &'b [u8]) -> Option<Change<'b>>
    ensures { option_map (λ c. change_of c ∷ []) result ≡ single_edit (kind_said kind) body.now }
{
    match kind {
        EditKind::Put(side, name) => Some(Change::Put {
            side,
            name,
            bytes: body,
        }),
        EditKind::Remove(side, name) => Some(Change::Remove { side, name }),
        EditKind::PutData => Some(Change::PutData { bytes: body }),
        EditKind::Batch => None,
    }
}

/// Makes an edit of this kind and writes its answer.
pub fn answer_edit(
    alloc: Global,
    registry: &mut Registry,
    out: &mut Vec<u8>,
    kind: EditKind,
    expected: Option<u64>,
    body: &[u8],
    ending: Ending,
) -> Result<(), AllocError>
    ensures ok { OnOk result ((a : Said)
        × Edits (state_of registry.old) expected (kind_said kind) body.now a
        (state_of registry.new)
        × (out.new.items ≡ out.old.items ++ ended_bytes ending a)) }
    ensures err { OnErr result ((state_of registry.new ≡ state_of registry.old)
        × (out.new.items ≡ out.old.items)) }
{
    match single_change(kind, body) {
        Some(change) => {
            let edit = slice::from_ref(&change);
            make_edit(alloc, registry, out, edit, expected, false, ending)
        }
        None => answer_batch(alloc, registry, out, expected, body, ending),
    }
}
