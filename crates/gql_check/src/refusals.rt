//! The files that a registry refuses: all of them, not only the first.

ghost use Rattle.std.specs.Prelude.{◌+◌, None, IfOk, OnOk, length};
ghost use Rattle.gql_check.specs.Faults.{AreRefused};
ghost use Rattle.gql_check.specs.Steps.{IsAnswer, IsPutFault};
ghost use Rattle.gql_registry.specs.Changes.{change_of, edit_of};
ghost use Rattle.gql_registry.specs.Edits.{IsRefused};
ghost use Rattle.gql_registry.specs.State.{empty_in};

use crate::fault::{CheckFault, FileFault, file_fault};
use crate::loading::Puts;
use gql_ast::Profile;
use gql_registry::{Change, EditRefusal, Refusal, Registry};
use gql_verdict::Meter;
use std::alloc::{AllocError, Global};
use std::slice;

/// Why a new registry of this profile refuses to put a file; nothing if it accepts it.
fn refusal_of(
    alloc: Global,
    profile: Profile,
    change: &Change<'_>,
) -> Result<Option<Refusal>, AllocError>
    ensures { IfOk result (IsAnswer profile (change_of change.now)) }
{
    let mut registry = Registry::with(alloc, profile)?;
    let mut meter = Meter::new(alloc);
    match registry.edit(slice::from_ref(change), None, &mut meter) {
        Ok(_) => Ok(None),
        Err(EditRefusal { at: _, refusal }) => match refusal {
            Refusal::Memory => Err(AllocError),
            refusal => Ok(Some(refusal)),
        },
    }
}

/// Adds the refusal of the file at an index, if a new registry refuses it.
fn add_refused(
    alloc: Global,
    profile: Profile,
    puts: &Puts<'_>,
    at: usize,
    refused: &mut Vec<FileFault>,
) -> Result<(), AllocError>
    ensures { OnOk result (AreRefused profile (edit_of puts.now.puts.items)
        puts.now.indices.items at refused.old.items → AreRefused profile
        (edit_of puts.now.puts.items) puts.now.indices.items (at + 1) refused.new.items) }
{
    let (Some(put), Some(file)) = (puts.puts.get(at), puts.indices.get(at)) else {
        return Err(AllocError);
    };
    if let Some(refusal) = refusal_of(alloc, profile, put)? {
        refused.push(file_fault(*file, &refusal))?;
    }
    Ok(())
}

/// The files that are refused, of which this is the first.
fn refused_files(
    alloc: Global,
    profile: Profile,
    puts: &Puts<'_>,
    first: &EditRefusal,
) -> Result<Vec<FileFault>, AllocError>
    requires { IsRefused (empty_in profile) None (edit_of puts.now.puts.items) first.now }
    ensures { IfOk result (λ files. AreRefused profile (edit_of puts.now.puts.items)
        puts.now.indices.items (length puts.now.puts.items) files.items) }
{
    let mut refused = Vec::new(alloc);
    let Some(file) = puts.indices.get(first.at) else {
        return Err(AllocError);
    };
    if first.at >= puts.puts.len() || matches!(first.refusal, Refusal::Memory) {
        return Err(AllocError);
    }
    refused.push(file_fault(*file, &first.refusal))?;
    for at in first.at + 1..puts.puts.len() {
        add_refused(alloc, profile, puts, at, &mut refused)?;
    }
    Ok(refused)
}

/// Why files are not put: the refusals of the first that is refused, and of each after it that a
/// new registry refuses.
pub fn put_fault(
    alloc: Global,
    profile: Profile,
    puts: &Puts<'_>,
    first: &EditRefusal,
) -> CheckFault
    requires { IsRefused (empty_in profile) None (edit_of puts.now.puts.items) first.now }
    ensures { IsPutFault profile puts.now result }
{
    match refused_files(alloc, profile, puts, first) {
        Ok(files) => CheckFault::Refused(files),
        Err(_) => CheckFault::Memory,
    }
}
