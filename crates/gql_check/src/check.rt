//! A check of the files of a folder.

ghost use Rattle.std.specs.Prelude.{IfErr, IfOk};
ghost use Rattle.gql_check.specs.Checks.{IsCheck};
ghost use Rattle.gql_check.specs.Faults.{IsFault};

use crate::fault::CheckFault;
use crate::loading::{folder_of, load};
use crate::sources::sources_of;
use gql_ast::Profile;
use gql_findings::Findings;
use gql_folder::GivenFile;
use gql_found::reported_in;
use std::alloc::Global;

/// What a check of these files of a folder finds: what a registry of this profile reports after they
/// were put into it one by one. It is refused as `load_files` is.
pub fn check_files(
    alloc: Global,
    profile: Profile,
    folder: &str,
    given: &[GivenFile],
) -> Result<Findings, CheckFault>
    ensures check { IfOk result (IsCheck profile folder.now given.now) }
    ensures err { IfErr result (IsFault profile given.now) }
{
    let named = folder_of(alloc, profile, given)?;
    let registry = load(alloc, profile, &named, given)?;
    let sources = sources_of(alloc, folder, given, &named)?;
    let reported = reported_in(alloc, sources, &registry)?;
    Ok(reported.found)
}
