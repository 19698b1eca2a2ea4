//! What is known of the files of a folder.
ghost use Rattle.std.specs.Prelude.{◌≡◌, IfOk, OnOk};
ghost use Rattle.gql_folder_usage.specs.Loaded.{IsLoadedFrom, IsStoredOf};
ghost use Rattle.gql_registry.specs.Report.{IsSound};
ghost use Rattle.gql_registry.specs.State.{state_of};

use crate::fault::UsageFault;
use gql_ast::{Files, Limits, Profile};
use gql_check::{CheckFault, load_files};
use gql_folder::{GivenFile, read_folder};
use gql_registry::Registry;
use gql_types::{Schema, assemble};
use gql_usage::{Paths, Stored};
use std::alloc::{AllocError, Global};

/// The files of a folder in a registry, their schema, which has no fault, what they answer, and their
/// paths.
#[derive(Drop)]
pub struct Loaded {
    pub registry: Registry,
    pub schema: Schema,
    pub stored: Stored,
    pub paths: Paths,
}

/// Refuses to go on where the schema has faults.
fn test_schema(registry: &Registry) -> Result<(), UsageFault>
    ensures { OnOk result (IsSound (state_of registry.now).files) }
{
    if registry.is_sound() {
        return Ok(());
    }
    let faults = registry.report()?.len();
    Err(UsageFault::FaultySchema { faults })
}

/// The paths of these files of a folder, within these limits.
fn paths_in(
    alloc: Global,
    folder: &str,
    given: &[GivenFile],
    limits: Limits,
) -> Result<Paths, UsageFault> {
    match read_folder(alloc, given, limits) {
        Ok(named) => Ok(Paths::new(alloc, folder, &named, given)?),
        Err(fault) => Err(UsageFault::from(CheckFault::from(fault))),
    }
}

/// What is known of the files of a folder, if its schema has no fault by this profile.
pub fn load_folder(
    alloc: Global,
    profile: Profile,
    folder: &str,
    given: &[GivenFile],
) -> Result<Loaded, UsageFault>
    ensures { IfOk result (IsLoadedFrom profile given.now) }
{
    let registry = load_files(alloc, profile, given)?;
    test_schema(&registry)?;
    let schema = assemble(alloc, registry.files())?;
    let stored = Stored::new(alloc, &schema, registry.files())?;
    let paths = paths_in(alloc, folder, given, profile.limits)?;
    Ok(Loaded {
        registry,
        schema,
        stored,
        paths,
    })
}
