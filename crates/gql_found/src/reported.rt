//! What is reported of files, and what is found in them.

ghost use Rattle.std.specs.Prelude.{◌≡◌, ◌↔◌, IfOk, IsTrue};
ghost use Rattle.gql_facts.specs.Facts.{fact_of};
ghost use Rattle.gql_found.specs.Found.{IsReported};
ghost use Rattle.gql_registry.specs.Report.{IsReport, IsSound};
ghost use Rattle.gql_registry.specs.State.{state_of};

use crate::affected::affected_of;
use crate::finding::findings_of;
use crate::operations::{definitions_of, operations_of};
use crate::sources::Sources;
use gql_ast::{Fault, Files, Shared};
use gql_facts::World;
use gql_findings::Findings;
use gql_registry::Registry;
use std::alloc::{AllocError, Global};

/// The report of files, and what is found in them.
#[derive(Drop)]
pub struct Reported {
    pub faults: Vec<Shared<Fault>>,
    pub found: Findings,
}

/// What is found in files with these texts, by their report, by what the rules may ask of them, and
/// by whether their schema has no fault.
pub fn report_of<W: World>(
    alloc: Global,
    sources: Sources,
    files: &Files,
    world: &mut W,
    faults: Vec<Shared<Fault>>,
    is_sound: bool,
) -> Result<Reported, AllocError>
    requires world { W.facts world.old ≡ fact_of files.now }
    requires report { IsReport files.now faults.items }
    requires sound { IsTrue is_sound ↔ IsSound files.now }
    ensures { IfOk result (IsReported sources files.now) }
{
    let definitions = definitions_of(alloc, &files.documents)?;
    let definitions = definitions.as_slice();
    let affected = affected_of(alloc, world, definitions, &sources, faults.as_slice())?;
    let findings = findings_of(alloc, files, definitions, &sources, faults.as_slice())?;
    let operations = operations_of(alloc, &sources, definitions)?;
    let found = Findings {
        sources: sources.into_files(),
        findings,
        operations,
        affected,
        schema_is_faulty: !is_sound,
    };
    Ok(Reported { faults, found })
}

/// What is found in the files of a registry, which have these texts.
pub fn reported_in(
    alloc: Global,
    sources: Sources,
    registry: &Registry,
) -> Result<Reported, AllocError>
    ensures { IfOk result (IsReported sources (state_of registry.now).files) }
{
    let faults = registry.shared_report()?;
    let is_sound = registry.is_sound();
    let facts = registry.facts()?;
    let mut world = facts.world();
    let files = registry.files();
    let reported = report_of(alloc, sources, files, &mut world, faults, is_sound)?;
    Ok(reported)
}
