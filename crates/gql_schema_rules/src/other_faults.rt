//! The faults by the rules that are checked for all files together.
ghost use Rattle.std.specs.Prelude.{◌≡◌, ◌↔◌, [], IfOk, IsTrue, false, if◌then◌else◌};
ghost use Rattle.gql_node_rules.specs.FileFaults.{joint_on_types};
ghost use Rattle.gql_schema_rules.specs.ChecksOfFiles.{AreChecksOf};
ghost use Rattle.gql_schema_rules.specs.OtherFaults.{AreOthers, ListsInterfaces};
ghost use Rattle.gql_schema_rules.specs.RuleGroups as groups;
ghost use Rattle.gql_schema_rules.specs.TypesToCheck.{AreEnough};
ghost use Rattle.gql_types.specs.Schemas.{schema_of};

use crate::nodes_to_check::nodes_to_check;
use crate::rules::{add_all, add_definition_faults, add_root_faults, type_faults};
use gql_ast::{Fault, FileMap, Files, Shared};
use gql_node_rules::{FileCheck, SchemaChange, joint_schema_faults, joint_type_faults};
use gql_types::{Batched, Schema, SchemaType};
use std::alloc::{AllocError, Global};

/// The types that rules on types check: those that may be at fault.
#[derive(Clone, Copy)]
pub struct TypesToCheck<'t> {
    /// By S31, each with its extensions.
    pub joint: &'t [Batched<SchemaType>],
    /// By S05 to S08.
    pub own: &'t [Batched<SchemaType>],
    /// By S18.
    pub defaulted: &'t [Batched<SchemaType>],
}

/// The faults by the rules that are checked for all files together.
#[derive(Drop)]
pub struct OtherFaults {
    pub faults: Vec<Fault>,
    /// Whether S31 found none of them on a type with its extensions.
    pub are_joint_sound: bool,
    /// Whether the rules on types and directives, S05 to S08 and S18, found none of them.
    pub are_types_sound: bool,
}

/// Whether S31 needs to be checked on edited types alone: no type was at fault by it, and the
/// directives are the same.
pub fn keeps_joint(were_sound: bool, change: &SchemaChange) -> bool
    ensures sound { IsTrue result → IsTrue were_sound }
    ensures directives { IsTrue result → change.now.directives ≡ false }
{
    were_sound && !change.directives
}

/// Whether S18 needs to be checked on edited types alone: no type was at fault, and the change leaves
/// all input types as they are.
pub fn keeps_defaults(were_sound: bool, change: &SchemaChange) -> bool
    ensures sound { IsTrue result → IsTrue were_sound }
    ensures floats { IsTrue result → change.now.floats ≡ false }
    ensures inputs { IsTrue result → change.now.inputs ≡ [] }
{
    were_sound && !change.floats && change.inputs.as_slice().is_empty()
}

/// The edited types, if they are enough, or all types.
pub fn types_to_check<'t>(
    are_enough: bool,
    edited: &'t [Batched<SchemaType>],
    all: &'t [Batched<SchemaType>],
) -> &'t [Batched<SchemaType>]
    ensures { result.now ≡ (if are_enough then edited.now else all.now) }
{
    if are_enough { edited } else { all }
}

/// Whether there are no faults.
fn are_none(faults: &[Fault]) -> bool
    ensures { IsTrue result ↔ (faults.now ≡ []) }
{
    faults.is_empty()
}

/// The faults by the rules that are checked for all files together. They visit definitions and
/// extensions, directives, roots and types, but no other nodes of the files. Those by the rules on
/// interfaces and on cycles are given, the checks of the files, and the types that the rules on
/// types check.
pub fn other_faults(
    alloc: Global,
    files: &Files,
    schema: &Schema,
    checks: &FileMap<Shared<FileCheck>>,
    interfaces: Vec<Fault>,
    types: &TypesToCheck<'_>,
) -> Result<OtherFaults, AllocError>
    ensures all { IfOk result (λ others. schema.now ≡ schema_of files.now
        → AreChecksOf schema.now files.now.schema checks.now
        → ListsInterfaces schema.now interfaces.items → AreEnough schema.now types.now
        → AreOthers files.now schema.now others.faults.items) }
    ensures joint { IfOk result (λ others. IsTrue others.are_joint_sound
        ↔ (joint_on_types schema.now types.now.joint.now ≡ [])) }
    ensures sound { IfOk result (λ others. IsTrue others.are_types_sound ↔
        (groups.type_faults_on schema.now types.now.own.now types.now.defaulted.now ≡ [])) }
{
    let nodes = nodes_to_check(alloc, files, checks, schema)?;
    let mut faults = interfaces;
    let of_joint = joint_type_faults(alloc, schema, types.joint)?;
    let are_joint_sound = are_none(of_joint.as_slice());
    add_all(&mut faults, of_joint)?;
    let of_schema = joint_schema_faults(alloc, schema, &nodes)?;
    add_all(&mut faults, of_schema)?;
    add_definition_faults(alloc, schema, &nodes, &mut faults)?;
    let of_types = type_faults(alloc, schema, types.own, types.defaulted)?;
    let are_types_sound = are_none(of_types.as_slice());
    add_all(&mut faults, of_types)?;
    add_root_faults(alloc, files, schema, &nodes, &mut faults)?;
    Ok(OtherFaults {
        faults,
        are_joint_sound,
        are_types_sound,
    })
}
