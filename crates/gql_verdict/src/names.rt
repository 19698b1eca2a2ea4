//! The faults of names over all document files.
ghost use Rattle.std.specs.Prelude.{◌≡◌, IfOk, map};
ghost use Rattle.gql_verdict.specs.NameFaults as spec;

use crate::definitions::all_definitions;
use crate::{
    v01_executable_definitions, v02_operation_name_uniqueness, v03_lone_anonymous_operation,
    v11_fragment_name_uniqueness, v14_fragments_must_be_used,
};
use gql_ast::{Definition, Fault, Files};
use std::alloc::{AllocError, Global};

/// The faults of names of these definitions: exactly those by V01, V02, V03, V11 and V14, each with
/// its definition as the owner.
pub fn faults_of(alloc: Global, definitions: &[&Definition]) -> Result<Vec<Fault>, AllocError>
    ensures { IfOk result (λ found.
        found.items ≡ spec.faults_of (map (λ d. d.now) definitions.now)) }
{
    let mut faults = Vec::new(alloc);
    v01_executable_definitions::check(alloc, definitions, &mut faults)?;
    v02_operation_name_uniqueness::check(alloc, definitions, &mut faults)?;
    v03_lone_anonymous_operation::check(alloc, definitions, &mut faults)?;
    v11_fragment_name_uniqueness::check(alloc, definitions, &mut faults)?;
    v14_fragments_must_be_used::check(alloc, definitions, &mut faults)?;
    Ok(faults)
}

/// The faults of names over all document files.
pub fn name_faults(alloc: Global, files: &Files) -> Result<Vec<Fault>, AllocError>
    ensures { IfOk result (λ found. found.items ≡ spec.name_faults files.now) }
{
    let all = all_definitions(alloc, &files.documents)?;
    faults_of(alloc, all.as_slice())
}
