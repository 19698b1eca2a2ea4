//! What is written: a check, alone or against a base.

ghost use Rattle.std.specs.Prelude.{◌≡◌, IfOk, map};
ghost use Rattle.std.specs.List.{range_with_len};
ghost use Rattle.gql_findings.specs.Causes.{AreCauses};
ghost use Rattle.gql_render.specs.Picking as picking;
ghost use Rattle.gql_render.specs.Shown as spec;

use crate::picking::picked;
use gql_findings::{Affected, Cause, Comparison, Finding, Findings, causes};
use std::alloc::{AllocError, Global};

/// The check that a check is compared with, and the comparison of the two.
#[derive(Clone, Copy)]
pub struct Against<'c> {
    pub findings: &'c Findings,
    pub comparison: &'c Comparison,
}

/// A check, alone or against a base. Alone, all its faults are shown; against a base, those that it
/// brings.
#[derive(Clone, Copy)]
pub struct Check<'c> {
    pub now: &'c Findings,
    pub base: Option<Against<'c>>,
}

/// All places of a list of this length.
fn every_place(alloc: Global, count: usize) -> Result<Vec<usize>, AllocError>
    ensures { IfOk result (λ places. places.items ≡ range_with_len 0 count) }
{
    (0..count).collect(alloc)
}

/// The places of the faults that are shown.
pub fn shown(alloc: Global, check: &Check<'_>) -> Result<Vec<usize>, AllocError>
    ensures { IfOk result (λ places. places.items ≡ spec.shown check.entry.now) }
{
    match &check.base {
        Some(base) => base.comparison.brought.clone(),
        None => every_place(alloc, check.now.findings.len()),
    }
}

/// The faults that are shown.
pub fn shown_faults<'c>(alloc: Global, check: &Check<'c>) -> Result<Vec<&'c Finding>, AllocError>
    ensures { IfOk result (λ faults. map (λ f. f.now) faults.items
        ≡ picking.picked check.entry.now.now.now.findings.items (spec.shown check.entry.now)) }
{
    let places = shown(alloc, check)?;
    picked(alloc, check.now.findings.as_slice(), places.as_slice())
}

/// The causes of the faults that are shown.
pub fn shown_causes(alloc: Global, check: &Check<'_>) -> Result<Vec<Cause>, AllocError>
    ensures { IfOk result (λ causes. AreCauses check.entry.now.now.now.findings.items
        (spec.shown check.entry.now) causes.items) }
{
    let places = shown(alloc, check)?;
    causes(alloc, check.now.findings.as_slice(), places.as_slice())
}

/// The places of the operations that are reported as broken: all that are not served, or against a
/// base those that the change breaks.
pub fn broken(alloc: Global, check: &Check<'_>) -> Result<Vec<usize>, AllocError>
    ensures { IfOk result (λ places. places.items ≡ spec.broken check.entry.now) }
{
    match &check.base {
        Some(base) => base.comparison.broken.clone(),
        None => every_place(alloc, check.now.affected.len()),
    }
}

/// The operations that are reported as broken.
pub fn broken_operations<'c>(
    alloc: Global,
    check: &Check<'c>,
) -> Result<Vec<&'c Affected>, AllocError>
    ensures { IfOk result (λ operations. map (λ a. a.now) operations.items
        ≡ picking.picked check.entry.now.now.now.affected.items (spec.broken check.entry.now)) }
{
    let places = broken(alloc, check)?;
    picked(alloc, check.now.affected.as_slice(), places.as_slice())
}
