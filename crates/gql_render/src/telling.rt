//! Which faults tell most: those that are shown where there is room for few.

ghost use Rattle.std.specs.Prelude.{◌≡◌, ℕ, IfOk, filter, map, nat_eq};
ghost use Rattle.std.specs.HashSet.{contains};
ghost use Rattle.std.specs.List.{list_any};
ghost use Rattle.gql_render.specs.Shown.{shown};
ghost use Rattle.gql_render.specs.Telling as spec;
ghost use Rattle.gql_render.specs.Telling.{IsRanked};

use crate::check::{Check, broken_operations, shown};
use gql_findings::{Affected, Cause, Finding, Owner, OwnerAt, Spot, causes, is_of_schema};
use std::alloc::{AllocError, Global};
use std::collections::HashSet;

/// Whether two places are the same.
fn is_same(one: &Spot, other: &Spot) -> bool
    ensures { result ≡ spec.is_same one.now other.now }
{
    one.source == other.source && one.offset == other.offset
}

/// Whether an operation is not served by a fault that this definition owns.
fn is_blamed(affected: &Affected, owner: &OwnerAt) -> bool
    ensures { result ≡ spec.is_blamed affected.now owner.now }
{
    match &affected.through {
        None => is_same(&affected.spot, &owner.spot),
        Some(through) => match &owner.owner {
            Owner::Fragment(name) => name.as_str() == through.as_str(),
            _ => false,
        },
    }
}

/// Whether a definition keeps one of these operations from being served.
fn is_any_blamed(operations: &[&Affected], owner: &OwnerAt) -> bool
    ensures { result ≡ list_any (λ a. spec.is_blamed a.now owner.now) operations.now }
{
    for affected in operations {
        if is_blamed(affected, owner) {
            return true;
        }
    }
    false
}

/// Whether the fault at a place is one of the schema.
fn is_of_schema_at(findings: &[Finding], place: usize) -> bool
    ensures { result ≡ spec.is_of_schema_at findings.now place }
{
    match findings.get(place) {
        Some(finding) => is_of_schema(finding.rule),
        None => false,
    }
}

/// Whether a fault keeps one of these operations from being served.
#[tactic(auto, using(crate::proofs::Ranking::any_mapped))]
fn is_breaking(operations: &[&Affected], finding: &Finding) -> bool
    ensures { result ≡ spec.is_any_blamed (map (λ a. a.now) operations.now) finding.now.owner }
{
    match &finding.owner {
        Some(owner) => is_any_blamed(operations, owner),
        None => false,
    }
}

/// Whether the fault at a place keeps one of these operations from being served.
fn is_breaking_at(findings: &[Finding], operations: &[&Affected], place: usize) -> bool
    ensures { result ≡ spec.is_breaking_at findings.now (map (λ a. a.now) operations.now) place }
{
    match findings.get(place) {
        Some(finding) => is_breaking(operations, finding),
        None => false,
    }
}

/// Those of the places that have a fault of the schema.
fn of_schema(
    alloc: Global,
    findings: &[Finding],
    places: &[usize],
) -> Result<Vec<usize>, AllocError>
    ensures { IfOk result (λ found. found.items
        ≡ filter (spec.is_of_schema_at findings.now) places.now) }
{
    let mut found = Vec::new(alloc);
    for place in places {
        if is_of_schema_at(findings, *place) {
            found.push(*place)?;
        }
    }
    Ok(found)
}

/// Those of the places that have a fault which keeps one of these operations from being served.
fn breaking(
    alloc: Global,
    findings: &[Finding],
    operations: &[&Affected],
    places: &[usize],
) -> Result<Vec<usize>, AllocError>
    ensures { IfOk result (λ found. found.items ≡ filter
        (spec.is_breaking_at findings.now (map (λ a. a.now) operations.now)) places.now) }
{
    let mut found = Vec::new(alloc);
    for place in places {
        if is_breaking_at(findings, operations, *place) {
            found.push(*place)?;
        }
    }
    Ok(found)
}

/// The first member of a cause.
fn first_member(cause: &Cause) -> usize
    ensures { result ≡ spec.first_member cause.now }
{
    cause.members.first().copied().unwrap_or(0)
}

/// The first members of causes.
fn first_members(alloc: Global, causes: &[Cause]) -> Result<HashSet<usize>, AllocError>
    ensures { IfOk result (λ set. (q : ℕ) → contains nat_eq set q
        ≡ list_any (λ c. nat_eq (spec.first_member c) q) causes.now) }
{
    let mut set = HashSet::new(alloc);
    for cause in causes {
        set.insert(first_member(cause))?;
    }
    Ok(set)
}

/// How telling the fault at a place is; the least number tells most.
fn rank_of(schema: &HashSet<usize>, breaking: &HashSet<usize>, place: usize) -> usize
    ensures { result ≡ spec.rank_by (contains nat_eq schema.now) (contains nat_eq breaking.now)
        place }
{
    if schema.contains(&place) {
        0
    } else if breaking.contains(&place) {
        1
    } else {
        2
    }
}

/// The faults that are shown, by their places, those that tell most first: of the faults of the
/// schema one of each cause, of those that keep an operation from being served one of each cause,
/// and then all others in the order of the report.
pub fn ranked(alloc: Global, check: &Check<'_>) -> Result<Vec<usize>, AllocError>
    ensures { IfOk result (λ ranked. IsRanked check.entry.now ranked.items) }
{
    let mut places = shown(alloc, check)?;
    let findings = check.now.findings.as_slice();
    let operations = broken_operations(alloc, check)?;
    let schema_places = of_schema(alloc, findings, places.as_slice())?;
    let schema_causes = causes(alloc, findings, schema_places.as_slice())?;
    let schema = first_members(alloc, schema_causes.as_slice())?;
    let breaking_places = breaking(alloc, findings, operations.as_slice(), places.as_slice())?;
    let breaking_causes = causes(alloc, findings, breaking_places.as_slice())?;
    let breaking = first_members(alloc, breaking_causes.as_slice())?;
    places.sort_by_key(|place| rank_of(&schema, &breaking, *place))?;
    Ok(places)
}
