//! What a registry's report says.
ghost use Rattle.std.specs.Prelude.{◌≡◌, IfOk, map, option_map};
ghost use Rattle.serde_json.specs.View.{items_view, view};
ghost use Rattle.gql_push.specs.Replies.{value_in as a_value_in};
ghost use Rattle.gql_push.specs.Reports as spec;

use crate::body::{number_at, text_at, value_in};
use serde_json::Value;
use std::alloc::{AllocError, Global};

/// Who owns a fault of a report.
#[derive(Drop)]
pub enum FaultOwner {
    /// Nobody: it is a fault of the schema.
    Schema,
    /// The definition that starts here: its file, as `documents/users`, its line and its column.
    Definition {
        file: String,
        line: u64,
        column: u64,
    },
}

/// A report: the revision, and the owner of each fault, in their order.
#[derive(Drop)]
pub struct Report {
    pub revision: u64,
    pub owners: Vec<FaultOwner>,
}

/// The definition that owns a fault, if this is one.
fn definition_in(alloc: Global, owner: &Value) -> Result<Option<FaultOwner>, AllocError>
    ensures { IfOk result (λ found. option_map spec.owner_of found
        ≡ spec.definition_in (view owner.now)) }
{
    let (line, column) = (number_at(owner, "line"), number_at(owner, "column"));
    match (text_at(owner, "file"), line, column) {
        (Some(file), Some(line), Some(column)) => Ok(Some(FaultOwner::Definition {
            file: String::from_str(alloc, file)?,
            line,
            column,
        })),
        _ => Ok(None),
    }
}

/// Who owns a fault of a report, if this is one.
fn owner_in(alloc: Global, fault: &Value) -> Result<Option<FaultOwner>, AllocError>
    ensures { IfOk result (λ found. option_map spec.owner_of found
        ≡ spec.owner_in (view fault.now)) }
{
    let Some(owner) = fault.get("owner") else {
        return Ok(None);
    };
    if owner.is_null() {
        return Ok(Some(FaultOwner::Schema));
    }
    let found = definition_in(alloc, owner)?;
    Ok(found)
}

/// Who owns each of these faults, if all of them are faults of a report.
fn owners_in(alloc: Global, faults: &[Value]) -> Result<Option<Vec<FaultOwner>>, AllocError>
    ensures { IfOk result (λ owners. option_map (λ o. spec.owners_of o.items) owners
        ≡ spec.owners_in (map view faults.now)) }
{
    let mut owners = Vec::new(alloc);
    for fault in faults {
        match owner_in(alloc, fault)? {
            Some(owner) => owners.push(owner)?,
            None => return Ok(None),
        }
    }
    Ok(Some(owners))
}

/// The faults of a report, if there is a list of them.
fn faults_in(value: &Value) -> Option<&Vec<Value>>
    ensures { option_map (λ v. items_view v.now.items) result ≡ spec.faults_in (view value.now) }
{
    match value.get("faults") {
        Some(faults) => faults.as_array(),
        None => None,
    }
}

/// What a report says with this revision and these faults.
fn report_of(alloc: Global, revision: u64, faults: &[Value]) -> Result<Option<Report>, AllocError>
    ensures { IfOk result (λ report. option_map spec.report_of report
        ≡ spec.report_with revision (map view faults.now)) }
{
    match owners_in(alloc, faults)? {
        Some(owners) => Ok(Some(Report { revision, owners })),
        None => Ok(None),
    }
}

/// What this JSON reports, if it is a report.
#[tactic(auto, using(crate::proofs::Owners::values_same))]
fn value_report(alloc: Global, value: &Value) -> Result<Option<Report>, AllocError>
    ensures { IfOk result (λ report. option_map spec.report_of report
        ≡ spec.report_in_value (view value.now)) }
{
    match (number_at(value, "revision"), faults_in(value)) {
        (Some(revision), Some(faults)) => report_of(alloc, revision, faults.as_slice()),
        _ => Ok(None),
    }
}

/// What a report says, by the status and the body of the answer. None if it is none.
pub fn report_in(alloc: Global, status: u16, body: &[u8]) -> Result<Option<Report>, AllocError>
    ensures { IfOk result (λ report. option_map spec.report_of report
        ≡ spec.report_in status (a_value_in body.now)) }
{
    if status != 200 {
        return Ok(None);
    }
    match value_in(alloc, body)? {
        Some(value) => value_report(alloc, &value),
        None => Ok(None),
    }
}
