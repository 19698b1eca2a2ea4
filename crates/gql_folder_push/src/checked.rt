//! What a check of the folder found, in the terms of a registry's report.

use gql_findings::{Finding, Findings, Spot};
use gql_push::{FaultOwner, FolderCheck, Resource};
use std::alloc::AllocError;

/// Where a definition starts: the target of its file, the line and the column.
fn place_of(
    rt: &HostRuntime,
    resources: &[Resource],
    spot: &Spot,
) -> Result<FaultOwner, AllocError> {
    let mut file = String::new(rt.alloc());
    for resource in resources {
        if resource.file == spot.source {
            file.push_str(resource.target.as_str())?;
            break;
        }
    }
    Ok(FaultOwner::Definition {
        file,
        line: spot.line as u64,
        column: spot.column as u64,
    })
}

/// Who owns a fault that the check found.
fn owner_of(
    rt: &HostRuntime,
    resources: &[Resource],
    finding: &Finding,
) -> Result<FaultOwner, AllocError> {
    match &finding.owner {
        Some(owner) => place_of(rt, resources, &owner.spot),
        None => Ok(FaultOwner::Schema),
    }
}

/// What a check of the folder of these resources found: the owner of each fault, the operations,
/// and how many of them are not served.
pub fn folder_check(
    rt: &HostRuntime,
    resources: &[Resource],
    findings: &Findings,
) -> Result<FolderCheck, AllocError> {
    let mut owners = Vec::new(rt.alloc());
    for finding in findings.findings.as_slice() {
        owners.push(owner_of(rt, resources, finding)?)?;
    }
    let mut operations = Vec::new(rt.alloc());
    for operation in findings.operations.as_slice() {
        operations.push(place_of(rt, resources, &operation.spot)?)?;
    }
    Ok(FolderCheck {
        owners,
        operations,
        affected: findings.affected.len(),
    })
}
