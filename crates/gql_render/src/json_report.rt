//! A check as JSON.

ghost use Rattle.std.specs.Prelude.{◌≡◌, ◌++◌, OnOk, IfOk, codes, map};
ghost use Rattle.serde_json.specs.Written.{compact_text};
ghost use Rattle.gql_render.specs.Json.{check_json};
ghost use Rattle.gql_render.specs.Texts as spec;

use crate::check::{Against, Check};
use crate::json_entries::{write_faults, write_operations};
use crate::json_write::write_bytes;
use crate::picking::{every, picked};
use gql_findings::{Affected, Finding, Findings};
use std::alloc::{AllocError, Global};

/// Writes faults, as a list.
fn write_fault_array(
    alloc: Global,
    out: &mut Vec<u8>,
    findings: &Findings,
    faults: &[&Finding],
) -> Result<(), AllocError>
    ensures { OnOk result (out.new.items ≡ out.old.items ++ codes "["
        ++ spec.faults_text findings.now.sources.items (map (λ f. f.now) faults.now) ++ codes "]") }
{
    write_bytes(out, b"[")?;
    write_faults(alloc, out, findings.sources.as_slice(), faults)?;
    write_bytes(out, b"]")
}

/// Writes operations, as a list.
fn write_operation_array(
    alloc: Global,
    out: &mut Vec<u8>,
    findings: &Findings,
    operations: &[&Affected],
) -> Result<(), AllocError>
    ensures { OnOk result (out.new.items ≡ out.old.items ++ codes "["
        ++ spec.operations_text findings.now.sources.items (map (λ a. a.now) operations.now)
        ++ codes "]") }
{
    write_bytes(out, b"[")?;
    write_operations(alloc, out, findings.sources.as_slice(), operations)?;
    write_bytes(out, b"]")
}

/// Writes the faults at these places, as a list.
#[tactic(auto, unfolding(crate::specs::Texts::fault_list_text))]
fn write_fault_list(
    alloc: Global,
    out: &mut Vec<u8>,
    findings: &Findings,
    places: &[usize],
) -> Result<(), AllocError>
    ensures { OnOk result (out.new.items
        ≡ out.old.items ++ spec.fault_list_text findings.now places.now) }
{
    let faults = picked(alloc, findings.findings.as_slice(), places)?;
    write_fault_array(alloc, out, findings, faults.as_slice())
}

/// Writes the operations at these places, as a list.
#[tactic(auto, unfolding(crate::specs::Texts::operation_list_text))]
fn write_operation_list(
    alloc: Global,
    out: &mut Vec<u8>,
    findings: &Findings,
    places: &[usize],
) -> Result<(), AllocError>
    ensures { OnOk result (out.new.items
        ≡ out.old.items ++ spec.operation_list_text findings.now places.now) }
{
    let operations = picked(alloc, findings.affected.as_slice(), places)?;
    write_operation_array(alloc, out, findings, operations.as_slice())
}

/// The word for a truth value.
fn truth(value: bool) -> &'static [u8]
    ensures { result.now ≡ spec.truth_text value }
{
    if value { b"true" } else { b"false" }
}

/// Writes whether the schema of the base has faults, and whether the documents of now are hidden,
/// as members.
fn write_base(out: &mut Vec<u8>, base: &Against<'_>) -> Result<(), AllocError>
    ensures { OnOk result (out.new.items ≡ out.old.items ++ spec.base_text base.now) }
{
    write_bytes(out, b",\"baseSchemaIsFaulty\":")?;
    write_bytes(out, truth(base.findings.schema_is_faulty))?;
    write_bytes(out, b",\"hidden\":")?;
    write_bytes(out, truth(base.comparison.hidden))?;
    Ok(())
}

/// Writes what a change does to faults, as members.
fn write_fault_changes(
    alloc: Global,
    out: &mut Vec<u8>,
    now: &Findings,
    base: &Against<'_>,
) -> Result<(), AllocError>
    ensures { OnOk result (out.new.items
        ≡ out.old.items ++ spec.fault_changes_text now.now base.now) }
{
    write_bytes(out, b",\"brought\":")?;
    write_fault_list(alloc, out, now, base.comparison.brought.as_slice())?;
    write_bytes(out, b",\"mended\":")?;
    write_fault_list(alloc, out, base.findings, base.comparison.mended.as_slice())?;
    Ok(())
}

/// Writes the operations at these places, as a list, or null where the documents of now are hidden.
#[tactic(auto, unfolding(crate::specs::Texts::known_list_text))]
fn write_known_list(
    alloc: Global,
    out: &mut Vec<u8>,
    hidden: bool,
    findings: &Findings,
    places: &[usize],
) -> Result<(), AllocError>
    ensures { OnOk result (out.new.items
        ≡ out.old.items ++ spec.known_list_text hidden findings.now places.now) }
{
    if hidden {
        write_bytes(out, b"null")
    } else {
        write_operation_list(alloc, out, findings, places)
    }
}

/// Writes what a change does to operations, as members.
fn write_operation_changes(
    alloc: Global,
    out: &mut Vec<u8>,
    now: &Findings,
    base: &Against<'_>,
) -> Result<(), AllocError>
    ensures { OnOk result (out.new.items
        ≡ out.old.items ++ spec.operation_changes_text now.now base.now) }
{
    let hidden = base.comparison.hidden;
    write_bytes(out, b",\"broken\":")?;
    write_known_list(alloc, out, hidden, now, base.comparison.broken.as_slice())?;
    write_bytes(out, b",\"healed\":")?;
    write_known_list(
        alloc,
        out,
        hidden,
        base.findings,
        base.comparison.healed.as_slice(),
    )?;
    Ok(())
}

/// Writes what a change does, as members; nothing without a base.
#[tactic(auto, unfolding(crate::specs::Texts::changes_text))]
fn write_changes(
    alloc: Global,
    out: &mut Vec<u8>,
    now: &Findings,
    base: &Option<Against<'_>>,
) -> Result<(), AllocError>
    ensures { OnOk result (out.new.items ≡ out.old.items ++ spec.changes_text now.now base.now) }
{
    match base {
        Some(base) => {
            write_base(out, base)?;
            write_fault_changes(alloc, out, now, base)?;
            write_operation_changes(alloc, out, now, base)
        }
        None => Ok(()),
    }
}

/// Writes the first member of a check.
fn write_head(out: &mut Vec<u8>, now: &Findings) -> Result<(), AllocError>
    ensures { OnOk result (out.new.items ≡ out.old.items ++ spec.head_text now.now) }
{
    write_bytes(out, b"{\"schemaIsFaulty\":")?;
    write_bytes(out, truth(now.schema_is_faulty))?;
    Ok(())
}

/// Writes all faults, as a list.
#[tactic(auto, unfolding(crate::specs::Texts::all_faults_text))]
fn write_all_faults(alloc: Global, out: &mut Vec<u8>, now: &Findings) -> Result<(), AllocError>
    ensures { OnOk result (out.new.items ≡ out.old.items ++ spec.all_faults_text now.now) }
{
    let faults = every(alloc, now.findings.as_slice())?;
    write_fault_array(alloc, out, now, faults.as_slice())
}

/// Writes all operations that are not served, as a list.
#[tactic(auto, unfolding(crate::specs::Texts::all_operations_text))]
fn write_all_operations(alloc: Global, out: &mut Vec<u8>, now: &Findings) -> Result<(), AllocError>
    ensures { OnOk result (out.new.items ≡ out.old.items ++ spec.all_operations_text now.now) }
{
    let operations = every(alloc, now.affected.as_slice())?;
    write_operation_array(alloc, out, now, operations.as_slice())
}

/// Writes all faults, and all operations that are not served, as members.
fn write_state(alloc: Global, out: &mut Vec<u8>, now: &Findings) -> Result<(), AllocError>
    ensures { OnOk result (out.new.items ≡ out.old.items ++ spec.state_text now.now) }
{
    write_bytes(out, b",\"faults\":")?;
    write_all_faults(alloc, out, now)?;
    write_bytes(out, b",\"affected\":")?;
    write_all_operations(alloc, out, now)?;
    Ok(())
}

/// The check as one JSON object, in compact form.
pub fn as_json(alloc: Global, check: &Check<'_>) -> Result<Vec<u8>, AllocError>
    ensures { IfOk result (λ body. body.items ≡ compact_text (check_json check.entry.now)) }
{
    let mut out = Vec::new(alloc);
    write_head(&mut out, check.now)?;
    write_state(alloc, &mut out, check.now)?;
    write_changes(alloc, &mut out, check.now, &check.base)?;
    write_bytes(&mut out, b"}")?;
    Ok(out)
}
