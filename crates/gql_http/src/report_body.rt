//! Reports, as JSON.
ghost use Rattle.std.specs.Prelude.{◌≡◌, ◌++◌, OnOk, IfOk};
ghost use Rattle.gql_http.specs.Json.{what_text, where_text, fault_text, faults_text, report_text};

use crate::places::{write_owner, write_places};
use crate::write::{write_bytes, write_number, write_string};
use gql_ast::{Fault, Shared};
use std::alloc::{AllocError, Global};

#[tactic(auto, unfolding(crate::specs::Json::what_text))]
fn write_what(alloc: Global, out: &mut Vec<u8>, fault: &Fault) -> Result<(), AllocError>
    ensures { OnOk result (out.new.items ≡ out.old.items ++ what_text fault.now) }
{
    write_bytes(out, b"{\"rule\":")?;
    write_string(alloc, out, fault.rule.name())?;
    write_bytes(out, b",\"about\":")?;
    write_string(alloc, out, fault.about.as_str())?;
    Ok(())
}

#[tactic(auto, unfolding(crate::specs::Json::where_text))]
fn write_where(alloc: Global, out: &mut Vec<u8>, fault: &Fault) -> Result<(), AllocError>
    ensures { OnOk result (out.new.items ≡ out.old.items ++ where_text fault.now) }
{
    write_bytes(out, b",\"places\":[")?;
    write_places(alloc, out, fault.places.as_slice())?;
    write_bytes(out, b"],\"owner\":")?;
    write_owner(alloc, out, &fault.owner)?;
    write_bytes(out, b"}")?;
    Ok(())
}

#[tactic(auto, unfolding(crate::specs::Json::fault_text))]
fn write_fault(alloc: Global, out: &mut Vec<u8>, fault: &Fault) -> Result<(), AllocError>
    ensures { OnOk result (out.new.items ≡ out.old.items ++ fault_text fault.now) }
{
    write_what(alloc, out, fault)?;
    write_where(alloc, out, fault)?;
    Ok(())
}

/// Writes faults with commas between them.
#[tactic(auto, unfolding(crate::specs::Json::faults_text))]
pub fn write_faults(
    alloc: Global,
    out: &mut Vec<u8>,
    faults: &[Shared<Fault>],
) -> Result<(), AllocError>
    ensures { OnOk result (out.new.items ≡ out.old.items ++ faults_text faults.now) }
{
    let Some((first, rest)) = faults.split_first() else {
        return Ok(());
    };
    write_fault(alloc, out, first.get())?;
    for fault in rest {
        write_bytes(out, b",")?;
        write_fault(alloc, out, fault.get())?;
    }
    Ok(())
}

/// The body of a report.
#[tactic(auto, unfolding(crate::specs::Json::report_text))]
pub fn report_body(
    alloc: Global,
    revision: u64,
    faults: &[Shared<Fault>],
) -> Result<Vec<u8>, AllocError>
    ensures { IfOk result (λ body. body.items ≡ report_text revision faults.now) }
{
    let mut out = Vec::new(alloc);
    write_bytes(&mut out, b"{\"revision\":")?;
    write_number(&mut out, revision)?;
    write_bytes(&mut out, b",\"faults\":[")?;
    write_faults(alloc, &mut out, faults)?;
    write_bytes(&mut out, b"]}")?;
    Ok(out)
}
