//! Faults, and operations that are not served, as JSON.

ghost use Rattle.std.specs.Prelude.{◌≡◌, ◌++◌, map, OnOk};
ghost use Rattle.gql_render.specs.Texts as spec;

use crate::json_write::{write_bytes, write_number_after, write_string, write_string_after};
use crate::phrases::{kind_word, system_word};
use gql_findings::{Affected, Finding, Owner, OwnerAt, Source, Spot, Text, label_at, title};
use std::alloc::{AllocError, Global};

/// Writes the members of a place: its path, line and column.
#[tactic(auto, unfolding(crate::specs::Texts::place_text))]
fn write_place_members(
    alloc: Global,
    out: &mut Vec<u8>,
    sources: &[Source],
    spot: &Spot,
) -> Result<(), AllocError>
    ensures { OnOk result (out.new.items ≡ out.old.items ++ spec.place_text sources.now spot.now) }
{
    write_string_after(alloc, out, b"\"path\":", label_at(sources, spot))?;
    write_number_after(out, b",\"line\":", spot.line)?;
    write_number_after(out, b",\"column\":", spot.column)
}

/// Writes a place.
#[tactic(auto, unfolding(crate::specs::Texts::whole_place_text))]
fn write_place(
    alloc: Global,
    out: &mut Vec<u8>,
    sources: &[Source],
    spot: &Spot,
) -> Result<(), AllocError>
    ensures { OnOk result (out.new.items
        ≡ out.old.items ++ spec.whole_place_text sources.now spot.now) }
{
    write_bytes(out, b"{")?;
    write_place_members(alloc, out, sources, spot)?;
    write_bytes(out, b"}")
}

/// Writes places with commas between them.
#[tactic(auto, unfolding(crate::specs::Texts::places_text))]
fn write_places(
    alloc: Global,
    out: &mut Vec<u8>,
    sources: &[Source],
    spots: &[Spot],
) -> Result<(), AllocError>
    ensures { OnOk result (out.new.items
        ≡ out.old.items ++ spec.places_text sources.now spots.now) }
{
    let Some((first, others)) = spots.split_first() else {
        return Ok(());
    };
    write_place(alloc, out, sources, first)?;
    for spot in others {
        write_bytes(out, b",")?;
        write_place(alloc, out, sources, spot)?;
    }
    Ok(())
}

/// Writes a name, or null where there is none.
#[tactic(auto, unfolding(crate::specs::Texts::name_text))]
fn write_name(alloc: Global, out: &mut Vec<u8>, name: &Option<Text>) -> Result<(), AllocError>
    ensures { OnOk result (out.new.items ≡ out.old.items ++ spec.name_text name.now) }
{
    match name {
        Some(name) => write_string(alloc, out, name.as_str()),
        None => write_bytes(out, b"null"),
    }
}

/// Writes a kind, and a name if there is one, as members.
#[tactic(auto, unfolding(crate::specs::Texts::named_text))]
fn write_named(
    alloc: Global,
    out: &mut Vec<u8>,
    kind: &str,
    name: &Option<Text>,
) -> Result<(), AllocError>
    ensures { OnOk result (out.new.items ≡ out.old.items ++ spec.named_text kind.now name.now) }
{
    write_string_after(alloc, out, b"\"kind\":", kind)?;
    write_bytes(out, b",\"name\":")?;
    write_name(alloc, out, name)
}

/// Writes the kind and the name of a fragment, as members.
fn write_fragment(alloc: Global, out: &mut Vec<u8>, name: &Text) -> Result<(), AllocError>
    ensures { OnOk result (out.new.items ≡ out.old.items ++ spec.fragment_text name.now) }
{
    write_bytes(out, b"\"kind\":\"fragment\",\"name\":")?;
    write_string(alloc, out, name.as_str())?;
    Ok(())
}

/// Writes the kind and the name of a definition, as members.
#[tactic(auto, unfolding(crate::specs::Texts::definition_text))]
fn write_definition(alloc: Global, out: &mut Vec<u8>, owner: &Owner) -> Result<(), AllocError>
    ensures { OnOk result (out.new.items ≡ out.old.items ++ spec.definition_text owner.now) }
{
    match owner {
        Owner::Fragment(name) => write_fragment(alloc, out, name),
        Owner::Operation { kind, name } => write_named(alloc, out, kind_word(*kind), name),
        Owner::TypeSystem { kind, name } => write_named(alloc, out, system_word(*kind), name),
    }
}

/// Writes the owner of a fault, or null where it has none.
#[tactic(auto, unfolding(crate::specs::Texts::owner_text))]
fn write_owner(
    alloc: Global,
    out: &mut Vec<u8>,
    sources: &[Source],
    owner: &Option<OwnerAt>,
) -> Result<(), AllocError>
    ensures { OnOk result (out.new.items ≡ out.old.items ++ spec.owner_text sources.now owner.now) }
{
    let Some(owner) = owner else {
        return write_bytes(out, b"null");
    };
    write_bytes(out, b"{")?;
    write_definition(alloc, out, &owner.owner)?;
    write_bytes(out, b",")?;
    write_place_members(alloc, out, sources, &owner.spot)?;
    write_bytes(out, b"}")
}

/// Writes the first members of a fault: its rule, the rule's name, and what the fault is about.
#[tactic(auto, unfolding(crate::specs::Texts::what_text))]
fn write_what(alloc: Global, out: &mut Vec<u8>, finding: &Finding) -> Result<(), AllocError>
    ensures { OnOk result (out.new.items ≡ out.old.items ++ spec.what_text finding.now) }
{
    write_string_after(alloc, out, b"{\"rule\":", finding.rule.name())?;
    write_string_after(alloc, out, b",\"title\":", title(finding.rule))?;
    write_string_after(alloc, out, b",\"about\":", finding.about.as_str())
}

/// Writes the other members of a fault: its places and its owner.
#[tactic(auto, unfolding(crate::specs::Texts::where_text))]
fn write_where(
    alloc: Global,
    out: &mut Vec<u8>,
    sources: &[Source],
    finding: &Finding,
) -> Result<(), AllocError>
    ensures { OnOk result (out.new.items
        ≡ out.old.items ++ spec.where_text sources.now finding.now) }
{
    write_bytes(out, b",\"places\":[")?;
    write_places(alloc, out, sources, finding.spots.as_slice())?;
    write_bytes(out, b"],\"owner\":")?;
    write_owner(alloc, out, sources, &finding.owner)?;
    write_bytes(out, b"}")
}

/// Writes a fault.
#[tactic(auto, unfolding(crate::specs::Texts::fault_text))]
fn write_fault(
    alloc: Global,
    out: &mut Vec<u8>,
    sources: &[Source],
    finding: &Finding,
) -> Result<(), AllocError>
    ensures { OnOk result (out.new.items
        ≡ out.old.items ++ spec.fault_text sources.now finding.now) }
{
    write_what(alloc, out, finding)?;
    write_where(alloc, out, sources, finding)
}

/// Writes faults with commas between them.
#[tactic(auto, unfolding(crate::specs::Texts::faults_text))]
pub fn write_faults(
    alloc: Global,
    out: &mut Vec<u8>,
    sources: &[Source],
    faults: &[&Finding],
) -> Result<(), AllocError>
    ensures { OnOk result (out.new.items
        ≡ out.old.items ++ spec.faults_text sources.now (map (λ f. f.now) faults.now)) }
{
    let Some((first, others)) = faults.split_first() else {
        return Ok(());
    };
    write_fault(alloc, out, sources, first)?;
    for fault in others {
        write_bytes(out, b",")?;
        write_fault(alloc, out, sources, fault)?;
    }
    Ok(())
}

/// Writes the first members of an operation that is not served.
#[tactic(auto, unfolding(crate::specs::Texts::affected_start))]
fn write_affected_start(
    alloc: Global,
    out: &mut Vec<u8>,
    sources: &[Source],
    affected: &Affected,
) -> Result<(), AllocError>
    ensures { OnOk result (out.new.items
        ≡ out.old.items ++ spec.affected_start sources.now affected.now) }
{
    write_bytes(out, b"{")?;
    write_named(alloc, out, kind_word(affected.kind), &affected.name)?;
    write_bytes(out, b",")?;
    write_place_members(alloc, out, sources, &affected.spot)
}

/// Writes an operation that is not served.
#[tactic(auto, unfolding(crate::specs::Texts::affected_text))]
fn write_affected(
    alloc: Global,
    out: &mut Vec<u8>,
    sources: &[Source],
    affected: &Affected,
) -> Result<(), AllocError>
    ensures { OnOk result (out.new.items
        ≡ out.old.items ++ spec.affected_text sources.now affected.now) }
{
    write_affected_start(alloc, out, sources, affected)?;
    write_bytes(out, b",\"through\":")?;
    write_name(alloc, out, &affected.through)?;
    write_bytes(out, b"}")
}

/// Writes operations that are not served with commas between them.
#[tactic(auto, unfolding(crate::specs::Texts::operations_text))]
pub fn write_operations(
    alloc: Global,
    out: &mut Vec<u8>,
    sources: &[Source],
    operations: &[&Affected],
) -> Result<(), AllocError>
    ensures { OnOk result (out.new.items
        ≡ out.old.items ++ spec.operations_text sources.now (map (λ a. a.now) operations.now)) }
{
    let Some((first, others)) = operations.split_first() else {
        return Ok(());
    };
    write_affected(alloc, out, sources, first)?;
    for affected in others {
        write_bytes(out, b",")?;
        write_affected(alloc, out, sources, affected)?;
    }
    Ok(())
}
