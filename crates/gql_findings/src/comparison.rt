//! Two checks, compared.

ghost use Rattle.std.specs.Prelude.{◌≡◌, filter, IfOk};
ghost use Rattle.gql_findings.specs.Comparing as spec;

use crate::finding::Findings;
use crate::hiding::hides_documents;
use crate::marks::fault_keys;
use crate::pairing::unpaired;
use crate::served::newly_affected;
use gql_ast::Rule;
use std::alloc::{AllocError, Global};

/// What a change does: the faults that it brings, and the operations that it breaks, by their
/// places in the lists of now; the faults that it mends, and the operations that it heals, by their
/// places in the lists of the base; and whether the documents of now are hidden.
///
/// A fault of now is brought unless the base is known to have it. Where the schema of the base has
/// faults, its documents were not checked, so that each fault of a document is brought. A fault of
/// the base is mended if it is known to be gone: while the schema of now has faults, that is not
/// known of faults of documents. While either schema has faults, no operation is broken or healed.
///
/// The documents of now are hidden if its schema has faults, so that they are not checked, and its
/// schema files are not those of the base: what the change does to them is not known.
#[derive(Debug, Drop)]
pub struct Comparison {
    pub brought: Vec<usize>,
    pub mended: Vec<usize>,
    pub broken: Vec<usize>,
    pub healed: Vec<usize>,
    pub hidden: bool,
}

/// Whether the rule is one on the schema.
pub fn is_of_schema(rule: Rule) -> bool
    ensures { result ≡ spec.is_of_schema rule }
{
    let name = rule.name();
    name.starts_with("S") || name == "P01" || name == "P02"
}

/// Whether it is known of a fault of the base if it is there still.
fn is_known(now: &Findings, base: &Findings, place: usize) -> bool
    ensures { result ≡ spec.is_known now.now base.now place }
{
    if !now.schema_is_faulty {
        return true;
    }
    match base.findings.get(place) {
        Some(finding) => is_of_schema(finding.rule),
        None => false,
    }
}

/// Those of the faults of the base of which it is known if they are there still.
fn known(
    alloc: Global,
    now: &Findings,
    base: &Findings,
    places: &[usize],
) -> Result<Vec<usize>, AllocError>
    ensures { IfOk result (λ known. known.items
        ≡ filter (spec.is_known now.now base.now) places.now) }
{
    let mut known = Vec::new(alloc);
    for place in places {
        if is_known(now, base, *place) {
            known.push(*place)?;
        }
    }
    Ok(known)
}

/// Compares two checks: what a change from the base to now does.
pub fn compare<'f>(
    alloc: Global,
    now: &'f Findings,
    base: &'f Findings,
) -> Result<Comparison, AllocError>
    ensures brought { IfOk result (λ c. c.brought.items ≡ spec.brought now.now base.now) }
    ensures mended { IfOk result (λ c. c.mended.items ≡ spec.mended now.now base.now) }
    ensures broken { IfOk result (λ c. c.broken.items ≡ spec.broken now.now base.now) }
    ensures healed { IfOk result (λ c. c.healed.items ≡ spec.healed now.now base.now) }
    ensures hidden { IfOk result (λ c. c.hidden ≡ spec.hidden now.now base.now) }
{
    let faults = fault_keys(alloc, now)?;
    let others = fault_keys(alloc, base)?;
    let brought = unpaired(alloc, faults.as_slice(), others.as_slice())?;
    let gone = unpaired(alloc, others.as_slice(), faults.as_slice())?;
    let mended = known(alloc, now, base, gone.as_slice())?;
    let broken = newly_affected(alloc, now, base)?;
    let healed = newly_affected(alloc, base, now)?;
    let hidden = hides_documents(alloc, now, base)?;
    Ok(Comparison {
        brought,
        mended,
        broken,
        healed,
        hidden,
    })
}
