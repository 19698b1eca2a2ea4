//! What a code scanner knows a fault by, wherever its lines move.

ghost use Rattle.std.specs.Prelude.{◌≡◌, ◌++◌, IfOk, OnOk, string_bytes};
ghost use Rattle.gql_findings.specs.Keys.{mark_of};
ghost use Rattle.gql_findings.specs.Marks.{fault_mark};
ghost use Rattle.gql_render.specs.Fingerprints as spec;

use crate::json_write::{write_bytes, write_number};
use gql_findings::{Finding, Key, Source, fault_key};
use sha2::{Digest, Sha256};
use std::alloc::{AllocError, Global};

/// Writes a text with its length before it.
#[tactic(auto, unfolding(crate::specs::Fingerprints::part_text))]
fn write_part(out: &mut Vec<u8>, text: &[u8]) -> Result<(), AllocError>
    ensures { OnOk result (out.new.items
        ≡ out.old.items ++ spec.part_text text.now) }
{
    write_number(out, text.len())?;
    write_bytes(out, b":")?;
    write_bytes(out, text)
}

/// Writes all parts of what a fault is known by.
#[tactic(auto, unfolding(crate::specs::Fingerprints::mark_text))]
fn write_mark(out: &mut Vec<u8>, key: &Key<'_>) -> Result<(), AllocError>
    ensures { OnOk result (out.new.items
        ≡ out.old.items ++ spec.mark_text (mark_of key.entry.now)) }
{
    write_number(out, usize::from(key.kind))?;
    write_part(out, key.rule.as_bytes())?;
    write_part(out, key.about.as_bytes())?;
    write_part(out, key.first)?;
    write_part(out, key.second)?;
    write_part(out, key.owner.as_bytes())
}

/// The fingerprint of a fault: the SHA-256 of what it is known by, in hexadecimal digits.
pub fn fingerprint(
    alloc: Global,
    sources: &[Source],
    finding: &Finding,
) -> Result<String, AllocError>
    ensures { IfOk result (λ digits. string_bytes digits
        ≡ spec.fingerprint (fault_mark sources.now finding.now)) }
{
    let key = fault_key(sources, finding);
    let mut text = Vec::new(alloc);
    write_mark(&mut text, &key)?;
    hex::encode(alloc, Sha256::digest(text.as_slice()))
}
