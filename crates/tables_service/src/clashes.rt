//! What clashes between two fragments, as the table writes it.
use crate::faults::written_place;
use gql_clashes::Mode;
use gql_merge::BadPair;
use gql_pairs::{PairBad, PairTable};
use std::alloc::{AllocError, Global};
use table_rows::join;

/// How two fields are compared: by all, or by the shapes of their types alone.
fn written_mode(bad: &BadPair) -> &'static str {
    match bad.mode {
        Mode::Merge => "merge",
        Mode::Shape => "shape",
    }
}

/// In what two fields differ: what they call (V05), the shapes of their types (V06), or both.
fn written_difference(bad: &BadPair) -> &'static str {
    match (bad.by_call, bad.by_shape) {
        (true, true) => "V05 V06",
        (true, false) => "V05",
        (false, true) => "V06",
        (false, false) => "alike",
    }
}

/// Two fields that clash, as `MODE RULES NAME at PLACE, PLACE`.
fn written_bad(alloc: Global, bad: &BadPair) -> Result<String, AllocError> {
    let (mode, difference) = (written_mode(bad), written_difference(bad));
    let about = bad.about.as_str();
    let first = written_place(alloc, &bad.first)?;
    let first = first.as_str();
    let second = written_place(alloc, &bad.second)?;
    let second = second.as_str();
    format!(in alloc; "{mode} {difference} {about} at {first}, {second}")
}

/// The fields that clash, each two once, in the order of their texts.
fn written_clashes(alloc: Global, kept: &PairBad) -> Result<Vec<String>, AllocError> {
    let mut clashes = Vec::new(alloc);
    for bad in kept.bad() {
        clashes.push(written_bad(alloc, bad)?)?;
    }
    clashes.sort()?;
    clashes.dedup();
    Ok(clashes)
}

/// What is kept of two fragments: the fields that clash, or `nothing clashes`.
fn written_kept(alloc: Global, kept: &PairBad) -> Result<String, AllocError> {
    let mut written = String::new(alloc);
    for clash in written_clashes(alloc, kept)? {
        join(&mut written, "; ", clash.as_str())?;
    }
    if written.is_empty() {
        written.push_str("nothing clashes")?;
    }
    Ok(written)
}

/// What a table keeps of the fragments of these two names: the fields that clash, `nothing clashes`,
/// or `no entry`. Whether there is an entry is asked in both orders of the names.
pub fn written_pair(
    alloc: Global,
    table: &PairTable,
    first: &str,
    second: &str,
) -> Result<String, AllocError> {
    let kept = table.get(alloc, first, second)?;
    if table.has(first, second) != kept.is_some() || table.has(second, first) != kept.is_some() {
        return String::from_str(alloc, "an entry in one order alone");
    }
    match &kept {
        Some(kept) => written_kept(alloc, kept),
        None => String::from_str(alloc, "no entry"),
    }
}
