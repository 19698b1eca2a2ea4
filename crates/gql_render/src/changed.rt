//! Where schema files differ from those of the base.

ghost use Rattle.std.specs.Prelude.{ℕ, ◌≡◌, ◌≢◌, ◌+◌, ◌<◌, MatchOption};
ghost use Rattle.gql_findings.specs.Sources.{line_at};

use crate::check::{Against, Check};
use gql_findings::Source;
use std::alloc::{AllocError, Global};

/// A schema file that differs from the base's: its place in the list of sources, and the first line
/// that differs, counted from 1.
#[derive(Clone, Copy)]
pub struct Changed {
    pub source: usize,
    pub line: usize,
}

/// Whether the line of this number differs.
fn differs_at(now: &Source, before: &Source, line: usize) -> bool {
    now.line(line) != before.line(line)
}

/// The first line that differs, counted from 1. A line that one of the files does not have is as an
/// empty one.
fn first_difference(now: &Source, before: &Source) -> Option<usize> {
    let count = now.line_count().max(before.line_count());
    for index in 0..count {
        if differs_at(now, before, index + 1) {
            return Some(index + 1);
        }
    }
    None
}

/// The file of this path, if there is one.
fn find<'f>(sources: &'f [Source], path: &str) -> Option<&'f Source> {
    sources.iter().find(|source| source.path() == path)
}

/// Where a file differs from that of its path in the base, if it is a schema file that does. Where
/// only lines after its last one are gone, that is its last one.
fn change_of(now: &Source, before: &[Source]) -> Option<usize> {
    if !now.path().starts_with("schema/") {
        return None;
    }
    let before = find(before, now.path())?;
    let line = first_difference(now, before)?;
    Some(line.min(now.line_count()))
}

/// Whether the change brings faults or breaks operations.
fn does_harm(base: &Against<'_>) -> bool {
    !base.comparison.brought.is_empty() || !base.comparison.broken.is_empty()
}

/// Where schema files differ from those of the same paths in the base, in the order of the files.
/// There are none without a base, nor where the change brings no fault and breaks no operation.
pub fn changed_files(alloc: Global, check: &Check<'_>) -> Result<Vec<Changed>, AllocError> {
    let mut changed = Vec::new(alloc);
    let Some(base) = &check.base else {
        return Ok(changed);
    };
    if !does_harm(base) {
        return Ok(changed);
    }
    let before = base.findings.sources.as_slice();
    for (source, now) in check.now.sources.as_slice().iter().enumerate() {
        if let Some(line) = change_of(now, before) {
            changed.push(Changed { source, line })?;
        }
    }
    Ok(changed)
}
