//! Which lines of a file have faults, and which are near them.

use gql_findings::Finding;
use std::alloc::{AllocError, Global};

/// Lists of faults, by a number.
pub type Buckets<'f> = Vec<Vec<&'f Finding>>;

/// How many lines before and after a fault are shown.
const NEAR: usize = 2;

/// As many empty lists.
fn empty_buckets<'f>(alloc: Global, count: usize) -> Result<Buckets<'f>, AllocError> {
    let mut buckets = Vec::new(alloc);
    for _bucket in 0..count {
        buckets.push(Vec::new(alloc))?;
    }
    Ok(buckets)
}

/// Adds a fault to the list of a number; nothing where there is none.
fn add_fault<'f>(
    buckets: &mut Buckets<'f>,
    number: usize,
    fault: &'f Finding,
) -> Result<(), AllocError> {
    if let Some(bucket) = buckets.get_mut(number) {
        bucket.push(fault)?;
    }
    Ok(())
}

/// The faults of each source, by their first places.
pub fn faults_by_source<'f>(
    alloc: Global,
    count: usize,
    faults: &[&'f Finding],
) -> Result<Buckets<'f>, AllocError> {
    let mut buckets = empty_buckets(alloc, count)?;
    for fault in faults {
        if let Some(spot) = fault.spots.first() {
            add_fault(&mut buckets, spot.source, fault)?;
        }
    }
    Ok(buckets)
}

/// The faults of each line of a source, by their first places. A place past the end is put at the
/// first line.
pub fn faults_by_line<'f>(
    alloc: Global,
    count: usize,
    faults: &[&'f Finding],
) -> Result<Buckets<'f>, AllocError> {
    let mut buckets = empty_buckets(alloc, count.saturating_add(1))?;
    for fault in faults {
        if let Some(spot) = fault.spots.first() {
            let line = if spot.line <= count { spot.line } else { 1 };
            add_fault(&mut buckets, line, fault)?;
        }
    }
    Ok(buckets)
}

/// Lines that follow each other, and whether they are folded.
#[derive(Clone, Copy)]
pub struct Piece {
    pub first: usize,
    pub last: usize,
    pub is_folded: bool,
}

/// How many lines each line is from the next one at or before it that has a fault, at most one more
/// than is near.
fn distances(alloc: Global, buckets: &Buckets<'_>) -> Result<Vec<usize>, AllocError> {
    let mut distances = Vec::new(alloc);
    let mut distance = NEAR + 1;
    for bucket in buckets.as_slice() {
        distance = if !bucket.is_empty() {
            0
        } else if distance <= NEAR {
            distance + 1
        } else {
            distance
        };
        distances.push(distance)?;
    }
    Ok(distances)
}

/// Whether a line of this number has a fault near it.
fn is_near(distances: &[usize], line: usize) -> bool {
    let ahead = if line < distances.len() && distances.len() - line > NEAR {
        line + NEAR
    } else {
        distances.len().saturating_sub(1)
    };
    let before = distances.get(line).copied().unwrap_or(NEAR + 1);
    let after = distances.get(ahead).copied().unwrap_or(NEAR + 1);
    before <= NEAR || after <= NEAR
}

/// The pieces of a source: lines near faults, and between them folded lines.
pub fn pieces(alloc: Global, buckets: &Buckets<'_>) -> Result<Vec<Piece>, AllocError> {
    let distances = distances(alloc, buckets)?;
    let mut pieces: Vec<Piece> = Vec::new(alloc);
    for line in 1..buckets.len() {
        let is_folded = !is_near(distances.as_slice(), line);
        let mut is_added = false;
        if let Some(piece) = pieces.last_mut() {
            if piece.is_folded == is_folded {
                piece.last = line;
                is_added = true;
            }
        }
        if !is_added {
            pieces.push(Piece {
                first: line,
                last: line,
                is_folded,
            })?;
        }
    }
    Ok(pieces)
}
