//! The rough order, which is quick to compare and mostly that of reports.
//!
//! No clause depends on it: a sort by it leaves a list that the sort by the order of reports has
//! little to do with.

use gql_ast::{Fault, FilePlace, Same};

/// What the rough order goes by: the stretch of faults in one file, and within it the offset of the
/// first place, the rule and the offset of the second place.
#[derive(Clone, Copy, PartialEq, Eq, PartialOrd, Ord)]
pub struct Rough {
    pub stretch: usize,
    first: usize,
    rule: u8,
    second: usize,
}

/// The offset of the place at an index, or 0 if there is none.
fn offset_at(fault: &Fault, index: usize) -> usize {
    match fault.places.get(index) {
        Some(place) => place.place.offset,
        None => 0,
    }
}

fn is_in_file(place: Option<&FilePlace>, other: Option<&FilePlace>) -> bool {
    match (place, other) {
        (Some(place), Some(other)) => place.side == other.side && place.file.same(&other.file),
        (None, None) => true,
        _ => false,
    }
}

/// Whether the first places of two faults are in one file.
pub fn is_beside(fault: &Fault, other: &Fault) -> bool {
    is_in_file(fault.places.get(0), other.places.get(0))
}

/// What the rough order goes by for a fault of this stretch.
pub fn rough_of(fault: &Fault, stretch: usize) -> Rough {
    Rough {
        stretch,
        first: offset_at(fault, 0),
        rule: fault.rule as u8,
        second: offset_at(fault, 1),
    }
}
