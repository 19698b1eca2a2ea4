//! Where values are completed.

use crate::kinds::ValueKind;
use crate::table::Slot;
use gql_text::Place;

/// The field of the table whose value is completed, where its first node starts, and what the
/// values of its type's name are.
#[derive(Clone, Copy)]
pub struct Site {
    pub slot: Slot,
    pub place: Place,
    pub kind: ValueKind,
}
