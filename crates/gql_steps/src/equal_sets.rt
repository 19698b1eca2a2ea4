//! Selection sets that are equal, places included.
ghost use Rattle.std.specs.Prelude.{◌≡◌, IsTrue};
ghost use Rattle.gql_collect.specs.Borrowed.{all_selections, selections_of};

use gql_ast::{Selection, same_items};
use gql_collect::SelectionSet;

/// An odd number, by which keys are multiplied.
const FACTOR: usize = 0x9E37_79B9_7F4A_7C15;

/// The offset at which a selection starts.
fn start_of(selection: &Selection) -> usize {
    match selection {
        Selection::Field(field) => match &field.alias {
            Some(alias) => alias.place.offset,
            None => field.name.place.offset,
        },
        Selection::Spread(spread) => spread.place.offset,
        Selection::InlineFragment(fragment) => fragment.place.offset,
    }
}

/// The offset at which the first selection of a set starts; 0 for an empty set.
fn start(set: &SelectionSet<'_>) -> usize {
    match set.selections.first() {
        Some(selection) => start_of(selection),
        None => 0,
    }
}

/// A key, with one more number in it.
fn mixed(key: usize, number: usize) -> usize {
    (key ^ number).wrapping_mul(FACTOR)
}

/// A key, with a text in it.
fn mixed_text(key: usize, text: &str) -> usize {
    let mut key = key;
    for byte in text.as_bytes() {
        key = mixed(key, usize::from(*byte));
    }
    key
}

/// A key for selection sets and a type: where the sets are, and the name of the type. It only says
/// where to look; whether sets are equal is for `are_equal_sets`.
pub fn key_of(of_type: &str, sets: &[SelectionSet<'_>]) -> usize {
    let mut key = mixed_text(sets.len(), of_type);
    for set in sets {
        key = mixed(mixed_text(key, set.file.as_str()), start(set));
    }
    key
}

/// Whether two selection sets start at the same offset, and are of the same length.
fn is_alike(set: &SelectionSet<'_>, other: &SelectionSet<'_>) -> bool {
    start(set) == start(other) && set.selections.len() == other.selections.len()
}

/// Whether these selection sets are as many, and start at the same offsets. Nothing rests on it: it
/// only saves comparisons of sets that differ.
pub fn are_alike(sets: &[SelectionSet<'_>], others: &[SelectionSet<'_>]) -> bool {
    if sets.len() != others.len() {
        return false;
    }
    for i in 0..sets.len() {
        if !is_alike(&sets[i], &others[i]) {
            return false;
        }
    }
    true
}

/// Whether two selection sets are equal, and in files of one name.
fn is_equal_set(set: &SelectionSet<'_>, other: &SelectionSet<'_>) -> bool
    ensures { IsTrue result → selections_of set.now ≡ selections_of other.now }
{
    set.file.as_str() == other.file.as_str() && same_items(set.selections, other.selections)
}

/// Whether these selection sets are equal, one by one.
pub fn are_equal_sets(sets: &[SelectionSet<'_>], others: &[SelectionSet<'_>]) -> bool
    ensures { IsTrue result → all_selections sets.now ≡ all_selections others.now }
{
    if sets.len() != others.len() {
        return false;
    }
    for i in 0..sets.len() {
        if !is_equal_set(&sets[i], &others[i]) {
            return false;
        }
    }
    true
}
