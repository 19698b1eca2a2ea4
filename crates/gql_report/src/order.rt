//! The order of faults in a report.

ghost use Rattle.std.specs.Prelude.{◌≡◌, take, drop};
ghost use Rattle.std.specs.Option.{option_cmp};
ghost use Rattle.std.specs.Cmp.Lexicographic.{slice_cmp};
ghost use Rattle.gql_report.specs.Order as spec;
ghost use Rattle.gql_report.specs.OrderParts as parts;

use gql_ast::{Fault, FilePlace, FileSide};
use std::cmp::Ordering;

fn side_number(side: FileSide) -> u8
    ensures { result ≡ spec.side_number side }
{
    match side {
        FileSide::Schema => 0,
        FileSide::Documents => 1,
    }
}

/// The order within a file.
fn spot_cmp(place: &FilePlace, other: &FilePlace) -> Ordering
    ensures { result ≡ parts.spot_order place.now other.now }
{
    let offsets = place.place.offset.cmp(&other.place.offset);
    let lines = place.place.line.cmp(&other.place.line);
    let columns = place.place.column.cmp(&other.place.column);
    offsets.then(lines.then(columns))
}

/// The order of two places: schema files before documents, then by file and offset.
pub fn place_cmp(place: &FilePlace, other: &FilePlace) -> Ordering
    ensures { result ≡ spec.place_order place.now other.now }
{
    match side_number(place.side).cmp(&side_number(other.side)) {
        Ordering::Equal => match place.file.cmp(&other.file) {
            Ordering::Equal => spot_cmp(place, other),
            files => files,
        },
        sides => sides,
    }
}

fn places_cmp(places: &[FilePlace], others: &[FilePlace]) -> Ordering
    ensures { result ≡ slice_cmp spec.place_order places.now others.now }
{
    match (places.split_first(), others.split_first()) {
        (Some((place, places)), Some((other, others))) => match place_cmp(place, other) {
            Ordering::Equal => places_cmp(places, others),
            first => first,
        },
        (Some(_), None) => Ordering::Greater,
        (None, Some(_)) => Ordering::Less,
        (None, None) => Ordering::Equal,
    }
}

fn owner_cmp(owner: &Option<FilePlace>, other: &Option<FilePlace>) -> Ordering
    ensures { result ≡ option_cmp spec.place_order owner.now other.now }
{
    match owner {
        Some(owner) => match other {
            Some(other) => place_cmp(owner, other),
            None => Ordering::Greater,
        },
        None => match other {
            Some(_) => Ordering::Less,
            None => Ordering::Equal,
        },
    }
}

fn first_and_rest(places: &[FilePlace]) -> (&[FilePlace], &[FilePlace])
    ensures first { result.0.now ≡ take 1 places.now }
    ensures rest { result.1.now ≡ drop 1 places.now }
{
    if places.is_empty() {
        (places, places)
    } else {
        places.split_at(1)
    }
}

/// The order of two faults of one first place and one rule, by their later places, owners and
/// texts.
fn later_cmp(fault: &Fault, other: &Fault) -> Ordering
    ensures { result ≡ parts.later_order fault.now other.now }
{
    let (_, places) = first_and_rest(fault.places.as_slice());
    let (_, others) = first_and_rest(other.places.as_slice());
    match places_cmp(places, others) {
        Ordering::Equal => match owner_cmp(&fault.owner, &other.owner) {
            Ordering::Equal => fault.about.cmp(&other.about),
            owners => owners,
        },
        places => places,
    }
}

/// The order of two faults in a report. What comes later in the order is compared only where all
/// before it is equal.
pub fn fault_cmp(fault: &Fault, other: &Fault) -> Ordering
    ensures { result ≡ spec.fault_order fault.now other.now }
{
    let (first, _) = first_and_rest(fault.places.as_slice());
    let (other_first, _) = first_and_rest(other.places.as_slice());
    match places_cmp(first, other_first) {
        Ordering::Equal => match fault.rule.name().cmp(other.rule.name()) {
            Ordering::Equal => later_cmp(fault, other),
            rules => rules,
        },
        firsts => firsts,
    }
}
