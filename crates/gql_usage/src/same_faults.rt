//! Faults that another list does not have.
ghost use Rattle.std.specs.Prelude.{◌≡◌, ◌↔◌, Contains, IsTrue};
ghost use Rattle.gql_ast.specs.declared.fault.Fault.{Fault as AFault};

use gql_ast::{Fault, FilePlace, Rule, Same, Shared};

/// Whether two places are the same.
fn is_same_place(place: &FilePlace, other: &FilePlace) -> bool
    ensures { IsTrue result ↔ (place.now ≡ other.now) }
{
    place.side == other.side && place.file.same(&other.file) && place.place.same(&other.place)
}

/// Whether two lists of places are the same.
fn are_same_places(places: &[FilePlace], others: &[FilePlace]) -> bool
    ensures { IsTrue result ↔ (places.now ≡ others.now) }
{
    if places.len() != others.len() {
        return false;
    }
    for i in 0..places.len() {
        if !is_same_place(&places[i], &others[i]) {
            return false;
        }
    }
    true
}

/// Whether both have no owner, or both have the same.
fn is_same_owner(owner: &Option<FilePlace>, other: &Option<FilePlace>) -> bool
    ensures { IsTrue result ↔ (owner.now ≡ other.now) }
{
    match owner {
        None => other.is_none(),
        Some(owner) => match other {
            None => false,
            Some(other) => is_same_place(owner, other),
        },
    }
}

/// Whether two rules are the same.
fn is_same_rule(rule: Rule, other: Rule) -> bool
    ensures { IsTrue result ↔ (rule ≡ other) }
{
    rule == other
}

/// Whether two faults are the same.
fn is_same(fault: &Fault, other: &Fault) -> bool
    ensures { IsTrue result ↔ (fault.now ≡ other.now) }
{
    is_same_rule(fault.rule, other.rule)
        && fault.about.same(&other.about)
        && are_same_places(fault.places.as_slice(), other.places.as_slice())
        && is_same_owner(&fault.owner, &other.owner)
}

/// Whether a fault is one of these.
fn is_among(fault: &Fault, faults: &[Shared<Fault>]) -> bool
    ensures { IsTrue result ↔ Contains faults.now fault.now }
{
    for other in faults {
        if is_same(fault, other.get()) {
            return true;
        }
    }
    false
}

/// Whether one of these faults is not among those before.
pub fn has_new(faults: &[Shared<Fault>], before: &[Shared<Fault>]) -> bool
    ensures { IsTrue result ↔ ((f : AFault) × Contains faults.now f
        × (Contains before.now f → ⊥)) }
{
    for fault in faults {
        if !is_among(fault.get(), before) {
            return true;
        }
    }
    false
}
