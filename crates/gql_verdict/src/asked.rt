//! Whether a verdict observes a key, by the index.
ghost use Rattle.std.specs.Prelude.{◌≡◌, ◌↔◌, Contains, IfSome, IsTrue};
ghost use Rattle.std.specs.Option.{option_copied};
ghost use Rattle.gql_reads.specs.Leading.{IsLed};
ghost use Rattle.gql_reads.specs.Observations.{keys_of, observed};
ghost use Rattle.gql_readers.specs.Indexes.{AreEntriesInOrder, Reading as AReading};
ghost use Rattle.gql_verdict.specs.Marks as spec;
ghost use Rattle.gql_verdict.specs.Marks.{IsShelved, IsSomeAsked};
ghost use Rattle.gql_verdict.specs.Slots.{verdicts};
ghost use Rattle.gql_verdict.specs.Verdicts.{Judgement};

use crate::slot::Slot;
use gql_ast::Shared;
use gql_facts::Key;
use gql_readers::{Entry, Index};
use gql_reads::{Answer, observes};

/// Whether an entry that has readers observed a key.
fn is_asked(entry: &Entry, key: &Key) -> bool
    ensures { IsTrue result ↔ IsSomeAsked entry.now key.now }
{
    if entry.readers().is_empty() {
        return false;
    }
    observes(entry.answer().get(), key)
}

/// Whether one of these entries that has readers observed a key.
fn is_one_asked(entries: &[Shared<Entry>], key: &Key) -> bool
    ensures { IsTrue result
        ↔ ((e : AReading) × Contains entries.now e × IsSomeAsked e key.now) }
{
    for entry in entries {
        if is_asked(entry.get(), key) {
            return true;
        }
    }
    false
}

/// Whether nodes read a key.
fn is_asked_itself(index: &Index, key: &Key) -> bool
    requires { AreEntriesInOrder index.now }
    ensures { IsTrue result ↔ ((e : AReading) × Contains index.now e × (e.key ≡ key.now)
        × IsSomeAsked e key.now) }
{
    match index.find(key) {
        Some(entry) => is_asked(entry, key),
        None => false,
    }
}

/// The answer that the readers of a key had, if there are readers: with exactly the types that it
/// leads to, as theirs. This is the index of the slots.
pub fn kept_answer<'i>(slots: &[Slot], index: &'i Index, key: &Key) -> Option<&'i Shared<Answer>>
    requires { IsShelved slots.now index.now }
    ensures { IfSome (option_copied result) (λ a. IsLed a) }
{
    match index.find(key) {
        Some(entry) => {
            if entry.readers().is_empty() {
                return None;
            }
            Some(entry.answer())
        }
        None => None,
    }
}

/// Whether a key is about a type, so that answers to other keys may lead to it.
fn is_about_type(key: &Key) -> bool
    ensures { result ≡ spec.is_about_type key.now }
{
    match key {
        Key::KindOf(_) | Key::PossibleOf(_) | Key::InputOf(_) | Key::EnumOf(_) => true,
        _ => false,
    }
}

/// Whether the verdict in one of these slots observes a key. This is the index of the slots.
pub fn has_reader_in(slots: &[Slot], index: &Index, key: &Key) -> bool
    requires { IsShelved slots.now index.now }
    ensures { IsTrue result ↔ ((v : Judgement) × Contains (verdicts slots.now) v
        × Contains (keys_of v.observations) key.now) }
{
    if is_asked_itself(index, key) {
        return true;
    }
    if !is_about_type(key) {
        return false;
    }
    is_one_asked(index.entries(), key)
}
