//! The index of the verdicts that a shelf will have.
ghost use Rattle.std.specs.Prelude.{◌≡◌, ◌≤◌, ◌+◌, ◌++◌, ◌∷◌, [], List, IfOk, IfSome, OnOk, map, length, take};
ghost use Rattle.gql_ast.specs.Trees.{id_of};
ghost use Rattle.gql_readers.specs.Changes.{AreNotesBetween, IsNew};
ghost use Rattle.gql_readers.specs.Indexes.{IsIndexOf};
ghost use Rattle.gql_readers.specs.Readers.{InReadingOrder, Reader};
ghost use Rattle.gql_verdict.specs.Marks.{AreKept, AreNew, AreSteps, IsReplacedAt, IsShelved, gone};
ghost use Rattle.gql_verdict.specs.Readings.{reader_of, readers};
ghost use Rattle.gql_verdict.specs.Slots.{IsInOrder, resolve, verdicts};
ghost use Rattle.gql_verdict.specs.declared.slot.Slot.{Slot as ASlot};

use crate::marks::no_marks;
use crate::slot::{Slot, find_near};
use crate::verdict::Verdict;
use gql_ast::{Definition, Shared};
use gql_readers::{Changes, Index};
use std::alloc::{AllocError, Global};

/// Marks the kept verdict that a step refers to.
fn keep(step: &Slot, marks: &mut [bool])
    ensures long { length marks.new ≡ length marks.old }
    ensures kept { (steps : List ASlot) → AreKept steps (length marks.old) marks.old
        → AreKept (steps ++ step.now ∷ []) (length marks.old) marks.new }
{
    if let Slot::At(j) = step {
        if *j < marks.len() {
            marks[*j] = true;
        }
    }
}

/// Marks the kept verdicts that steps refer to.
fn keep_all(steps: &[Slot], marks: &mut [bool])
    ensures { AreKept [] (length marks.old) marks.old
        → AreKept steps.now (length marks.old) marks.new }
{
    for step in steps {
        keep(step, marks);
    }
}

/// Marks of the kept verdicts that steps refer to.
fn kept_marks(alloc: Global, steps: &[Slot], count: usize) -> Result<Vec<bool>, AllocError>
    ensures { IfOk result (λ marks. AreKept steps.now count marks.items) }
{
    let mut marks = no_marks(alloc, count)?;
    keep_all(steps, &mut marks);
    Ok(marks)
}

/// Notes that a verdict goes, if it does not stay.
fn add_gone(
    alloc: Global,
    slot: &Slot,
    stays: bool,
    changes: &mut Changes,
) -> Result<(), AllocError>
    ensures { OnOk result ((old new : List Reader) → AreNotesBetween changes.old old new
        → AreNew (gone (slot.now ∷ []) (stays ∷ [])) old
        → AreNotesBetween changes.new
        (old ++ readers (gone (slot.now ∷ []) (stays ∷ []))) new) }
{
    if stays {
        return Ok(());
    }
    if let Slot::Here(verdict) = slot {
        let own = verdict.def().id()?;
        let id = Shared::new(alloc, own)?;
        changes.go(alloc, &id, verdict.reading())?;
    }
    Ok(())
}

/// Notes that the verdicts go which do not stay, of those from one index to another.
fn add_gone_to(
    alloc: Global,
    slots: &[Slot],
    stay: &[bool],
    at: usize,
    to: usize,
    changes: &mut Changes,
) -> Result<(), AllocError>
    requires long { length stay.now ≡ length slots.now }
    requires at { at ≤ to }
    requires to { to ≤ length slots.now }
    ensures { OnOk result ((new : List Reader)
        → InReadingOrder (readers (gone slots.now stay.now))
        → AreNotesBetween changes.old (readers (gone (take at slots.now) (take at stay.now))) new
        → AreNotesBetween changes.new
        (readers (gone (take to slots.now) (take to stay.now))) new) }
{
    for i in at..to {
        add_gone(alloc, &slots[i], stay[i], changes)?;
    }
    Ok(())
}

/// Notes that a new verdict comes in place of one on the same definition.
fn add_replaced(
    alloc: Global,
    before: &Verdict,
    after: &Verdict,
    changes: &mut Changes,
) -> Result<(), AllocError>
    requires { id_of before.now.def ≡ id_of after.now.def }
    ensures { OnOk result ((old new : List Reader) → AreNotesBetween changes.old old new
        → IsNew (id_of after.now.def) old → IsNew (id_of after.now.def) new
        → AreNotesBetween changes.new
        (old ++ reader_of before.now ∷ []) (new ++ reader_of after.now ∷ [])) }
{
    let own = after.def().id()?;
    let id = Shared::new(alloc, own)?;
    changes.replace(alloc, &id, before.reading(), after.reading())?;
    Ok(())
}

/// The index of the verdict that a new one replaces: the one on the same definition, if it goes and
/// is not before an index.
fn replaced_at(kept: &[Slot], stay: &[bool], at: usize, definition: &Definition) -> Option<usize>
    requires order { IsInOrder kept.now }
    requires long { length stay.now ≡ length kept.now }
    ensures { IfSome result (IsReplacedAt kept.now stay.now at (id_of definition.now)) }
{
    match find_near(kept, at, definition) {
        Some(found) => {
            if found < at || stay[found] {
                return None;
            }
            Some(found)
        }
        None => None,
    }
}

/// Notes that a new verdict comes in place of the one at an index, and that those before it go
/// which do not stay.
fn add_in_place(
    alloc: Global,
    kept: &[Slot],
    stay: &[bool],
    at: usize,
    place: usize,
    verdict: &Verdict,
    changes: &mut Changes,
) -> Result<(), AllocError>
    requires long { length stay.now ≡ length kept.now }
    requires place { IsReplacedAt kept.now stay.now at (id_of verdict.now.def) place }
    ensures { OnOk result ((new : List Reader)
        → InReadingOrder (readers (gone kept.now stay.now)) → IsNew (id_of verdict.now.def) new
        → AreNotesBetween changes.old (readers (gone (take at kept.now) (take at stay.now))) new
        → AreNotesBetween changes.new
        (readers (gone (take (place + 1) kept.now) (take (place + 1) stay.now)))
        (new ++ reader_of verdict.now ∷ [])) }
{
    add_gone_to(alloc, kept, stay, at, place, changes)?;
    if let Slot::Here(before) = &kept[place] {
        add_replaced(alloc, before, verdict, changes)?;
    }
    Ok(())
}

/// Notes that a new verdict comes, in place of a kept one on the same definition if that is after
/// an index. It returns the index after the kept verdicts of which it was noted whether they go.
fn add_verdict(
    alloc: Global,
    kept: &[Slot],
    stay: &[bool],
    at: usize,
    verdict: &Verdict,
    changes: &mut Changes,
) -> Result<usize, AllocError>
    requires order { IsInOrder kept.now }
    requires long { length stay.now ≡ length kept.now }
    requires at { at ≤ length kept.now }
    ensures within { IfOk result (λ to. to ≤ length kept.now) }
    ensures notes { IfOk result (λ to. (new : List Reader)
        → InReadingOrder (readers (gone kept.now stay.now)) → IsNew (id_of verdict.now.def) new
        → AreNotesBetween changes.old (readers (gone (take at kept.now) (take at stay.now))) new
        → AreNotesBetween changes.new (readers (gone (take to kept.now) (take to stay.now)))
        (new ++ reader_of verdict.now ∷ [])) }
{
    if let Some(place) = replaced_at(kept, stay, at, verdict.def()) {
        add_in_place(alloc, kept, stay, at, place, verdict, changes)?;
        return Ok(place + 1);
    }
    let own = verdict.def().id()?;
    let id = Shared::new(alloc, own)?;
    changes.come(alloc, &id, verdict.reading())?;
    Ok(at)
}

/// Notes what a step changes: a new verdict comes. It returns the index after the kept verdicts of
/// which it was noted whether they go.
fn add_step(
    alloc: Global,
    kept: &[Slot],
    stay: &[bool],
    at: usize,
    step: &Slot,
    changes: &mut Changes,
) -> Result<usize, AllocError>
    requires order { IsInOrder kept.now }
    requires long { length stay.now ≡ length kept.now }
    requires at { at ≤ length kept.now }
    ensures within { IfOk result (λ to. to ≤ length kept.now) }
    ensures notes { IfOk result (λ to. (new : List Reader)
        → InReadingOrder (readers (gone kept.now stay.now))
        → AreNew (verdicts (step.now ∷ [])) new
        → AreNotesBetween changes.old (readers (gone (take at kept.now) (take at stay.now))) new
        → AreNotesBetween changes.new (readers (gone (take to kept.now) (take to stay.now)))
        (new ++ readers (verdicts (step.now ∷ [])))) }
{
    if let Slot::Here(verdict) = step {
        let to = add_verdict(alloc, kept, stay, at, verdict, changes)?;
        return Ok(to);
    }
    Ok(at)
}

/// Notes that all new verdicts come, and that those go which do not stay. Both lists are in file
/// order, and so are the notes.
fn add_all(
    alloc: Global,
    kept: &[Slot],
    stay: &[bool],
    steps: &[Slot],
    changes: &mut Changes,
) -> Result<(), AllocError>
    requires order { IsInOrder kept.now }
    requires long { length stay.now ≡ length kept.now }
    ensures { OnOk result (InReadingOrder (readers (gone kept.now stay.now))
        → InReadingOrder (readers (verdicts steps.now)) → AreNotesBetween changes.old [] []
        → AreNotesBetween changes.new
        (readers (gone kept.now stay.now)) (readers (verdicts steps.now))) }
{
    let mut at = 0;
    for step in steps {
        let to = add_step(alloc, kept, stay, at, step, changes)?;
        at = to;
    }
    add_gone_to(alloc, kept, stay, at, kept.len(), changes)?;
    Ok(())
}

/// The index of the verdicts that steps lead to, from the index of those that are kept. It shares
/// with that one what it has of all keys but those that verdicts read which come or go; where one
/// comes in place of another on the same definition, of all keys but those whose answers differ.
pub fn index_after(
    alloc: Global,
    index: &Index,
    kept: &[Slot],
    steps: &[Slot],
) -> Result<Index, AllocError>
    requires shelved { IsShelved kept.now index.now }
    requires steps { AreSteps kept.now steps.now }
    ensures { IfOk result (λ after.
        IsIndexOf after (readers (verdicts (map (resolve kept.now) steps.now)))) }
{
    let stay = kept_marks(alloc, steps, kept.len())?;
    let mut changes = Changes::new(alloc);
    add_all(alloc, kept, stay.as_slice(), steps, &mut changes)?;
    let after = index.changed(alloc, changes)?;
    Ok(after)
}
