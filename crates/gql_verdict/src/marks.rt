//! Which kept verdicts an edit has broken: the readers of each key whose answer has changed.
ghost use Rattle.std.specs.Prelude.{◌≡◌, ◌∷◌, [], ℕ, IfOk, OnOk, Contains, bytes_eq, is_some, length};
ghost use Rattle.std.specs.HashMap as hash;
ghost use Rattle.gql_facts.specs.declared.key.Key.{Key as AKey};
ghost use Rattle.gql_pairs.specs.Doubts.{in_doubt};
ghost use Rattle.gql_readers.specs.Chunks.{joined};
ghost use Rattle.gql_verdict.specs.Marks.{AreBroken, AreDone, AreMarked, AreMarks, IsCompared, IsDoubtCompared, IsFragmentCompared, IsMarked, IsShelved, KeepMarks, OnlyMarks};
ghost use Rattle.gql_verdict.specs.Slots.{IsInOrder};
ghost use Rattle.gql_verdict.specs.TouchedFacts.{touches};
ghost use Rattle.gql_verdict.specs.declared.touched.Touched.{Touched as ATouched};
ghost use Rattle.gql_verdict.specs.declared.touched.Touched.TheVariants.{File};

use crate::slot::{Slot, find};
use crate::spreads::add_name;
use crate::touched::{FileEdit, Touched};
use gql_ast::{DefinitionId, Items, Shared, Text};
use gql_facts::{Key, World};
use gql_pairs::Doubt;
use gql_readers::{Entry, Index, ReaderList};
use gql_reads::answer_holds;
use std::alloc::{AllocError, Global};
use std::collections::HashMap;

/// Marks, none of which is set.
pub fn no_marks(alloc: Global, count: usize) -> Result<Vec<bool>, AllocError>
    ensures long { IfOk result (λ marks. length marks.items ≡ count) }
    ensures unset { IfOk result (λ marks. (j : ℕ) → IsMarked marks.items j → ⊥) }
{
    let mut marks = Vec::new(alloc);
    marks.resize(count, false)?;
    Ok(marks)
}

/// Marks the verdict on a definition.
fn mark(slots: &[Slot], id: &DefinitionId, marks: &mut [bool])
    requires order { IsInOrder slots.now }
    requires long { length marks.old ≡ length slots.now }
    ensures long { length marks.new ≡ length slots.now }
    ensures kept { KeepMarks marks.old marks.new }
    ensures marked { AreMarked slots.now marks.new (id.now ∷ []) }
    ensures only { OnlyMarks slots.now marks.old marks.new (id.now ∷ []) }
{
    if let Some(j) = find(slots, &id.file, id.offset) {
        marks[j] = true;
    }
}

/// Marks the verdicts on some definitions.
fn mark_all(slots: &[Slot], ids: &[Shared<DefinitionId>], marks: &mut [bool])
    requires order { IsInOrder slots.now }
    requires long { length marks.old ≡ length slots.now }
    ensures long { length marks.new ≡ length slots.now }
    ensures kept { KeepMarks marks.old marks.new }
    ensures marked { AreMarked slots.now marks.new ids.now }
    ensures only { OnlyMarks slots.now marks.old marks.new ids.now }
{
    for id in ids {
        mark(slots, id.get(), marks);
    }
}

/// Marks the verdicts on definitions in chunks.
fn mark_chunks(slots: &[Slot], chunks: &[Shared<Items<Shared<DefinitionId>>>], marks: &mut [bool])
    requires order { IsInOrder slots.now }
    requires long { length marks.old ≡ length slots.now }
    ensures long { length marks.new ≡ length slots.now }
    ensures kept { KeepMarks marks.old marks.new }
    ensures marked { AreMarked slots.now marks.new (joined chunks.now) }
    ensures only { OnlyMarks slots.now marks.old marks.new (joined chunks.now) }
{
    for chunk in chunks {
        mark_all(slots, chunk.get().as_slice(), marks);
    }
}

/// Marks the verdicts on the readers of a key.
fn mark_readers(slots: &[Slot], readers: &ReaderList, marks: &mut [bool])
    requires order { IsInOrder slots.now }
    requires long { length marks.old ≡ length slots.now }
    ensures long { length marks.new ≡ length slots.now }
    ensures kept { KeepMarks marks.old marks.new }
    ensures marked { AreMarked slots.now marks.new readers.now }
    ensures only { OnlyMarks slots.now marks.old marks.new readers.now }
{
    mark_chunks(slots, readers.chunks(), marks);
}

/// Compares the answer to a key, with those about the types that it leads to, once for all readers of
/// the key: if one has changed, they are marked.
fn compare<W: World>(
    alloc: Global,
    world: &mut W,
    slots: &[Slot],
    index: &Index,
    entry: &Entry,
    marks: &mut [bool],
) -> Result<(), AllocError>
    requires shelved { IsShelved slots.now index.now }
    requires entry { Contains index.now entry.now }
    requires broken { AreBroken (W.facts world.old) slots.now marks.old }
    ensures facts { W.facts world.new ≡ W.facts world.old }
    ensures names { W.names world.new ≡ W.names world.old }
    ensures lent { W.lent world.new ≡ W.lent world.old }
    ensures broken { AreBroken (W.facts world.old) slots.now marks.new }
    ensures kept { KeepMarks marks.old marks.new }
    ensures compared { OnOk result (IsCompared (W.facts world.old) slots.now marks.new entry.now) }
{
    let holds = answer_holds(alloc, world, entry.answer().get())?;
    if !holds {
        mark_readers(slots, entry.readers(), marks);
    }
    Ok(())
}

/// Compares the answer to a key as `compare` does, if it is in doubt or one about a type that it leads
/// to is.
fn compare_doubted<W: World>(
    alloc: Global,
    world: &mut W,
    slots: &[Slot],
    index: &Index,
    entry: &Entry,
    doubt: &Doubt,
    marks: &mut [bool],
) -> Result<(), AllocError>
    requires shelved { IsShelved slots.now index.now }
    requires entry { Contains index.now entry.now }
    requires broken { AreBroken (W.facts world.old) slots.now marks.old }
    ensures facts { W.facts world.new ≡ W.facts world.old }
    ensures names { W.names world.new ≡ W.names world.old }
    ensures lent { W.lent world.new ≡ W.lent world.old }
    ensures broken { AreBroken (W.facts world.old) slots.now marks.new }
    ensures kept { KeepMarks marks.old marks.new }
    ensures compared { OnOk result (IsDoubtCompared (W.facts world.old) doubt.now slots.now
        marks.new entry.now) }
{
    if !doubt.is_of_answer(entry.answer().get()) {
        return Ok(());
    }
    compare(alloc, world, slots, index, entry, marks)
}

/// Compares the answers to all keys that are read, of those that are in doubt or lead to a type about
/// which an answer is.
fn compare_all<W: World>(
    alloc: Global,
    world: &mut W,
    slots: &[Slot],
    index: &Index,
    doubt: &Doubt,
    marks: &mut [bool],
) -> Result<(), AllocError>
    requires shelved { IsShelved slots.now index.now }
    requires broken { AreBroken (W.facts world.old) slots.now marks.old }
    ensures facts { W.facts world.new ≡ W.facts world.old }
    ensures names { W.names world.new ≡ W.names world.old }
    ensures lent { W.lent world.new ≡ W.lent world.old }
    ensures marks { OnOk result ((touched : ATouched)
        → ((k : AKey) → in_doubt doubt.now k ≡ touches touched k)
        → AreMarks (W.facts world.old) touched slots.now marks.new) }
{
    for entry in index.entries() {
        compare_doubted(alloc, world, slots, index, entry.get(), doubt, marks)?;
    }
    Ok(())
}

/// Compares the answer to the key of a fragment, if it is read.
fn compare_fragment<W: World>(
    alloc: Global,
    world: &mut W,
    slots: &[Slot],
    index: &Index,
    name: &Text,
    marks: &mut [bool],
) -> Result<(), AllocError>
    requires shelved { IsShelved slots.now index.now }
    requires broken { AreBroken (W.facts world.old) slots.now marks.old }
    ensures facts { W.facts world.new ≡ W.facts world.old }
    ensures names { W.names world.new ≡ W.names world.old }
    ensures lent { W.lent world.new ≡ W.lent world.old }
    ensures broken { AreBroken (W.facts world.old) slots.now marks.new }
    ensures kept { KeepMarks marks.old marks.new }
    ensures compared { OnOk result (IsFragmentCompared (W.facts world.old) slots.now index.now
        marks.new name.now) }
{
    let key = Key::FragmentOf(name.copy()?);
    if let Some(entry) = index.find(&key) {
        compare(alloc, world, slots, index, entry, marks)?;
    }
    Ok(())
}

/// Compares the answer to the key of a fragment, unless that was done.
fn compare_once<'t, W: World>(
    alloc: Global,
    world: &mut W,
    slots: &[Slot],
    index: &Index,
    name: &'t Text,
    done: &mut HashMap<&'t str, ()>,
    marks: &mut [bool],
) -> Result<(), AllocError>
    requires shelved { IsShelved slots.now index.now }
    requires broken { AreBroken (W.facts world.old) slots.now marks.old }
    requires done { AreDone (W.facts world.old) slots.now index.now marks.old
        (λ n. is_some (hash.get_by (λ k. bytes_eq n k.now) done.old)) }
    ensures facts { W.facts world.new ≡ W.facts world.old }
    ensures names { W.names world.new ≡ W.names world.old }
    ensures lent { W.lent world.new ≡ W.lent world.old }
    ensures broken { AreBroken (W.facts world.old) slots.now marks.new }
    ensures kept { KeepMarks marks.old marks.new }
    ensures compared { OnOk result (IsFragmentCompared (W.facts world.old) slots.now index.now
        marks.new name.now) }
    ensures done { OnOk result (AreDone (W.facts world.old) slots.now index.now marks.new
        (λ n. is_some (hash.get_by (λ k. bytes_eq n k.now) done.new))) }
{
    if done.contains_key(name.as_str()) {
        return Ok(());
    }
    compare_fragment(alloc, world, slots, index, name, marks)?;
    add_name(done, name.as_str())?;
    Ok(())
}

/// Compares the answers to the keys that the edit of a file touches, each once.
fn compare_touched<W: World>(
    alloc: Global,
    world: &mut W,
    slots: &[Slot],
    index: &Index,
    edit: &FileEdit,
    marks: &mut [bool],
) -> Result<(), AllocError>
    requires shelved { IsShelved slots.now index.now }
    requires broken { AreBroken (W.facts world.old) slots.now marks.old }
    ensures facts { W.facts world.new ≡ W.facts world.old }
    ensures names { W.names world.new ≡ W.names world.old }
    ensures lent { W.lent world.new ≡ W.lent world.old }
    ensures marks { OnOk result (AreMarks (W.facts world.old) (File edit.now) slots.now
        marks.new) }
{
    let mut done = HashMap::new(alloc);
    for name in edit.fragments.as_slice() {
        compare_once(alloc, world, slots, index, name, &mut done, marks)?;
    }
    Ok(())
}

/// Marks the kept verdicts of which some observation that an edit touches does not hold.
fn mark_broken<W: World>(
    alloc: Global,
    world: &mut W,
    slots: &[Slot],
    index: &Index,
    touched: &Touched,
    marks: &mut [bool],
) -> Result<(), AllocError>
    requires shelved { IsShelved slots.now index.now }
    requires broken { AreBroken (W.facts world.old) slots.now marks.old }
    ensures facts { W.facts world.new ≡ W.facts world.old }
    ensures names { W.names world.new ≡ W.names world.old }
    ensures lent { W.lent world.new ≡ W.lent world.old }
    ensures marks { OnOk result
        (AreMarks (W.facts world.old) touched.now slots.now marks.new) }
{
    if let Touched::File(edit) = touched {
        return compare_touched(alloc, world, slots, index, edit, marks);
    }
    let doubt = touched.doubt()?;
    compare_all(alloc, world, slots, index, &doubt, marks)
}

/// Marks of the kept verdicts of which some observation that an edit touches does not hold. The
/// answer to each key is asked once.
pub fn broken_marks<W: World>(
    alloc: Global,
    world: &mut W,
    slots: &[Slot],
    index: &Index,
    touched: &Touched,
) -> Result<Vec<bool>, AllocError>
    requires { IsShelved slots.now index.now }
    ensures facts { W.facts world.new ≡ W.facts world.old }
    ensures names { W.names world.new ≡ W.names world.old }
    ensures lent { W.lent world.new ≡ W.lent world.old }
    ensures marks { IfOk result (λ marks.
        AreMarks (W.facts world.old) touched.now slots.now marks.items) }
{
    let mut marks = no_marks(alloc, slots.len())?;
    mark_broken(alloc, world, slots, index, touched, &mut marks)?;
    Ok(marks)
}
