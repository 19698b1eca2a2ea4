//! Verdicts of a shelf, in the order of their definitions.
ghost use Rattle.std.specs.Prelude.{◌≡◌, ◌↔◌, IsTrue, map, Some};
ghost use Rattle.gql_ast.specs.Trees.{id_of};
ghost use Rattle.gql_verdict.specs.FileOrder.{id_order};
ghost use Rattle.gql_verdict.specs.Slots.{HasId, IsApart, IsFound, IsInOrder, resolve, slot_order};

use crate::verdict::Verdict;
use gql_ast::{Definition, FileName, Same};
use std::cmp::Ordering;
use std::mem;

/// A verdict, or the index of a verdict that is kept.
pub enum Slot {
    Here(Verdict),
    At(usize),
}

impl Drop for Slot {
    fn drop(self) {
        match self {
            Slot::Here(_) => {}
            Slot::At(_) => {}
        }
    }
}

/// The order of a definition, and of the file and the offset of another.
fn definition_order(definition: &Definition, file: &FileName, offset: usize) -> Ordering
    ensures { result
        ≡ id_order (id_of definition.now) (record { file = file.now; offset = offset }) }
{
    let by_file = definition.file.cmp(file);
    let by_place = definition.tree.place().offset.cmp(&offset);
    by_file.then(by_place)
}

/// Whether two definitions have one name: the same file, and the same offset there.
fn has_same_id(definition: &Definition, other: &Definition) -> bool
    ensures { IsTrue result ↔ (id_of definition.now ≡ id_of other.now) }
{
    definition.tree.place().offset == other.tree.place().offset && definition.file.same(&other.file)
}

impl Slot {
    /// Whether the slot has the verdict on the definition in the file and at the offset of this one.
    fn has_id(&self, definition: &Definition) -> bool
        ensures { IsTrue result ↔ HasId self.now (id_of definition.now) }
    {
        match self {
            Slot::Here(verdict) => has_same_id(verdict.def(), definition),
            Slot::At(_) => false,
        }
    }

    /// The order of the definition in the slot, and of the file and the offset of another.
    fn order_to(&self, file: &FileName, offset: usize) -> Ordering
        ensures { result ≡ slot_order self.now (record { file = file.now; offset = offset }) }
    {
        match self {
            Slot::Here(verdict) => definition_order(verdict.def(), file, offset),
            Slot::At(_) => Ordering::Less,
        }
    }
}

/// The index of the verdict on the definition in a file, at an offset.
pub fn find(slots: &[Slot], file: &FileName, offset: usize) -> Option<usize>
    requires { IsInOrder slots.now }
    ensures { IsFound slots.now (record { file = file.now; offset = offset }) result }
{
    slots
        .binary_search_by(|slot| slot.order_to(file, offset))
        .ok()
}

/// Whether the verdict at an index is on the definition in the file and at the offset of this one.
fn is_near(slots: &[Slot], near: usize, definition: &Definition) -> bool
    ensures { IsTrue result → IsFound slots.now (id_of definition.now) (Some near) }
{
    if near < slots.len() {
        slots[near].has_id(definition)
    } else {
        false
    }
}

/// The index of the verdict on the definition in the file and at the offset of this one. The index
/// `near`, where the verdict is likely to be, is tried first.
pub fn find_near(slots: &[Slot], near: usize, definition: &Definition) -> Option<usize>
    requires { IsInOrder slots.now }
    ensures { IsFound slots.now (id_of definition.now) result }
{
    if is_near(slots, near, definition) {
        return Some(near);
    }
    let offset = definition.tree.place().offset;
    find(slots, &definition.file, offset)
}

/// The verdict of a slot.
pub fn resolved<'s>(kept: &'s [Slot], step: &'s Slot) -> &'s Slot
    ensures { result.now ≡ resolve kept.now step.now }
{
    match step {
        Slot::Here(_) => step,
        Slot::At(j) => match kept.get(*j) {
            Some(slot) => slot,
            None => step,
        },
    }
}

/// Fetches each verdict that a slot refers to by its index. It cannot fail.
pub fn fill(steps: &mut [Slot], kept: &mut [Slot])
    requires { IsApart steps.old }
    ensures { steps.new ≡ map (resolve kept.old) steps.old }
{
    for step in steps.iter_mut() {
        if let Slot::At(j) = step {
            let j = *j;
            if j < kept.len() {
                mem::swap(step, &mut kept[j]);
            }
        }
    }
}
