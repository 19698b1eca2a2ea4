//! The fields that were planned in an execution, once for each list of selection sets and each type
//! of objects.
ghost use Rattle.std.specs.Prelude.{◌≡◌, ◌<◌, ◌++◌, ◌∷◌, [], length, IfOk, IfSome, IsTrue, OnOk};
ghost use Rattle.gql_collect.specs.Borrowed.{all_selections};
ghost use Rattle.gql_steps.specs.Objects.{basis};
ghost use Rattle.gql_steps.specs.Tables.{FoundAt, Grows, Has, InTable, IsEmpty, IsFor, IsMadeFor, IsRight, Leads, below_at, fields_at};

use crate::credit::after_sets;
use crate::equal_sets::{are_alike, are_equal_sets, key_of};
use crate::planning::{FieldPlan, planned_fields};
use crate::setting::Setting;
use gql_ast::{Shared, Text};
use gql_collect::SelectionSet;
use std::alloc::{AllocError, Global};
use std::collections::HashMap;

/// How many entries are looked through for a key. The later ones are found by a map.
const FEW: usize = 16;

/// How much of selections an execution compares at most (`credit.rt` says what is counted).
const MOST_COMPARED: usize = 200_000;

/// A field of the table: the number of its entry, and its number there.
#[derive(Clone, Copy)]
pub struct Slot {
    pub entry: usize,
    pub field: usize,
}

/// What is asked of the objects of one type.
#[derive(Drop)]
pub struct Entry<'d> {
    /// The key of the selection sets and the type.
    pub key: usize,
    pub of_type: Text,
    /// The selection sets that, taken as one, ask for these fields.
    pub sets: Vec<SelectionSet<'d>>,
    pub fields: Shared<Vec<FieldPlan<'d>>>,
    /// Where the first field is among all fields.
    pub first: usize,
}

/// An entry that has what a field selects, of the objects of one type.
#[derive(Clone, Copy)]
pub struct Link {
    pub slot: Slot,
    pub entry: usize,
    /// How many links there were with the one of this field that was made before this; or 0.
    pub before: usize,
}

/// What was asked so far. Entries stay where they are.
#[derive(Drop)]
pub struct Table<'d> {
    pub entries: Vec<Entry<'d>>,
    pub links: Vec<Link>,
    /// For each field, how many links there were with its last one; or 0.
    pub last: Vec<usize>,
    /// The last entry that was made under a key of selection sets and a type, but for the first
    /// entries. Two can have one key: compare before use.
    pub made: HashMap<usize, usize>,
    /// How much of selections may still be compared.
    pub credit: usize,
}

/// Whether a link is one of this field.
fn is_of_slot(link: Link, slot: Slot) -> bool
    ensures { IsTrue result → link.slot ≡ slot }
{
    link.slot.entry == slot.entry && link.slot.field == slot.field
}

impl<'d> Table<'d> {
    /// No entries.
    pub fn new(alloc: Global) -> Table<'d>
        ensures { IsEmpty result }
    {
        Table {
            entries: Vec::new(alloc),
            links: Vec::new(alloc),
            last: Vec::new(alloc),
            made: HashMap::new(alloc),
            credit: MOST_COMPARED,
        }
    }

    /// The fields of an entry.
    #[tactic(auto, using(crate::proofs::Entries::fields_here))]
    pub fn fields(&self, entry: usize) -> Result<Shared<Vec<FieldPlan<'d>>>, AllocError>
        requires { entry < length self.now.entries.items }
        ensures { IfOk result (λ fields. fields.items
            ≡ fields_at self.now.entries.items entry) }
    {
        self.entries[entry].fields.clone()
    }

    /// Where a field is among all fields, if there is such a number.
    fn position(&self, slot: Slot) -> Option<usize> {
        match self.entries.get(slot.entry) {
            Some(entry) => entry.first.checked_add(slot.field),
            None => None,
        }
    }

    /// How many links there were with the last one of a field; or 0.
    fn last_link(&self, slot: Slot) -> usize {
        match self.position(slot) {
            Some(position) => match self.last.get(position) {
                Some(last) => *last,
                None => 0,
            },
            None => 0,
        }
    }

    /// Adds a link, as the last one of its field.
    fn add_link(&mut self, link: Link) -> Result<(), AllocError>
        ensures entries { self.new.entries ≡ self.old.entries }
        ensures links { OnOk result (self.new.links.items
            ≡ self.old.links.items ++ link ∷ []) }
    {
        self.links.push(link)?;
        let count = self.links.len();
        if let Some(position) = self.position(link.slot) {
            if position < self.last.len() {
                self.last[position] = count;
            }
        }
        Ok(())
    }

    /// Whether an entry is for objects of this type.
    fn is_for(&self, number: usize, of_type: &str) -> bool
        ensures { IsTrue result → IsFor self.now.entries.items number of_type.now }
    {
        if number >= self.entries.len() {
            return false;
        }
        let entry = &self.entries[number];
        entry.of_type.as_str() == of_type
    }

    /// Whether a link leads from this field to an entry for objects of this type.
    fn leads(&self, link: Link, slot: Slot, of_type: &str) -> bool
        ensures { IsTrue result → Leads self.now.entries.items link slot of_type.now }
    {
        if !is_of_slot(link, slot) {
            return false;
        }
        self.is_for(link.entry, of_type)
    }

    /// The number of the entry of the objects of a type below a field, if there is a link to it.
    fn find(&self, slot: Slot, of_type: &str) -> Option<usize>
        ensures { IfSome result (λ k. FoundAt self.now k slot of_type.now) }
    {
        let mut next = self.last_link(slot);
        while next > 0 && next <= self.links.len() {
            let link = &self.links[next - 1];
            if self.leads(*link, slot, of_type) {
                return Some(link.entry);
            }
            if link.before >= next {
                return None;
            }
            next = link.before;
        }
        None
    }

    /// Whether an entry was made for equal selection sets and this type.
    fn is_made_for(&self, number: usize, of_type: &str, sets: &[SelectionSet<'d>]) -> bool
        ensures { IsTrue result → IsMadeFor self.now.entries.items number of_type.now
            (all_selections sets.now) }
    {
        if number >= self.entries.len() {
            return false;
        }
        let entry = &self.entries[number];
        if entry.of_type.as_str() != of_type {
            return false;
        }
        are_equal_sets(entry.sets.as_slice(), sets)
    }

    /// An entry of this key.
    fn of_key(&self, key: usize) -> Option<usize> {
        for (i, entry) in self.entries.as_slice().iter().enumerate() {
            if entry.key == key {
                return Some(i);
            }
            if i >= FEW {
                break;
            }
        }
        self.made.get(&key).copied()
    }

    /// An entry that seems to be made for equal selection sets, by their key.
    fn candidate(&self, key: usize, sets: &[SelectionSet<'d>]) -> Option<usize> {
        let Some(number) = self.of_key(key) else {
            return None;
        };
        match self.entries.get(number) {
            Some(entry) => {
                if are_alike(entry.sets.as_slice(), sets) {
                    Some(number)
                } else {
                    None
                }
            }
            None => None,
        }
    }

    /// The number of an entry that was made for equal selection sets and this type, if one is
    /// found, and if the comparison does not cost too much.
    fn find_made(&mut self, key: usize, of_type: &str, sets: &[SelectionSet<'d>]) -> Option<usize>
        ensures entries { self.new.entries ≡ self.old.entries }
        ensures links { self.new.links ≡ self.old.links }
        ensures made { IfSome result (λ k. IsMadeFor self.old.entries.items k of_type.now
            (all_selections sets.now)) }
    {
        let Some(number) = self.candidate(key, sets) else {
            return None;
        };
        self.credit = after_sets(sets, self.credit);
        if self.credit > 0 && self.is_made_for(number, of_type, sets) {
            Some(number)
        } else {
            None
        }
    }

    /// Adds an entry, and returns its number.
    fn add(&mut self, entry: Entry<'d>) -> Result<usize, AllocError>
        ensures entries { OnOk result (self.new.entries.items
            ≡ self.old.entries.items ++ entry.entry ∷ []) }
        ensures links { self.new.links ≡ self.old.links }
        ensures number { IfOk result (λ k. k ≡ length self.old.entries.items) }
    {
        for _i in 0..entry.fields.get().len() {
            self.last.push(0)?;
        }
        let number = self.entries.len();
        self.entries.push(entry)?;
        Ok(number)
    }

    /// Adds what these selection sets, taken as one, ask of the objects of a type: the number of
    /// its entry, which has this key.
    pub fn add_sets(
        &mut self,
        alloc: Global,
        setting: &Setting<'d, '_>,
        key: usize,
        of_type: &str,
        sets: &[SelectionSet<'d>],
    ) -> Result<usize, AllocError>
        requires { IsRight (basis setting.now) self.old }
        ensures right { OnOk result (IsRight (basis setting.now) self.new) }
        ensures grows { OnOk result (Grows self.old self.new) }
        ensures made { IfOk result (λ k. IsMadeFor self.new.entries.items k of_type.now
            (all_selections sets.now)) }
        ensures has { IfOk result (λ k. Has (basis setting.now) self.new k of_type.now
            (all_selections sets.now)) }
    {
        let fields = planned_fields(alloc, setting, of_type, sets)?;
        let entry = Entry {
            key,
            of_type: Text::from_str(alloc, of_type)?,
            sets: Vec::from_slice(alloc, sets)?,
            fields: Shared::new(alloc, fields)?,
            first: self.last.len(),
        };
        let number = self.add(entry)?;
        Ok(number)
    }

    /// The number of the entry for these selection sets and this type. It is made if there is none
    /// for equal ones.
    fn entry_for(
        &mut self,
        alloc: Global,
        setting: &Setting<'d, '_>,
        of_type: &str,
        sets: &[SelectionSet<'d>],
    ) -> Result<usize, AllocError>
        requires { IsRight (basis setting.now) self.old }
        ensures right { OnOk result (IsRight (basis setting.now) self.new) }
        ensures grows { OnOk result (Grows self.old self.new) }
        ensures made { IfOk result (λ k. IsMadeFor self.new.entries.items k of_type.now
            (all_selections sets.now)) }
    {
        let key = key_of(of_type, sets);
        if let Some(number) = self.find_made(key, of_type, sets) {
            return Ok(number);
        }
        let number = self.add_sets(alloc, setting, key, of_type, sets)?;
        if number >= FEW {
            self.made.insert(key, number)?;
        }
        Ok(number)
    }

    /// Finds or makes the entry for what the selections below a field ask of the objects of a type,
    /// and links the field to it.
    fn add_below(
        &mut self,
        alloc: Global,
        setting: &Setting<'d, '_>,
        slot: Slot,
        of_type: &str,
    ) -> Result<usize, AllocError>
        requires right { IsRight (basis setting.now) self.old }
        requires within { InTable self.old slot }
        ensures right { OnOk result (IsRight (basis setting.now) self.new) }
        ensures grows { OnOk result (Grows self.old self.new) }
        ensures has { IfOk result (λ k. Has (basis setting.now) self.new k of_type.now
            (below_at self.old slot)) }
    {
        let fields = self.fields(slot.entry)?;
        let field = &fields.get()[slot.field];
        let number = self.entry_for(alloc, setting, of_type, field.sets.as_slice())?;
        let before = self.last_link(slot);
        self.add_link(Link {
            slot,
            entry: number,
            before,
        })?;
        Ok(number)
    }

    /// The number of the entry of the objects of a type below a field, which is made if it is not
    /// there yet.
    pub fn at(
        &mut self,
        alloc: Global,
        setting: &Setting<'d, '_>,
        slot: Slot,
        of_type: &str,
    ) -> Result<usize, AllocError>
        requires right { IsRight (basis setting.now) self.old }
        requires within { InTable self.old slot }
        ensures right { OnOk result (IsRight (basis setting.now) self.new) }
        ensures grows { OnOk result (Grows self.old self.new) }
        ensures has { IfOk result (λ k. Has (basis setting.now) self.new k of_type.now
            (below_at self.old slot)) }
    {
        match self.find(slot, of_type) {
            Some(number) => Ok(number),
            None => self.add_below(alloc, setting, slot, of_type),
        }
    }
}
