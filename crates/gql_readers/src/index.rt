//! The index.
ghost use Rattle.std.specs.Prelude.{◌≡◌, ◌++◌, [], List, Contains, IfOk, IsTrue, OnOk, unwrap_or};
ghost use Rattle.std.specs.Option.{option_copied};
ghost use Rattle.gql_ast.specs.declared.definition.DefinitionId.{DefinitionId as Id};
ghost use Rattle.gql_facts.specs.Worlds.{Facts};
ghost use Rattle.gql_readers.specs.Changes.{IsChange, IsSomeChange};
ghost use Rattle.gql_readers.specs.Indexes.{AreEntriesInOrder, IsEntryOf, IsIndexOf, Reading};
ghost use Rattle.gql_readers.specs.Merged as merged;
ghost use Rattle.gql_readers.specs.Merged.{IsUnchanged, above, below, here, key_of, made};
ghost use Rattle.gql_readers.specs.Orders as orders;
ghost use Rattle.gql_readers.specs.Orders.{AreInOrder};
ghost use Rattle.gql_readers.specs.Readers.{Reader, readers_of};

use crate::changes::{Changes, Noted};
use crate::entries::Entry;
use crate::ids::are_same;
use crate::orders::{OrderedKey, Sought};
use crate::reader_list::ReaderList;
use gql_ast::{Same, Shared};
use gql_facts::Key;
use gql_reads::Answer;
use std::alloc::{AllocError, Global};
use std::marker::Model;

/// The entries before a key, that of the key, and those after it.
#[derive(Drop)]
struct Parts<'e> {
    before: &'e [Shared<Entry>],
    here: &'e [Shared<Entry>],
    after: &'e [Shared<Entry>],
}

/// Where a key stands among entries.
fn split<'e>(entries: &'e [Shared<Entry>], key: &Sought<'_>) -> Parts<'e>
    requires { AreEntriesInOrder entries.now }
    ensures before { result.before.now ≡ below orders.key_order key_of key.now entries.now }
    ensures here { result.here.now ≡ here orders.key_order key_of key.now entries.now }
    ensures after { result.after.now ≡ above orders.key_order key_of key.now entries.now }
{
    let found = entries.binary_search_by(|entry| entry.get().order_to(key));
    match found {
        Ok(place) => Parts {
            before: &entries[..place],
            here: &entries[place..place + 1],
            after: &entries[place + 1..],
        },
        Err(place) => Parts {
            before: &entries[..place],
            here: &entries[place..place],
            after: &entries[place..],
        },
    }
}

/// Adds handles on entries.
fn add_handles(entries: &[Shared<Entry>], all: &mut Vec<Shared<Entry>>) -> Result<(), AllocError>
    ensures { OnOk result (all.new.items ≡ all.old.items ++ entries.now) }
{
    for entry in entries {
        all.push(entry.clone()?)?;
    }
    Ok(())
}

/// The readers that were found for a key, or these, which are none.
fn readers_found<'e>(here: &'e [Shared<Entry>], none: &'e ReaderList) -> &'e ReaderList
    requires { none.now ≡ [] }
    ensures { result.now ≡ merged.readers_found here.now }
{
    match here.first() {
        Some(entry) => entry.get().readers(),
        None => none,
    }
}

/// The readers of a key after a change.
fn readers_after(
    alloc: Global,
    readers: &ReaderList,
    noted: &Noted,
) -> Result<ReaderList, AllocError>
    requires readers { AreInOrder readers.now }
    requires goes { AreInOrder noted.now.goes }
    ensures { IfOk result (λ after. after ≡ merged.readers_after readers.now noted.now) }
{
    if noted.goes.is_empty() {
        let all = readers.edited(alloc, noted.comes.as_slice(), true)?;
        return Ok(all);
    }
    let left = readers.edited(alloc, noted.goes.as_slice(), false)?;
    if noted.comes.is_empty() {
        return Ok(left);
    }
    let all = left.edited(alloc, noted.comes.as_slice(), true)?;
    Ok(all)
}

/// The answer after a change.
fn answer_after(here: &[Shared<Entry>], noted: &Noted) -> Result<Shared<Answer>, AllocError>
    ensures { IfOk result (λ answer. answer ≡ merged.answer_after here.now noted.now) }
{
    if noted.comes.is_empty() {
        if let Some(entry) = here.first() {
            return entry.get().answer().clone();
        }
    }
    noted.answer.clone()
}

/// Whether a change leaves the entry of a key as it is.
fn is_unchanged(here: &[Shared<Entry>], noted: &Noted) -> bool
    ensures { IsTrue result → IsUnchanged here.now noted.now }
{
    if here.len() != 1 || noted.comes.is_empty() {
        return false;
    }
    if !are_same(noted.comes.as_slice(), noted.goes.as_slice()) {
        return false;
    }
    here[0].get().answer().get().same(noted.answer.get())
}

/// Adds the entry of a key after a change, if the key has readers then. An entry that the change
/// leaves as it is, as where an operation is examined again, is shared.
fn add_made(
    alloc: Global,
    here: &[Shared<Entry>],
    key: OrderedKey,
    noted: &Noted,
    all: &mut Vec<Shared<Entry>>,
) -> Result<(), AllocError>
    requires readers { AreInOrder (merged.readers_found here.now) }
    requires goes { AreInOrder noted.now.goes }
    requires among { (id : Id) → Contains noted.now.goes id
        → Contains (merged.readers_found here.now) id }
    requires named { (e : Reading) → Contains here.now e → e.key ≡ key }
    ensures { OnOk result (all.new.items ≡ all.old.items ++ made here.now (key, noted.now)) }
{
    if is_unchanged(here, noted) {
        add_handles(here, all)?;
        return Ok(());
    }
    let none = ReaderList::new(alloc);
    let readers = readers_after(alloc, readers_found(here, &none), noted)?;
    if readers.is_empty() {
        return Ok(());
    }
    let answer = answer_after(here, noted)?;
    let key = key.shared_with(&answer)?;
    all.push(Shared::new(
        alloc,
        Entry {
            key,
            answer,
            readers,
        },
    )?)?;
    Ok(())
}

/// The entries of the keys that are read, in the order of the keys. Contracts see their list.
pub struct Index {
    entries: Vec<Shared<Entry>>,
}

impl Drop for Index {
    fn drop(self) {
        let Index { entries: _ } = self;
    }
}

impl Model for Index {
    ghost use Rattle.std.specs.Coded.{codes};
    ghost use Rattle.std.specs.Prelude.{List};
    ghost use Rattle.gql_ast.specs.contracts.definition.DefinitionId as of_id;
    ghost use Rattle.gql_facts.specs.contracts.key.Key as of_key;
    ghost use Rattle.gql_reads.specs.contracts.observation.Answer as of_answer;
    ghost use Rattle.gql_readers.specs.Indexes.{AreEntriesInOrder, Reading};

    ghost Value = { List Reading };

    ghost coded = { Prim.hlevel (
      codes,
      of_id.the_row.coded,
      of_key.the_row.coded,
      of_answer.the_row.coded,
    ) };

    ghost view = { λ i. i.entries.items };

    ghost invariant = { λ i. AreEntriesInOrder i.entries.items };
}

impl Index {
    /// An index with no entries.
    pub fn new(alloc: Global) -> Index
        ensures { result ≡ [] }
    {
        Index {
            entries: Vec::new(alloc),
        }
    }

    /// The entries of the keys that are read.
    pub fn entries(&self) -> &[Shared<Entry>]
        ensures { result.now ≡ self.now }
    {
        self.entries.as_slice()
    }

    /// The entry of a key.
    pub fn find(&self, key: &Key) -> Option<&Entry>
        ensures { IsEntryOf self.now key.now (option_copied result) }
    {
        let parts = split(self.entries.as_slice(), &Sought::of(key));
        match parts.here.first() {
            Some(entry) => Some(entry.get()),
            None => None,
        }
    }

    /// The definitions whose nodes read a key, in file order, if there are any. It takes no memory.
    pub fn readers(&self, key: &Key) -> Option<&ReaderList>
        ensures { (readers : List Reader) → IsIndexOf self.now readers
            → unwrap_or (option_copied result) [] ≡ readers_of key.now readers }
    {
        match self.find(key) {
            Some(entry) => Some(entry.readers()),
            None => None,
        }
    }

    /// The index after changes. It shares the entries of all other keys with this one.
    pub fn changed(&self, alloc: Global, changes: Changes) -> Result<Index, AllocError>
        requires { IsSomeChange self.now changes }
        ensures { IfOk result (λ index. (facts : Facts) (old going coming new : List Reader)
            → IsChange facts self.now changes old going coming new → IsIndexOf index new) }
    {
        let room = self.entries.len().saturating_add(changes.notes.len());
        let mut all = Vec::with_capacity(alloc, room)?;
        let mut rest = self.entries.as_slice();
        for (key, noted) in changes.notes {
            let parts = split(rest, &key.sought());
            add_handles(parts.before, &mut all)?;
            add_made(alloc, parts.here, key, &noted, &mut all)?;
            rest = parts.after;
        }
        add_handles(rest, &mut all)?;
        Ok(Index { entries: all })
    }
}
