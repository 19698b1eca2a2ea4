//! The definitions that read a key, in chunks that lists share.
ghost use Rattle.std.specs.Prelude.{◌≡◌, ◌≤◌, ◌<◌, ◌-◌, ◌++◌, ◌↔◌, [], drop, IfOk, IsTrue, OnOk, length, slice_get, take};
ghost use Rattle.std.specs.Option.{option_copied};
ghost use Rattle.std.specs.Ordering.{is_lt};
ghost use Rattle.gql_readers.specs.Chunks.{AreAhead, AreBefore, IsNextAbove, IsNextFrom, joined};
ghost use Rattle.gql_readers.specs.Merged.{edited, itself};
ghost use Rattle.gql_readers.specs.Orders as orders;
ghost use Rattle.gql_readers.specs.Orders.{AreInOrder};

use crate::ids::{add_handles, edit};
use crate::orders::id_order;
use gql_ast::{DefinitionId, Items, Shared};
use std::alloc::{AllocError, Global};
use std::cmp::Ordering;
use std::marker::Model;

/// A chunk of a list of definitions.
type Chunk = Shared<Items<Shared<DefinitionId>>>;

/// A chunk that would be longer is made into several.
const LONGEST: usize = 128;

/// How long these are.
const PIECE: usize = 64;

/// Definitions in file order. A list that is made of another by an edit shares with it what the
/// edit leaves alone. Contracts see the list of the definitions.
pub struct ReaderList {
    chunks: Vec<Chunk>,
}

impl Drop for ReaderList {
    fn drop(self) {
        let ReaderList { chunks: _ } = self;
    }
}

impl Model for ReaderList {
    ghost use Rattle.std.specs.Coded.{codes};
    ghost use Rattle.std.specs.Prelude.{List};
    ghost use Rattle.gql_ast.specs.declared.definition.DefinitionId.{DefinitionId};
    ghost use Rattle.gql_ast.specs.contracts.definition.DefinitionId as of_id;
    ghost use Rattle.gql_readers.specs.Chunks.{joined};

    ghost Value = { List DefinitionId };

    ghost coded = { Prim.hlevel (codes, of_id.the_row.coded) };

    ghost view = { λ l. joined l.chunks.items };
}

/// Adds handles on chunks.
fn add_chunks(chunks: &[Chunk], all: &mut Vec<Chunk>) -> Result<(), AllocError>
    ensures { OnOk result (all.new.items ≡ all.old.items ++ chunks.now) }
{
    for chunk in chunks {
        all.push(chunk.clone()?)?;
    }
    Ok(())
}

/// Adds definitions as one chunk, if there are any.
fn add_chunk(
    alloc: Global,
    ids: Vec<Shared<DefinitionId>>,
    all: &mut Vec<Chunk>,
) -> Result<(), AllocError>
    ensures { OnOk result (joined all.new.items ≡ joined all.old.items ++ ids.items) }
{
    if ids.is_empty() {
        return Ok(());
    }
    all.push(Shared::new(alloc, Items::from_vec(ids))?)?;
    Ok(())
}

/// Adds copies of definitions as one chunk.
fn add_piece(
    alloc: Global,
    ids: &[Shared<DefinitionId>],
    all: &mut Vec<Chunk>,
) -> Result<(), AllocError>
    ensures { OnOk result (joined all.new.items ≡ joined all.old.items ++ ids.now) }
{
    let mut piece = Vec::with_capacity(alloc, ids.len())?;
    add_handles(ids, &mut piece)?;
    add_chunk(alloc, piece, all)
}

/// Adds definitions, in as many chunks as they need.
fn add_pieces(
    alloc: Global,
    ids: Vec<Shared<DefinitionId>>,
    all: &mut Vec<Chunk>,
) -> Result<(), AllocError>
    ensures { OnOk result (joined all.new.items ≡ joined all.old.items ++ ids.items) }
{
    if ids.len() <= LONGEST {
        return add_chunk(alloc, ids, all);
    }
    let mut rest = ids.as_slice();
    'pieces: while rest.len() > LONGEST {
        add_piece(alloc, &rest[..PIECE], all)?;
        rest = &rest[PIECE..];
    }
    add_piece(alloc, rest, all)
}

/// The first of the definitions in a chunk.
fn first_of(chunk: &Chunk) -> Option<&DefinitionId>
    ensures { option_copied result ≡ slice_get chunk.now 0 }
{
    match chunk.get().as_slice().first() {
        Some(first) => Some(first.get()),
        None => None,
    }
}

/// The first of the definitions in chunks.
fn first_in(chunks: &[Chunk]) -> Option<&DefinitionId>
    ensures { option_copied result ≡ slice_get (joined chunks.now) 0 }
{
    for chunk in chunks {
        if let Some(first) = first_of(chunk) {
            return Some(first);
        }
    }
    None
}

/// The last of the definitions in a chunk.
fn last_in(chunk: &Chunk) -> Option<&DefinitionId>
    ensures { option_copied result ≡ slice_get chunk.now (length chunk.now - 1) }
{
    match chunk.get().as_slice().last() {
        Some(last) => Some(last.get()),
        None => None,
    }
}

/// The order of the last definition in a chunk, and of another.
fn last_order(chunk: &Chunk, id: &DefinitionId) -> Ordering {
    match last_in(chunk) {
        Some(last) => id_order(last, id),
        None => Ordering::Less,
    }
}

/// Whether a definition is before another.
fn is_before(id: &DefinitionId, other: &DefinitionId) -> bool
    ensures { result ≡ is_lt (orders.id_order id.now other.now) }
{
    id_order(id, other).is_lt()
}

/// Whether the definitions in chunks are before another. It is seen from the last of them.
fn are_before(chunks: &[Chunk], id: &DefinitionId) -> bool
    requires { AreInOrder (joined chunks.now) }
    ensures { IsTrue result → AreBefore id.now (joined chunks.now) }
{
    let Some(chunk) = chunks.last() else {
        return true;
    };
    let Some(last) = last_in(chunk) else {
        return false;
    };
    is_before(last, id)
}

/// How many chunks are before the one that has a definition, or is to have it.
fn chunks_below(chunks: &[Chunk], id: &DefinitionId) -> usize
    requires order { AreInOrder (joined chunks.now) }
    requires some { 0 < length chunks.now }
    ensures within { result < length chunks.now }
    ensures before { AreBefore id.now (joined (take result chunks.now)) }
{
    let found = chunks.binary_search_by(|chunk| last_order(chunk, id));
    let place = match found {
        Ok(place) => place,
        Err(place) => place,
    };
    // What comes after all is added to the last chunk.
    let place = place.min(chunks.len() - 1);
    if are_before(&chunks[..place], id) {
        place
    } else {
        0
    }
}

/// How many chunks are before the one that the first of some changes is in: all but the last, if
/// there are no changes.
fn chunks_before(chunks: &[Chunk], changed: &[Shared<DefinitionId>]) -> usize
    requires order { AreInOrder (joined chunks.now) }
    requires some { 0 < length chunks.now }
    ensures within { result < length chunks.now }
    ensures next { IsNextAbove orders.id_order itself itself (joined (take result chunks.now))
        changed.now }
{
    match changed.first() {
        Some(id) => chunks_below(chunks, id.get()),
        None => chunks.len() - 1,
    }
}

/// How many of the changes at the head of the list are before a definition.
fn changes_before(changed: &[Shared<DefinitionId>], id: &DefinitionId) -> usize
    ensures within { result ≤ length changed.now }
    ensures before { AreBefore id.now (take result changed.now) }
    ensures next { IsNextFrom id.now (drop result changed.now) }
{
    let count = changed.len();
    for i in 0..count {
        if !is_before(changed[i].get(), id) {
            return i;
        }
    }
    count
}

/// How many of the changes at the head of the list are before what is in chunks.
fn changes_ahead(changed: &[Shared<DefinitionId>], chunks: &[Chunk]) -> usize
    requires { AreInOrder (joined chunks.now) }
    ensures within { result ≤ length changed.now }
    ensures ahead { AreAhead (take result changed.now) (drop result changed.now) (joined chunks.now) }
{
    match first_in(chunks) {
        Some(first) => changes_before(changed, first),
        None => changed.len(),
    }
}

/// Adds the definitions of a chunk, with those that change. The chunk is shared, if none does.
fn add_edited(
    alloc: Global,
    chunk: &Chunk,
    changed: &[Shared<DefinitionId>],
    comes: bool,
    all: &mut Vec<Chunk>,
) -> Result<(), AllocError>
    requires { AreInOrder chunk.now }
    ensures { OnOk result (joined all.new.items
        ≡ joined all.old.items ++ edited comes chunk.now changed.now) }
{
    if changed.is_empty() {
        all.push(chunk.clone()?)?;
        return Ok(());
    }
    let made = edit(alloc, chunk.get().as_slice(), changed, comes)?;
    add_pieces(alloc, made, all)
}

impl ReaderList {
    /// No definitions.
    pub fn new(alloc: Global) -> ReaderList
        ensures { result ≡ [] }
    {
        ReaderList {
            chunks: Vec::new(alloc),
        }
    }

    /// The definitions, in chunks.
    pub fn chunks(&self) -> &[Shared<Items<Shared<DefinitionId>>>]
        ensures { joined result.now ≡ self.now }
    {
        self.chunks.as_slice()
    }

    /// Whether there are no definitions.
    pub fn is_empty(&self) -> bool
        ensures { IsTrue result ↔ (self.now ≡ []) }
    {
        match first_in(self.chunks.as_slice()) {
            Some(_) => false,
            None => true,
        }
    }

    /// The definitions, with those that change: all of these come, or all of them go. Chunks
    /// without changes are shared.
    pub fn edited(
        &self,
        alloc: Global,
        changed: &[Shared<DefinitionId>],
        comes: bool,
    ) -> Result<ReaderList, AllocError>
        requires { AreInOrder self.now }
        ensures { IfOk result (λ all. all ≡ edited comes self.now changed.now) }
    {
        let mut all = Vec::with_capacity(alloc, self.chunks.len())?;
        let mut chunks = self.chunks.as_slice();
        let mut left = changed;
        'groups: while chunks.len() > 0 {
            let place = chunks_before(chunks, left);
            let after = &chunks[place + 1..];
            let count = changes_ahead(left, after);
            add_chunks(&chunks[..place], &mut all)?;
            add_edited(alloc, &chunks[place], &left[..count], comes, &mut all)?;
            chunks = after;
            left = &left[count..];
        }
        let last = edit(alloc, &[], left, comes)?;
        add_pieces(alloc, last, &mut all)?;
        Ok(ReaderList { chunks: all })
    }
}
