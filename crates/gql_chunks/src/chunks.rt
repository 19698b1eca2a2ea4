//! A list in order whose versions share what they have in common.
ghost use Rattle.std.specs.Prelude.{◌≡◌, ◌↔◌, ◌∷◌, [], IfOk, IsTrue, find, slice_get};
ghost use Rattle.std.specs.Option.{option_copied};
ghost use Rattle.std.specs.Ordering.{is_eq};
ghost use Rattle.gql_chunks.specs.Edits.{IsEdited};
ghost use Rattle.gql_chunks.specs.Lists.{AreInOrder};

use crate::chunk::Chunk;
use crate::edits::{edit_chunks, first_of, handles};
use crate::items::Items;
use crate::order::{HasOrder, Probe};
use crate::search::find_in;
use gql_ast::Shared;
use std::alloc::{AllocError, Global};
use std::marker::Model;

/// A list in order, in chunks. Contracts see the list of the items. A copy shares them, and a list
/// after an edit shares each chunk that the edit does not touch. No two items have one place.
pub struct Chunks<T: HasOrder> {
    chunks: Vec<Shared<Chunk<T>>>,
}

impl<T: HasOrder + Drop> Drop for Chunks<T> {
    fn drop(self) {
        let Chunks { chunks: _ } = self;
    }
}

impl<T: HasOrder> Model for Chunks<T> {
    ghost use Rattle.std.specs.Prelude.{List};
    ghost use Rattle.std.specs.Coded.{coded_list};
    ghost use Rattle.gql_chunks.specs.Lists.{IsChunked, joined};

    ghost Value = { List T };

    ghost coded = { coded_list T.code };

    ghost view = { λ c. joined c.chunks.items };

    ghost invariant = { λ c. IsChunked T.order c.chunks.items };
}

impl<T: HasOrder> Chunks<T> {
    /// No items.
    pub fn new(alloc: Global) -> Chunks<T>
        ensures { result ≡ [] }
    {
        Chunks {
            chunks: Vec::new(alloc),
        }
    }

    /// Whether there are no items.
    #[tactic(auto, using(crate::proofs::Pushing::joined_none))]
    pub fn is_empty(&self) -> bool
        ensures { IsTrue result ↔ (self.now ≡ []) }
    {
        self.chunks.is_empty()
    }

    /// The first item.
    pub fn first(&self) -> Option<&T>
        ensures { option_copied result ≡ slice_get self.now 0 }
    {
        first_of(self.chunks.as_slice())
    }

    /// The items in order.
    pub fn iter<'c>(&'c self) -> Items<'c, T>
        ensures items { result ≡ self.now }
        ensures order { AreInOrder T.order self.now }
    {
        Items::of(self.chunks.as_slice())
    }

    /// The first item that a probe looks for.
    pub fn find<P: Probe<T>>(&self, probe: &P) -> Option<&T>
        ensures { option_copied result ≡ find (λ x. is_eq (P.order probe.now x)) self.now }
    {
        find_in(self.chunks.as_slice(), probe)
    }
}

impl<T: HasOrder + Drop> Chunks<T> {
    /// The same list. Both share all chunks.
    pub fn copy(&self) -> Result<Chunks<T>, AllocError>
        ensures { IfOk result (λ copy. copy ≡ self.now) }
    {
        Ok(Chunks {
            chunks: self.chunks.clone()?,
        })
    }

    /// A list of one item.
    pub fn one(alloc: Global, item: T) -> Result<Chunks<T>, AllocError>
        ensures { IfOk result (λ list. list ≡ item ∷ []) }
    {
        let mut items = Vec::with_capacity(alloc, 1)?;
        items.push(Shared::new(alloc, item)?)?;
        let mut chunks = Vec::with_capacity(alloc, 1)?;
        chunks.push(Shared::new(alloc, Chunk::new(items))?)?;
        Ok(Chunks { chunks })
    }

    /// The list without the items at the places of those that go, and then with those that come, which
    /// take the places of others. It shares each chunk of this list in which nothing goes or comes.
    pub fn edited(
        &self,
        alloc: Global,
        goes: &Chunks<T>,
        comes: &Chunks<T>,
    ) -> Result<Chunks<T>, AllocError>
        ensures { IfOk result (IsEdited T.order self.now goes.now comes.now) }
    {
        let going = handles(alloc, goes.chunks.as_slice())?;
        let coming = handles(alloc, comes.chunks.as_slice())?;
        let left = edit_chunks(alloc, self.chunks.as_slice(), going.as_slice(), false)?;
        let chunks = edit_chunks(alloc, left.as_slice(), coming.as_slice(), true)?;
        Ok(Chunks { chunks })
    }
}
