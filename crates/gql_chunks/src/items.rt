//! The items of a list in chunks, one after the other.
ghost use Rattle.std.specs.Prelude.{◌≡◌, ◌++◌};
ghost use Rattle.std.specs.Iterator.{YieldsFirstRef, item_count};
ghost use Rattle.gql_chunks.specs.Lists.{AreFull, joined};

use crate::chunk::Chunk;
use gql_ast::Shared;
use std::marker::Model;

/// The items of a list that are still to come, in order. Contracts see the list of these items.
#[derive(Drop)]
pub struct Items<'c, T> {
    here: &'c [Shared<T>],
    later: &'c [Shared<Chunk<T>>],
}

impl<'c, T> Model for Items<'c, T> {
    ghost use Rattle.std.specs.Prelude.{List, ◌++◌};
    ghost use Rattle.std.specs.Coded.{coded_list};
    ghost use Rattle.gql_chunks.specs.Lists.{AreFull, joined};

    ghost Value = { List T };

    ghost coded = { coded_list T.code };

    ghost view = { λ i. i.here.now ++ joined i.later.now };

    ghost invariant = { λ i. AreFull i.later.now };
}

impl<'c, T> Items<'c, T> {
    /// The items of these chunks.
    pub(crate) fn of(chunks: &'c [Shared<Chunk<T>>]) -> Items<'c, T>
        requires { AreFull chunks.now }
        ensures { result ≡ joined chunks.now }
    {
        Items {
            here: &[],
            later: chunks,
        }
    }
}

impl<'c, T> Iterator for Items<'c, T> {
    type Item = &'c T;

    ghost next_gives = { YieldsFirstRef (λ items. items) };

    ghost remaining = { item_count (λ items. items) };

    fn next(&mut self) -> Option<&'c T> {
        if let Some((item, rest)) = self.here.split_first() {
            self.here = rest;
            return Some(item.get());
        }
        let Some((chunk, later)) = self.later.split_first() else {
            return None;
        };
        let Some((item, rest)) = chunk.get().as_slice().split_first() else {
            return None;
        };
        self.here = rest;
        self.later = later;
        Some(item.get())
    }
}
