//! The world of files from whose schema a part is removed.
ghost use Rattle.std.specs.Prelude.{None};

use crate::left::left_of;
use crate::removal::Removal;
use gql_facts::{Fact, Key, Present, World};
use std::alloc::{AllocError, Global};

/// The world of a schema and of the fragments of document files, as they are once a part of the schema
/// is removed.
#[derive(Clone, Copy)]
pub struct Without<'p, 'r> {
    pub present: Present<'p>,
    pub removal: &'r Removal,
}

impl<'p, 'r> World for Without<'p, 'r> {
    ghost use Rattle.gql_removal.specs.Worlds.{facts_of_without, names_of_without, without_is_world};

    ghost facts = { facts_of_without };

    ghost names = { names_of_without };

    ghost asked = { λ _. None };

    ghost lent = { λ _. (0, 0) };

    fn fact(&mut self, alloc: Global, key: &Key) -> Result<Fact, AllocError> {
        let fact = self.present.fact(alloc, key)?;
        left_of(alloc, self.removal, key, fact)
    }

    ghost is_world = { without_is_world };
}
