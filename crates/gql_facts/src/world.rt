//! Worlds, which answer the questions of rules, and a world that records its answers.
ghost use Rattle.std.specs.Prelude.{◌≡◌, ℕ, List, Option, Some, IfOk, OnOk, OnErr, option_map};
ghost use Rattle.gql_facts.specs.Worlds.{IsWorld, noted};
ghost use Rattle.gql_facts.specs.declared.fact.Fact.{Fact};
ghost use Rattle.gql_facts.specs.declared.key.Key.{Key};

use crate::fact::Fact;
use crate::key::Key;
use indexmap::IndexMap;
use std::alloc::{AllocError, Global};

/// A world answers the keys that rules ask. The answer to a key is the same at every call.
pub trait World {
    /// The fact for each key.
    ghost facts: { Self → Key → Fact };

    /// Names, among which are those of all fragments and input objects.
    ghost names: { Self → List (List ℕ) };

    /// The answers so far, each once, in the order in which they were first given, if the world
    /// records them.
    ghost asked: { Self → Option (List (Key × Fact)) };

    /// The borrows that the world holds, 0 for none. No call changes them, so that what
    /// is borrowed can be used again once the world is gone.
    ghost lent: { Self → ℕ × ℕ };

    /// The answer to a key. A world that keeps a record has recorded it. If an allocation fails,
    /// the record is as it was. The facts are the same either way.
    fn fact(&mut self, alloc: Global, key: &Key) -> Result<Fact, AllocError>
        ensures answer { IfOk result (λ f. f ≡ facts self.old key.now) }
        ensures facts { facts self.new ≡ facts self.old }
        ensures names { names self.new ≡ names self.old }
        ensures lent { lent self.new ≡ lent self.old }
        ensures asked { OnOk result (asked self.new
            ≡ option_map (noted key.now (facts self.old key.now)) (asked self.old)) }
        ensures failed { OnErr result (asked self.new ≡ asked self.old) };

    /// The answer to a key is of its kind or absent, the answer for a fragment is one of that name,
    /// and fragments and input objects are finitely many.
    ghost is_world: { (s : Self) → IsWorld (facts s) (names s) };
}

/// A world that records every answer of another, absences too, in the order in which keys were
/// first asked. A call that fails records nothing, even if the other world had an answer.
#[derive(Drop)]
pub struct Recorder<'w, W: World> {
    pub inner: &'w mut W,
    pub record: &'w mut IndexMap<Key, Fact>,
}

impl<'w, W: World> World for Recorder<'w, W> {
    ghost facts = { λ r. W.facts r.inner.now };

    ghost names = { λ r. W.names r.inner.now };

    ghost asked = { λ r. Some r.record.now.entries };

    ghost lent = { λ r. (r.inner.ghost_name, r.record.ghost_name) };

    fn fact(&mut self, alloc: Global, key: &Key) -> Result<Fact, AllocError> {
        let fact = self.inner.fact(alloc, key)?;
        let noted = fact.copy()?;
        self.record.insert(key.copy()?, noted)?;
        Ok(fact)
    }

    ghost is_world = { λ r. W.is_world r.inner.now };
}
