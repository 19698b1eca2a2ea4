//! A fragment, with what was observed of it alone.
ghost use Rattle.std.specs.Prelude.{◌≡◌, IfOk};
ghost use Rattle.gql_reads.specs.Own.{tree_of};
ghost use Rattle.gql_reads.specs.Readings.{name_of};
ghost use Rattle.gql_reads.specs.Records.{IsCertified, IsRecord};
ghost use Rattle.gql_reads.specs.Tables.{AllHold};

use crate::record::{Record, record_of};
use crate::retest::KeptParts;
use crate::table::ReadTable;
use gql_ast::{Shared, Text, Tree};
use gql_facts::{FragmentFact, World};
use std::alloc::{AllocError, Global};
use std::marker::Model;

/// What a part shares with its copies.
pub struct Held {
    fragment: FragmentFact,
    seen: Shared<Record>,
}

impl Drop for Held {
    fn drop(self) {
        let Held {
            fragment: _,
            seen: _,
        } = self;
    }
}

/// A fragment, and the answers to its own reads. Wherever a world gives these answers, they are
/// those to exactly its own reads there. Copies share both.
pub struct Part {
    held: Shared<Held>,
}

impl Drop for Part {
    fn drop(self) {
        let Part { held: _ } = self;
    }
}

impl Model for Part {
    ghost use Rattle.std.specs.Coded.{codes};
    ghost use Rattle.gql_facts.specs.contracts.fact.FragmentFact as fragment_fact;
    ghost use Rattle.gql_reads.specs.contracts.observation.Answer as answer;
    ghost use Rattle.gql_reads.specs.Records.{IsCertified, Kept};

    ghost Value = { Kept };

    ghost coded = { Prim.hlevel (
      codes,
      fragment_fact.the_row.coded,
      answer.the_row.coded,
    ) };

    ghost view = { λ p. record { fragment = p.held.fragment; seen = p.held.seen } };

    ghost invariant = { λ p. IsCertified p.held.fragment p.held.seen };
}

impl Part {
    /// The fragment.
    pub fn fragment(&self) -> &FragmentFact
        ensures { result.now ≡ self.now.fragment }
    {
        &self.held.get().fragment
    }

    /// The name of the fragment.
    pub fn name(&self) -> &Text
        ensures { result.now ≡ name_of self.now.fragment }
    {
        &self.fragment().fragment.get().name.text
    }

    /// What was observed of the fragment alone.
    pub fn seen(&self) -> &Shared<Record>
        ensures value { result.now ≡ self.now.seen }
        ensures certificate { IsCertified self.now.fragment result.now }
    {
        &self.held.get().seen
    }

    /// An equal part, which shares what this one has.
    pub fn copy(&self) -> Result<Part, AllocError>
        ensures { IfOk result (λ part. part ≡ self.now) }
    {
        Ok(Part {
            held: self.held.clone()?,
        })
    }
}

/// Walks a fragment alone.
pub fn walk_fragment<W: World, K: KeptParts>(
    alloc: Global,
    world: &mut W,
    kept: &K,
    fragment: &FragmentFact,
    table: &mut ReadTable,
) -> Result<Part, AllocError>
    requires holds { AllHold (W.facts world.old) table.old }
    ensures facts { W.facts world.new ≡ W.facts world.old }
    ensures names { W.names world.new ≡ W.names world.old }
    ensures lent { W.lent world.new ≡ W.lent world.old }
    ensures holds { AllHold (W.facts world.old) table.new }
    ensures keeps { table.new.parts ≡ table.old.parts }
    ensures fragment { IfOk result (λ part. part.fragment ≡ fragment.now) }
    ensures seen { IfOk result (λ part.
        IsRecord (W.facts world.old) (tree_of fragment.now) part.seen) }
{
    let tree = Tree::Fragment(fragment.fragment.clone()?);
    let seen = record_of(alloc, world, kept, &tree, table)?;
    let seen = Shared::new(alloc, seen)?;
    let fragment = fragment.copy()?;
    let held = Shared::new(alloc, Held { fragment, seen })?;
    Ok(Part { held })
}
