//! A fragment, with all that was observed of it.
ghost use Rattle.std.specs.Prelude.{◌≡◌, ◌∷◌, IfOk, map};
ghost use Rattle.gql_merge.specs.Between.{definition_of};
ghost use Rattle.gql_reads.specs.Observations.{Hold};
ghost use Rattle.gql_reads.specs.Readings.{flat, members_of as fragments_in, own_name};
ghost use Rattle.gql_reads.specs.Tables.{AllHold, Keeps};
ghost use Rattle.gql_pairs.specs.Fragments as spec;
ghost use Rattle.gql_pairs.specs.Fragments.{KeptFragment};

use gql_ast::{Definition, Shared, Tree};
use gql_facts::{FragmentFact, World};
use gql_reads::{KeptParts, ReadTable, Reading, reads_of};
use gql_types::HasName;
use std::alloc::{AllocError, Global};
use std::marker::Model;

/// A fragment, with all that was observed of it and of the fragments that it reaches. Copies share
/// it. Contracts see that its name was observed, too.
pub struct Member {
    fragment: FragmentFact,
    reading: Shared<Reading>,
}

impl Drop for Member {
    fn drop(self) {
        let Member {
            fragment: _,
            reading: _,
        } = self;
    }
}

impl Model for Member {
    ghost use Rattle.std.specs.Coded.{codes};
    ghost use Rattle.std.specs.Prelude.{◌∷◌};
    ghost use Rattle.gql_facts.specs.contracts.fact.Fact as fact;
    ghost use Rattle.gql_facts.specs.contracts.fact.FragmentFact as fragment_fact;
    ghost use Rattle.gql_facts.specs.contracts.key.Key as key;
    ghost use Rattle.gql_pairs.specs.Fragments.{KeptFragment};
    ghost use Rattle.gql_reads.specs.Readings.{flat, members_of, own_name};

    ghost Value = { KeptFragment };

    ghost coded = { Prim.hlevel (
      codes,
      fragment_fact.the_row.coded,
      key.the_row.coded,
      fact.the_row.coded,
    ) };

    ghost view = { λ m. record {
      fragment = m.fragment;
      reached = members_of m.reading.parts.items;
      observations = own_name m.fragment ∷ flat m.reading;
    } };
}

impl HasName for Member {
    ghost use Rattle.gql_merge.specs.Between.{name_of};

    ghost name = { λ m. name_of m.fragment };

    fn name(&self) -> &str {
        self.fragment.fragment.get().name.as_str()
    }
}

impl Member {
    /// The fragment.
    pub fn fragment(&self) -> &FragmentFact
        ensures { result.now ≡ self.now.fragment }
    {
        &self.fragment
    }

    /// What was observed, but for the name.
    pub fn reading(&self) -> &Reading
        ensures reached { fragments_in result.now.parts.items ≡ self.now.reached }
        ensures observations { self.now.observations
            ≡ own_name self.now.fragment ∷ flat result.now }
    {
        self.reading.get()
    }

    /// An equal member, which shares what this one has.
    pub fn copy(&self) -> Result<Member, AllocError>
        ensures { IfOk result (λ m. m ≡ self.now) }
    {
        Ok(Member {
            fragment: self.fragment.copy()?,
            reading: self.reading.clone()?,
        })
    }
}

/// A fragment as a definition.
fn as_definition(fragment: &FragmentFact) -> Result<Definition, AllocError>
    ensures { IfOk result (λ d. d ≡ definition_of fragment.now) }
{
    Ok(Definition {
        file: fragment.file.copy()?,
        tree: Tree::Fragment(fragment.fragment.clone()?),
    })
}

/// Reads a fragment that is the one of its name.
pub fn member_of<W: World, K: KeptParts>(
    alloc: Global,
    world: &mut W,
    kept: &K,
    reads: &mut ReadTable,
    fragment: &FragmentFact,
) -> Result<Member, AllocError>
    requires holds { AllHold (W.facts world.old) reads.old }
    requires named { spec.IsFragmentOfName (W.facts world.old) fragment.now }
    ensures facts { W.facts world.new ≡ W.facts world.old }
    ensures names { W.names world.new ≡ W.names world.old }
    ensures lent { W.lent world.new ≡ W.lent world.old }
    ensures holds { AllHold (W.facts world.old) reads.new }
    ensures reads_keep { Keeps reads.old reads.new }
    ensures fragment { IfOk result (λ m. m.fragment ≡ fragment.now) }
    ensures hold { IfOk result (λ m. Hold (W.facts world.old) m.observations) }
    ensures certificate { IfOk result spec.IsCertified }
{
    let definition = as_definition(fragment)?;
    let read = reads_of(alloc, world, kept, reads, &definition)?;
    let reading = Shared::new(alloc, read)?;
    let fragment = fragment.copy()?;
    Ok(Member { fragment, reading })
}

/// The fragments of these members.
pub fn fragments_of(alloc: Global, members: &[Member]) -> Result<Vec<FragmentFact>, AllocError>
    ensures { IfOk result (λ found. found.items
        ≡ map (λ (m : KeptFragment). m.fragment) members.now) }
{
    let mut found = Vec::with_capacity(alloc, members.len())?;
    for member in members {
        found.push(member.fragment().copy()?)?;
    }
    Ok(found)
}
