//! The table of what clashes between fragments.
ghost use Rattle.std.specs.Prelude.{◌≡◌, ◌↔◌, ◌⊎◌, [], Contains, IfOk, IfSome, IsTrue, MatchOption, OnOk};
ghost use Rattle.gql_facts.specs.Members.{Lists};
ghost use Rattle.gql_facts.specs.Worlds.{Facts};
ghost use Rattle.gql_facts.specs.declared.fact.FragmentFact.{FragmentFact as AFragment};
ghost use Rattle.gql_merge.specs.Between.{IsBadBetween, PairReads, definition_of, name_of};
ghost use Rattle.gql_pairs.specs.Fragments.{IsFragmentOfName};
ghost use Rattle.gql_pairs.specs.Groups.{IsPairCertified, KeptPair};
ghost use Rattle.gql_pairs.specs.Tables as spec;
ghost use Rattle.gql_reads.specs.Observations.{Hold, keys_of};

use crate::group::{Group, PairBad};
use gql_ast::{Definition, Same, Shared, Tree};
use gql_facts::{FragmentFact, World};
use gql_reads::{NoParts, ReadTable};
use std::alloc::{AllocError, Global};
use std::marker::Model;

/// What clashes between fragments, for all definitions that spread them. Contracts see a list of
/// groups of fragments. There is an entry for each two fragments of a group, and for each one with
/// itself.
pub struct PairTable {
    pub(crate) groups: Vec<Shared<Group>>,
}

impl Drop for PairTable {
    fn drop(self) {
        let PairTable { groups: _ } = self;
    }
}

impl Model for PairTable {
    ghost use Rattle.std.specs.Coded.{codes};
    ghost use Rattle.std.specs.Prelude.{List};
    ghost use Rattle.gql_facts.specs.contracts.fact.Fact as fact;
    ghost use Rattle.gql_facts.specs.contracts.fact.FragmentFact as fragment_fact;
    ghost use Rattle.gql_facts.specs.contracts.key.Key as key;
    ghost use Rattle.gql_merge.specs.contracts.two_fragments.FragmentClash as clash;
    ghost use Rattle.gql_pairs.specs.Groups.{KeptGroup};

    ghost Value = { List KeptGroup };

    ghost coded = { Prim.hlevel (
      codes,
      fragment_fact.the_row.coded,
      key.the_row.coded,
      fact.the_row.coded,
      clash.the_row.coded,
    ) };

    ghost view = { λ t. t.groups.items };
}

/// The fragment that a definition is.
fn fragment_of(definition: &Definition) -> Result<FragmentFact, AllocError>
    requires { (g : AFragment) × (definition.now ≡ definition_of g) }
    ensures { IfOk result (λ f. definition.now ≡ definition_of f) }
{
    let Tree::Fragment(fragment) = &definition.tree else {
        unreachable!();
    };
    Ok(FragmentFact {
        file: definition.file.copy()?,
        fragment: fragment.clone()?,
    })
}

/// These two fragments, or the one that they are.
fn both_of(
    alloc: Global,
    first: FragmentFact,
    second: FragmentFact,
) -> Result<Vec<FragmentFact>, AllocError>
    ensures has_first { IfOk result (λ both. Contains both.items first) }
    ensures has_second { IfOk result (λ both. Contains both.items second) }
    ensures only { IfOk result (λ both. (g : AFragment) → Contains both.items g
        → (g ≡ first) ⊎ (g ≡ second)) }
{
    let mut both = Vec::new(alloc);
    let is_one = first.same(&second);
    both.push(first)?;
    if !is_one {
        both.push(second)?;
    }
    Ok(both)
}

/// What some group keeps of the two fragments of these names.
fn pair_in(
    alloc: Global,
    groups: &[Shared<Group>],
    first: &str,
    second: &str,
) -> Result<Option<PairBad>, AllocError>
    ensures value { IfOk result (λ found. MatchOption found
        ((k : KeptPair) → spec.IsEntry groups.now first.now second.now k → ⊥)
        (λ p. spec.IsEntry groups.now first.now second.now p)) }
    ensures certificate { IfOk result (λ found.
        IfSome found (λ p. IsPairCertified first.now second.now p)) }
{
    for group in groups {
        let found = group.get().pair(alloc, first, second)?;
        if found.is_some() {
            return Ok(found);
        }
    }
    Ok(None)
}

impl PairTable {
    /// A table without entries.
    pub fn new(alloc: Global) -> PairTable
        ensures empty { result ≡ [] }
        ensures holds { (facts : Facts) → spec.AllHold facts result }
    {
        PairTable {
            groups: Vec::new(alloc),
        }
    }

    /// Whether an entry is kept for these two names; their order makes no difference. It takes no
    /// memory.
    pub fn has(&self, first: &str, second: &str) -> bool
        ensures { IsTrue result ↔ spec.HasPair self.now first.now second.now }
    {
        for group in self.groups.as_slice() {
            if group.get().has(first, second) {
                return true;
            }
        }
        false
    }

    /// What is kept of the two fragments of these names, if there is an entry.
    pub fn get(
        &self,
        alloc: Global,
        first: &str,
        second: &str,
    ) -> Result<Option<PairBad>, AllocError>
        ensures value { IfOk result (λ found. MatchOption found
            (spec.HasPair self.now first.now second.now → ⊥)
            (λ p. spec.IsEntry self.now first.now second.now p)) }
        ensures certificate { IfOk result (λ found.
            IfSome found (λ p. IsPairCertified first.now second.now p)) }
    {
        let found = pair_in(alloc, self.groups.as_slice(), first, second)?;
        Ok(found)
    }

    /// Whether there is one group of all these fragments, or none of these.
    pub(crate) fn has_all(&self, fragments: &[FragmentFact]) -> bool
        ensures { IsTrue result → spec.HasPairs self.now fragments.now }
    {
        if fragments.is_empty() {
            return true;
        }
        for group in self.groups.as_slice() {
            if group.get().has_all(fragments) {
                return true;
            }
        }
        false
    }

    /// The bad pairs between two fragments: those that are reached from a field of the one's own
    /// set, or of its inline fragments, and such a field of the other. The two may be one. An entry
    /// for the two is kept. Whether it succeeds or an allocation fails, no entry is lost, and all
    /// entries hold.
    pub fn bad<W: World>(
        &mut self,
        alloc: Global,
        world: &mut W,
        first: &Definition,
        second: &Definition,
    ) -> Result<PairBad, AllocError>
        requires holds { spec.AllHold (W.facts world.old) self.old }
        requires first { (g : AFragment) × (first.now ≡ definition_of g)
            × IsFragmentOfName (W.facts world.old) g }
        requires second { (g : AFragment) × (second.now ≡ definition_of g)
            × IsFragmentOfName (W.facts world.old) g }
        ensures facts { W.facts world.new ≡ W.facts world.old }
        ensures names { W.names world.new ≡ W.names world.old }
        ensures lent { W.lent world.new ≡ W.lent world.old }
        ensures holds { spec.AllHold (W.facts world.old) self.new }
        ensures keeps { spec.Keeps self.old self.new }
        ensures has { OnOk result ((g h : AFragment) → first.now ≡ definition_of g
            → second.now ≡ definition_of h
            → spec.HasPair self.new (name_of g) (name_of h)) }
        ensures bad { IfOk result (λ pair. (g h : AFragment) → first.now ≡ definition_of g
            → second.now ≡ definition_of h
            → Lists pair.bad (IsBadBetween (W.facts world.old) g h)) }
        ensures keys { IfOk result (λ pair. (g h : AFragment) → first.now ≡ definition_of g
            → second.now ≡ definition_of h
            → Lists (keys_of pair.observations) (PairReads (W.facts world.old) g h)) }
        ensures hold { IfOk result (λ pair. Hold (W.facts world.old) pair.observations) }
        ensures certificate { IfOk result (λ pair. (g h : AFragment)
            → first.now ≡ definition_of g → second.now ≡ definition_of h
            → IsPairCertified (name_of g) (name_of h) pair) }
    {
        let first = fragment_of(first)?;
        let second = fragment_of(second)?;
        let name = first.fragment.get().name.text.copy()?;
        let other = second.fragment.get().name.text.copy()?;
        let both = both_of(alloc, first, second)?;
        let mut reads = ReadTable::new(alloc);
        self.cover(alloc, world, &NoParts {}, &mut reads, both.as_slice())?;
        let found = self.get(alloc, name.as_str(), other.as_str())?;
        Ok(found.unwrap())
    }
}
