//! Fragments, with all that clashes between any two of them.
ghost use Rattle.std.specs.Prelude.{◌≡◌, ◌++◌, ◌↔◌, [], IfOk, IfSome, IsTrue, MatchBool, MatchOption, OnOk, Contains};
ghost use Rattle.std.specs.Option.{option_copied};
ghost use Rattle.gql_facts.specs.declared.fact.FragmentFact.{FragmentFact as AFragment};
ghost use Rattle.gql_merge.specs.Between.{name_of};
ghost use Rattle.gql_pairs.specs.Fragments.{KeptFragment, IsCertified as IsFragmentCertified};
ghost use Rattle.gql_pairs.specs.Groups as spec;
ghost use Rattle.gql_pairs.specs.Groups.{KeptPair};

use crate::gather::reached_of;
use crate::member::{Member, fragments_of};
use gql_ast::Shared;
use gql_facts::{FragmentFact, World};
use gql_merge::{BadPair, FragmentClash, fragment_clashes};
use gql_types::Named;
use std::alloc::{AllocError, Global};
use std::marker::Model;

/// What is kept of two fragments: the bad pairs between the two, and what was observed of each.
/// Contracts see the observations as one list.
pub struct PairBad {
    bad: Vec<BadPair>,
    first: Member,
    second: Member,
}

impl Drop for PairBad {
    fn drop(self) {
        let PairBad {
            bad: _,
            first: _,
            second: _,
        } = self;
    }
}

impl Model for PairBad {
    ghost use Rattle.std.specs.Coded.{codes};
    ghost use Rattle.std.specs.Prelude.{◌++◌};
    ghost use Rattle.gql_facts.specs.contracts.fact.Fact as fact;
    ghost use Rattle.gql_facts.specs.contracts.key.Key as key;
    ghost use Rattle.gql_merge.specs.contracts.bad_pair.BadPair as bad_pair;
    ghost use Rattle.gql_pairs.specs.Groups.{KeptPair};

    ghost Value = { KeptPair };

    ghost coded = { Prim.hlevel (
      codes,
      bad_pair.the_row.coded,
      key.the_row.coded,
      fact.the_row.coded,
    ) };

    ghost view = { λ p. record {
      bad = p.bad.items;
      observations = p.first.observations ++ p.second.observations;
    } };
}

impl PairBad {
    /// The bad pairs.
    pub fn bad(&self) -> &[BadPair]
        ensures { result.now ≡ self.now.bad }
    {
        self.bad.as_slice()
    }

    /// The two fragments, with what was observed of each.
    pub fn sides(&self) -> (&Member, &Member)
        ensures { self.now.observations
            ≡ result.0.now.observations ++ result.1.now.observations }
    {
        (&self.first, &self.second)
    }
}

/// Fragments, with all that clashes between any two of them, under the names of the two. Wherever
/// a world gives the answers that were observed of two members, this is exactly what clashes
/// between the two. Only `group_of` makes one, and `with_members` one of fewer members.
pub struct Group {
    members: Named<Member>,
    clashes: Shared<Vec<FragmentClash>>,
}

impl Drop for Group {
    fn drop(self) {
        let Group {
            members: _,
            clashes: _,
        } = self;
    }
}

impl Model for Group {
    ghost use Rattle.std.specs.Coded.{codes};
    ghost use Rattle.gql_facts.specs.contracts.fact.Fact as fact;
    ghost use Rattle.gql_facts.specs.contracts.fact.FragmentFact as fragment_fact;
    ghost use Rattle.gql_facts.specs.contracts.key.Key as key;
    ghost use Rattle.gql_merge.specs.contracts.two_fragments.FragmentClash as clash;
    ghost use Rattle.gql_pairs.specs.Groups.{IsCertified, KeptGroup};

    ghost Value = { KeptGroup };

    ghost coded = { Prim.hlevel (
      codes,
      fragment_fact.the_row.coded,
      key.the_row.coded,
      fact.the_row.coded,
      clash.the_row.coded,
    ) };

    ghost view = { λ g. record { members = g.members; clashes = g.clashes.items } };

    ghost invariant = { λ g.
        IsCertified (record { members = g.members; clashes = g.clashes.items }) };
}

/// Adds a bad pair, if it is under these names.
fn add_if_named(
    first: &str,
    second: &str,
    clash: &FragmentClash,
    bad: &mut Vec<BadPair>,
) -> Result<(), AllocError>
    ensures { OnOk result (bad.new.items
        ≡ bad.old.items ++ spec.bad_if_named first.now second.now clash.now) }
{
    if first == clash.first.as_str() && second == clash.second.as_str() {
        bad.push(clash.bad.copy()?)?;
    }
    Ok(())
}

/// The bad pairs under these names.
fn bad_under(
    alloc: Global,
    first: &str,
    second: &str,
    clashes: &[FragmentClash],
) -> Result<Vec<BadPair>, AllocError>
    ensures { IfOk result (λ bad. bad.items
        ≡ spec.bad_under first.now second.now clashes.now) }
{
    let mut bad = Vec::new(alloc);
    for clash in clashes {
        add_if_named(first, second, clash, &mut bad)?;
    }
    Ok(bad)
}

impl Group {
    /// The members.
    pub fn members(&self) -> &[Member]
        ensures { result.now ≡ self.now.members }
    {
        self.members.as_slice()
    }

    /// The member of this name.
    fn member(&self, name: &str) -> Option<&Member>
        ensures { MatchOption (option_copied result)
            (spec.HasMember self.now.members name.now → ⊥)
            (λ m. Contains self.now.members m × (name_of m.fragment ≡ name.now)) }
    {
        let _ = &self.members;
        let Some(found) = self.members.get(name) else {
            return None;
        };
        Some(found)
    }

    /// Copies of the members, which share what these have. Wherever what was observed of one holds,
    /// it is right.
    pub fn copies(&self, alloc: Global) -> Result<Vec<Member>, AllocError>
        ensures members { IfOk result (λ copies. copies.items ≡ self.now.members) }
        ensures certificate { IfOk result (λ copies. (x : KeptFragment)
            → Contains copies.items x → IsFragmentCertified x) }
    {
        let members = self.members.as_slice();
        let mut copies = Vec::with_capacity(alloc, members.len())?;
        for member in members {
            copies.push(member.copy()?)?;
        }
        Ok(copies)
    }

    /// Whether it has no members.
    pub fn has_none(&self) -> bool
        ensures { IsTrue result → self.now.members ≡ [] }
    {
        self.members.as_slice().is_empty()
    }

    /// Whether it has no clashes.
    pub fn is_clean(&self) -> bool
        ensures { IsTrue result → self.now.clashes ≡ [] }
    {
        self.clashes.get().is_empty()
    }

    /// The member of this name. Wherever what was observed of it holds, it is right.
    pub fn known(&self, name: &str) -> Option<&Member>
        ensures value { IfSome (option_copied result) (λ m.
            Contains self.now.members m × (name_of m.fragment ≡ name.now)) }
        ensures certificate { IfSome (option_copied result) IsFragmentCertified }
    {
        let _ = &self.members;
        self.member(name)
    }

    /// Whether it has a fragment of this name.
    pub fn has_name(&self, name: &str) -> bool
        ensures { MatchBool result (spec.HasMember self.now.members name.now)
            (spec.HasMember self.now.members name.now → ⊥) }
    {
        let Some(_member) = self.members.get(name) else {
            return false;
        };
        true
    }

    /// Whether it has fragments of both names. It takes no memory.
    pub fn has(&self, first: &str, second: &str) -> bool
        ensures { MatchBool result
            ((k : KeptPair) × spec.IsPairIn self.now first.now second.now k)
            ((k : KeptPair) → spec.IsPairIn self.now first.now second.now k → ⊥) }
    {
        if !self.has_name(first) {
            return false;
        }
        self.has_name(second)
    }

    /// Whether it has fragments of the names of all these fragments.
    pub fn has_all(&self, fragments: &[FragmentFact]) -> bool
        ensures { IsTrue result → (g : AFragment) → Contains fragments.now g
            → spec.HasMember self.now.members (name_of g) }
    {
        for fragment in fragments {
            if !self.has_name(fragment.fragment.get().name.as_str()) {
                return false;
            }
        }
        true
    }

    /// What is kept of the two fragments of these names, if it has both.
    pub fn pair(
        &self,
        alloc: Global,
        first: &str,
        second: &str,
    ) -> Result<Option<PairBad>, AllocError>
        ensures value { IfOk result (λ found. MatchOption found
            ((k : KeptPair) → spec.IsPairIn self.now first.now second.now k → ⊥)
            (λ p. spec.IsPairIn self.now first.now second.now p)) }
        ensures certificate { IfOk result (λ found.
            IfSome found (λ p. spec.IsPairCertified first.now second.now p)) }
    {
        let Some(one) = self.member(first) else {
            return Ok(None);
        };
        let Some(other) = self.member(second) else {
            return Ok(None);
        };
        let bad = bad_under(alloc, first, second, self.clashes.get().as_slice())?;
        Ok(Some(PairBad {
            bad,
            first: one.copy()?,
            second: other.copy()?,
        }))
    }

    /// The group of some of its members.
    pub fn with_members(&self, alloc: Global, members: Vec<Member>) -> Result<Group, AllocError>
        requires { (x : KeptFragment) → Contains members.items x → Contains self.now.members x }
        ensures members { IfOk result (λ g. g.members ≡ members.items) }
        ensures clashes { IfOk result (λ g. g.clashes ≡ self.now.clashes) }
    {
        Ok(Group {
            members: Named::new(alloc, members)?,
            clashes: self.clashes.clone()?,
        })
    }
}

/// The group of these fragments, between any two of which nothing is bad. Nothing is searched.
pub fn clean_group(alloc: Global, members: Vec<Member>) -> Result<Group, AllocError>
    requires clean { spec.AreSomewhereClean members.items }
    requires certified { (x : KeptFragment) → Contains members.items x → IsFragmentCertified x }
    ensures members { IfOk result (λ g. g.members ≡ members.items) }
    ensures clashes { IfOk result (λ g. g.clashes ≡ []) }
{
    let clashes = Shared::new(alloc, Vec::new(alloc))?;
    let members = Named::new(alloc, members)?;
    Ok(Group { members, clashes })
}

/// The group of these fragments: searches what clashes between each two of them.
pub fn group_of<W: World>(
    alloc: Global,
    world: &mut W,
    members: Vec<Member>,
) -> Result<Group, AllocError>
    requires hold { spec.MembersHold (W.facts world.old) members.items }
    requires certified { (x : KeptFragment) → Contains members.items x → IsFragmentCertified x }
    ensures facts { W.facts world.new ≡ W.facts world.old }
    ensures names { W.names world.new ≡ W.names world.old }
    ensures lent { W.lent world.new ≡ W.lent world.old }
    ensures members { IfOk result (λ g. g.members ≡ members.items) }
{
    let reached = reached_of(alloc, members.as_slice())?;
    let fragments = fragments_of(alloc, members.as_slice())?;
    let clashes = fragment_clashes(alloc, world, reached.as_slice(), fragments.as_slice())?;
    let clashes = Shared::new(alloc, clashes)?;
    let members = Named::new(alloc, members)?;
    Ok(Group { members, clashes })
}
