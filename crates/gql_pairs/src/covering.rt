//! Groups that are added to a table, until it has an entry for all that a definition spreads.
ghost use Rattle.std.specs.Prelude.{◌≡◌, ◌<◌, ◌+◌, ◌++◌, ◌∷◌, [], ℕ, List, drop, length, take, Contains, IfOk, IsTrue, OnErr, OnOk};
ghost use Rattle.gql_ast.specs.declared.fault.Fault.{Fault as AFault};
ghost use Rattle.gql_facts.specs.Members.{Lists};
ghost use Rattle.gql_facts.specs.Reads.{Reaches};
ghost use Rattle.gql_facts.specs.declared.fact.FragmentFact.{FragmentFact as AFragment};
ghost use Rattle.gql_merge.specs.Between.{name_of};
ghost use Rattle.gql_merge.specs.ByFragments.{IsPairOf};
ghost use Rattle.gql_merge.specs.MergeFaults.{IsMergeFault};
ghost use Rattle.gql_pairs.specs.Fragments.{IsCertified, IsFragmentOfName, KeptFragment};
ghost use Rattle.gql_pairs.specs.Gathering.{AreNames};
ghost use Rattle.gql_pairs.specs.Groups.{AreClean, AreCleanBetween, MembersHold};
ghost use Rattle.gql_pairs.specs.Growing.{IsBaseAt};
ghost use Rattle.gql_pairs.specs.Tables.{AllHold, HasPair, HasPairs, Keeps};
ghost use Rattle.gql_reads.specs.Tables as of_reads;

use crate::group::{Group, clean_group, group_of};
use crate::growing::{grown_members, largest_base, names_of};
use crate::member::Member;
use crate::members::members_of;
use crate::table::PairTable;
use gql_ast::{Definition, Shared};
use gql_facts::{FragmentFact, World};
use gql_merge::spread_sets;
use gql_reads::{KeptParts, ReadTable};
use std::alloc::{AllocError, Global};

/// The group of these members, which are those of some fragments. If nothing is bad between any two
/// of these, nothing is searched.
fn group_of_members<W: World>(
    alloc: Global,
    world: &mut W,
    members: Vec<Member>,
    are_clean: bool,
) -> Result<Group, AllocError>
    requires hold { MembersHold (W.facts world.old) members.items }
    requires certified { (x : KeptFragment) → Contains members.items x → IsCertified x }
    requires clean { IsTrue are_clean → AreClean (W.facts world.old) members.items }
    ensures facts { W.facts world.new ≡ W.facts world.old }
    ensures names { W.names world.new ≡ W.names world.old }
    ensures lent { W.lent world.new ≡ W.lent world.old }
    ensures members { IfOk result (λ group. group.members ≡ members.items) }
{
    if are_clean {
        return clean_group(alloc, members);
    }
    group_of(alloc, world, members)
}

impl PairTable {
    /// Adds a group.
    fn add(&mut self, alloc: Global, group: Group) -> Result<(), AllocError>
        ensures ok { OnOk result (self.new ≡ self.old ++ group ∷ []) }
        ensures err { OnErr result (self.new ≡ self.old) }
    {
        let group = Shared::new(alloc, group)?;
        self.groups.push(group)?;
        Ok(())
    }

    /// Adds a group, and drops the one at this place.
    fn replace(&mut self, alloc: Global, at: usize, group: Group) -> Result<(), AllocError>
        requires { at < length self.old }
        ensures ok { OnOk result
            (self.new ≡ take at (self.old ++ group ∷ [])
            ++ drop (at + 1) (self.old ++ group ∷ [])) }
        ensures err { OnErr result (self.new ≡ self.old) }
    {
        let group = Shared::new(alloc, group)?;
        self.groups.push(group)?;
        self.groups.remove(at);
        Ok(())
    }

    /// Adds a group of these fragments.
    fn cover_anew<W: World, K: KeptParts>(
        &mut self,
        alloc: Global,
        world: &mut W,
        kept: &K,
        reads: &mut ReadTable,
        fragments: &[FragmentFact],
        are_clean: bool,
    ) -> Result<(), AllocError>
        requires holds { AllHold (W.facts world.old) self.old }
        requires reads { of_reads.AllHold (W.facts world.old) reads.old }
        requires named { (g : AFragment) → Contains fragments.now g
            → IsFragmentOfName (W.facts world.old) g }
        requires clean { IsTrue are_clean → AreCleanBetween (W.facts world.old) fragments.now }
        ensures facts { W.facts world.new ≡ W.facts world.old }
        ensures names { W.names world.new ≡ W.names world.old }
        ensures lent { W.lent world.new ≡ W.lent world.old }
        ensures reads { of_reads.AllHold (W.facts world.old) reads.new }
        ensures reads_keep { of_reads.Keeps reads.old reads.new }
        ensures holds { AllHold (W.facts world.old) self.new }
        ensures keeps { Keeps self.old self.new }
        ensures has { OnOk result (HasPairs self.new fragments.now) }
    {
        let groups = self.groups.as_slice();
        let members = members_of(alloc, world, kept, groups, reads, fragments)?;
        let group = group_of_members(alloc, world, members, are_clean)?;
        self.add(alloc, group)
    }

    /// Adds a group of these fragments, between any two of which nothing is bad, in place of the one
    /// that stands here: it has no clashes, and only members of their names.
    fn grow<W: World, K: KeptParts>(
        &mut self,
        alloc: Global,
        world: &mut W,
        kept: &K,
        reads: &mut ReadTable,
        fragments: &[FragmentFact],
        at: usize,
    ) -> Result<(), AllocError>
        requires holds { AllHold (W.facts world.old) self.old }
        requires reads { of_reads.AllHold (W.facts world.old) reads.old }
        requires named { (g : AFragment) → Contains fragments.now g
            → IsFragmentOfName (W.facts world.old) g }
        requires clean { AreCleanBetween (W.facts world.old) fragments.now }
        requires base { (names : List (List ℕ)) × AreNames names fragments.now
            × IsBaseAt self.old names at }
        ensures facts { W.facts world.new ≡ W.facts world.old }
        ensures names { W.names world.new ≡ W.names world.old }
        ensures lent { W.lent world.new ≡ W.lent world.old }
        ensures reads { of_reads.AllHold (W.facts world.old) reads.new }
        ensures reads_keep { of_reads.Keeps reads.old reads.new }
        ensures holds { AllHold (W.facts world.old) self.new }
        ensures keeps { Keeps self.old self.new }
        ensures has { OnOk result (HasPairs self.new fragments.now) }
    {
        let groups = self.groups.as_slice();
        let base = groups[at].get();
        let members = grown_members(alloc, world, kept, groups, base, reads, fragments)?;
        let group = clean_group(alloc, members)?;
        self.replace(alloc, at, group)
    }

    /// Adds a group of these fragments, if there is none of all of them. If nothing is bad between
    /// any two of them, nothing is searched, and the largest group without clashes that has only
    /// members of their names is dropped: the new one has its entries.
    fn cover_all<W: World, K: KeptParts>(
        &mut self,
        alloc: Global,
        world: &mut W,
        kept: &K,
        reads: &mut ReadTable,
        fragments: &[FragmentFact],
        are_clean: bool,
    ) -> Result<(), AllocError>
        requires holds { AllHold (W.facts world.old) self.old }
        requires reads { of_reads.AllHold (W.facts world.old) reads.old }
        requires named { (g : AFragment) → Contains fragments.now g
            → IsFragmentOfName (W.facts world.old) g }
        requires clean { IsTrue are_clean → AreCleanBetween (W.facts world.old) fragments.now }
        ensures facts { W.facts world.new ≡ W.facts world.old }
        ensures names { W.names world.new ≡ W.names world.old }
        ensures lent { W.lent world.new ≡ W.lent world.old }
        ensures reads { of_reads.AllHold (W.facts world.old) reads.new }
        ensures reads_keep { of_reads.Keeps reads.old reads.new }
        ensures holds { AllHold (W.facts world.old) self.new }
        ensures keeps { Keeps self.old self.new }
        ensures has { OnOk result (HasPairs self.new fragments.now) }
    {
        if self.has_all(fragments) {
            return Ok(());
        }
        if are_clean {
            let names = names_of(alloc, fragments)?;
            if let Some(at) = largest_base(self.groups.as_slice(), &names) {
                return self.grow(alloc, world, kept, reads, fragments, at);
            }
        }
        self.cover_anew(alloc, world, kept, reads, fragments, are_clean)
    }

    /// Keeps an entry for each two of these fragments, and for each one with itself. If there is no
    /// group of all of them, what clashes between them is searched. Whether it succeeds or an
    /// allocation fails, no entry is lost, and all entries hold.
    pub fn cover<W: World, K: KeptParts>(
        &mut self,
        alloc: Global,
        world: &mut W,
        kept: &K,
        reads: &mut ReadTable,
        fragments: &[FragmentFact],
    ) -> Result<(), AllocError>
        requires holds { AllHold (W.facts world.old) self.old }
        requires reads { of_reads.AllHold (W.facts world.old) reads.old }
        requires named { (g : AFragment) → Contains fragments.now g
            → IsFragmentOfName (W.facts world.old) g }
        ensures facts { W.facts world.new ≡ W.facts world.old }
        ensures names { W.names world.new ≡ W.names world.old }
        ensures lent { W.lent world.new ≡ W.lent world.old }
        ensures reads { of_reads.AllHold (W.facts world.old) reads.new }
        ensures reads_keep { of_reads.Keeps reads.old reads.new }
        ensures holds { AllHold (W.facts world.old) self.new }
        ensures keeps { Keeps self.old self.new }
        ensures has { OnOk result (HasPairs self.new fragments.now) }
    {
        self.cover_all(alloc, world, kept, reads, fragments, false)
    }

    /// As `cover`, if nothing is bad between any two of these fragments: nothing is searched.
    pub fn cover_clean<W: World, K: KeptParts>(
        &mut self,
        alloc: Global,
        world: &mut W,
        kept: &K,
        reads: &mut ReadTable,
        fragments: &[FragmentFact],
    ) -> Result<(), AllocError>
        requires holds { AllHold (W.facts world.old) self.old }
        requires reads { of_reads.AllHold (W.facts world.old) reads.old }
        requires named { (g : AFragment) → Contains fragments.now g
            → IsFragmentOfName (W.facts world.old) g }
        requires clean { AreCleanBetween (W.facts world.old) fragments.now }
        ensures facts { W.facts world.new ≡ W.facts world.old }
        ensures names { W.names world.new ≡ W.names world.old }
        ensures lent { W.lent world.new ≡ W.lent world.old }
        ensures reads { of_reads.AllHold (W.facts world.old) reads.new }
        ensures reads_keep { of_reads.Keeps reads.old reads.new }
        ensures holds { AllHold (W.facts world.old) self.new }
        ensures keeps { Keeps self.old self.new }
        ensures has { OnOk result (HasPairs self.new fragments.now) }
    {
        self.cover_all(alloc, world, kept, reads, fragments, true)
    }

    /// Keeps an entry for each two fragments that one selection set of a definition spreads, in any
    /// number of steps, but for what is below its fields; a fragment with itself is such a pair,
    /// too. `members` are the fragments that the definition reaches. If it is known that the
    /// definition has no fault by the merging of fields, nothing is searched. Whether it succeeds or
    /// an allocation fails, no entry is lost, and all entries hold.
    pub fn cover_definition<W: World, K: KeptParts>(
        &mut self,
        alloc: Global,
        world: &mut W,
        kept: &K,
        reads: &mut ReadTable,
        definition: &Definition,
        members: &[FragmentFact],
        is_clean: bool,
    ) -> Result<(), AllocError>
        requires holds { AllHold (W.facts world.old) self.old }
        requires reads { of_reads.AllHold (W.facts world.old) reads.old }
        requires members { Lists members.now (Reaches (W.facts world.old) definition.now) }
        requires clean { IsTrue is_clean
            → (f : AFault) → IsMergeFault (W.facts world.old) definition.now f → ⊥ }
        ensures facts { W.facts world.new ≡ W.facts world.old }
        ensures names { W.names world.new ≡ W.names world.old }
        ensures lent { W.lent world.new ≡ W.lent world.old }
        ensures reads { of_reads.AllHold (W.facts world.old) reads.new }
        ensures reads_keep { of_reads.Keeps reads.old reads.new }
        ensures holds { AllHold (W.facts world.old) self.new }
        ensures keeps { Keeps self.old self.new }
        ensures has { OnOk result ((g h : AFragment)
            → IsPairOf (W.facts world.old) definition.now g h
            → HasPair self.new (name_of g) (name_of h)) }
    {
        if self.has_all(members) {
            return Ok(());
        }
        let sets = spread_sets(alloc, definition, members)?;
        for set in sets.as_slice() {
            let fragments = set.fragments.as_slice();
            self.cover_all(alloc, world, kept, reads, fragments, is_clean)?;
        }
        Ok(())
    }
}
