//! A group that a larger one takes the place of: it has no clashes, and all its members are among the
//! fragments of the new one.
ghost use Rattle.std.specs.Prelude.{◌≡◌, ◌↔◌, Contains, IfOk, IfSome, IsTrue, OnOk};
ghost use Rattle.gql_facts.specs.declared.fact.FragmentFact.{FragmentFact as AFragment};
ghost use Rattle.gql_merge.specs.Between.{name_of};
ghost use Rattle.gql_pairs.specs.Fragments.{IsCertified, IsFragmentOfName, KeptFragment};
ghost use Rattle.gql_pairs.specs.Gathering.{AreNames, HasName};
ghost use Rattle.gql_pairs.specs.Groups.{AreMembersFor, MembersHold};
ghost use Rattle.gql_pairs.specs.Growing as spec;
ghost use Rattle.gql_pairs.specs.Tables as table;
ghost use Rattle.gql_reads.specs.Tables as of_reads;

use crate::group::Group;
use crate::member::Member;
use crate::members::member_for;
use gql_ast::{Shared, Text};
use gql_facts::{FragmentFact, World};
use gql_reads::{KeptParts, ReadTable};
use indexmap::IndexSet;
use std::alloc::{AllocError, Global};

/// The names of these fragments.
pub fn names_of(alloc: Global, fragments: &[FragmentFact]) -> Result<IndexSet<Text>, AllocError>
    ensures { IfOk result (λ names. AreNames names.keys fragments.now) }
{
    let mut names = IndexSet::new(alloc);
    for fragment in fragments {
        names.insert(fragment.fragment.get().name.text.copy()?)?;
    }
    Ok(names)
}

/// Whether all members of a group have these names.
fn is_within(group: &Group, names: &IndexSet<Text>) -> bool
    ensures { IsTrue result → spec.IsWithin group.now names.now.keys }
{
    for member in group.members() {
        if !names.contains(&member.fragment().fragment.get().name.text) {
            return false;
        }
    }
    true
}

/// Whether a group has no clashes, more than so many members, and only such of these names.
fn is_base(group: &Group, names: &IndexSet<Text>, most: usize) -> bool
    ensures { IsTrue result → spec.IsBase names.now.keys group.now }
{
    if group.members().len() <= most || !group.is_clean() {
        return false;
    }
    is_within(group, names)
}

/// The place of the group with the most members, of those without clashes that have only members of
/// these names.
pub fn largest_base(groups: &[Shared<Group>], names: &IndexSet<Text>) -> Option<usize>
    ensures { IfSome result (spec.IsBaseAt groups.now names.now.keys) }
{
    let mut found = None;
    let mut most = 0;
    for at in 0..groups.len() {
        let group = groups[at].get();
        if is_base(group, names, most) {
            most = group.members().len();
            found = Some(at);
        }
    }
    found
}

/// Adds the member for a fragment, unless a group has one of its name.
fn add_other<W: World, K: KeptParts>(
    alloc: Global,
    world: &mut W,
    kept: &K,
    groups: &[Shared<Group>],
    base: &Group,
    reads: &mut ReadTable,
    fragment: &FragmentFact,
    members: &mut Vec<Member>,
) -> Result<(), AllocError>
    requires groups { table.AllHold (W.facts world.old) groups.now }
    requires holds { of_reads.AllHold (W.facts world.old) reads.old }
    requires named { IsFragmentOfName (W.facts world.old) fragment.now }
    ensures facts { W.facts world.new ≡ W.facts world.old }
    ensures names { W.names world.new ≡ W.names world.old }
    ensures lent { W.lent world.new ≡ W.lent world.old }
    ensures holds { of_reads.AllHold (W.facts world.old) reads.new }
    ensures reads_keep { of_reads.Keeps reads.old reads.new }
    ensures added { OnOk result (spec.AddsOther (W.facts world.old) base.now fragment.now
        members.old.items members.new.items) }
{
    if base.has_name(fragment.fragment.get().name.as_str()) {
        return Ok(());
    }
    members.push(member_for(alloc, world, kept, groups, reads, fragment)?)?;
    Ok(())
}

/// The members of a group, and those for the others of these fragments.
pub fn grown_members<W: World, K: KeptParts>(
    alloc: Global,
    world: &mut W,
    kept: &K,
    groups: &[Shared<Group>],
    base: &Group,
    reads: &mut ReadTable,
    fragments: &[FragmentFact],
) -> Result<Vec<Member>, AllocError>
    requires groups { table.AllHold (W.facts world.old) groups.now }
    requires base { Contains groups.now base.now }
    requires within { (x : KeptFragment) → Contains base.now.members x
        → HasName fragments.now (name_of x.fragment) }
    requires holds { of_reads.AllHold (W.facts world.old) reads.old }
    requires named { (g : AFragment) → Contains fragments.now g
        → IsFragmentOfName (W.facts world.old) g }
    ensures facts { W.facts world.new ≡ W.facts world.old }
    ensures names { W.names world.new ≡ W.names world.old }
    ensures lent { W.lent world.new ≡ W.lent world.old }
    ensures holds { of_reads.AllHold (W.facts world.old) reads.new }
    ensures reads_keep { of_reads.Keeps reads.old reads.new }
    ensures kept { IfOk result (λ members. (x : KeptFragment) → Contains base.now.members x
        → Contains members.items x) }
    ensures members { IfOk result (λ members. AreMembersFor fragments.now members.items) }
    ensures hold { IfOk result (λ members. MembersHold (W.facts world.old) members.items) }
    ensures certified { IfOk result (λ members.
        (m : KeptFragment) → Contains members.items m → IsCertified m) }
{
    let mut members = base.copies(alloc)?;
    for fragment in fragments {
        add_other(
            alloc,
            world,
            kept,
            groups,
            base,
            reads,
            fragment,
            &mut members,
        )?;
    }
    Ok(members)
}
