//! The members of a group that is to be made.
ghost use Rattle.std.specs.Prelude.{◌≡◌, Contains, IfOk, IfSome};
ghost use Rattle.std.specs.Option.{option_copied};
ghost use Rattle.gql_facts.specs.declared.fact.FragmentFact.{FragmentFact as AFragment};
ghost use Rattle.gql_pairs.specs.Fragments.{IsCertified, IsFragmentOfName, KeptFragment};
ghost use Rattle.gql_pairs.specs.Groups.{AreMembersFor, MembersHold};
ghost use Rattle.gql_pairs.specs.Tables as table;
ghost use Rattle.gql_reads.specs.Observations.{Hold};
ghost use Rattle.gql_reads.specs.Tables as of_reads;

use crate::group::Group;
use crate::member::{Member, member_of};
use gql_ast::Shared;
use gql_facts::{FragmentFact, World};
use gql_reads::{KeptParts, ReadTable};
use std::alloc::{AllocError, Global};

/// The member of this name in one of these groups.
fn known_member<'t>(groups: &'t [Shared<Group>], name: &str) -> Option<&'t Member>
    ensures value { IfSome (option_copied result) (table.IsKnown groups.now name.now) }
    ensures certificate { IfSome (option_copied result) IsCertified }
{
    for group in groups {
        if let Some(member) = group.get().known(name) {
            return Some(member);
        }
    }
    None
}

/// The member for a fragment that is the one of its name: that of a group which has one, or a new
/// one.
pub fn member_for<W: World, K: KeptParts>(
    alloc: Global,
    world: &mut W,
    kept: &K,
    groups: &[Shared<Group>],
    reads: &mut ReadTable,
    fragment: &FragmentFact,
) -> Result<Member, AllocError>
    requires groups { table.AllHold (W.facts world.old) groups.now }
    requires holds { of_reads.AllHold (W.facts world.old) reads.old }
    requires named { IsFragmentOfName (W.facts world.old) fragment.now }
    ensures facts { W.facts world.new ≡ W.facts world.old }
    ensures names { W.names world.new ≡ W.names world.old }
    ensures lent { W.lent world.new ≡ W.lent world.old }
    ensures holds { of_reads.AllHold (W.facts world.old) reads.new }
    ensures reads_keep { of_reads.Keeps reads.old reads.new }
    ensures fragment { IfOk result (λ m. m.fragment ≡ fragment.now) }
    ensures hold { IfOk result (λ m. Hold (W.facts world.old) m.observations) }
    ensures certificate { IfOk result IsCertified }
{
    if let Some(member) = known_member(groups, fragment.fragment.get().name.as_str()) {
        return member.copy();
    }
    member_of(alloc, world, kept, reads, fragment)
}

/// The members for these fragments, each of which is the one of its name. They share what groups
/// have of them.
pub fn members_of<W: World, K: KeptParts>(
    alloc: Global,
    world: &mut W,
    kept: &K,
    groups: &[Shared<Group>],
    reads: &mut ReadTable,
    fragments: &[FragmentFact],
) -> Result<Vec<Member>, AllocError>
    requires groups { table.AllHold (W.facts world.old) groups.now }
    requires holds { of_reads.AllHold (W.facts world.old) reads.old }
    requires named { (g : AFragment) → Contains fragments.now g
        → IsFragmentOfName (W.facts world.old) g }
    ensures facts { W.facts world.new ≡ W.facts world.old }
    ensures names { W.names world.new ≡ W.names world.old }
    ensures lent { W.lent world.new ≡ W.lent world.old }
    ensures holds { of_reads.AllHold (W.facts world.old) reads.new }
    ensures reads_keep { of_reads.Keeps reads.old reads.new }
    ensures members { IfOk result (λ members. AreMembersFor fragments.now members.items) }
    ensures hold { IfOk result (λ members. MembersHold (W.facts world.old) members.items) }
    ensures certified { IfOk result (λ members.
        (m : KeptFragment) → Contains members.items m → IsCertified m) }
{
    let mut members = Vec::with_capacity(alloc, fragments.len())?;
    for fragment in fragments {
        members.push(member_for(alloc, world, kept, groups, reads, fragment)?)?;
    }
    Ok(members)
}
