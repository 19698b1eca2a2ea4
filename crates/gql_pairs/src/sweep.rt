//! The entries of a table that still hold.
ghost use Rattle.std.specs.Prelude.{◌≡◌, ℕ, List, IfOk, IsTrue, OnOk};
ghost use Rattle.gql_facts.specs.Members.{Lists};
ghost use Rattle.gql_pairs.specs.Doubts.{AllHoldUndoubted, HoldUndoubted, MembersHoldUndoubted};
ghost use Rattle.gql_pairs.specs.Groups.{KeptPair, MembersHold};
ghost use Rattle.gql_pairs.specs.Sweeps as spec;
ghost use Rattle.gql_pairs.specs.Tables.{AllHold, IsEntry, KeepsHolding};

use crate::doubt::Doubt;
use crate::group::Group;
use crate::holds::member_holds;
use crate::member::Member;
use crate::table::PairTable;
use gql_ast::Shared;
use gql_facts::World;
use std::alloc::{AllocError, Global};

/// Adds a member, if it still holds.
fn keep_member<W: World>(
    alloc: Global,
    world: &mut W,
    member: &Member,
    doubt: &Doubt,
    kept: &mut Vec<Member>,
) -> Result<(), AllocError>
    requires { HoldUndoubted (W.facts world.old) doubt.now member.now.observations }
    ensures facts { W.facts world.new ≡ W.facts world.old }
    ensures names { W.names world.new ≡ W.names world.old }
    ensures lent { W.lent world.new ≡ W.lent world.old }
    ensures kept { OnOk result (spec.KeepsMember (W.facts world.old) member.now
        kept.old.items kept.new.items) }
{
    let holds = member_holds(alloc, world, member, doubt)?;
    if holds {
        kept.push(member.copy()?)?;
    }
    Ok(())
}

/// The members that still hold.
fn kept_members<W: World>(
    alloc: Global,
    world: &mut W,
    members: &[Member],
    doubt: &Doubt,
) -> Result<Vec<Member>, AllocError>
    requires { MembersHoldUndoubted (W.facts world.old) doubt.now members.now }
    ensures facts { W.facts world.new ≡ W.facts world.old }
    ensures names { W.names world.new ≡ W.names world.old }
    ensures lent { W.lent world.new ≡ W.lent world.old }
    ensures kept { IfOk result (λ kept. Lists kept.items
        (spec.IsKeptOf (W.facts world.old) members.now)) }
{
    let mut kept = Vec::new(alloc);
    for member in members {
        keep_member(alloc, world, member, doubt, &mut kept)?;
    }
    Ok(kept)
}

/// Whether all these members still hold.
fn all_hold<W: World>(
    alloc: Global,
    world: &mut W,
    members: &[Member],
    doubt: &Doubt,
) -> Result<bool, AllocError>
    requires { MembersHoldUndoubted (W.facts world.old) doubt.now members.now }
    ensures facts { W.facts world.new ≡ W.facts world.old }
    ensures names { W.names world.new ≡ W.names world.old }
    ensures lent { W.lent world.new ≡ W.lent world.old }
    ensures hold { IfOk result (λ hold. IsTrue hold
        → MembersHold (W.facts world.old) members.now) }
{
    for member in members {
        if !member_holds(alloc, world, member, doubt)? {
            return Ok(false);
        }
    }
    Ok(true)
}

/// A group without the members that no longer hold. What clashes is shared, and the whole group if
/// all hold.
fn kept_group<W: World>(
    alloc: Global,
    world: &mut W,
    group: &Shared<Group>,
    doubt: &Doubt,
) -> Result<Shared<Group>, AllocError>
    requires { MembersHoldUndoubted (W.facts world.old) doubt.now group.now.members }
    ensures facts { W.facts world.new ≡ W.facts world.old }
    ensures names { W.names world.new ≡ W.names world.old }
    ensures lent { W.lent world.new ≡ W.lent world.old }
    ensures kept { IfOk result (spec.IsGroupKept (W.facts world.old) group.now) }
{
    let all = group.get().members();
    let hold = all_hold(alloc, world, all, doubt)?;
    if hold {
        return group.clone();
    }
    let members = kept_members(alloc, world, all, doubt)?;
    let kept = group.get().with_members(alloc, members)?;
    Shared::new(alloc, kept)
}

/// Adds a group without the members that no longer hold, if one does.
fn keep_group<W: World>(
    alloc: Global,
    world: &mut W,
    group: &Shared<Group>,
    doubt: &Doubt,
    groups: &mut Vec<Shared<Group>>,
) -> Result<(), AllocError>
    requires { MembersHoldUndoubted (W.facts world.old) doubt.now group.now.members }
    ensures facts { W.facts world.new ≡ W.facts world.old }
    ensures names { W.names world.new ≡ W.names world.old }
    ensures lent { W.lent world.new ≡ W.lent world.old }
    ensures kept { OnOk result (spec.KeepsGroup (W.facts world.old) group.now
        groups.old.items groups.new.items) }
{
    let kept = kept_group(alloc, world, group, doubt)?;
    if !kept.get().has_none() {
        groups.push(kept)?;
    }
    Ok(())
}

impl PairTable {
    /// An equal table, which shares the groups of this one.
    fn copy(&self, alloc: Global) -> Result<PairTable, AllocError>
        ensures { IfOk result (λ table. table ≡ self.now) }
    {
        let mut groups = Vec::with_capacity(alloc, self.groups.len())?;
        for group in self.groups.as_slice() {
            groups.push(group.clone()?)?;
        }
        Ok(PairTable { groups })
    }

    /// The groups without the members that no longer hold.
    fn swept<W: World>(
        &self,
        alloc: Global,
        world: &mut W,
        doubt: &Doubt,
    ) -> Result<PairTable, AllocError>
        requires { AllHoldUndoubted (W.facts world.old) doubt.now self.now }
        ensures facts { W.facts world.new ≡ W.facts world.old }
        ensures names { W.names world.new ≡ W.names world.old }
        ensures lent { W.lent world.new ≡ W.lent world.old }
        ensures groups { IfOk result (spec.AreGroupsKept (W.facts world.old) self.now) }
    {
        let mut groups = Vec::with_capacity(alloc, self.groups.len())?;
        for group in self.groups.as_slice() {
            keep_group(alloc, world, group, doubt, &mut groups)?;
        }
        Ok(PairTable { groups })
    }

    /// The table without the entries that no longer hold, if only answers in doubt have changed. It
    /// shares what still holds. This one stays as it is. The world is asked only for the answers
    /// in doubt that were observed, with those about the types that they lead to.
    pub fn holding<W: World>(
        &self,
        alloc: Global,
        world: &mut W,
        doubt: &Doubt,
    ) -> Result<PairTable, AllocError>
        requires { AllHoldUndoubted (W.facts world.old) doubt.now self.now }
        ensures facts { W.facts world.new ≡ W.facts world.old }
        ensures names { W.names world.new ≡ W.names world.old }
        ensures lent { W.lent world.new ≡ W.lent world.old }
        ensures holds { IfOk result (λ table. AllHold (W.facts world.old) table) }
        ensures kept { IfOk result (λ table. KeepsHolding (W.facts world.old) self.now table) }
        ensures from { IfOk result (λ table. (n m : List ℕ) (k : KeptPair)
            → IsEntry table n m k → IsEntry self.now n m k) }
    {
        if doubt.is_none() {
            return self.copy(alloc);
        }
        self.swept(alloc, world, doubt)
    }
}
