//! The search for faults over the sets of a definition and of the fragments that it reaches.
ghost use Rattle.std.specs.Prelude.{◌≡◌, ◌<◌, ℕ, List, IfOk, Contains, bytes_eq, length, true};
ghost use Rattle.std.specs.HashMap as hash;
ghost use Rattle.gql_clashes.specs.Clashes.{SeedsOf};
ghost use Rattle.gql_clashes.specs.Numbered.{IsClashPair, IsWhole, Lists, nodes_of};
ghost use Rattle.gql_clashes.specs.Reach.{IsCleanBody, IsSpreadBy};
ghost use Rattle.gql_facts.specs.Members.{Lists as ListsAll};
ghost use Rattle.gql_facts.specs.Reads.{Reaches};
ghost use Rattle.gql_merge.specs.Clean.{AreClean, IsClean};
ghost use Rattle.gql_merge.specs.Flat.{Draws};
ghost use Rattle.gql_merge.specs.Light.{IsFirstOf, IsNameAt, IsNameSpread, IsSettled, MayAdd};
ghost use Rattle.gql_merge.specs.MergeFaults as spec;
ghost use Rattle.gql_merge.specs.MergedNodes.{sets_in};
ghost use Rattle.gql_merge.specs.Numbers.{numbers_to as the_numbers_to};
ghost use Rattle.gql_merge.specs.declared.flat.FlatSet.{FlatSet as AFlatSet};

use crate::checking::check_pairs;
use crate::clean::CleanFragments;
use crate::flat::FlatSet;
use crate::flatten::add_members;
use crate::numbers::numbered_sets;
use crate::once::each_once;
use gql_ast::{Definition, Fault, Shared};
use gql_clashes::{Pair, Sets, clashes, clashes_over_clean, spread_bodies};
use gql_facts::{FragmentFact, World};
use gql_rules::owner_of;
use indexmap::IndexSet;
use std::alloc::{AllocError, Global};
use std::collections::HashMap;

/// What a search has found: the faults of a definition, and whether its sets are clean.
#[derive(Drop)]
pub struct Found {
    pub faults: Vec<Shared<Fault>>,
    pub is_clean: bool,
}

/// The numbers below this one.
fn numbers_to(alloc: Global, count: usize) -> Result<Vec<usize>, AllocError>
    ensures { IfOk result (λ numbers. numbers.items ≡ the_numbers_to count) }
{
    let mut numbers = Vec::new(alloc);
    for number in 0..count {
        numbers.push(number)?;
    }
    Ok(numbers)
}

/// The pairs of fields that clash in these sets. `known` says that what they spread is clean.
fn found_clashes(
    alloc: Global,
    numbered: &Sets,
    seeds: &[usize],
    known: bool,
) -> Result<Vec<Pair>, AllocError>
    requires whole { IsWhole numbered.now }
    requires bodies { (s : ℕ) → Contains seeds.now s → s < length numbered.now.bodies.items }
    requires clean { known ≡ true → (s c : ℕ) → Contains seeds.now s
        → Contains ((nodes_of numbered.now).spreads s) c → IsCleanBody numbered.now c }
    ensures { IfOk result (λ pairs. Lists pairs.items
        (IsClashPair numbered.now (SeedsOf (nodes_of numbered.now) seeds.now))) }
{
    if known {
        clashes_over_clean(alloc, numbered, seeds)
    } else {
        clashes(alloc, numbered, seeds)
    }
}

/// The pairs of fields that clash in these sets, each once. `known` says that what they spread is
/// clean.
fn own_clashes(
    alloc: Global,
    numbered: &Sets,
    seeds: &[usize],
    known: bool,
) -> Result<Vec<Pair>, AllocError>
    requires whole { IsWhole numbered.now }
    requires bodies { (s : ℕ) → Contains seeds.now s → s < length numbered.now.bodies.items }
    requires clean { known ≡ true → (s c : ℕ) → Contains seeds.now s
        → Contains ((nodes_of numbered.now).spreads s) c → IsCleanBody numbered.now c }
    ensures { IfOk result (λ pairs. Lists pairs.items
        (IsClashPair numbered.now (SeedsOf (nodes_of numbered.now) seeds.now))) }
{
    let found = found_clashes(alloc, numbered, seeds, known)?;
    let pairs = each_once(alloc, found)?;
    Ok(pairs)
}

/// These numbers as a set.
fn set_of(alloc: Global, numbers: &[usize]) -> Result<IndexSet<usize>, AllocError>
    ensures { IfOk result (λ set. (n : ℕ) → Contains set.keys n → Contains numbers.now n) }
{
    let mut set = IndexSet::new(alloc);
    for number in numbers {
        set.insert(*number)?;
    }
    Ok(set)
}

/// Adds the name of a fragment, if its number is among these.
fn add_at(
    member: &FragmentFact,
    fragments: &HashMap<&str, usize>,
    reached: &IndexSet<usize>,
    clean: &mut CleanFragments,
) -> Result<(), AllocError>
    ensures { MayAdd (IsNameAt (λ q. hash.get_by (λ k. bytes_eq q k.now) fragments.now)
        reached.now.keys) clean.old clean.new }
{
    let name = &member.fragment.get().name.text;
    if let Some(number) = fragments.get(name.as_str()) {
        if reached.contains(number) {
            clean.add(name)?;
        }
    }
    Ok(())
}

/// Adds the names of those of these fragments whose numbers are among `reached`.
fn add_reached(
    members: &[FragmentFact],
    fragments: &HashMap<&str, usize>,
    reached: &IndexSet<usize>,
    clean: &mut CleanFragments,
) -> Result<(), AllocError>
    ensures { MayAdd (IsNameAt (λ q. hash.get_by (λ k. bytes_eq q k.now) fragments.now)
        reached.now.keys) clean.old clean.new }
{
    for member in members {
        add_at(member, fragments, reached, clean)?;
    }
    Ok(())
}

/// Whether fragments are to be added: they are clean, and that is not known yet.
fn is_wanted(is_clean: bool, known: bool) -> bool
    ensures { result ≡ true → is_clean ≡ true }
{
    is_clean && !known
}

/// Adds the names of the fragments that these sets spread, in any number of steps, if they are
/// wanted.
fn add_spread(
    alloc: Global,
    numbered: &Sets,
    seeds: &[usize],
    members: &[FragmentFact],
    fragments: &HashMap<&str, usize>,
    wanted: bool,
    clean: &mut CleanFragments,
) -> Result<(), AllocError>
    requires whole { IsWhole numbered.now }
    requires bodies { (s : ℕ) → Contains seeds.now s → s < length numbered.now.bodies.items }
    ensures { MayAdd (IsNameSpread wanted numbered.now seeds.now
        (λ q. hash.get_by (λ k. bytes_eq q k.now) fragments.now)) clean.old clean.new }
{
    if !wanted {
        return Ok(());
    }
    let bodies = spread_bodies(alloc, numbered, seeds)?;
    let reached = set_of(alloc, bodies.as_slice())?;
    add_reached(members, fragments, &reached, clean)?;
    Ok(())
}

/// Searches the first of the sets of a definition, `own`, with those that they spread; any others
/// are clean. `known` says that what these sets spread is clean. If nothing clashes, the fragments
/// that they spread are added to the clean ones.
pub fn search<'t, W: World>(
    alloc: Global,
    world: &mut W,
    definition: &'t Definition,
    members: &'t [FragmentFact],
    own: Vec<FlatSet<'t>>,
    first: usize,
    known: bool,
    clean: &mut CleanFragments,
) -> Result<Found, AllocError>
    requires members { ListsAll members.now (Reaches (W.facts world.old) definition.now) }
    requires own { Draws own.items (sets_in (W.facts world.old) definition.now) }
    requires first { IsFirstOf (W.facts world.old)
        (sets_in (W.facts world.old) definition.now) first }
    requires known { known ≡ true → (s : AFlatSet) → Contains own.items s → IsSettled clean.old s }
    requires clean { AreClean (W.facts world.old) clean.old }
    ensures facts { W.facts world.new ≡ W.facts world.old }
    ensures names { W.names world.new ≡ W.names world.old }
    ensures lent { W.lent world.new ≡ W.lent world.old }
    ensures found { IfOk result (λ found. ListsAll found.faults.items
        (spec.IsMergeFault (W.facts world.old) definition.now)) }
    ensures is_clean { IfOk result (λ found. found.is_clean ≡ true
        → IsClean (W.facts world.old) (sets_in (W.facts world.old) definition.now)) }
    ensures clean { AreClean (W.facts world.old) clean.new }
    ensures kept { (n : List ℕ) → Contains clean.old n → Contains clean.new n }
{
    let owner = owner_of(definition)?;
    let mut sets = own;
    let seeds = numbers_to(alloc, first)?;
    let fragments = add_members(alloc, world, members, &mut sets)?;
    let mut all = Vec::new(alloc);
    let numbered = numbered_sets(alloc, sets.as_slice(), &fragments, &mut all)?;
    let pairs = own_clashes(alloc, &numbered, seeds.as_slice(), known)?;
    let is_clean = pairs.is_empty();
    let wanted = is_wanted(is_clean, known);
    add_spread(
        alloc,
        &numbered,
        seeds.as_slice(),
        members,
        &fragments,
        wanted,
        clean,
    )?;
    let faults = check_pairs(alloc, &owner, all.as_slice(), pairs.as_slice())?;
    Ok(Found { faults, is_clean })
}
