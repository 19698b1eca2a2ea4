//! What clashes between two fragments.
ghost use Rattle.std.specs.Prelude.{◌≡◌, ◌++◌, ◌<◌, ◌∷◌, [], ℕ, List, IfOk, OnOk, Contains, Some, bytes_eq, length, map};
ghost use Rattle.std.specs.HashMap as hash;
ghost use Rattle.gql_clashes.specs.Adding.{Adds};
ghost use Rattle.gql_clashes.specs.Compared.{IsTable};
ghost use Rattle.gql_clashes.specs.Numbered.{IsWhole};
ghost use Rattle.gql_facts.specs.Members.{Lists};
ghost use Rattle.gql_facts.specs.declared.fact.FragmentFact.{FragmentFact as AFragment};
ghost use Rattle.gql_merge.specs.BadPairs as spec;
ghost use Rattle.gql_merge.specs.Between.{name_of};
ghost use Rattle.gql_merge.specs.declared.bad_pair.BadPair.{BadPair as APair};

use crate::bad_pair::{BadPair, bad_pairs};
use crate::columns::known_number;
use crate::flat::FlatField;
use crate::flatten::add_members;
use crate::numbers::numbered_sets;
use gql_ast::Text;
use gql_clashes::{Item, Mode, Sets, Table, clashes_among, table_of};
use gql_facts::{FragmentFact, World};
use std::alloc::{AllocError, Global};
use std::collections::HashMap;

/// Two fields that clash between two fragments, with the names of the fragments.
pub struct FragmentClash {
    pub first: Text,
    pub second: Text,
    pub bad: BadPair,
}

impl Drop for FragmentClash {
    fn drop(self) {
        let FragmentClash {
            first: _,
            second: _,
            bad: _,
        } = self;
    }
}

/// The bad pairs between two bodies.
fn bad_between(
    alloc: Global,
    numbered: &Sets,
    table: &Table,
    all: &[FlatField<'_>],
    left: usize,
    right: usize,
) -> Result<Vec<BadPair>, AllocError>
    requires whole { IsWhole numbered.now }
    requires table { IsTable numbered.now table.now }
    requires left { left < length numbered.now.bodies.items }
    requires right { right < length numbered.now.bodies.items }
    ensures { IfOk result (λ bad. Lists bad.items (spec.IsBadAt numbered.now all.now left right)) }
{
    let mut items = Vec::new(alloc);
    items.push(Item {
        left,
        right,
        mode: Mode::Merge,
    })?;
    let pairs = clashes_among(alloc, numbered, table, items.as_slice())?;
    let bad = bad_pairs(alloc, all, pairs.as_slice())?;
    Ok(bad)
}

/// Adds bad pairs under the names of two fragments.
fn add_named(
    first: &Text,
    second: &Text,
    bad: Vec<BadPair>,
    found: &mut Vec<FragmentClash>,
) -> Result<(), AllocError>
    ensures { OnOk result (found.new.items ≡ found.old.items
        ++ map (λ (b : APair). record { first = first.now; second = second.now; bad = b }) bad.items) }
{
    for pair in bad {
        found.push(FragmentClash {
            first: first.copy()?,
            second: second.copy()?,
            bad: pair,
        })?;
    }
    Ok(())
}

/// Adds what clashes between two fragments, by the numbers of their own sets.
fn add_two(
    alloc: Global,
    numbered: &Sets,
    table: &Table,
    all: &[FlatField<'_>],
    numbers: &HashMap<&str, usize>,
    first: &FragmentFact,
    second: &FragmentFact,
    found: &mut Vec<FragmentClash>,
) -> Result<(), AllocError>
    requires whole { IsWhole numbered.now }
    requires table { IsTable numbered.now table.now }
    requires inside { (q : List ℕ) (i : ℕ)
        → hash.get_by (λ k. bytes_eq q k.now) numbers.now ≡ Some i
        → i < length numbered.now.bodies.items }
    ensures { OnOk result (Adds (spec.IsClashAt numbered.now all.now
        (λ q. hash.get_by (λ k. bytes_eq q k.now) numbers.now) first.now second.now)
        found.old.items found.new.items) }
{
    let name = &first.fragment.get().name.text;
    let other = &second.fragment.get().name.text;
    let Some(left) = known_number(name.as_str(), numbers) else {
        return Ok(());
    };
    let Some(right) = known_number(other.as_str(), numbers) else {
        return Ok(());
    };
    let bad = bad_between(alloc, numbered, table, all, left, right)?;
    add_named(name, other, bad, found)?;
    Ok(())
}

/// Adds what clashes between a fragment and each of some others.
fn add_row(
    alloc: Global,
    numbered: &Sets,
    table: &Table,
    all: &[FlatField<'_>],
    numbers: &HashMap<&str, usize>,
    first: &FragmentFact,
    others: &[FragmentFact],
    found: &mut Vec<FragmentClash>,
) -> Result<(), AllocError>
    requires whole { IsWhole numbered.now }
    requires table { IsTable numbered.now table.now }
    requires inside { (q : List ℕ) (i : ℕ)
        → hash.get_by (λ k. bytes_eq q k.now) numbers.now ≡ Some i
        → i < length numbered.now.bodies.items }
    ensures { OnOk result (Adds (spec.IsClashInRow numbered.now all.now
        (λ q. hash.get_by (λ k. bytes_eq q k.now) numbers.now) first.now others.now)
        found.old.items found.new.items) }
{
    for second in others {
        add_two(alloc, numbered, table, all, numbers, first, second, found)?;
    }
    Ok(())
}

/// Adds what clashes between each of some fragments and each of others.
fn add_rows(
    alloc: Global,
    numbered: &Sets,
    table: &Table,
    all: &[FlatField<'_>],
    numbers: &HashMap<&str, usize>,
    fragments: &[FragmentFact],
    others: &[FragmentFact],
    found: &mut Vec<FragmentClash>,
) -> Result<(), AllocError>
    requires whole { IsWhole numbered.now }
    requires table { IsTable numbered.now table.now }
    requires inside { (q : List ℕ) (i : ℕ)
        → hash.get_by (λ k. bytes_eq q k.now) numbers.now ≡ Some i
        → i < length numbered.now.bodies.items }
    ensures { OnOk result (Adds (spec.IsClashInRows numbered.now all.now
        (λ q. hash.get_by (λ k. bytes_eq q k.now) numbers.now) fragments.now others.now)
        found.old.items found.new.items) }
{
    for first in fragments {
        add_row(alloc, numbered, table, all, numbers, first, others, found)?;
    }
    Ok(())
}

/// What clashes between each two of these fragments, in either order, and in each of them: from the
/// fields of the own sets of the two, and of their inline fragments. `members` are these fragments
/// and all that they reach.
pub fn fragment_clashes<W: World>(
    alloc: Global,
    world: &mut W,
    members: &[FragmentFact],
    fragments: &[FragmentFact],
) -> Result<Vec<FragmentClash>, AllocError>
    requires members { spec.AreClosed (W.facts world.old) members.now }
    requires among { (g : AFragment) → Contains fragments.now g → Contains members.now g }
    ensures facts { W.facts world.new ≡ W.facts world.old }
    ensures names { W.names world.new ≡ W.names world.old }
    ensures lent { W.lent world.new ≡ W.lent world.old }
    ensures found { IfOk result (λ found.
        Lists found.items (spec.IsClashOfTwo (W.facts world.old) fragments.now)) }
{
    let mut sets = Vec::new(alloc);
    let numbers = add_members(alloc, world, members, &mut sets)?;
    let mut all = Vec::new(alloc);
    let numbered = numbered_sets(alloc, sets.as_slice(), &numbers, &mut all)?;
    let table = table_of(alloc, &numbered)?;
    let mut found = Vec::new(alloc);
    add_rows(
        alloc,
        &numbered,
        &table,
        all.as_slice(),
        &numbers,
        fragments,
        fragments,
        &mut found,
    )?;
    Ok(found)
}
