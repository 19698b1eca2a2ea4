//! The pairs of bodies that have to be compared if nothing clashes in the bodies that are spread.
ghost use Rattle.std.specs.Prelude.{◌≡◌, ◌<◌, ◌++◌, ℕ, flat_map, length, IfOk, OnOk, Contains};
ghost use Rattle.gql_clashes.specs.Clashes.{SeedsOf};
ghost use Rattle.gql_clashes.specs.Numbered.{IsClashPair, IsWhole, Lists, nodes_of};
ghost use Rattle.gql_clashes.specs.Reach.{AreNeeded, IsCleanBody, NeedsFor, across};
ghost use Rattle.gql_clashes.specs.Seen.{IsInside};
ghost use Rattle.gql_clashes.specs.declared.search.Item as item;

use crate::asked::add_rights;
use crate::compare::spreads_of;
use crate::groups::table_of;
use crate::many::clashes_among;
use crate::reach::reach;
use crate::search::Item;
use crate::seen::nothing_seen;
use crate::sets::{Mode, Pair, Sets};
use std::alloc::{AllocError, Global};

/// Adds the pairs of each of some bodies with each of others.
fn add_across(lefts: &[usize], rights: &[usize], pairs: &mut Vec<Item>) -> Result<(), AllocError>
    ensures { OnOk result (pairs.new.items ≡ pairs.old.items ++ across lefts.now rights.now) }
{
    for left in lefts {
        let item = Item {
            left: *left,
            right: *left,
            mode: Mode::Merge,
        };
        add_rights(item, rights, pairs)?;
    }
    Ok(())
}

/// Adds the pairs of bodies that a body spreads, itself among them, but for those that one of the
/// bodies in it spreads both.
fn add_needed(
    alloc: Global,
    sets: &Sets,
    body: usize,
    pairs: &mut Vec<Item>,
) -> Result<(), AllocError>
    requires whole { IsWhole sets.now }
    requires body { body < length sets.now.bodies.items }
    ensures { OnOk result (NeedsFor sets.now body pairs.old.items pairs.new.items) }
{
    let mut seen = nothing_seen(alloc, sets.bodies.len());
    let mut done = Vec::new(alloc);
    done.push(body)?;
    add_across(&done, &done, pairs)?;
    for spread in spreads_of(sets, body) {
        let mut new = reach(alloc, sets, *spread, &mut seen)?;
        add_across(&done, &new, pairs)?;
        done.append(&mut new)?;
    }
    Ok(())
}

/// The pairs of bodies that one of these spreads, itself among them, but for those that a body in
/// it spreads both.
fn needed_pairs(alloc: Global, sets: &Sets, bodies: &[usize]) -> Result<Vec<Item>, AllocError>
    requires whole { IsWhole sets.now }
    requires bodies { (s : ℕ) → Contains bodies.now s → s < length sets.now.bodies.items }
    ensures { IfOk result (λ pairs. AreNeeded sets.now bodies.now pairs.items) }
{
    let mut pairs = Vec::new(alloc);
    for body in bodies {
        add_needed(alloc, sets, *body, &mut pairs)?;
    }
    Ok(pairs)
}

/// The pairs of fields that clash if the selections of each of these bodies are merged, if nothing
/// clashes in any body that they spread. It compares no two bodies that one of those spreads both.
pub fn clashes_over_clean(
    alloc: Global,
    sets: &Sets,
    bodies: &[usize],
) -> Result<Vec<Pair>, AllocError>
    requires whole { IsWhole sets.now }
    requires bodies { (s : ℕ) → Contains bodies.now s → s < length sets.now.bodies.items }
    requires clean { (s c : ℕ) → Contains bodies.now s
        → Contains ((nodes_of sets.now).spreads s) c → IsCleanBody sets.now c }
    ensures { IfOk result (λ pairs. Lists pairs.items
        (IsClashPair sets.now (SeedsOf (nodes_of sets.now) bodies.now))) }
{
    let table = table_of(alloc, sets)?;
    let pairs = needed_pairs(alloc, sets, bodies)?;
    let found = clashes_among(alloc, sets, &table, &pairs)?;
    Ok(found)
}
