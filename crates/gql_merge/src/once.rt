//! Pairs of fields, each once.
ghost use Rattle.std.specs.Prelude.{◌≡◌, ◌↔◌, ◌++◌, ◌∷◌, [], IfOk, IsTrue, OnOk, Contains};
ghost use Rattle.gql_clashes.specs.declared.sets.Pair.{Pair as APair};

use gql_clashes::{Mode, Pair};
use std::alloc::{AllocError, Global};

/// Whether two pairs are the same.
fn is_same(pair: Pair, other: Pair) -> bool
    ensures { IsTrue result → pair ≡ other }
{
    pair.first == other.first && pair.second == other.second && pair.mode == other.mode
}

/// Whether the last of some pairs is this one.
fn ends_with(pairs: &[Pair], pair: Pair) -> bool
    ensures { IsTrue result → Contains pairs.now pair }
{
    match pairs.last() {
        Some(last) => is_same(*last, pair),
        None => false,
    }
}

/// Adds a pair, unless it is the last already.
fn add_once(pair: &Pair, once: &mut Vec<Pair>) -> Result<(), AllocError>
    ensures { OnOk result ((p : APair)
        → Contains once.new.items p ↔ Contains (once.old.items ++ pair.now ∷ []) p) }
{
    if ends_with(once.as_slice(), *pair) {
        return Ok(());
    }
    once.push(*pair)?;
    Ok(())
}

/// The pairs, without one that is the same as the one before it.
fn without_repeats(alloc: Global, pairs: &[Pair]) -> Result<Vec<Pair>, AllocError>
    ensures { IfOk result (λ once. (p : APair) → Contains once.items p ↔ Contains pairs.now p) }
{
    let mut once = Vec::new(alloc);
    for pair in pairs {
        add_once(pair, &mut once)?;
    }
    Ok(once)
}

/// The pairs, each once. Where a set is compared with itself, a search finds each pair twice.
pub fn each_once(alloc: Global, pairs: Vec<Pair>) -> Result<Vec<Pair>, AllocError>
    ensures { IfOk result (λ once. (p : APair) → Contains once.items p ↔ Contains pairs.items p) }
{
    let mut pairs = pairs;
    pairs.sort_unstable_by_key(|pair| (pair.first, pair.second, pair.mode == Mode::Merge));
    let once = without_repeats(alloc, pairs.as_slice())?;
    Ok(once)
}
