//! Questions to a world, each asked at most once: its answer is kept.
ghost use Rattle.std.specs.Prelude.{◌≡◌, ◌∷◌, [], IfOk, OnOk, None};
ghost use Rattle.indexmap.specs.IndexMap.{get, keys};
ghost use Rattle.gql_facts.specs.Keys.{is_key};
ghost use Rattle.gql_facts.specs.Scans.{add_keys};
ghost use Rattle.gql_reads.specs.Closings.{AreRight};

use gql_facts::{Fact, Key, World};
use indexmap::IndexMap;
use std::alloc::{AllocError, Global};

/// The answer to a key, if it was asked.
fn answered(key: &Key, answers: &IndexMap<Key, Fact>) -> Result<Option<Fact>, AllocError>
    ensures { IfOk result (λ found. found ≡ get is_key answers.now key.now) }
{
    match answers.get(key) {
        Some(fact) => Ok(Some(fact.copy()?)),
        None => Ok(None),
    }
}

/// Asks a key that was not asked, and keeps the answer.
fn ask_first<W: World>(
    alloc: Global,
    world: &mut W,
    key: Key,
    answers: &mut IndexMap<Key, Fact>,
) -> Result<Fact, AllocError>
    requires absent { get is_key answers.old key ≡ None }
    requires right { AreRight (W.facts world.old) answers.old.entries }
    ensures facts { W.facts world.new ≡ W.facts world.old }
    ensures names { W.names world.new ≡ W.names world.old }
    ensures lent { W.lent world.new ≡ W.lent world.old }
    ensures answer { IfOk result (λ f. f ≡ W.facts world.old key) }
    ensures right { OnOk result (AreRight (W.facts world.old) answers.new.entries) }
    ensures asked { OnOk result (keys answers.new ≡ add_keys (keys answers.old) (key ∷ [])) }
{
    let fact = world.fact(alloc, &key)?;
    let kept = fact.copy()?;
    answers.insert(key, kept)?;
    Ok(fact)
}

/// The answer to a key, which is asked unless it was.
pub fn ask<W: World>(
    alloc: Global,
    world: &mut W,
    key: Key,
    answers: &mut IndexMap<Key, Fact>,
) -> Result<Fact, AllocError>
    requires right { AreRight (W.facts world.old) answers.old.entries }
    ensures facts { W.facts world.new ≡ W.facts world.old }
    ensures names { W.names world.new ≡ W.names world.old }
    ensures lent { W.lent world.new ≡ W.lent world.old }
    ensures answer { IfOk result (λ f. f ≡ W.facts world.old key) }
    ensures right { OnOk result (AreRight (W.facts world.old) answers.new.entries) }
    ensures asked { OnOk result (keys answers.new ≡ add_keys (keys answers.old) (key ∷ [])) }
{
    match answered(&key, answers)? {
        Some(fact) => Ok(fact),
        None => {
            let fact = ask_first(alloc, world, key, answers)?;
            Ok(fact)
        }
    }
}

/// Asks a key, unless it was asked.
pub fn note<W: World>(
    alloc: Global,
    world: &mut W,
    key: Key,
    answers: &mut IndexMap<Key, Fact>,
) -> Result<(), AllocError>
    requires right { AreRight (W.facts world.old) answers.old.entries }
    ensures facts { W.facts world.new ≡ W.facts world.old }
    ensures names { W.names world.new ≡ W.names world.old }
    ensures lent { W.lent world.new ≡ W.lent world.old }
    ensures right { OnOk result (AreRight (W.facts world.old) answers.new.entries) }
    ensures asked { OnOk result (keys answers.new ≡ add_keys (keys answers.old) (key ∷ [])) }
{
    let _fact = ask(alloc, world, key, answers)?;
    Ok(())
}
