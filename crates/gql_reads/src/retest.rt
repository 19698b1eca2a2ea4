//! Parts and answers that were made before: a part is taken again if all that was observed of its
//! fragment alone still holds, and an answer if it is what the world answers now.
ghost use Rattle.std.specs.Prelude.{◌≡◌, ◌↔◌, IfOk, IfSome, IsTrue, true};
ghost use Rattle.std.specs.Option.{option_copied};
ghost use Rattle.gql_reads.specs.Leading.{IsLed};
ghost use Rattle.gql_reads.specs.Own.{tree_of};
ghost use Rattle.gql_reads.specs.Records.{IsRecord, Kept};
ghost use Rattle.gql_reads.specs.Tables.{AllHold};

use crate::holds::answers_hold;
use crate::observation::Answer;
use crate::part::{Part, walk_fragment};
use crate::table::ReadTable;
use gql_ast::{Same, Shared};
use gql_facts::{FragmentFact, Key, World};
use std::alloc::{AllocError, Global};

/// What has parts and answers that were made before.
pub trait KeptParts {
    /// A part that was made of this fragment, if there is one. What was observed then may have
    /// changed.
    fn part(&self, fragment: &FragmentFact) -> Option<&Part>;

    /// An answer that a key had, with exactly the types that it leads to, if there is one. It may
    /// have changed, or be that of another key.
    fn answer(&self, key: &Key) -> Option<&Shared<Answer>>
        ensures { IfSome (option_copied result) (λ a. IsLed a) };
}

/// No parts and no answers.
#[derive(Drop)]
pub struct NoParts {}

impl KeptParts for NoParts {
    fn part(&self, _fragment: &FragmentFact) -> Option<&Part> {
        None
    }

    fn answer(&self, _key: &Key) -> Option<&Shared<Answer>> {
        None
    }
}

/// Whether a part is of this fragment, and what was observed of that still holds.
fn is_still_of<W: World>(
    alloc: Global,
    world: &mut W,
    part: &Part,
    fragment: &FragmentFact,
) -> Result<bool, AllocError>
    ensures facts { W.facts world.new ≡ W.facts world.old }
    ensures names { W.names world.new ≡ W.names world.old }
    ensures lent { W.lent world.new ≡ W.lent world.old }
    ensures fragment { IfOk result (λ is. is ≡ true → part.now.fragment ≡ fragment.now) }
    ensures seen { IfOk result (λ is. is ≡ true
        → IsRecord (W.facts world.old) (tree_of fragment.now) part.now.seen) }
{
    if !part.fragment().same(fragment) {
        return Ok(false);
    }
    let hold = answers_hold(alloc, world, part.seen().get().answers())?;
    Ok(hold)
}

/// The part that was made of a fragment before, if what was observed then still holds.
fn older_part<W: World, K: KeptParts>(
    alloc: Global,
    world: &mut W,
    kept: &K,
    fragment: &FragmentFact,
) -> Result<Option<Part>, AllocError>
    ensures facts { W.facts world.new ≡ W.facts world.old }
    ensures names { W.names world.new ≡ W.names world.old }
    ensures lent { W.lent world.new ≡ W.lent world.old }
    ensures fragment { IfOk result (λ found.
        IfSome found (λ part. part.fragment ≡ fragment.now)) }
    ensures seen { IfOk result (λ found. IfSome found (λ part.
        IsRecord (W.facts world.old) (tree_of fragment.now) part.seen)) }
{
    let Some(part) = kept.part(fragment) else {
        return Ok(None);
    };
    let is_still = is_still_of(alloc, world, part, fragment)?;
    if !is_still {
        return Ok(None);
    }
    let part = part.copy()?;
    Ok(Some(part))
}

/// The part of a fragment: one that was made before, if what was observed then still holds. Else
/// the fragment is walked.
pub fn part_for<W: World, K: KeptParts>(
    alloc: Global,
    world: &mut W,
    kept: &K,
    fragment: &FragmentFact,
    table: &mut ReadTable,
) -> Result<Part, AllocError>
    requires holds { AllHold (W.facts world.old) table.old }
    ensures facts { W.facts world.new ≡ W.facts world.old }
    ensures names { W.names world.new ≡ W.names world.old }
    ensures lent { W.lent world.new ≡ W.lent world.old }
    ensures holds { AllHold (W.facts world.old) table.new }
    ensures keeps { table.new.parts ≡ table.old.parts }
    ensures fragment { IfOk result (λ part. part.fragment ≡ fragment.now) }
    ensures seen { IfOk result (λ part.
        IsRecord (W.facts world.old) (tree_of fragment.now) part.seen) }
{
    match older_part(alloc, world, kept, fragment)? {
        Some(part) => Ok(part),
        None => walk_fragment(alloc, world, kept, fragment, table),
    }
}
