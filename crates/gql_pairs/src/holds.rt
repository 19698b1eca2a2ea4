//! Whether what was observed of a fragment still holds.
ghost use Rattle.std.specs.Prelude.{◌≡◌, ◌↔◌, ◌∷◌, [], IfOk, IsTrue, MatchBool};
ghost use Rattle.gql_facts.specs.declared.fact.Fact.TheVariants as told;
ghost use Rattle.gql_pairs.specs.Doubts.{HoldUndoubted};
ghost use Rattle.gql_pairs.specs.Fragments.{IsFragmentOfName};
ghost use Rattle.gql_reads.specs.Observations.{Hold, IsBroken, observed, observed_in};
ghost use Rattle.gql_reads.specs.Readings.{own_name, seen_in};

use crate::doubt::Doubt;
use crate::member::Member;
use gql_ast::{Same, Shared};
use gql_facts::{Fact, FragmentFact, Key, World};
use gql_reads::{Answer, Part, answer_holds};
use std::alloc::{AllocError, Global};

/// Whether an answer is this fragment.
fn is_fragment(fact: &Fact, fragment: &FragmentFact) -> bool
    ensures { IsTrue result ↔ (fact.now ≡ told.Fragment fragment.now) }
{
    match fact {
        Fact::Fragment(its) => its.same(fragment),
        _ => false,
    }
}

/// Whether a fragment is the one of its name.
fn is_named<W: World>(
    alloc: Global,
    world: &mut W,
    fragment: &FragmentFact,
) -> Result<bool, AllocError>
    ensures facts { W.facts world.new ≡ W.facts world.old }
    ensures names { W.names world.new ≡ W.names world.old }
    ensures lent { W.lent world.new ≡ W.lent world.old }
    ensures answer { IfOk result (λ is. IsTrue is
        ↔ IsFragmentOfName (W.facts world.old) fragment.now) }
{
    let name = fragment.fragment.get().name.text.copy()?;
    let fact = world.fact(alloc, &Key::FragmentOf(name))?;
    Ok(is_fragment(&fact, fragment))
}

/// Whether a fragment is still the one of its name. The world is asked only if that may have
/// changed.
fn is_still_named<W: World>(
    alloc: Global,
    world: &mut W,
    fragment: &FragmentFact,
    doubt: &Doubt,
) -> Result<bool, AllocError>
    requires { HoldUndoubted (W.facts world.old) doubt.now (own_name fragment.now ∷ []) }
    ensures facts { W.facts world.new ≡ W.facts world.old }
    ensures names { W.names world.new ≡ W.names world.old }
    ensures lent { W.lent world.new ≡ W.lent world.old }
    ensures answer { IfOk result (λ is. IsTrue is
        ↔ IsFragmentOfName (W.facts world.old) fragment.now) }
{
    if !doubt.is_of_fragment(fragment.fragment.get().name.as_str()) {
        return Ok(true);
    }
    is_named(alloc, world, fragment)
}

/// Whether an answer still holds, with those about the types that it leads to. The world is asked
/// only if one of them may have changed.
fn answer_still_holds<W: World>(
    alloc: Global,
    world: &mut W,
    answer: &Answer,
    doubt: &Doubt,
) -> Result<bool, AllocError>
    requires { HoldUndoubted (W.facts world.old) doubt.now (observed answer.now) }
    ensures facts { W.facts world.new ≡ W.facts world.old }
    ensures names { W.names world.new ≡ W.names world.old }
    ensures lent { W.lent world.new ≡ W.lent world.old }
    ensures answer { IfOk result (λ hold. MatchBool hold
        (Hold (W.facts world.old) (observed answer.now))
        (IsBroken (W.facts world.old) (observed answer.now))) }
{
    if !doubt.is_of_answer(answer) {
        return Ok(true);
    }
    answer_holds(alloc, world, answer)
}

/// Whether each of these answers still holds.
fn answers_still_hold<W: World>(
    alloc: Global,
    world: &mut W,
    answers: &[Shared<Answer>],
    doubt: &Doubt,
) -> Result<bool, AllocError>
    requires { HoldUndoubted (W.facts world.old) doubt.now (observed_in answers.now) }
    ensures facts { W.facts world.new ≡ W.facts world.old }
    ensures names { W.names world.new ≡ W.names world.old }
    ensures lent { W.lent world.new ≡ W.lent world.old }
    ensures answer { IfOk result (λ hold. MatchBool hold
        (Hold (W.facts world.old) (observed_in answers.now))
        (IsBroken (W.facts world.old) (observed_in answers.now))) }
{
    if doubt.is_of_none(answers) {
        return Ok(true);
    }
    for answer in answers {
        let hold = answer_still_holds(alloc, world, answer.get(), doubt)?;
        if !hold {
            return Ok(false);
        }
    }
    Ok(true)
}

/// Whether what was observed of each of these parts still holds.
fn parts_hold<W: World>(
    alloc: Global,
    world: &mut W,
    parts: &[Part],
    doubt: &Doubt,
) -> Result<bool, AllocError>
    requires { HoldUndoubted (W.facts world.old) doubt.now (seen_in parts.now) }
    ensures facts { W.facts world.new ≡ W.facts world.old }
    ensures names { W.names world.new ≡ W.names world.old }
    ensures lent { W.lent world.new ≡ W.lent world.old }
    ensures answer { IfOk result (λ hold. MatchBool hold
        (Hold (W.facts world.old) (seen_in parts.now))
        (IsBroken (W.facts world.old) (seen_in parts.now))) }
{
    for part in parts {
        let hold = answers_still_hold(alloc, world, part.seen().get().answers(), doubt)?;
        if !hold {
            return Ok(false);
        }
    }
    Ok(true)
}

/// Whether what was observed of a member still holds. The world is asked only for answers that may
/// have changed.
pub fn member_holds<W: World>(
    alloc: Global,
    world: &mut W,
    member: &Member,
    doubt: &Doubt,
) -> Result<bool, AllocError>
    requires { HoldUndoubted (W.facts world.old) doubt.now member.now.observations }
    ensures facts { W.facts world.new ≡ W.facts world.old }
    ensures names { W.names world.new ≡ W.names world.old }
    ensures lent { W.lent world.new ≡ W.lent world.old }
    ensures answer { IfOk result (λ hold. MatchBool hold
        (Hold (W.facts world.old) member.now.observations)
        (IsBroken (W.facts world.old) member.now.observations)) }
{
    let reading = member.reading();
    let is_named = is_still_named(alloc, world, member.fragment(), doubt)?;
    if !is_named {
        return Ok(false);
    }
    let own = answers_still_hold(alloc, world, reading.own.record.get().answers(), doubt)?;
    if !own {
        return Ok(false);
    }
    let hold = parts_hold(alloc, world, reading.parts.as_slice(), doubt)?;
    Ok(hold)
}
