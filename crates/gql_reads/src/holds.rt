//! Whether what was observed still holds.
ghost use Rattle.std.specs.Prelude.{◌≡◌, ◌↔◌, IfOk, IsTrue, MatchBool};
ghost use Rattle.gql_facts.specs.declared.fact.Fact.TheVariants as told;
ghost use Rattle.gql_reads.specs.Observations.{Hold, IsBroken, about, about_all, observed, observed_in};
ghost use Rattle.gql_reads.specs.Reaching.{IsNamed};

use crate::observation::{Answer, TypeAnswers};
use gql_ast::{Same, Shared};
use gql_facts::{Fact, FragmentFact, Key, World};
use std::alloc::{AllocError, Global};

/// Whether a world still gives this answer to a key.
fn is_answer<W: World>(
    alloc: Global,
    world: &mut W,
    key: &Key,
    fact: &Fact,
) -> Result<bool, AllocError>
    ensures facts { W.facts world.new ≡ W.facts world.old }
    ensures names { W.names world.new ≡ W.names world.old }
    ensures lent { W.lent world.new ≡ W.lent world.old }
    ensures answer { IfOk result (λ is_same.
        IsTrue is_same ↔ (W.facts world.old key.now ≡ fact.now)) }
{
    let now = world.fact(alloc, key)?;
    Ok(now.same(fact))
}

/// Whether a world still gives the answers about a type.
fn type_holds<W: World>(
    alloc: Global,
    world: &mut W,
    of_type: &TypeAnswers,
) -> Result<bool, AllocError>
    ensures facts { W.facts world.new ≡ W.facts world.old }
    ensures names { W.names world.new ≡ W.names world.old }
    ensures lent { W.lent world.new ≡ W.lent world.old }
    ensures answer { IfOk result (λ hold. MatchBool hold
        (Hold (W.facts world.old) (about of_type.now))
        (IsBroken (W.facts world.old) (about of_type.now))) }
{
    let name = &of_type.name;
    let kind = is_answer(alloc, world, &Key::KindOf(name.copy()?), &of_type.kind)?;
    if !kind {
        return Ok(false);
    }
    let possible = is_answer(
        alloc,
        world,
        &Key::PossibleOf(name.copy()?),
        &of_type.possible,
    )?;
    if !possible {
        return Ok(false);
    }
    let input = is_answer(alloc, world, &Key::InputOf(name.copy()?), &of_type.input)?;
    if !input {
        return Ok(false);
    }
    let values = is_answer(alloc, world, &Key::EnumOf(name.copy()?), &of_type.values)?;
    Ok(values)
}

/// Whether a world still gives the answers about these types.
fn types_hold<W: World>(
    alloc: Global,
    world: &mut W,
    types: &[Shared<TypeAnswers>],
) -> Result<bool, AllocError>
    ensures facts { W.facts world.new ≡ W.facts world.old }
    ensures names { W.names world.new ≡ W.names world.old }
    ensures lent { W.lent world.new ≡ W.lent world.old }
    ensures answer { IfOk result (λ hold. MatchBool hold
        (Hold (W.facts world.old) (about_all types.now))
        (IsBroken (W.facts world.old) (about_all types.now))) }
{
    for of_type in types {
        let is_same = type_holds(alloc, world, of_type.get())?;
        if !is_same {
            return Ok(false);
        }
    }
    Ok(true)
}

/// Whether a world still gives an answer, and those about the types that it leads to.
pub fn answer_holds<W: World>(
    alloc: Global,
    world: &mut W,
    answer: &Answer,
) -> Result<bool, AllocError>
    ensures facts { W.facts world.new ≡ W.facts world.old }
    ensures names { W.names world.new ≡ W.names world.old }
    ensures lent { W.lent world.new ≡ W.lent world.old }
    ensures answer { IfOk result (λ hold. MatchBool hold
        (Hold (W.facts world.old) (observed answer.now))
        (IsBroken (W.facts world.old) (observed answer.now))) }
{
    let observation = &answer.observation;
    let is_same = is_answer(alloc, world, &observation.key, &observation.fact)?;
    if !is_same {
        return Ok(false);
    }
    let hold = types_hold(alloc, world, answer.types.as_slice())?;
    Ok(hold)
}

/// Whether a world still gives these answers, and those about the types that they lead to.
pub fn answers_hold<W: World>(
    alloc: Global,
    world: &mut W,
    answers: &[Shared<Answer>],
) -> Result<bool, AllocError>
    ensures facts { W.facts world.new ≡ W.facts world.old }
    ensures names { W.names world.new ≡ W.names world.old }
    ensures lent { W.lent world.new ≡ W.lent world.old }
    ensures answer { IfOk result (λ hold. MatchBool hold
        (Hold (W.facts world.old) (observed_in answers.now))
        (IsBroken (W.facts world.old) (observed_in answers.now))) }
{
    for answer in answers {
        let hold = answer_holds(alloc, world, answer.get())?;
        if !hold {
            return Ok(false);
        }
    }
    Ok(true)
}

/// Whether an answer is this fragment.
fn is_fragment(fact: &Fact, fragment: &FragmentFact) -> bool
    ensures { IsTrue result ↔ (fact.now ≡ told.Fragment fragment.now) }
{
    match fact {
        Fact::Fragment(its) => its.same(fragment),
        _ => false,
    }
}

/// Whether a fragment is the one of its name.
pub fn is_named<W: World>(
    alloc: Global,
    world: &mut W,
    fragment: &FragmentFact,
) -> Result<bool, AllocError>
    ensures facts { W.facts world.new ≡ W.facts world.old }
    ensures names { W.names world.new ≡ W.names world.old }
    ensures lent { W.lent world.new ≡ W.lent world.old }
    ensures answer { IfOk result (λ is. IsTrue is
        ↔ IsNamed (W.facts world.old) fragment.now) }
{
    let name = fragment.fragment.get().name.text.copy()?;
    let fact = world.fact(alloc, &Key::FragmentOf(name))?;
    Ok(is_fragment(&fact, fragment))
}
