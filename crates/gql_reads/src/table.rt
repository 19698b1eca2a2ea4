//! What was observed of fragments and of types, each under its name, and answers, each under its
//! key.
ghost use Rattle.std.specs.Prelude.{◌≡◌, ℕ, List, IfOk, IfSome, IsTrue, OnOk, OnErr, None, Some, false, bytes_eq};
ghost use Rattle.std.specs.Option.{option_copied};
ghost use Rattle.gql_facts.specs.Keys.{is_key};
ghost use Rattle.gql_facts.specs.Worlds.{Facts};
ghost use Rattle.gql_facts.specs.declared.key.Key.{Key as AKey};
ghost use Rattle.gql_reads.specs.Leading.{AreTypes, IsLed};
ghost use Rattle.gql_reads.specs.Tables.{AllHold, IsAnswer, answer_at, entry_at, no_entries};

use crate::leading::{types_led_to, types_still_hold};
use crate::observation::{Answer, Observation, TypeAnswers};
use crate::part::Part;
use crate::retest::KeptParts;
use gql_ast::{Items, Same, Shared, Text};
use gql_facts::{Fact, Key, World};
use indexmap::IndexMap;
use std::alloc::{AllocError, Global};
use std::marker::Model;

/// What was observed of fragments and of types, each under its name, and answers with the types
/// that they lead to, each under its key. It is of one world, so that all who read a key share its
/// answer, and all answers that lead to a type share what was observed of it.
pub struct ReadTable {
    entries: IndexMap<Text, Part>,
    answers: IndexMap<Key, Shared<Answer>>,
    types: IndexMap<Text, Shared<TypeAnswers>>,
}

impl Drop for ReadTable {
    fn drop(self) {
        let ReadTable {
            entries: _,
            answers: _,
            types: _,
        } = self;
    }
}

impl Model for ReadTable {
    ghost use Rattle.std.specs.Coded.{codes};
    ghost use Rattle.gql_facts.specs.contracts.fact.FragmentFact as fragment_fact;
    ghost use Rattle.gql_facts.specs.contracts.key.Key as key;
    ghost use Rattle.gql_reads.specs.Tables.{Entries};
    ghost use Rattle.gql_reads.specs.contracts.observation.Answer as answer;
    ghost use Rattle.gql_reads.specs.contracts.observation.TypeAnswers as type_answers;

    ghost Value = { Entries };

    ghost coded = { Prim.hlevel (
      codes,
      fragment_fact.the_row.coded,
      key.the_row.coded,
      answer.the_row.coded,
      type_answers.the_row.coded,
    ) };

    ghost view = { λ t. record {
      parts = t.entries.entries;
      answers = t.answers.entries;
      types = t.types.entries;
    } };
}

impl ReadTable {
    /// A table without entries.
    pub fn new(alloc: Global) -> ReadTable
        ensures empty { result ≡ no_entries }
        ensures holds { (facts : Facts) → AllHold facts result }
    {
        ReadTable {
            entries: IndexMap::new(alloc),
            answers: IndexMap::new(alloc),
            types: IndexMap::new(alloc),
        }
    }

    /// The entry of a name.
    pub fn get(&self, name: &Text) -> Option<&Part>
        ensures { option_copied result ≡ entry_at self.now name.now }
    {
        self.entries.get(name)
    }

    /// Adds the entry of a name.
    pub(crate) fn add(&mut self, name: Text, part: Part) -> Result<(), AllocError>
        ensures here { OnOk result (entry_at self.new name ≡ Some part) }
        ensures others { OnOk result ((n : List ℕ) → bytes_eq name n ≡ false
            → entry_at self.new n ≡ entry_at self.old n) }
        ensures answers { self.new.answers ≡ self.old.answers }
        ensures types { self.new.types ≡ self.old.types }
        ensures err { OnErr result (self.new ≡ self.old) }
    {
        self.entries.insert(name, part)?;
        Ok(())
    }

    /// The answer of a key, if it is known.
    fn known(&self, key: &Key) -> Result<Option<Shared<Answer>>, AllocError>
        ensures { IfOk result (λ found. found ≡ answer_at self.now key.now) }
    {
        match self.answers.get(key) {
            Some(answer) => Ok(Some(answer.clone()?)),
            None => Ok(None),
        }
    }

    /// Adds the answer of a key.
    fn add_answer(&mut self, key: Key, answer: Shared<Answer>) -> Result<(), AllocError>
        ensures here { OnOk result (answer_at self.new key ≡ Some answer) }
        ensures others { OnOk result ((k : AKey) → is_key key k ≡ false
            → answer_at self.new k ≡ answer_at self.old k) }
        ensures parts { self.new.parts ≡ self.old.parts }
        ensures types { self.new.types ≡ self.old.types }
        ensures err { OnErr result (self.new ≡ self.old) }
    {
        self.answers.insert(key, answer)?;
        Ok(())
    }

    /// The answer that a world gives to a key, with the types that it leads to. What is observed of
    /// a type is known from then on.
    fn new_answer<W: World>(
        &mut self,
        alloc: Global,
        world: &mut W,
        key: Key,
        fact: Fact,
    ) -> Result<Answer, AllocError>
        requires right { fact ≡ W.facts world.old key }
        requires holds { AllHold (W.facts world.old) self.old }
        ensures facts { W.facts world.new ≡ W.facts world.old }
        ensures names { W.names world.new ≡ W.names world.old }
        ensures lent { W.lent world.new ≡ W.lent world.old }
        ensures holds { AllHold (W.facts world.old) self.new }
        ensures parts { self.new.parts ≡ self.old.parts }
        ensures answer { IfOk result (IsAnswer (W.facts world.old) key) }
    {
        let answer = answer_with(alloc, world, key, fact, &mut self.types)?;
        Ok(answer)
    }

    /// Whether a world still gives this answer to a key. What is observed of a type is known from
    /// then on.
    fn still_holds<W: World>(
        &mut self,
        alloc: Global,
        world: &mut W,
        answer: &Answer,
        key: &Key,
        fact: &Fact,
    ) -> Result<bool, AllocError>
        requires right { fact.now ≡ W.facts world.old key.now }
        requires holds { AllHold (W.facts world.old) self.old }
        ensures facts { W.facts world.new ≡ W.facts world.old }
        ensures names { W.names world.new ≡ W.names world.old }
        ensures lent { W.lent world.new ≡ W.lent world.old }
        ensures holds { AllHold (W.facts world.old) self.new }
        ensures parts { self.new.parts ≡ self.old.parts }
        ensures answer { IfOk result (λ hold. IsTrue hold → IsLed answer.now
            → IsAnswer (W.facts world.old) key.now answer.now) }
    {
        let hold = is_still_answer(alloc, world, answer, key, fact, &mut self.types)?;
        Ok(hold)
    }

    /// The kept answer to a key, if there is one and the world still gives it.
    fn kept_answer<W: World, K: KeptParts>(
        &mut self,
        alloc: Global,
        world: &mut W,
        kept: &K,
        key: &Key,
        fact: &Fact,
    ) -> Result<Option<Shared<Answer>>, AllocError>
        requires right { fact.now ≡ W.facts world.old key.now }
        requires holds { AllHold (W.facts world.old) self.old }
        ensures facts { W.facts world.new ≡ W.facts world.old }
        ensures names { W.names world.new ≡ W.names world.old }
        ensures lent { W.lent world.new ≡ W.lent world.old }
        ensures holds { AllHold (W.facts world.old) self.new }
        ensures parts { self.new.parts ≡ self.old.parts }
        ensures answer { IfOk result (λ found.
            IfSome found (IsAnswer (W.facts world.old) key.now)) }
    {
        let Some(older) = kept.answer(key) else {
            return Ok(None);
        };
        let hold = self.still_holds(alloc, world, older.get(), key, fact)?;
        if !hold {
            return Ok(None);
        }
        let older = older.clone()?;
        Ok(Some(older))
    }

    /// The answer that a world gives to a key, with the types that it leads to: one that is kept
    /// and has not changed, or else a new one.
    fn kept_or_new<W: World, K: KeptParts>(
        &mut self,
        alloc: Global,
        world: &mut W,
        kept: &K,
        key: Key,
        fact: Fact,
    ) -> Result<Shared<Answer>, AllocError>
        requires right { fact ≡ W.facts world.old key }
        requires holds { AllHold (W.facts world.old) self.old }
        ensures facts { W.facts world.new ≡ W.facts world.old }
        ensures names { W.names world.new ≡ W.names world.old }
        ensures lent { W.lent world.new ≡ W.lent world.old }
        ensures holds { AllHold (W.facts world.old) self.new }
        ensures parts { self.new.parts ≡ self.old.parts }
        ensures answer { IfOk result (IsAnswer (W.facts world.old) key) }
    {
        match self.kept_answer(alloc, world, kept, &key, &fact)? {
            Some(answer) => Ok(answer),
            None => {
                let answer = self.new_answer(alloc, world, key, fact)?;
                let answer = Shared::new(alloc, answer)?;
                Ok(answer)
            }
        }
    }

    /// The answer that a world gives to a key, with the types that it leads to: the one that is
    /// known, or else one that is kept and has not changed, or else a new one. It is known from
    /// then on.
    pub(crate) fn answer<W: World, K: KeptParts>(
        &mut self,
        alloc: Global,
        world: &mut W,
        kept: &K,
        key: Key,
        fact: Fact,
    ) -> Result<Shared<Answer>, AllocError>
        requires right { fact ≡ W.facts world.old key }
        requires holds { AllHold (W.facts world.old) self.old }
        ensures facts { W.facts world.new ≡ W.facts world.old }
        ensures names { W.names world.new ≡ W.names world.old }
        ensures lent { W.lent world.new ≡ W.lent world.old }
        ensures holds { AllHold (W.facts world.old) self.new }
        ensures parts { self.new.parts ≡ self.old.parts }
        ensures answer { IfOk result (IsAnswer (W.facts world.old) key) }
    {
        if let Some(known) = self.known(&key)? {
            return Ok(known);
        }
        let answer = self.kept_or_new(alloc, world, kept, key.copy()?, fact)?;
        self.add_answer(key, answer.clone()?)?;
        Ok(answer)
    }
}

/// Whether a world still gives this answer to a key.
fn is_still_answer<W: World>(
    alloc: Global,
    world: &mut W,
    answer: &Answer,
    key: &Key,
    fact: &Fact,
    known: &mut IndexMap<Text, Shared<TypeAnswers>>,
) -> Result<bool, AllocError>
    requires right { fact.now ≡ W.facts world.old key.now }
    requires known { AreTypes (W.facts world.old) known.old.entries }
    ensures facts { W.facts world.new ≡ W.facts world.old }
    ensures names { W.names world.new ≡ W.names world.old }
    ensures lent { W.lent world.new ≡ W.lent world.old }
    ensures known { AreTypes (W.facts world.old) known.new.entries }
    ensures answer { IfOk result (λ hold. IsTrue hold → IsLed answer.now
        → IsAnswer (W.facts world.old) key.now answer.now) }
{
    let observation = &answer.observation;
    let is_same_key = observation.key.same(key);
    if !is_same_key {
        return Ok(false);
    }
    let is_same_fact = observation.fact.same(fact);
    if !is_same_fact {
        return Ok(false);
    }
    let hold = types_still_hold(alloc, world, answer.types.as_slice(), known)?;
    Ok(hold)
}

/// An answer of a world, with the types that it leads to.
fn answer_with<W: World>(
    alloc: Global,
    world: &mut W,
    key: Key,
    fact: Fact,
    known: &mut IndexMap<Text, Shared<TypeAnswers>>,
) -> Result<Answer, AllocError>
    requires right { fact ≡ W.facts world.old key }
    requires known { AreTypes (W.facts world.old) known.old.entries }
    ensures facts { W.facts world.new ≡ W.facts world.old }
    ensures names { W.names world.new ≡ W.names world.old }
    ensures lent { W.lent world.new ≡ W.lent world.old }
    ensures known { AreTypes (W.facts world.old) known.new.entries }
    ensures answer { IfOk result (IsAnswer (W.facts world.old) key) }
{
    let types = types_led_to(alloc, world, &fact, known)?;
    Ok(Answer {
        observation: Observation { key, fact },
        types: Items::from_vec(types),
    })
}
