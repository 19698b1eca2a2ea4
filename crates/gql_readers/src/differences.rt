//! What differs between the answers that a definition had before and those that it has after.
ghost use Rattle.std.specs.Prelude.{◌≡◌, ◌++◌, ◌∷◌, [], List, IfOk, OnOk, slice_get};
ghost use Rattle.gql_reads.specs.Readings.{answers_in};
ghost use Rattle.gql_reads.specs.declared.observation.Answer.{Answer as AnAnswer};
ghost use Rattle.gql_readers.specs.Replacements.{AreCompared, IsReplacement, answers_to, listed, seen_of, seen_of_all};

use gql_ast::{Same, Shared};
use gql_facts::Key;
use gql_reads::{Answer, Part, Reading};
use indexmap::IndexSet;
use std::alloc::{AllocError, Global};

/// The answers that go and those that come, and keys of answers that go which maybe none comes to.
#[derive(Drop)]
pub struct Difference {
    pub(crate) went: Vec<Shared<Answer>>,
    pub(crate) came: Vec<Shared<Answer>>,
    lost: IndexSet<Key>,
}

/// What was observed of the part at an index, or nothing if there is none.
fn answers_at(parts: &[Part], at: usize) -> &[Shared<Answer>]
    ensures { result.now ≡ seen_of (slice_get parts.now at) }
{
    match parts.get(at) {
        Some(part) => part.seen().get().answers(),
        None => &[],
    }
}

impl Difference {
    /// Nothing differs.
    fn new(alloc: Global) -> Difference
        ensures { AreCompared result.went.items result.came.items result.lost.keys [] [] }
    {
        Difference {
            went: Vec::new(alloc),
            came: Vec::new(alloc),
            lost: IndexSet::new(alloc),
        }
    }

    /// Adds an answer that goes.
    fn lose(&mut self, before: &Shared<Answer>) -> Result<(), AllocError>
        ensures { OnOk result ((olds news : List AnAnswer)
            → AreCompared self.old.went.items self.old.came.items self.old.lost.keys olds news
            → AreCompared self.new.went.items self.new.came.items self.new.lost.keys
            (olds ++ before.now ∷ []) news) }
    {
        self.lost.insert(before.get().observation.key.copy()?)?;
        self.went.push(before.clone()?)?;
        Ok(())
    }

    /// Adds an answer that comes.
    fn gain(&mut self, after: &Shared<Answer>) -> Result<(), AllocError>
        ensures { OnOk result ((olds news : List AnAnswer)
            → AreCompared self.old.went.items self.old.came.items self.old.lost.keys olds news
            → AreCompared self.new.went.items self.new.came.items self.new.lost.keys
            olds (news ++ after.now ∷ [])) }
    {
        self.came.push(after.clone()?)?;
        Ok(())
    }

    /// Adds an answer that goes, and one that comes in its place, if they differ.
    fn swap(&mut self, before: &Shared<Answer>, after: &Shared<Answer>) -> Result<(), AllocError>
        ensures { OnOk result ((olds news : List AnAnswer)
            → AreCompared self.old.went.items self.old.came.items self.old.lost.keys olds news
            → AreCompared self.new.went.items self.new.came.items self.new.lost.keys
            (olds ++ before.now ∷ []) (news ++ after.now ∷ [])) }
    {
        if before.get().same(after.get()) {
            return Ok(());
        }
        if before
            .get()
            .observation
            .key
            .same(&after.get().observation.key)
        {
            self.went.push(before.clone()?)?;
            self.came.push(after.clone()?)?;
            return Ok(());
        }
        self.lose(before)?;
        self.gain(after)
    }

    /// Compares the answers at one index, where there are any.
    fn compare_at(
        &mut self,
        before: &[Shared<Answer>],
        after: &[Shared<Answer>],
        at: usize,
    ) -> Result<(), AllocError>
        ensures { OnOk result ((olds news : List AnAnswer)
            → AreCompared self.old.went.items self.old.came.items self.old.lost.keys olds news
            → AreCompared self.new.went.items self.new.came.items self.new.lost.keys
            (olds ++ listed (slice_get before.now at))
            (news ++ listed (slice_get after.now at))) }
    {
        match before.get(at) {
            Some(before) => match after.get(at) {
                Some(after) => self.swap(before, after),
                None => self.lose(before),
            },
            None => match after.get(at) {
                Some(after) => self.gain(after),
                None => Ok(()),
            },
        }
    }

    /// Compares two lists of answers.
    fn compare(
        &mut self,
        before: &[Shared<Answer>],
        after: &[Shared<Answer>],
    ) -> Result<(), AllocError>
        ensures { OnOk result ((olds news : List AnAnswer)
            → AreCompared self.old.went.items self.old.came.items self.old.lost.keys olds news
            → AreCompared self.new.went.items self.new.came.items self.new.lost.keys
            (olds ++ before.now) (news ++ after.now)) }
    {
        for i in 0..before.len().max(after.len()) {
            self.compare_at(before, after, i)?;
        }
        Ok(())
    }

    /// Compares what was observed of two lists of parts.
    fn compare_parts(&mut self, before: &[Part], after: &[Part]) -> Result<(), AllocError>
        ensures { OnOk result ((olds news : List AnAnswer)
            → AreCompared self.old.went.items self.old.came.items self.old.lost.keys olds news
            → AreCompared self.new.went.items self.new.came.items self.new.lost.keys
            (olds ++ seen_of_all before.now) (news ++ seen_of_all after.now)) }
    {
        for i in 0..before.len().max(after.len()) {
            self.compare(answers_at(before, i), answers_at(after, i))?;
        }
        Ok(())
    }

    /// Adds those of these answers that are to lost keys: they come.
    fn find_lost(&mut self, answers: &[Shared<Answer>]) -> Result<(), AllocError>
        ensures went { OnOk result (self.new.went.items ≡ self.old.went.items) }
        ensures lost { OnOk result (self.new.lost.keys ≡ self.old.lost.keys) }
        ensures came { OnOk result (self.new.came.items
            ≡ self.old.came.items ++ answers_to self.old.lost.keys answers.now) }
    {
        for answer in answers {
            if self.lost.contains(&answer.get().observation.key) {
                self.came.push(answer.clone()?)?;
            }
        }
        Ok(())
    }

    /// Adds those of the answers of a reading that are to lost keys: they come.
    fn find_all_lost(&mut self, after: &Reading) -> Result<(), AllocError>
        ensures went { OnOk result (self.new.went.items ≡ self.old.went.items) }
        ensures came { OnOk result (self.new.came.items
            ≡ self.old.came.items ++ answers_to self.old.lost.keys (answers_in after.now)) }
    {
        if self.lost.is_empty() {
            return Ok(());
        }
        self.find_lost(after.own.record.get().answers())?;
        for part in after.parts.as_slice() {
            self.find_lost(part.seen().get().answers())?;
        }
        Ok(())
    }
}

/// What differs between what a definition observed before and what it observed after. An answer
/// that is at the same place in both neither goes nor comes, unless its key is one that another
/// answer lost.
pub fn difference_of(
    alloc: Global,
    before: &Reading,
    after: &Reading,
) -> Result<Difference, AllocError>
    ensures { IfOk result (λ difference. IsReplacement (answers_in before.now)
        difference.went.items difference.came.items (answers_in after.now)) }
{
    let mut difference = Difference::new(alloc);
    difference.compare(
        before.own.record.get().answers(),
        after.own.record.get().answers(),
    )?;
    difference.compare_parts(before.parts.as_slice(), after.parts.as_slice())?;
    difference.find_all_lost(after)?;
    Ok(difference)
}
