//! Changes of the index: readers that come, and readers that go.
ghost use Rattle.std.specs.Prelude.{◌≡◌, ◌++◌, ◌∷◌, [], List, IfOk, OnOk};
ghost use Rattle.gql_reads.specs.Readings.{answers_in};
ghost use Rattle.gql_reads.specs.declared.observation.Answer.{Answer as AnAnswer};
ghost use Rattle.gql_readers.specs.Changes.{AreNotes, AreNotesBetween, IsNew, noted_of};
ghost use Rattle.gql_readers.specs.Merged.{AreComing, AreGoing, NotesAt, come_noted, go_noted, is_last, noted_or, nothing_noted, with_last};
ghost use Rattle.gql_readers.specs.Readers.{Reader, with_reader};

use crate::differences::difference_of;
use crate::ids::is_same;
use crate::orders::OrderedKey;
use gql_ast::{DefinitionId, Shared};
use gql_reads::{Answer, Reading};
use std::alloc::{AllocError, Global};
use std::collections::BTreeMap;
use std::marker::Model;

/// Of one key: the answer, the readers that come, and those that go, in file order.
#[derive(Drop)]
pub struct Noted {
    pub(crate) answer: Shared<Answer>,
    pub(crate) comes: Vec<Shared<DefinitionId>>,
    pub(crate) goes: Vec<Shared<DefinitionId>>,
}

impl Model for Noted {
    ghost use Rattle.std.specs.Coded.{codes};
    ghost use Rattle.gql_ast.specs.contracts.definition.DefinitionId as of_id;
    ghost use Rattle.gql_reads.specs.contracts.observation.Answer as of_answer;
    ghost use Rattle.gql_readers.specs.Changes.{Noted};

    ghost Value = { Noted };

    ghost coded = { Prim.hlevel (codes, of_id.the_row.coded, of_answer.the_row.coded) };

    ghost view = { λ n. record { answer = n.answer; comes = n.comes.items; goes = n.goes.items } };
}

/// Whether the last of some definitions is this one.
fn ends_with(ids: &[Shared<DefinitionId>], id: &DefinitionId) -> bool
    ensures { result ≡ is_last id.now ids.now }
{
    match ids.last() {
        Some(last) => is_same(last.get(), id),
        None => false,
    }
}

/// Adds a definition, unless it is the last already.
fn add_last(
    ids: &mut Vec<Shared<DefinitionId>>,
    id: &Shared<DefinitionId>,
) -> Result<(), AllocError>
    ensures { OnOk result (ids.new.items ≡ with_last ids.old.items id.now) }
{
    if !ends_with(ids.as_slice(), id.get()) {
        ids.push(id.clone()?)?;
    }
    Ok(())
}

impl Noted {
    /// Nobody comes or goes.
    fn new(alloc: Global, answer: &Shared<Answer>) -> Result<Noted, AllocError>
        ensures { IfOk result (λ noted. noted ≡ nothing_noted answer.now) }
    {
        Ok(Noted {
            answer: answer.clone()?,
            comes: Vec::new(alloc),
            goes: Vec::new(alloc),
        })
    }

    /// Notes that a reader comes, which had this answer.
    fn come(&mut self, answer: &Shared<Answer>, id: &Shared<DefinitionId>) -> Result<(), AllocError>
        ensures { OnOk result (self.new ≡ come_noted self.old answer.now id.now) }
    {
        if self.comes.is_empty() {
            self.answer = answer.clone()?;
        }
        add_last(&mut self.comes, id)
    }

    /// Notes that a reader goes.
    fn go(&mut self, id: &Shared<DefinitionId>) -> Result<(), AllocError>
        ensures { OnOk result (self.new ≡ go_noted self.old id.now) }
    {
        add_last(&mut self.goes, id)
    }
}

/// Which readers of each key come, and which go.
#[derive(Drop)]
pub struct Changes {
    pub(crate) notes: BTreeMap<OrderedKey, Noted>,
}

impl Model for Changes {
    ghost use Rattle.std.specs.Coded.{codes};
    ghost use Rattle.gql_ast.specs.contracts.definition.DefinitionId as of_id;
    ghost use Rattle.gql_facts.specs.contracts.key.Key as of_key;
    ghost use Rattle.gql_reads.specs.contracts.observation.Answer as of_answer;
    ghost use Rattle.gql_readers.specs.Changes.{Notes};

    ghost Value = { Notes };

    ghost coded = { Prim.hlevel (
      codes,
      of_id.the_row.coded,
      of_key.the_row.coded,
      of_answer.the_row.coded,
    ) };

    ghost view = { λ c. c.notes.entries };
}

impl Changes {
    /// No changes.
    pub fn new(alloc: Global) -> Changes
        ensures empty { result ≡ [] }
        ensures notes { AreNotes result [] [] }
    {
        Changes {
            notes: BTreeMap::new(alloc),
        }
    }

    /// Puts in what is noted of a key.
    fn put(&mut self, key: OrderedKey, noted: Noted) -> Result<(), AllocError>
        ensures { OnOk result (NotesAt self.old self.new key noted) }
    {
        match self.notes.insert(key, noted) {
            Ok(_) => Ok(()),
            Err(_) => Err(AllocError),
        }
    }

    /// Notes of a key that a reader comes.
    fn note_come(
        &mut self,
        alloc: Global,
        id: &Shared<DefinitionId>,
        answer: &Shared<Answer>,
    ) -> Result<(), AllocError>
        ensures { OnOk result (NotesAt self.old self.new answer.now.observation.key (come_noted
            (noted_or answer.now (noted_of self.old answer.now.observation.key))
            answer.now id.now)) }
    {
        let key = OrderedKey::of(answer)?;
        if let Some(noted) = self.notes.get_mut(&key) {
            noted.come(answer, id)?;
            return Ok(());
        }
        let mut noted = Noted::new(alloc, answer)?;
        noted.come(answer, id)?;
        self.put(key, noted)?;
        Ok(())
    }

    /// Notes of a key that a reader goes.
    fn note_go(
        &mut self,
        alloc: Global,
        id: &Shared<DefinitionId>,
        answer: &Shared<Answer>,
    ) -> Result<(), AllocError>
        ensures { OnOk result (NotesAt self.old self.new answer.now.observation.key (go_noted
            (noted_or answer.now (noted_of self.old answer.now.observation.key)) id.now)) }
    {
        let key = OrderedKey::of(answer)?;
        if let Some(noted) = self.notes.get_mut(&key) {
            noted.go(id)?;
            return Ok(());
        }
        let mut noted = Noted::new(alloc, answer)?;
        noted.go(id)?;
        self.put(key, noted)?;
        Ok(())
    }

    /// Notes that the definition that came last has observed this, too.
    fn come_with(
        &mut self,
        alloc: Global,
        id: &Shared<DefinitionId>,
        answers: &[Shared<Answer>],
    ) -> Result<(), AllocError>
        ensures { OnOk result ((coming going : List Reader) (before : List AnAnswer)
            → IsNew id.now coming → AreComing self.old coming going id.now before
            → AreComing self.new coming going id.now (before ++ answers.now)) }
    {
        for answer in answers {
            self.note_come(alloc, id, answer)?;
        }
        Ok(())
    }

    /// Notes that a definition comes, with the answers that it observed.
    pub fn come(
        &mut self,
        alloc: Global,
        id: &Shared<DefinitionId>,
        reading: &Reading,
    ) -> Result<(), AllocError>
        ensures { OnOk result ((coming going : List Reader) → AreNotes self.old coming going
            → IsNew id.now coming
            → AreNotes self.new (with_reader coming id.now (answers_in reading.now)) going) }
    {
        self.come_with(alloc, id, reading.own.record.get().answers())?;
        for part in reading.parts.as_slice() {
            self.come_with(alloc, id, part.seen().get().answers())?;
        }
        Ok(())
    }

    /// Notes that the definition that went last had observed this, too.
    fn go_with(
        &mut self,
        alloc: Global,
        id: &Shared<DefinitionId>,
        answers: &[Shared<Answer>],
    ) -> Result<(), AllocError>
        ensures { OnOk result ((coming going : List Reader) (before : List AnAnswer)
            → IsNew id.now going → AreGoing self.old coming going id.now before
            → AreGoing self.new coming going id.now (before ++ answers.now)) }
    {
        for answer in answers {
            self.note_go(alloc, id, answer)?;
        }
        Ok(())
    }

    /// Notes that a definition goes, with the answers that it had observed.
    pub fn go(
        &mut self,
        alloc: Global,
        id: &Shared<DefinitionId>,
        reading: &Reading,
    ) -> Result<(), AllocError>
        ensures { OnOk result ((coming going : List Reader) → AreNotes self.old coming going
            → IsNew id.now going
            → AreNotes self.new coming (with_reader going id.now (answers_in reading.now))) }
    {
        self.go_with(alloc, id, reading.own.record.get().answers())?;
        for part in reading.parts.as_slice() {
            self.go_with(alloc, id, part.seen().get().answers())?;
        }
        Ok(())
    }

    /// Notes that a definition has other answers than before. Only what differs is noted: the key of
    /// an answer that is at the same place before and after is passed over, unless another answer to
    /// it goes.
    pub fn replace(
        &mut self,
        alloc: Global,
        id: &Shared<DefinitionId>,
        before: &Reading,
        after: &Reading,
    ) -> Result<(), AllocError>
        ensures { OnOk result ((old new : List Reader) → AreNotesBetween self.old old new
            → IsNew id.now old → IsNew id.now new
            → AreNotesBetween self.new (with_reader old id.now (answers_in before.now))
            (with_reader new id.now (answers_in after.now))) }
    {
        let differ = difference_of(alloc, before, after)?;
        self.go_with(alloc, id, differ.went.as_slice())?;
        self.come_with(alloc, id, differ.came.as_slice())?;
        Ok(())
    }
}
