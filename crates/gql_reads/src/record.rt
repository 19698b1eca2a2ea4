//! What was observed of one definition or fragment alone.
ghost use Rattle.std.specs.Prelude.{◌≡◌, ◌++◌, IfOk, OnOk};
ghost use Rattle.gql_facts.specs.Walks.{member_in};
ghost use Rattle.gql_reads.specs.Closings.{AreAnswers, AreRight};
ghost use Rattle.gql_reads.specs.Records.{IsRecord, IsTold};
ghost use Rattle.gql_reads.specs.Tables.{AllHold, Keeps};
ghost use Rattle.gql_facts.specs.Members.{Lists};

use crate::observation::Answer;
use crate::retest::KeptParts;
use crate::scan::scan_tree;
use crate::table::ReadTable;
use gql_ast::{Shared, Tree};
use gql_facts::{Fact, FragmentFact, Key, World};
use indexmap::IndexMap;
use std::alloc::{AllocError, Global};
use std::marker::Model;

/// The answers to what a definition or fragment reads by itself, each with the types that it leads
/// to. Contracts see the list of them.
pub struct Record {
    answers: Vec<Shared<Answer>>,
    /// The fragments that are among the answers.
    spreads: Vec<FragmentFact>,
}

impl Drop for Record {
    fn drop(self) {
        let Record {
            answers: _,
            spreads: _,
        } = self;
    }
}

impl Model for Record {
    ghost use Rattle.std.specs.Coded.{codes};
    ghost use Rattle.std.specs.Prelude.{List};
    ghost use Rattle.gql_facts.specs.Members.{Lists};
    ghost use Rattle.gql_facts.specs.contracts.fact.Fact as fact;
    ghost use Rattle.gql_facts.specs.contracts.key.Key as key;
    ghost use Rattle.gql_reads.specs.Records.{IsTold};
    ghost use Rattle.gql_reads.specs.contracts.observation.Answer as answer;
    ghost use Rattle.gql_reads.specs.declared.observation.Answer.{Answer};

    ghost Value = { List Answer };

    ghost coded = { Prim.hlevel (codes, answer.the_row.coded) };

    ghost view = { λ r. r.answers.items };

    ghost invariant = { λ r. Lists r.spreads.items (IsTold r.answers.items) };
}

impl Record {
    /// The answers, each shared with the records that have it, too.
    pub fn answers(&self) -> &[Shared<Answer>]
        ensures { result.now ≡ self.now }
    {
        self.answers.as_slice()
    }

    /// The fragments that are among the answers: those that the definition spreads itself.
    pub fn spreads(&self) -> &[FragmentFact]
        ensures { Lists result.now (IsTold self.now) }
    {
        self.spreads.as_slice()
    }
}

/// Adds the fragment of an answer, if it is one of a fragment.
fn add_spread(fact: &Fact, spreads: &mut Vec<FragmentFact>) -> Result<(), AllocError>
    ensures { OnOk result (spreads.new.items ≡ spreads.old.items ++ member_in fact.now) }
{
    if let Fact::Fragment(found) = fact {
        spreads.push(found.copy()?)?;
    }
    Ok(())
}

/// These answers as a record, each with the types that it leads to.
fn record_from<W: World, K: KeptParts>(
    alloc: Global,
    world: &mut W,
    kept: &K,
    answers: IndexMap<Key, Fact>,
    table: &mut ReadTable,
) -> Result<Record, AllocError>
    requires right { AreRight (W.facts world.old) answers.entries }
    requires holds { AllHold (W.facts world.old) table.old }
    ensures facts { W.facts world.new ≡ W.facts world.old }
    ensures names { W.names world.new ≡ W.names world.old }
    ensures lent { W.lent world.new ≡ W.lent world.old }
    ensures holds { AllHold (W.facts world.old) table.new }
    ensures keeps { table.new.parts ≡ table.old.parts }
    ensures answers { IfOk result (AreAnswers (W.facts world.old) answers.entries) }
{
    let mut found = Vec::with_capacity(alloc, answers.len())?;
    let mut spreads = Vec::new(alloc);
    for (key, fact) in answers {
        add_spread(&fact, &mut spreads)?;
        found.push(table.answer(alloc, world, kept, key, fact)?)?;
    }
    spreads.shrink_to_fit();
    Ok(Record {
        answers: found,
        spreads,
    })
}

/// What a world answers to exactly the own reads of a definition or fragment. Answers that the table
/// has, or that are kept and have not changed, are shared.
pub fn record_of<W: World, K: KeptParts>(
    alloc: Global,
    world: &mut W,
    kept: &K,
    tree: &Tree,
    table: &mut ReadTable,
) -> Result<Record, AllocError>
    requires holds { AllHold (W.facts world.old) table.old }
    ensures facts { W.facts world.new ≡ W.facts world.old }
    ensures names { W.names world.new ≡ W.names world.old }
    ensures lent { W.lent world.new ≡ W.lent world.old }
    ensures holds { AllHold (W.facts world.old) table.new }
    ensures keeps { table.new.parts ≡ table.old.parts }
    ensures seen { IfOk result (IsRecord (W.facts world.old) tree.now) }
{
    let mut answers = IndexMap::new(alloc);
    scan_tree(alloc, world, tree, &mut answers)?;
    let seen = record_from(alloc, world, kept, answers, table)?;
    Ok(seen)
}
