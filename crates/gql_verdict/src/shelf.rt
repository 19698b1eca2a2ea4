//! The verdicts that are kept, one for each definition that is present.
ghost use Rattle.std.specs.Prelude.{◌≡◌, ◌↔◌, ◌++◌, ◌∷◌, [], Contains, List, IfOk, IsTrue, OnOk, OnErr, flat_map};
ghost use Rattle.std.specs.Option.{option_copied};
ghost use Rattle.gql_ast.specs.declared.definition.Definition.{Definition};
ghost use Rattle.gql_facts.specs.Members.{Lists};
ghost use Rattle.gql_facts.specs.Worlds.{Facts};
ghost use Rattle.gql_verdict.specs.Definitions.{all_definitions as definitions_of};
ghost use Rattle.gql_verdict.specs.FileOrder.{AreFilesPlaced};
ghost use Rattle.gql_pairs.specs.Tables.{AllHold, KeepsHolding};
ghost use Rattle.gql_verdict.specs.Shelves.{nothing_shelved};
ghost use Rattle.gql_verdict.specs.Shelves.{Answers, IsCurrent, IsFaultOfAny, IsVerdictAt, readers_of};
ghost use Rattle.gql_verdict.specs.Shelves.{HasDuePairs, IsWholeWork, IsWork};
ghost use Rattle.gql_verdict.specs.Plans.{IsPlanned, IsPrepared};
ghost use Rattle.gql_reads.specs.Observations.{keys_of};
ghost use Rattle.gql_verdict.specs.Slots.{IsSlotCertified, ids_of, slot_faults, verdicts};
ghost use Rattle.gql_verdict.specs.Verdicts.{Judgement};
ghost use Rattle.gql_verdict.specs.TouchedFacts.{ArePairsKnown, IsKnown};

use crate::asked::{has_reader_in, kept_answer};
use crate::indexing::index_after;
use crate::marks::broken_marks;
use crate::meter::Meter;
use crate::plan::plan;
use crate::shared_work::SharedWork;
use crate::slot::{Slot, fill, find, resolved};
use crate::touched::Touched;
use crate::verdict::Verdict;
use gql_ast::{DefinitionId, Fault, Files, Shared};
use gql_facts::{FragmentFact, Key, World};
use gql_pairs::PairTable;
use gql_readers::Index;
use gql_reads::{Answer, KeptParts, Part};
use std::alloc::{AllocError, Global};
use std::marker::Model;

/// Adds faults, which are shared.
fn add_all(faults: &[Shared<Fault>], found: &mut Vec<Shared<Fault>>) -> Result<(), AllocError>
    ensures { OnOk result (found.new.items ≡ found.old.items ++ faults.now) }
{
    for fault in faults {
        found.push(fault.clone()?)?;
    }
    Ok(())
}

/// Adds the faults of a verdict, which are shared.
fn add_slot(slot: &Slot, found: &mut Vec<Shared<Fault>>) -> Result<(), AllocError>
    ensures found { OnOk result (found.new.items ≡ found.old.items ++ slot_faults slot.now) }
    ensures certificate { IsSlotCertified slot.now }
{
    match slot {
        Slot::Here(verdict) => add_all(verdict.faults(), found),
        Slot::At(_) => Ok(()),
    }
}

/// Adds the definition of a verdict, if the verdict observes a key.
fn add_reader(
    alloc: Global,
    slot: &Slot,
    key: &Key,
    ids: &mut Vec<Shared<DefinitionId>>,
) -> Result<(), AllocError>
    ensures { OnOk result (ids.new.items ≡ ids.old.items
        ++ readers_of key.now (verdicts (slot.now ∷ []))) }
{
    let Slot::Here(verdict) = slot else {
        return Ok(());
    };
    if !verdict.observes(key) {
        return Ok(());
    }
    ids.push(Shared::new(alloc, verdict.def().id()?)?)?;
    Ok(())
}

/// A verdict for each definition of the document files, in their order, and what clashes between
/// fragments. Contracts see the list of the verdicts, and what is kept of pairs of fragments.
pub struct Shelf {
    slots: Vec<Slot>,
    index: Index,
    pairs: PairTable,
}

impl Drop for Shelf {
    fn drop(self) {
        let Shelf {
            slots: _,
            index: _,
            pairs: _,
        } = self;
    }
}

impl Model for Shelf {
    ghost use Rattle.std.specs.Coded.{codes};
    ghost use Rattle.gql_ast.specs.contracts.definition.Definition as definition;
    ghost use Rattle.gql_ast.specs.contracts.fault.Fault as fault;
    ghost use Rattle.gql_facts.specs.contracts.key.Key as key;
    ghost use Rattle.gql_facts.specs.contracts.fact.Fact as fact;
    ghost use Rattle.gql_facts.specs.contracts.fact.FragmentFact as fragment_fact;
    ghost use Rattle.gql_merge.specs.contracts.two_fragments.FragmentClash as clash;
    ghost use Rattle.gql_verdict.specs.Shelves.{Shelved};
    ghost use Rattle.gql_verdict.specs.Marks.{IsShelved};
    ghost use Rattle.gql_verdict.specs.Slots.{verdicts};

    ghost Value = { Shelved };

    ghost coded = { Prim.hlevel (
      codes,
      definition.the_row.coded,
      fault.the_row.coded,
      key.the_row.coded,
      fact.the_row.coded,
      fragment_fact.the_row.coded,
      clash.the_row.coded,
    ) };

    ghost view = { λ s. record { verdicts = verdicts s.slots.items; pairs = s.pairs } };

    ghost invariant = { λ s. IsShelved s.slots.items s.index };
}

impl KeptParts for Shelf {
    fn part(&self, fragment: &FragmentFact) -> Option<&Part> {
        let Ok(file) = fragment.file.copy() else {
            return None;
        };
        let id = DefinitionId {
            file,
            offset: fragment.fragment.get().place.offset,
        };
        match self.get(&id) {
            Some(verdict) => verdict.part(),
            None => None,
        }
    }

    fn answer(&self, key: &Key) -> Option<&Shared<Answer>> {
        kept_answer(self.slots.as_slice(), &self.index, key)
    }
}

/// What makes a shelf current: for each definition a new verdict, or the index of one on the shelf;
/// who reads each key afterwards, and what clashes between fragments.
#[derive(Drop)]
pub struct Prepared {
    steps: Vec<Slot>,
    index: Index,
    pairs: PairTable,
}

impl Model for Prepared {
    ghost use Rattle.std.specs.Coded.{codes};
    ghost use Rattle.gql_ast.specs.contracts.definition.DefinitionId as of_id;
    ghost use Rattle.gql_facts.specs.contracts.key.Key as of_key;
    ghost use Rattle.gql_facts.specs.contracts.fact.Fact as of_fact;
    ghost use Rattle.gql_facts.specs.contracts.fact.FragmentFact as of_fragment;
    ghost use Rattle.gql_merge.specs.contracts.two_fragments.FragmentClash as of_clash;
    ghost use Rattle.gql_verdict.specs.Plans.{Preparation};
    ghost use Rattle.gql_verdict.specs.contracts.slot.Slot as slot;

    ghost Value = { Preparation };

    ghost coded = { Prim.hlevel (
      codes,
      slot.the_row.coded,
      of_id.the_row.coded,
      of_key.the_row.coded,
      of_fact.the_row.coded,
      of_fragment.the_row.coded,
      of_clash.the_row.coded,
    ) };

    ghost view = { λ p. record {
      steps = p.steps.items;
      index = p.index;
      pairs = p.pairs;
    } };
}

/// What clashes between fragments, without the entries that no longer hold after an edit.
fn held_pairs<W: World>(
    alloc: Global,
    world: &mut W,
    pairs: &PairTable,
    touched: &Touched,
) -> Result<PairTable, AllocError>
    requires { ArePairsKnown (W.facts world.old) pairs.now touched.now }
    ensures facts { W.facts world.new ≡ W.facts world.old }
    ensures names { W.names world.new ≡ W.names world.old }
    ensures lent { W.lent world.new ≡ W.lent world.old }
    ensures holds { IfOk result (λ held. AllHold (W.facts world.old) held) }
    ensures kept { IfOk result (λ held. KeepsHolding (W.facts world.old) pairs.now held) }
{
    let doubt = touched.doubt()?;
    pairs.holding(alloc, world, &doubt)
}

impl Shelf {
    /// A shelf with nothing on it.
    pub fn new(alloc: Global) -> Shelf
        ensures { result ≡ nothing_shelved }
    {
        Shelf {
            slots: Vec::new(alloc),
            index: Index::new(alloc),
            pairs: PairTable::new(alloc),
        }
    }

    /// Prepares to make the shelf current after an edit: examines each definition that has no
    /// verdict, or whose verdict no longer holds, and no other. The meter gains an entry for each new
    /// verdict. Of the keys that are read, the world is asked only
    /// for those that the edit touches, or that lead to a type that it touches, and once for all
    /// readers of a key. Each fragment is walked at most once. Of what is kept of pairs of
    /// fragments, only what no longer holds is left out. The shelf stays as it is.
    pub fn prepare<W: World>(
        &self,
        alloc: Global,
        world: &mut W,
        files: &Files,
        touched: &Touched,
        meter: &mut Meter,
    ) -> Result<Prepared, AllocError>
        requires placed { AreFilesPlaced files.now.documents }
        requires known { IsKnown (W.facts world.old) (definitions_of files.now.documents)
            self.now.verdicts touched.now }
        requires pairs { ArePairsKnown (W.facts world.old) self.now.pairs touched.now }
        ensures facts { W.facts world.new ≡ W.facts world.old }
        ensures names { W.names world.new ≡ W.names world.old }
        ensures lent { W.lent world.new ≡ W.lent world.old }
        ensures planned { IfOk result (λ prepared. IsPlanned (W.facts world.old)
            (definitions_of files.now.documents) self.now.verdicts prepared) }
        ensures pairs { IfOk result (λ prepared.
            KeepsHolding (W.facts world.old) self.now.pairs prepared.pairs) }
        ensures walked { IfOk result (λ prepared. HasDuePairs (W.facts world.old)
            self.now.verdicts (definitions_of files.now.documents) prepared.pairs) }
        ensures entries { IfOk result (λ prepared.
            meter.new ≡ meter.old ++ ids_of (verdicts prepared.steps)) }
        ensures whole { OnOk result (IsWholeWork (W.facts world.old) self.now.verdicts
            (definitions_of files.now.documents) meter.old meter.new) }
        ensures work { OnErr result (IsWork (W.facts world.old) self.now.verdicts
            (definitions_of files.now.documents) meter.old meter.new) }
    {
        let kept = self.slots.as_slice();
        let marks = broken_marks(alloc, world, kept, &self.index, touched)?;
        let held = held_pairs(alloc, world, &self.pairs, touched)?;
        let mut shared = SharedWork::new(alloc, held);
        let steps = plan(
            alloc,
            world,
            kept,
            marks.as_slice(),
            files,
            touched,
            self,
            &mut shared,
            meter,
        )?;
        let index = index_after(alloc, &self.index, kept, steps.as_slice())?;
        let pairs = shared.pairs;
        Ok(Prepared {
            steps,
            index,
            pairs,
        })
    }

    /// The faults of the verdicts that will be on the shelf once it is current. The list shares
    /// them with the verdicts.
    pub fn prepared_faults(
        &self,
        alloc: Global,
        prepared: &Prepared,
    ) -> Result<Vec<Shared<Fault>>, AllocError>
        ensures { IfOk result (λ found. (facts : Facts) (definitions : List Definition)
            → IsPlanned facts definitions self.now.verdicts prepared.now
            → Lists found.items (IsFaultOfAny facts definitions)) }
    {
        let kept = self.slots.as_slice();
        let mut found = Vec::new(alloc);
        for step in prepared.steps.as_slice() {
            add_slot(resolved(kept, step), &mut found)?;
        }
        Ok(found)
    }

    /// Makes the shelf current: new verdicts take their places, those that still hold keep theirs,
    /// and those on definitions that are gone are dropped. It allocates nothing and cannot fail.
    pub fn commit(&mut self, prepared: Prepared)
        requires { IsPrepared self.old.verdicts prepared }
        ensures current { (facts : Facts) (definitions : List Definition)
            → IsPlanned facts definitions self.old.verdicts prepared
            → IsCurrent facts definitions self.new.verdicts }
        ensures pairs { self.new.pairs ≡ prepared.pairs }
    {
        let mut steps = prepared.steps;
        fill(&mut steps, &mut self.slots);
        self.slots = steps;
        self.index = prepared.index;
        self.pairs = prepared.pairs;
    }

    /// Makes the shelf current, whatever changed since: the answer to each key that is read is asked
    /// again. If an allocation fails, the shelf is as before. Where it is known what an edit touched,
    /// `prepare` and `commit` do it with fewer tests.
    pub fn refresh<W: World>(
        &mut self,
        alloc: Global,
        world: &mut W,
        files: &Files,
        meter: &mut Meter,
    ) -> Result<(), AllocError>
        requires placed { AreFilesPlaced files.now.documents }
        ensures facts { W.facts world.new ≡ W.facts world.old }
        ensures names { W.names world.new ≡ W.names world.old }
        ensures lent { W.lent world.new ≡ W.lent world.old }
        ensures current { OnOk result (IsCurrent (W.facts world.old)
            (definitions_of files.now.documents) self.new.verdicts) }
        ensures pairs { OnOk result (AllHold (W.facts world.old) self.new.pairs) }
        ensures kept { OnOk result
            (KeepsHolding (W.facts world.old) self.old.pairs self.new.pairs) }
        ensures walked { OnOk result (HasDuePairs (W.facts world.old) self.old.verdicts
            (definitions_of files.now.documents) self.new.pairs) }
        ensures err { OnErr result (self.new ≡ self.old) }
        ensures whole { OnOk result (IsWholeWork (W.facts world.old) self.old.verdicts
            (definitions_of files.now.documents) meter.old meter.new) }
        ensures work { OnErr result (IsWork (W.facts world.old) self.old.verdicts
            (definitions_of files.now.documents) meter.old meter.new) }
    {
        let prepared = self.prepare(alloc, world, files, &Touched::All, meter)?;
        self.commit(prepared);
        Ok(())
    }

    /// The verdict on the definition of that name.
    pub fn get(&self, id: &DefinitionId) -> Option<&Verdict>
        ensures value { IsVerdictAt self.now.verdicts id.now (option_copied result) }
        ensures current { (facts : Facts) (definitions : List Definition)
            → IsCurrent facts definitions self.now.verdicts
            → Answers facts definitions id.now (option_copied result) }
    {
        let Some(j) = find(self.slots.as_slice(), &id.file, id.offset) else {
            return None;
        };
        match &self.slots[j] {
            Slot::Here(verdict) => Some(verdict),
            Slot::At(_) => None,
        }
    }

    /// The definitions whose verdicts observe a key, by file and offset.
    pub fn readers(&self, alloc: Global, key: &Key) -> Result<Vec<Shared<DefinitionId>>, AllocError>
        ensures { IfOk result (λ ids. ids.items ≡ readers_of key.now self.now.verdicts) }
    {
        let mut ids = Vec::new(alloc);
        for slot in self.slots.as_slice() {
            add_reader(alloc, slot, key, &mut ids)?;
        }
        Ok(ids)
    }

    /// Whether a verdict observes a key. It takes no memory.
    pub fn has_reader(&self, key: &Key) -> bool
        ensures { IsTrue result ↔ ((v : Judgement) × Contains self.now.verdicts v
            × Contains (keys_of v.observations) key.now) }
    {
        has_reader_in(self.slots.as_slice(), &self.index, key)
    }

    /// What clashes between fragments: an entry for each two that were spread by one set of a
    /// definition, as long as it holds.
    pub fn pairs(&self) -> &PairTable
        ensures { result.now ≡ self.now.pairs }
    {
        &self.pairs
    }

    /// The faults of all verdicts. The list shares them with the verdicts.
    pub fn faults(&self, alloc: Global) -> Result<Vec<Shared<Fault>>, AllocError>
        ensures value { IfOk result (λ found.
            found.items ≡ flat_map (λ v. v.faults) self.now.verdicts) }
        ensures current { IfOk result (λ found. (facts : Facts) (definitions : List Definition)
            → IsCurrent facts definitions self.now.verdicts
            → Lists found.items (IsFaultOfAny facts definitions)) }
    {
        let mut found = Vec::new(alloc);
        for slot in self.slots.as_slice() {
            add_slot(slot, &mut found)?;
        }
        Ok(found)
    }
}
