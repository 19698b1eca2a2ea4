//! Verdicts: the faults of a definition, with all that they depend on.
ghost use Rattle.std.specs.Prelude.{◌≡◌, ◌↔◌, ◌++◌, ◌∷◌, [], Contains, IfOk, OnOk, OnErr, IsTrue};
ghost use Rattle.gql_ast.specs.Trees.{id_of};
ghost use Rattle.gql_facts.specs.Members.{Lists};
ghost use Rattle.gql_facts.specs.Reads.{Reaches};
ghost use Rattle.gql_reads.specs.Observations.{keys_of};
ghost use Rattle.gql_reads.specs.Readings.{answers_in, flat, seen_in};
ghost use Rattle.gql_ast.specs.declared.fault.Fault.{Fault as AFault};
ghost use Rattle.gql_facts.specs.declared.fact.FragmentFact.{FragmentFact as AFragment};
ghost use Rattle.gql_merge.specs.Between.{name_of};
ghost use Rattle.gql_merge.specs.ByFragments.{IsPairOf};
ghost use Rattle.gql_merge.specs.Clean.{AreClean};
ghost use Rattle.gql_merge.specs.MergeFaults.{IsMergeFault};
ghost use Rattle.gql_pairs.specs.Tables as of_pairs;
ghost use Rattle.gql_reads.specs.Tables.{Keeps};
ghost use Rattle.gql_verdict.specs.SharedWorks.{Holds};
ghost use Rattle.gql_verdict.specs.Faults.{IsFaultIn};
ghost use Rattle.gql_verdict.specs.Verdicts.{AreReadsOf, IsCertificate, Judges};

use crate::meter::Meter;
use crate::shared_work::SharedWork;
use crate::sharing::{add_shared, share_into, shared_faults};
use crate::v30_single_root_field::root_faults;
use gql_ast::{Definition, Fault, Same, Shared};
use gql_facts::{FragmentFact, Key, World};
use gql_merge::{CleanFragments, merge_faults_with};
use gql_reads::{KeptParts, Part, Reading, one_observes, reads_of};
use gql_rules::local_faults;
use gql_vars::variable_faults;
use std::alloc::{AllocError, Global};
use std::marker::Model;

/// What a verdict says.
pub struct Held {
    def: Definition,
    faults: Vec<Shared<Fault>>,
    reading: Reading,
}

impl Drop for Held {
    fn drop(self) {
        let Held {
            def: _,
            faults: _,
            reading: _,
        } = self;
    }
}

/// A definition, its faults, and the answers that these depend on. Wherever a world gives the same
/// answers, the faults are the same, and the keys that were asked for are exactly those that the
/// definition reads. Only `examine` makes one. It is a handle, so that a list of verdicts is short, and
/// one that is kept is moved at no cost.
pub struct Verdict {
    held: Shared<Held>,
}

impl Drop for Verdict {
    fn drop(self) {
        let Verdict { held: _ } = self;
    }
}

impl Model for Verdict {
    ghost use Rattle.std.specs.Coded.{codes};
    ghost use Rattle.gql_ast.specs.contracts.definition.Definition as definition;
    ghost use Rattle.gql_ast.specs.contracts.fault.Fault as fault;
    ghost use Rattle.gql_facts.specs.contracts.key.Key as key;
    ghost use Rattle.gql_facts.specs.contracts.fact.Fact as fact;
    ghost use Rattle.gql_reads.specs.Readings.{answers_in, flat};
    ghost use Rattle.gql_reads.specs.contracts.observation.Answer as answer;
    ghost use Rattle.gql_verdict.specs.Verdicts.{IsFounded, Judgement};

    ghost Value = { Judgement };

    ghost coded = { Prim.hlevel (
      codes,
      definition.the_row.coded,
      fault.the_row.coded,
      key.the_row.coded,
      fact.the_row.coded,
      answer.the_row.coded,
    ) };

    ghost view = { λ v. record {
      def = v.held.def;
      faults = v.held.faults.items;
      observations = flat v.held.reading;
      answers = answers_in v.held.reading;
    } };

    ghost invariant = { λ v. IsFounded v.held.def v.held.faults.items (flat v.held.reading) };
}

impl Verdict {
    /// The definition, as it was when it was examined.
    pub fn def(&self) -> &Definition
        ensures { result.now ≡ self.now.def }
    {
        &self.held.get().def
    }

    /// The faults of the definition.
    pub fn faults(&self) -> &[Shared<Fault>]
        ensures value { result.now ≡ self.now.faults }
        ensures certificate { IsCertificate self.now.def self.now.faults self.now.observations }
    {
        self.held.get().faults.as_slice()
    }

    /// The answers that the faults depend on, absences too: those to what the definition reads
    /// alone, and for each fragment that it reaches those to what the fragment reads alone.
    pub fn reading(&self) -> &Reading
        ensures flat { flat result.now ≡ self.now.observations }
        ensures answers { answers_in result.now ≡ self.now.answers }
        ensures keys { AreReadsOf self.now.def self.now.observations }
    {
        &self.held.get().reading
    }

    /// Whether it observed a key.
    pub fn observes(&self, key: &Key) -> bool
        ensures { IsTrue result ↔ Contains (keys_of self.now.observations) key.now }
    {
        let reading = self.reading();
        if one_observes(reading.own.record.get().answers(), key) {
            return true;
        }
        one_part_observes(reading.parts.as_slice(), key)
    }

    /// The part of the definition, if it is the fragment of its name.
    pub(crate) fn part(&self) -> Option<&Part> {
        self.reading().own.part.as_ref()
    }

    /// Whether it is the verdict on this definition, at this place.
    pub fn is_of(&self, definition: &Definition) -> bool
        ensures { IsTrue result ↔ (self.now.def ≡ definition.now) }
    {
        self.def().same(definition)
    }
}

/// Whether what was observed of one of these fragments is of this key.
fn one_part_observes(parts: &[Part], key: &Key) -> bool
    ensures { IsTrue result ↔ Contains (keys_of (seen_in parts.now)) key.now }
{
    for part in parts {
        if one_observes(part.seen().get().answers(), key) {
            return true;
        }
    }
    false
}

/// The faults of a definition, and whether none of them is by the merging of fields.
#[derive(Drop)]
struct Found {
    faults: Vec<Shared<Fault>>,
    is_clean: bool,
}

/// Whether there are no faults.
fn are_none(faults: &[Shared<Fault>]) -> bool
    ensures { IsTrue result → faults.now ≡ [] }
{
    faults.is_empty()
}

/// The faults of a definition by all rules on one definition, where these are the fragments that it
/// reaches.
fn faults_in<W: World>(
    alloc: Global,
    world: &mut W,
    definition: &Definition,
    members: &[FragmentFact],
    clean: &mut CleanFragments,
) -> Result<Found, AllocError>
    requires clean { AreClean (W.facts world.old) clean.old }
    requires members { Lists members.now (Reaches (W.facts world.old) definition.now) }
    ensures facts { W.facts world.new ≡ W.facts world.old }
    ensures names { W.names world.new ≡ W.names world.old }
    ensures lent { W.lent world.new ≡ W.lent world.old }
    ensures clean { AreClean (W.facts world.old) clean.new }
    ensures faults { IfOk result (λ found.
        Lists found.faults.items (IsFaultIn (W.facts world.old) definition.now)) }
    ensures merging { IfOk result (λ found. IsTrue found.is_clean
        → (f : AFault) → IsMergeFault (W.facts world.old) definition.now f → ⊥) }
{
    let of_nodes = local_faults(alloc, world, definition, members)?;
    let mut faults = shared_faults(alloc, of_nodes)?;
    let of_variables = variable_faults(alloc, world, definition, members)?;
    share_into(alloc, of_variables, &mut faults)?;
    let of_root = root_faults(alloc, world, definition, members)?;
    share_into(alloc, of_root, &mut faults)?;
    let of_merging = merge_faults_with(alloc, world, definition, members, clean)?;
    let is_clean = are_none(of_merging.as_slice());
    add_shared(of_merging, &mut faults)?;
    Ok(Found { faults, is_clean })
}

/// Examines a definition: records the answers to all keys that it reads, and finds its faults. What
/// a fragment reads alone is recorded once, in what the examinations share. A part that is kept from
/// before serves if it still holds. An entry is kept for each two fragments that one of the
/// definition's sets spreads. If an allocation fails, nothing is added to the meter. The world answers
/// as before either way, and no record and no entry is lost.
pub fn examine<W: World, K: KeptParts>(
    alloc: Global,
    world: &mut W,
    definition: &Definition,
    kept: &K,
    shared: &mut SharedWork,
    meter: &mut Meter,
) -> Result<Verdict, AllocError>
    requires holds { Holds (W.facts world.old) shared.old }
    ensures facts { W.facts world.new ≡ W.facts world.old }
    ensures names { W.names world.new ≡ W.names world.old }
    ensures lent { W.lent world.new ≡ W.lent world.old }
    ensures holds { Holds (W.facts world.old) shared.new }
    ensures keeps { Keeps shared.old.reads shared.new.reads }
    ensures pairs { of_pairs.Keeps shared.old.pairs shared.new.pairs }
    ensures has { OnOk result ((g h : AFragment) → IsPairOf (W.facts world.old) definition.now g h
        → of_pairs.HasPair shared.new.pairs (name_of g) (name_of h)) }
    ensures verdict { IfOk result (Judges (W.facts world.old) definition.now) }
    ensures ok { OnOk result (meter.new ≡ meter.old ++ id_of definition.now ∷ []) }
    ensures err { OnErr result (meter.new ≡ meter.old) }
{
    let reading = reads_of(alloc, world, kept, &mut shared.reads, definition)?;
    let members = reading.members(alloc)?;
    let found = faults_in(
        alloc,
        world,
        definition,
        members.as_slice(),
        &mut shared.clean,
    )?;
    shared.pairs.cover_definition(
        alloc,
        world,
        kept,
        &mut shared.reads,
        definition,
        members.as_slice(),
        found.is_clean,
    )?;
    let def = definition.copy()?;
    let faults = found.faults;
    let held = Shared::new(
        alloc,
        Held {
            def,
            faults,
            reading,
        },
    )?;
    meter.add(definition.id()?)?;
    Ok(Verdict { held })
}
