//! Which verdicts are kept, and which definitions are examined.
ghost use Rattle.std.specs.Prelude.{◌≡◌, ◌↔◌, ◌++◌, ◌∷◌, [], false, IfOk, IsTrue, MatchOption, OnErr, OnOk, length, map};
ghost use Rattle.std.specs.List.{AllZip};
ghost use Rattle.gql_verdict.specs.Definitions.{all_definitions as definitions_of};
ghost use Rattle.gql_verdict.specs.FileOrder.{AreFilesPlaced, InFileOrder};
ghost use Rattle.gql_facts.specs.Worlds.{Facts};
ghost use Rattle.gql_pairs.specs.Tables.{Keeps};
ghost use Rattle.gql_verdict.specs.Marks.{AreMarks};
ghost use Rattle.gql_verdict.specs.SharedWorks.{Holds};
ghost use Rattle.gql_verdict.specs.Shelves.{HasDuePairs, HasPairsOf, IsDue, IsDueWork, IsStepWork};
ghost use Rattle.gql_verdict.specs.Shelves.{IsWholeDueWork};
ghost use Rattle.gql_verdict.specs.Plans.{IsStep};
ghost use Rattle.gql_verdict.specs.Slots.{IsInOrder, ids_of, verdicts};
ghost use Rattle.gql_verdict.specs.TouchedFacts.{IsKnown, IsOtherKept, touches_definition};
ghost use Rattle.gql_verdict.specs.declared.slot.Slot.TheVariants.{At};

use crate::definitions::all_definitions;
use crate::meter::Meter;
use crate::shared_work::SharedWork;
use crate::slot::{Slot, find_near};
use crate::touched::Touched;
use crate::verdict::{Verdict, examine};
use gql_ast::{Definition, Files};
use gql_facts::World;
use gql_reads::KeptParts;
use std::alloc::{AllocError, Global};

/// Whether a verdict is on this definition. One that the edit does not touch need not be compared.
fn is_on(verdict: &Verdict, definition: &Definition, touched: &Touched) -> bool
    requires { touches_definition touched.now definition.now ≡ false
        → verdict.now.def ≡ definition.now }
    ensures { IsTrue result ↔ (verdict.now.def ≡ definition.now) }
{
    if touched.touches_definition(definition) {
        verdict.is_of(definition)
    } else {
        true
    }
}

/// The index of the verdict that a definition keeps, if it is not marked as broken. It is likely to
/// be `near`.
fn kept_verdict(
    kept: &[Slot],
    marks: &[bool],
    near: usize,
    definition: &Definition,
    touched: &Touched,
) -> Option<usize>
    requires order { IsInOrder kept.now }
    requires long { length marks.now ≡ length kept.now }
    requires others { IsOtherKept definition.now (verdicts kept.now) touched.now }
    ensures { (facts : Facts) → IsKnown facts (definition.now ∷ []) (verdicts kept.now) touched.now
        → AreMarks facts touched.now kept.now marks.now
        → MatchOption result (IsDue facts (verdicts kept.now) definition.now)
        (λ j. IsStep facts kept.now definition.now (At j)) }
{
    let Some(j) = find_near(kept, near, definition) else {
        return None;
    };
    match &kept[j] {
        Slot::At(_) => None,
        Slot::Here(verdict) => {
            if !is_on(verdict, definition, touched) {
                return None;
            }
            if marks[j] { None } else { Some(j) }
        }
    }
}

/// The verdict that a definition keeps, or a new one. The kept one is likely to be `near`. The
/// fragments that a new one reaches have their parts from what is shared, or from `parts` if they
/// still hold.
fn step<W: World, K: KeptParts>(
    alloc: Global,
    world: &mut W,
    kept: &[Slot],
    marks: &[bool],
    near: usize,
    definition: &Definition,
    touched: &Touched,
    parts: &K,
    shared: &mut SharedWork,
    meter: &mut Meter,
) -> Result<Slot, AllocError>
    requires order { IsInOrder kept.now }
    requires known { IsKnown (W.facts world.old) (definition.now ∷ []) (verdicts kept.now)
        touched.now }
    requires marks { AreMarks (W.facts world.old) touched.now kept.now marks.now }
    requires holds { Holds (W.facts world.old) shared.old }
    ensures facts { W.facts world.new ≡ W.facts world.old }
    ensures names { W.names world.new ≡ W.names world.old }
    ensures lent { W.lent world.new ≡ W.lent world.old }
    ensures holds { Holds (W.facts world.old) shared.new }
    ensures pairs { Keeps shared.old.pairs shared.new.pairs }
    ensures step { IfOk result (IsStep (W.facts world.old) kept.now definition.now) }
    ensures walked { OnOk result (IsDue (W.facts world.old) (verdicts kept.now) definition.now
        → HasPairsOf (W.facts world.old) shared.new.pairs definition.now) }
    ensures entries { IfOk result (λ s.
        meter.new ≡ meter.old ++ ids_of (verdicts (s ∷ []))) }
    ensures work { OnOk result (IsStepWork (W.facts world.old) (verdicts kept.now) definition.now
        meter.old meter.new) }
    ensures err { OnErr result (meter.new ≡ meter.old) }
{
    match kept_verdict(kept, marks, near, definition, touched) {
        Some(j) => Ok(Slot::At(j)),
        None => {
            let verdict = examine(alloc, world, definition, parts, shared, meter)?;
            Ok(Slot::Here(verdict))
        }
    }
}

/// Where the verdict on the next definition is likely to be, after this step.
fn near_after(step: &Slot, near: usize) -> usize {
    match step {
        Slot::At(j) => j.saturating_add(1),
        Slot::Here(_) => near,
    }
}

/// A verdict for each definition, kept or new. Those that are kept stay where they are.
fn plan_all<W: World, K: KeptParts>(
    alloc: Global,
    world: &mut W,
    kept: &[Slot],
    marks: &[bool],
    definitions: &[&Definition],
    touched: &Touched,
    parts: &K,
    shared: &mut SharedWork,
    meter: &mut Meter,
) -> Result<Vec<Slot>, AllocError>
    requires order { IsInOrder kept.now }
    requires known { IsKnown (W.facts world.old) (map (λ d. d.now) definitions.now)
        (verdicts kept.now) touched.now }
    requires marks { AreMarks (W.facts world.old) touched.now kept.now marks.now }
    requires holds { Holds (W.facts world.old) shared.old }
    ensures facts { W.facts world.new ≡ W.facts world.old }
    ensures names { W.names world.new ≡ W.names world.old }
    ensures lent { W.lent world.new ≡ W.lent world.old }
    ensures holds { Holds (W.facts world.old) shared.new }
    ensures pairs { Keeps shared.old.pairs shared.new.pairs }
    ensures steps { IfOk result (λ steps. AllZip (IsStep (W.facts world.old) kept.now)
        (map (λ d. d.now) definitions.now) steps.items) }
    ensures walked { OnOk result (HasDuePairs (W.facts world.old) (verdicts kept.now)
        (map (λ d. d.now) definitions.now) shared.new.pairs) }
    ensures entries { IfOk result (λ steps.
        meter.new ≡ meter.old ++ ids_of (verdicts steps.items)) }
    ensures whole { OnOk result (IsWholeDueWork (W.facts world.old) (verdicts kept.now)
        (map (λ d. d.now) definitions.now) meter.old meter.new) }
    ensures work { OnErr result (IsDueWork (W.facts world.old) (verdicts kept.now)
        (map (λ d. d.now) definitions.now) meter.old meter.new) }
{
    let mut steps = Vec::new(alloc);
    let mut near = 0;
    for definition in definitions {
        let next = step(
            alloc, world, kept, marks, near, definition, touched, parts, shared, meter,
        )?;
        near = near_after(&next, near);
        steps.push(next)?;
    }
    Ok(steps)
}

/// A verdict for each definition of the document files, kept or new. Those that are kept stay where
/// they are.
pub fn plan<W: World, K: KeptParts>(
    alloc: Global,
    world: &mut W,
    kept: &[Slot],
    marks: &[bool],
    files: &Files,
    touched: &Touched,
    parts: &K,
    shared: &mut SharedWork,
    meter: &mut Meter,
) -> Result<Vec<Slot>, AllocError>
    requires order { IsInOrder kept.now }
    requires known { IsKnown (W.facts world.old) (definitions_of files.now.documents)
        (verdicts kept.now) touched.now }
    requires marks { AreMarks (W.facts world.old) touched.now kept.now marks.now }
    requires holds { Holds (W.facts world.old) shared.old }
    ensures facts { W.facts world.new ≡ W.facts world.old }
    ensures names { W.names world.new ≡ W.names world.old }
    ensures lent { W.lent world.new ≡ W.lent world.old }
    ensures holds { Holds (W.facts world.old) shared.new }
    ensures pairs { Keeps shared.old.pairs shared.new.pairs }
    ensures order { AreFilesPlaced files.now.documents
        → InFileOrder (definitions_of files.now.documents) }
    ensures steps { IfOk result (λ steps. AllZip (IsStep (W.facts world.old) kept.now)
        (definitions_of files.now.documents) steps.items) }
    ensures walked { OnOk result (HasDuePairs (W.facts world.old) (verdicts kept.now)
        (definitions_of files.now.documents) shared.new.pairs) }
    ensures entries { IfOk result (λ steps.
        meter.new ≡ meter.old ++ ids_of (verdicts steps.items)) }
    ensures whole { OnOk result (IsWholeDueWork (W.facts world.old) (verdicts kept.now)
        (definitions_of files.now.documents) meter.old meter.new) }
    ensures work { OnErr result (IsDueWork (W.facts world.old) (verdicts kept.now)
        (definitions_of files.now.documents) meter.old meter.new) }
{
    let definitions = all_definitions(alloc, &files.documents)?;
    plan_all(
        alloc,
        world,
        kept,
        marks,
        definitions.as_slice(),
        touched,
        parts,
        shared,
        meter,
    )
}
