//! Files, with a verdict on each definition of the document files.
ghost use Rattle.std.specs.Prelude.{◌≡◌, ◌↔◌, IfOk, IsTrue, OnOk, OnErr};
ghost use Rattle.std.specs.Option.{option_copied};
ghost use Rattle.serde_json.specs.View.{view};
ghost use Rattle.gql_registry.specs.Calls.{Answers};
ghost use Rattle.gql_registry.specs.Prepared.{ran_of};
ghost use Rattle.gql_registry.specs.EditPlans.{IsEditPlanOf, IsEditPlanTo, IsReportLength};
ghost use Rattle.gql_registry.specs.Examining.{AreReadyOver};
ghost use Rattle.gql_registry.specs.FilesFacts.{AreFilesFacts};
ghost use Rattle.gql_registry.specs.Keeping.{ArePairsBefore, ArePairsOf, KeepsPairs};
ghost use Rattle.gql_registry.specs.Keeping.{AreSchemaFaults, IsDefinitionFault, IsPlanFor, IsShelfOf};
ghost use Rattle.gql_registry.specs.Keeping.{HasPairsDue, IsWholeWorkOn, IsWorkOn};
ghost use Rattle.gql_registry.specs.Keeping.{IsIndexOf, IsKnownBefore, IsKnownOf, IsSideOf};
ghost use Rattle.gql_registry.specs.Keeping.{nothing_kept};
ghost use Rattle.gql_ast.specs.declared.files.Files.{Files as TheFiles};
ghost use Rattle.gql_registry.specs.Report.{IsReport, IsSound};
ghost use Rattle.gql_facts.specs.Members.{Lists};
ghost use Rattle.gql_registry.specs.Sides as spec;
ghost use Rattle.gql_verdict.specs.FileOrder.{AreFilesPlaced};
ghost use Rattle.gql_verdict.specs.NameViews.{AreNamesSound};

use crate::calling::{Ran, answer_call};
use crate::edit_plan::{EditPlan, edit_plan};
use crate::facts::{FilesFacts, facts_in};
use crate::index::document_index;
use crate::refusal::Refusal;
use crate::report::{Known, SchemaSide, known_with, schema_side, sharing};
use gql_ast::{Document, Fault, FileName, FileSide, Files, Profile, Shared};
use gql_facts::Present;
use gql_verdict::{Meter, Prepared, Shelf};
use serde_json::Value;
use std::alloc::{AllocError, Global};
use std::marker::Model;

/// The files that are present, what is known of them, the verdicts on their definitions, and what
/// clashes between their fragments. Contracts see all but what is known.
#[derive(Drop)]
pub struct Kept {
    files: Files,
    known: Known,
    shelf: Shelf,
}

impl Model for Kept {
    ghost use Rattle.std.specs.Coded.{codes};
    ghost use Rattle.gql_ast.specs.contracts.definition.Definition as definition;
    ghost use Rattle.gql_ast.specs.contracts.fault.Fault as fault;
    ghost use Rattle.gql_ast.specs.contracts.files.Files as present;
    ghost use Rattle.gql_facts.specs.contracts.key.Key as key;
    ghost use Rattle.gql_facts.specs.contracts.fact.Fact as fact;
    ghost use Rattle.gql_facts.specs.contracts.fact.FragmentFact as fragment_fact;
    ghost use Rattle.gql_merge.specs.contracts.two_fragments.FragmentClash as clash;
    ghost use Rattle.gql_registry.specs.Keeping.{Keeping, IsKept};

    ghost Value = { Keeping };

    ghost coded = { Prim.hlevel (
      codes,
      present.the_row.coded,
      definition.the_row.coded,
      fault.the_row.coded,
      key.the_row.coded,
      fact.the_row.coded,
      fragment_fact.the_row.coded,
      clash.the_row.coded,
    ) };

    ghost view = { λ k. record {
      files = k.files;
      shelf = k.shelf.verdicts;
      pairs = k.shelf.pairs;
    } };

    ghost invariant = { λ k. IsKept k.files k.known k.shelf };
}

/// The files that an edit leaves, what is known of them, and the verdicts that are prepared for them.
#[derive(Drop)]
pub struct PreparedFiles {
    files: Files,
    known: Known,
    verdicts: Prepared,
}

impl PreparedFiles {
    ghost use Rattle.gql_registry.specs.EditPlans.{IsReportLength};
    ghost use Rattle.gql_registry.specs.Keeping.{IsKnownOf};

    /// How many faults the report of the files has.
    pub fn count(&self) -> u64
        requires { IsKnownOf self.now.files self.now.known }
        ensures { IsReportLength self.now.files result }
    {
        self.known.report.len() as u64
    }
}

/// Prepares the verdicts for the files of a plan.
fn verdicts_for(
    alloc: Global,
    shelf: &Shelf,
    plan: &EditPlan,
    meter: &mut Meter,
) -> Result<Prepared, AllocError>
    requires schema { IsSideOf plan.now.files plan.now.schema }
    requires index { IsIndexOf plan.now.files plan.now.index }
    requires placed { AreFilesPlaced plan.now.files.documents }
    requires known { IsKnownBefore plan.now.files shelf.now.verdicts plan.now.touched }
    requires pairs { ArePairsBefore plan.now.files shelf.now.pairs plan.now.touched }
    ensures planned { IfOk result (IsPlanFor plan.now.files shelf.now.verdicts) }
    ensures pairs { IfOk result (λ p. KeepsPairs plan.now.files shelf.now.pairs p.pairs) }
    ensures walked { IfOk result (λ p.
        HasPairsDue plan.now.files shelf.now.verdicts p.pairs) }
    ensures whole { OnOk result
        (IsWholeWorkOn plan.now.files shelf.now.verdicts meter.old meter.new) }
    ensures work { OnErr result
        (IsWorkOn plan.now.files shelf.now.verdicts meter.old meter.new) }
{
    let mut world = Present::new(&plan.schema.get().facts, &plan.index.fragments);
    let prepared = shelf.prepare(alloc, &mut world, &plan.files, &plan.touched, meter)?;
    Ok(prepared)
}

/// Whether a schema with these faults has none.
fn has_none(faults: &[Shared<Fault>]) -> bool
    ensures { (files : TheFiles) → AreSchemaFaults files faults.now
        → IsTrue result ↔ IsSound files }
{
    faults.is_empty()
}

/// The faults of the verdicts that are prepared, if the schema has none: else they do not count.
fn prepared_faults(
    alloc: Global,
    shelf: &Shelf,
    verdicts: &Prepared,
    schema: &SchemaSide,
) -> Result<Vec<Shared<Fault>>, AllocError>
    ensures { IfOk result (λ found. (files : TheFiles) → IsPlanFor files shelf.now.verdicts verdicts.now
        → IsSideOf files schema.now → IsSound files
        → Lists found.items (IsDefinitionFault files)) }
{
    if !has_none(schema.faults.as_slice()) {
        return Ok(Vec::new(alloc));
    }
    shelf.prepared_faults(alloc, verdicts)
}

/// The faults of the verdicts on the shelf, if the schema has none: else they do not count.
fn present_faults(
    alloc: Global,
    shelf: &Shelf,
    schema: &SchemaSide,
) -> Result<Vec<Shared<Fault>>, AllocError>
    ensures { IfOk result (λ found. (files : TheFiles) → IsShelfOf files shelf.now.verdicts
        → IsSideOf files schema.now → IsSound files
        → Lists found.items (IsDefinitionFault files)) }
{
    if !has_none(schema.faults.as_slice()) {
        return Ok(Vec::new(alloc));
    }
    shelf.faults(alloc)
}

/// What is known of files that have these verdicts.
fn known_of(alloc: Global, shelf: &Shelf, files: &Files) -> Result<Known, AllocError>
    requires { IsShelfOf files.now shelf.now.verdicts }
    ensures { IfOk result (IsKnownOf files.now) }
{
    let schema = schema_side(alloc, files)?;
    let index = document_index(alloc, files)?;
    let faults = present_faults(alloc, shelf, &schema)?;
    let schema = Shared::new(alloc, schema)?;
    known_with(alloc, files, schema, index, faults, false)
}

/// Whether it is known that no rule on names finds a fault after an edit: none found one before it, and
/// the edit keeps that.
fn keeps_sound_names(known: &Known, plan: &EditPlan) -> bool
    ensures sound { IsTrue result → (before : TheFiles) → IsKnownOf before known.now
        → IsEditPlanOf before plan.now → AreNamesSound plan.now.files }
    ensures exact { IsTrue result
        ↔ (IsTrue known.now.has_sound_names × IsTrue plan.now.keeps_names) }
{
    known.has_sound_names && plan.keeps_names
}

/// Examines the definitions whose verdicts do not hold for the files of a plan, and makes the report
/// of these files. `sound_names` says whether it is known that no rule on names finds a fault.
fn examine(
    alloc: Global,
    shelf: &Shelf,
    plan: EditPlan,
    sound_names: bool,
    meter: &mut Meter,
) -> Result<PreparedFiles, AllocError>
    requires schema { IsSideOf plan.files plan.schema }
    requires index { IsIndexOf plan.files plan.index }
    requires placed { AreFilesPlaced plan.files.documents }
    requires known { IsKnownBefore plan.files shelf.now.verdicts plan.touched }
    requires pairs { ArePairsBefore plan.files shelf.now.pairs plan.touched }
    requires names { IsTrue sound_names → AreNamesSound plan.files }
    ensures files { IfOk result (λ p. p.files ≡ plan.files) }
    ensures ready { IfOk result (AreReadyOver shelf.now.verdicts shelf.now.pairs) }
    ensures whole { OnOk result
        (IsWholeWorkOn plan.files shelf.now.verdicts meter.old meter.new) }
    ensures work { OnErr result
        (IsWorkOn plan.files shelf.now.verdicts meter.old meter.new) }
{
    let verdicts = verdicts_for(alloc, shelf, &plan, meter)?;
    let faults = prepared_faults(alloc, shelf, &verdicts, plan.schema.get())?;
    let files = plan.files;
    let known = known_with(alloc, &files, plan.schema, plan.index, faults, sound_names)?;
    Ok(PreparedFiles {
        files,
        known,
        verdicts,
    })
}

impl Kept {
    /// No files, under this profile.
    #[tactic(auto, using(crate::proofs::Knowing::none_current, crate::proofs::Knowing::none_kept))]
    pub fn of(alloc: Global, profile: Profile) -> Result<Kept, AllocError>
        ensures { IfOk result (λ k. k ≡ nothing_kept profile) }
    {
        let files = Files::of(alloc, profile);
        let shelf = Shelf::new(alloc);
        let known = known_of(alloc, &shelf, &files)?;
        Ok(Kept {
            files,
            known,
            shelf,
        })
    }

    /// The files.
    pub fn files(&self) -> &Files
        ensures files { result.now ≡ self.now.files }
        ensures placed { AreFilesPlaced self.now.files.documents }
    {
        &self.files
    }

    /// The verdicts, one for each definition of the document files, and what is kept of pairs of
    /// fragments.
    pub fn shelf(&self) -> &Shelf
        ensures shelf { result.now.verdicts ≡ self.now.shelf }
        ensures current { IsShelfOf self.now.files self.now.shelf }
        ensures pairs { result.now.pairs ≡ self.now.pairs }
        ensures hold { ArePairsOf self.now.files self.now.pairs }
    {
        &self.shelf
    }

    /// The report of the files, which shares the faults with what is kept.
    pub fn report(&self, alloc: Global) -> Result<Vec<Shared<Fault>>, AllocError>
        ensures { IfOk result (λ report. IsReport self.now.files report.items) }
    {
        sharing(alloc, self.known.report.as_slice())
    }

    /// Whether the schema of the files has no faults.
    pub fn is_sound(&self) -> bool
        ensures { IsTrue result ↔ IsSound self.now.files }
    {
        has_none(self.known.schema.get().faults.as_slice())
    }

    /// What the rules may ask of the files, which is shared with what is kept.
    pub fn facts(&self) -> Result<FilesFacts, AllocError>
        ensures { IfOk result (AreFilesFacts self.now.files) }
    {
        facts_in(&self.known)
    }

    /// How many faults the report has.
    pub fn count(&self) -> u64
        ensures { IsReportLength self.now.files result }
    {
        self.known.report.len() as u64
    }

    /// Answers a call of the operation of a name, or of the only one, with these values for its
    /// variables, on this data.
    pub fn answer_call(
        &self,
        alloc: Global,
        name: Option<&str>,
        variables: &Value,
        stored: &Value,
    ) -> Result<Ran, Refusal>
        ensures { Answers self.now.files (view stored.now) (option_copied name.entry)
            (view variables.now) (ran_of result) }
    {
        answer_call(
            alloc,
            self.files.profile,
            &self.known,
            name,
            variables,
            stored,
        )
    }

    /// The plan of an edit that replaces the file of a name on a side by this one, or removes it if
    /// there is none to put.
    pub fn plan(
        &self,
        alloc: Global,
        side: FileSide,
        name: &FileName,
        document: Option<Document>,
    ) -> Result<EditPlan, AllocError>
        ensures { IfOk result (IsEditPlanTo self.now.files
            (spec.with_file side self.now.files name.now document)) }
    {
        edit_plan(alloc, &self.files, &self.known, side, name, document)
    }

    /// Prepares the files of a plan: examines what its edit touches, and makes their report.
    pub fn prepare(
        &self,
        alloc: Global,
        plan: EditPlan,
        meter: &mut Meter,
    ) -> Result<PreparedFiles, AllocError>
        requires { IsEditPlanOf self.now.files plan }
        ensures files { IfOk result (λ p. p.files ≡ plan.files) }
        ensures ready { IfOk result (AreReadyOver self.now.shelf self.now.pairs) }
        ensures whole { OnOk result
            (IsWholeWorkOn plan.files self.now.shelf meter.old meter.new) }
        ensures work { OnErr result (IsWorkOn plan.files self.now.shelf meter.old meter.new) }
    {
        let sound_names = keeps_sound_names(&self.known, &plan);
        examine(alloc, &self.shelf, plan, sound_names, meter)
    }

    /// Replaces the files that are present by those that are prepared. This takes no memory.
    pub fn commit(&mut self, prepared: PreparedFiles)
        requires { AreReadyOver self.old.shelf self.old.pairs prepared }
        ensures files { self.new.files ≡ prepared.files }
        ensures current { IsShelfOf prepared.files self.new.shelf }
        ensures pairs { KeepsPairs prepared.files self.old.pairs self.new.pairs }
        ensures walked { HasPairsDue prepared.files self.old.shelf self.new.pairs }
    {
        let PreparedFiles {
            files,
            known,
            verdicts,
        } = prepared;
        self.shelf.commit(verdicts);
        self.known = known;
        self.files = files;
    }
}
