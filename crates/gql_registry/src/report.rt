//! The report of files, from the faults of their parts.
ghost use Rattle.std.specs.Prelude.{◌≡◌, ◌≢◌, ◌++◌, [], Option, IfOk, IsTrue, OnOk};
ghost use Rattle.std.specs.Option.{option_copied};
ghost use Rattle.gql_ast.specs.declared.definition.Document.{Document as TheDocument};
ghost use Rattle.gql_ast.specs.declared.files.Files.{Files as TheFiles};
ghost use Rattle.gql_facts.specs.Members.{Lists};
ghost use Rattle.gql_registry.specs.EditPlans.{IsSideBefore};
ghost use Rattle.gql_intro.specs.Made.{made_of};
ghost use Rattle.gql_types.specs.Outlines.{IsOutline};
ghost use Rattle.gql_types.specs.Schemas.{schema_of};
ghost use Rattle.gql_registry.specs.Keeping.{AreFactsOf, AreSchemaFaults, IsDefinitionFault};
ghost use Rattle.gql_registry.specs.Keeping.{IsIndexOf, IsKnownOf, IsReportOf, IsSideOf};
ghost use Rattle.gql_registry.specs.Report.{IsReport, IsSound};
ghost use Rattle.gql_schema_rules.specs.KeptFaults.{AreFaultsOf};
ghost use Rattle.gql_verdict.specs.NameFaults.{name_faults as faults_of_names};
ghost use Rattle.gql_verdict.specs.NameViews.{AreNamesSound};

use crate::index::DocumentIndex;
use gql_ast::{Document, Fault, FileName, Files, Shared, Text};
use gql_facts::SchemaFacts;
use gql_intro::{IntroSchema, intro_schema, intro_schema_after_edit};
use gql_node_rules::SchemaChange;
use gql_report::in_order;
use gql_schema_rules::SchemaFaults;
use gql_serving::Owners;
use gql_types::{
    Assembled, EditedSchema, Named, Outline, Schema, assemble_after_edit, assemble_outlined,
};
use gql_verdict::{name_faults, shared_faults};
use std::alloc::{AllocError, Global};

/// The schema files as one schema, with what each file gives to it, its facts, what introspection
/// makes of it, and its faults: as a list, and with what an edit can keep of them.
#[derive(Drop)]
pub struct SchemaSide {
    pub schema: Schema,
    /// What each schema file gives to the schema.
    pub outline: Outline,
    pub facts: SchemaFacts,
    pub made: IntroSchema,
    pub kept: SchemaFaults,
    pub faults: Vec<Shared<Fault>>,
}

/// What is known of files: their schema, the definitions of the document files by their names, the
/// report, and the owners of its faults.
#[derive(Drop)]
pub struct Known {
    pub schema: Shared<SchemaSide>,
    pub index: DocumentIndex,
    /// Whether it is known that no rule on names finds a fault.
    pub has_sound_names: bool,
    pub report: Vec<Shared<Fault>>,
    pub owners: Owners,
}

/// The report of files, and whether it is known that no rule on names finds a fault in them.
#[derive(Drop)]
pub struct Reported {
    pub faults: Vec<Shared<Fault>>,
    pub has_sound_names: bool,
}

/// This schema, with this outline of its files, these facts, what introspection makes of it, and these
/// faults.
fn side_of(
    alloc: Global,
    schema: Schema,
    outline: Outline,
    facts: SchemaFacts,
    made: IntroSchema,
    kept: SchemaFaults,
) -> Result<SchemaSide, AllocError>
    ensures { IfOk result (λ side. (files : TheFiles) → schema ≡ schema_of files
        → IsOutline files outline → AreFactsOf files facts → made ≡ made_of files schema
        → AreFaultsOf files kept → IsSideOf files side) }
{
    let faults = sharing(alloc, kept.all())?;
    Ok(SchemaSide {
        schema,
        outline,
        facts,
        made,
        kept,
        faults,
    })
}

/// Puts the schema of the schema files together.
pub fn schema_side(alloc: Global, files: &Files) -> Result<SchemaSide, AllocError>
    ensures { IfOk result (IsSideOf files.now) }
{
    let Assembled { schema, outline } = assemble_outlined(alloc, files)?;
    let facts = SchemaFacts::new(alloc, &schema)?;
    let kept = SchemaFaults::new(alloc, files, &schema)?;
    let made = intro_schema(alloc, files, &schema)?;
    let side = side_of(alloc, schema, outline, facts, made, kept)?;
    Ok(side)
}

/// The faults of this schema after an edit of the schema file of this name, which changed types of
/// these names alone. What the edit did not change is kept from the schema before it.
fn faults_after_edit(
    alloc: Global,
    files: &Files,
    schema: &Schema,
    before: &SchemaSide,
    name: &FileName,
    edited: &Named<Text>,
) -> Result<SchemaFaults, AllocError>
    requires schema { schema.now ≡ schema_of files.now }
    requires before { (document : Option TheDocument)
        × IsSideBefore edited.now name.now document files.now before.now }
    ensures { IfOk result (AreFaultsOf files.now) }
{
    let change = SchemaChange::between(alloc, &before.schema, schema, edited)?;
    let kept = SchemaFaults::after_edit(
        alloc,
        files,
        schema,
        name,
        edited,
        &change,
        &before.schema,
        &before.kept,
    )?;
    Ok(kept)
}

/// Puts the schema of the schema files together after an edit of the schema file of this name, which
/// changed types of these names alone. `document` is the file that was put, or none if the file was
/// removed. What the edit did not change is shared with the schema before it.
pub fn side_after_edit(
    alloc: Global,
    files: &Files,
    before: &SchemaSide,
    name: &FileName,
    document: Option<&Document>,
    edited: &Named<Text>,
) -> Result<SchemaSide, AllocError>
    requires { IsSideBefore edited.now name.now (option_copied document) files.now before.now }
    ensures { IfOk result (IsSideOf files.now) }
{
    let EditedSchema {
        schema,
        outline,
        places,
    } = assemble_after_edit(
        alloc,
        files,
        name,
        document,
        &before.schema,
        &before.outline,
        edited,
    )?;
    let facts = SchemaFacts::after_edit(alloc, &schema, &before.facts, edited, places.as_slice())?;
    let kept = faults_after_edit(alloc, files, &schema, before, name, edited)?;
    let old = &before.schema;
    let old_made = &before.made;
    let made = intro_schema_after_edit(alloc, files, &schema, &outline, edited, old, old_made)?;
    let side = side_of(alloc, schema, outline, facts, made, kept)?;
    Ok(side)
}

/// Copies of faults.
pub fn copies(alloc: Global, faults: &[Shared<Fault>]) -> Result<Vec<Fault>, AllocError>
    ensures { IfOk result (λ copied. copied.items ≡ faults.now) }
{
    let mut copied = Vec::new(alloc);
    for fault in faults {
        copied.push(fault.get().copy(alloc)?)?;
    }
    Ok(copied)
}

/// The same faults, which both lists share.
pub fn sharing(alloc: Global, faults: &[Shared<Fault>]) -> Result<Vec<Shared<Fault>>, AllocError>
    ensures { IfOk result (λ shared. shared.items ≡ faults.now) }
{
    let mut shared = Vec::new(alloc);
    for fault in faults {
        shared.push(fault.clone()?)?;
    }
    Ok(shared)
}

/// The report of a schema with these faults: they alone are reported.
fn schema_report(alloc: Global, faults: &[Shared<Fault>]) -> Result<Vec<Shared<Fault>>, AllocError>
    requires { faults.now ≢ [] }
    ensures { IfOk result (λ report. (files : TheFiles) → AreSchemaFaults files faults.now
        → IsReport files report.items) }
{
    let shared = sharing(alloc, faults)?;
    let report = in_order(alloc, shared)?;
    Ok(report)
}

/// Whether there are no faults.
fn are_none(faults: &[Fault]) -> bool
    ensures { IsTrue result → faults.now ≡ [] }
{
    faults.is_empty()
}

/// The faults of names over all document files. They are looked for only if it is not known that there
/// are none.
fn faults_by_names(alloc: Global, files: &Files, are_sound: bool) -> Result<Vec<Fault>, AllocError>
    requires { IsTrue are_sound → AreNamesSound files.now }
    ensures { IfOk result (λ found. found.items ≡ faults_of_names files.now) }
{
    if are_sound {
        return Ok(Vec::new(alloc));
    }
    name_faults(alloc, files)
}

/// The report if the schema has no faults, and the definitions of the document files have these.
fn documents_report(
    alloc: Global,
    files: &Files,
    of_definitions: Vec<Shared<Fault>>,
    sound_names: bool,
) -> Result<Reported, AllocError>
    requires sound { IsSound files.now }
    requires faults { Lists of_definitions.items (IsDefinitionFault files.now) }
    requires names { IsTrue sound_names → AreNamesSound files.now }
    ensures { IfOk result (IsReportOf files.now) }
{
    let mut of_definitions = of_definitions;
    let of_names = faults_by_names(alloc, files, sound_names)?;
    let has_sound_names = are_none(of_names.as_slice());
    let mut faults = shared_faults(alloc, of_names)?;
    faults.append(&mut of_definitions)?;
    let report = in_order(alloc, faults)?;
    Ok(Reported {
        faults: report,
        has_sound_names,
    })
}

/// The report of files whose schema has these faults, and whose definitions have those. If the
/// schema has faults, they alone are reported. `sound_names` says whether it is known that no rule on
/// names finds a fault.
fn report_of(
    alloc: Global,
    files: &Files,
    schema_faults: &[Shared<Fault>],
    of_definitions: Vec<Shared<Fault>>,
    sound_names: bool,
) -> Result<Reported, AllocError>
    requires schema { AreSchemaFaults files.now schema_faults.now }
    requires faults { IsSound files.now → Lists of_definitions.items (IsDefinitionFault files.now) }
    requires names { IsTrue sound_names → AreNamesSound files.now }
    ensures { IfOk result (IsReportOf files.now) }
{
    if !schema_faults.is_empty() {
        let faults = schema_report(alloc, schema_faults)?;
        return Ok(Reported {
            faults,
            has_sound_names: sound_names,
        });
    }
    let reported = documents_report(alloc, files, of_definitions, sound_names)?;
    Ok(reported)
}

/// What is known of files with this schema and these definitions, which have these faults.
/// `sound_names` says whether it is known that no rule on names finds a fault.
pub fn known_with(
    alloc: Global,
    files: &Files,
    schema: Shared<SchemaSide>,
    index: DocumentIndex,
    of_definitions: Vec<Shared<Fault>>,
    sound_names: bool,
) -> Result<Known, AllocError>
    requires schema { IsSideOf files.now schema }
    requires index { IsIndexOf files.now index }
    requires faults { IsSound files.now → Lists of_definitions.items (IsDefinitionFault files.now) }
    requires names { IsTrue sound_names → AreNamesSound files.now }
    ensures { IfOk result (IsKnownOf files.now) }
{
    let of_schema = schema.get().faults.as_slice();
    let reported = report_of(alloc, files, of_schema, of_definitions, sound_names)?;
    let owners = Owners::new(alloc, reported.faults.as_slice())?;
    Ok(Known {
        schema,
        index,
        has_sound_names: reported.has_sound_names,
        report: reported.faults,
        owners,
    })
}
