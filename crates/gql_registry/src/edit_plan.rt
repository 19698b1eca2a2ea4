//! What an edit of one file makes, before it is committed.
ghost use Rattle.std.specs.Prelude.{◌≡◌, ◌↔◌, IfOk, IsTrue, OnOk};
ghost use Rattle.std.specs.Option.{option_copied};
ghost use Rattle.gql_ast.specs.FileMaps.{file_named};
ghost use Rattle.gql_ast.specs.declared.fault.FileSide.TheVariants as on;
ghost use Rattle.gql_ast.specs.declared.files.Files.{Files as TheFiles};
ghost use Rattle.gql_facts.specs.FileFragments.{fragments_in};
ghost use Rattle.gql_registry.specs.EditPlans.{IsEditPlanOf, IsEditPlanTo, IsSchemaEdit, IsSchemaTouched};
ghost use Rattle.gql_registry.specs.EditPlans.{IsSideBefore, IsToldToKeepNames, KeepsFragments};
ghost use Rattle.gql_registry.specs.Keeping.{IsIndexOf, IsKnownOf, IsSideOf};
ghost use Rattle.gql_registry.specs.Sides as spec;
ghost use Rattle.gql_types.specs.Edits.{KeepsOthers};
ghost use Rattle.gql_types.specs.Outlines.{edited_files};
ghost use Rattle.gql_types.specs.Schemas.{schema_of};
ghost use Rattle.gql_verdict.specs.DocumentEdits.{ChangesOnly};
ghost use Rattle.gql_verdict.specs.FileOrder.{AreFilesPlaced};
ghost use Rattle.gql_verdict.specs.NameViews.{KeepsNamesSound};

use crate::index::{DocumentIndex, document_index, index_after_edit};
use crate::report::{Known, SchemaSide, schema_side, side_after_edit};
use gql_ast::{Document, FileMap, FileName, FileSide, Files, Shared, Text};
use gql_facts::have_same_fragments;
use gql_types::{Named, edited_names, laws as type_laws};
use gql_verdict::{Touched, brings_new_names, keeps_names, laws};
use std::alloc::{AllocError, Global};

/// The files that an edit leaves, what it touches, and the schema and the index of the files.
#[derive(Drop)]
pub struct EditPlan {
    pub files: Files,
    pub touched: Touched,
    pub schema: Shared<SchemaSide>,
    pub index: DocumentIndex,
    /// Whether no rule on names finds a fault after the edit if none finds one before it.
    pub keeps_names: bool,
}

/// The names of the types that an edit of a schema file may change. `after` is the file that is put,
/// or none if the file is removed.
fn edited_types(
    alloc: Global,
    files: &Files,
    name: &FileName,
    after: Option<&Document>,
) -> Result<Named<Text>, AllocError>
    ensures { IfOk result (λ names. IsSchemaEdit names files.now
        (spec.with_file on.Schema files.now name.now (option_copied after.entry))) }
{
    // The laws that such an edit changes no types of other names. The names are in order, so that an
    // edit can be undone.
    type_laws::put_schema_file();
    type_laws::remove_schema_file();
    let _in_order = files.schema.entries();
    match files.schema.get(name) {
        Some(before) => edited_names(alloc, Some(before.get()), after),
        None => edited_names(alloc, None, after),
    }
}

/// What an edit of a document file touches. `after` is the file that is put, or none if the file is
/// removed.
fn touched_by(
    alloc: Global,
    files: &Files,
    name: &FileName,
    after: Option<&Document>,
) -> Result<Touched, AllocError>
    ensures { IfOk result (λ touched. ChangesOnly touched files.now
        (spec.with_file on.Documents files.now name.now (option_copied after.entry))) }
{
    // The laws that such an edit changes no other answers, and no definitions of other files.
    laws::put_document();
    laws::remove_document();
    match files.documents.get(name) {
        Some(before) => Touched::by_edit(alloc, name, Some(before.get()), after),
        None => Touched::by_edit(alloc, name, None, after),
    }
}

/// The file to put, if there is one, so that it can have several owners.
fn shared_document(
    alloc: Global,
    document: Option<Document>,
) -> Result<Option<Shared<Document>>, AllocError>
    ensures { IfOk result (λ shared. shared ≡ document) }
{
    match document {
        Some(document) => {
            let document = Shared::new(alloc, document)?;
            Ok(Some(document))
        }
        None => Ok(None),
    }
}

/// The file to put, if there is one.
fn document_in(shared: &Option<Shared<Document>>) -> Option<&Document>
    ensures { option_copied result ≡ shared.now }
{
    match shared {
        Some(document) => Some(document.get()),
        None => None,
    }
}

/// The file of a name, if there is one.
fn file_in<'f>(files: &'f FileMap<Shared<Document>>, name: &FileName) -> Option<&'f Document>
    ensures { option_copied result ≡ file_named files.now name.now }
{
    match files.get(name) {
        Some(document) => Some(document.get()),
        None => None,
    }
}

/// Puts a file in place of any of its name, or removes the file of that name if there is none to
/// put.
fn edit_file(
    files: &mut FileMap<Shared<Document>>,
    name: &FileName,
    document: &Option<Shared<Document>>,
) -> Result<(), AllocError>
    ensures { OnOk result (files.new ≡ edited_files files.old name.now document.now) }
{
    match document {
        Some(document) => files.put(name.copy()?, document.clone()?),
        None => {
            files.remove(name);
            Ok(())
        }
    }
}

/// The schema after an edit of the schema file of this name that changed types of these names alone,
/// by the schema before it. `document` is the file that was put, or none if the file was removed.
fn edited_schema(
    alloc: Global,
    files: &Files,
    before: &SchemaSide,
    name: &FileName,
    document: Option<&Document>,
    edited: &Named<Text>,
) -> Result<Shared<SchemaSide>, AllocError>
    requires { IsSideBefore edited.now name.now (option_copied document) files.now before.now }
    ensures { IfOk result (IsSideOf files.now) }
{
    let schema = side_after_edit(alloc, files, before, name, document, edited)?;
    Ok(Shared::new(alloc, schema)?)
}

/// Whether an edit of a document file leaves the fragments of the file as they are, and so all
/// fragments. `after` is the file that is put, or none if the file is removed.
fn keeps_fragments(
    alloc: Global,
    files: &Files,
    name: &FileName,
    after: Option<&Document>,
) -> Result<bool, AllocError>
    ensures all { IfOk result (λ keeps. IsTrue keeps → KeepsFragments files.now
        (spec.with_file on.Documents files.now name.now (option_copied after.entry))) }
    ensures exact { IfOk result (λ keeps. IsTrue keeps
        ↔ (fragments_in (file_named files.now.documents name.now)
        ≡ fragments_in (option_copied after.entry))) }
{
    let _in_order = files.documents.entries();
    match files.documents.get(name) {
        Some(before) => have_same_fragments(alloc, Some(before.get()), after),
        None => have_same_fragments(alloc, None, after),
    }
}

/// The index of the document files after an edit of the file of a name, by the index before it. `put`
/// is the file that was put, or none if the file was removed. `are_same` says whether all fragments are
/// as before the edit.
fn edited_index(
    alloc: Global,
    before: &Files,
    after: &Files,
    index: &DocumentIndex,
    name: &FileName,
    put: Option<&Document>,
    are_same: bool,
) -> Result<DocumentIndex, AllocError>
    requires index { IsIndexOf before.now index.now }
    requires files { after.now.documents
        ≡ edited_files before.now.documents name.now (option_copied put) }
    requires same { IsTrue are_same → KeepsFragments before.now after.now }
    ensures { IfOk result (IsIndexOf after.now) }
{
    let old = file_in(&before.documents, name);
    index_after_edit(alloc, after, index, name, old, put, are_same)
}

/// What an edit of a schema file touches that changes types of these names alone, by the schema before
/// it and after it. All, if there are no document files, so that nothing depends on it.
#[tactic(auto, using(crate::proofs::SchemaTouched::all_told, crate::proofs::SchemaTouched::schema_told))]
fn schema_touched(
    alloc: Global,
    files: &Files,
    before: &SchemaSide,
    after: &SchemaSide,
    edited: &Named<Text>,
) -> Result<Touched, AllocError>
    ensures { IfOk result (IsSchemaTouched before.now after.now edited.now) }
{
    if files.documents.len() == 0 {
        return Ok(Touched::All);
    }
    let touched = Touched::by_schema_edit(alloc, &before.facts, &after.facts, edited)?;
    Ok(touched)
}

/// Whether it is told that no rule on names finds a fault after an edit of a document file if none
/// finds one before it. `index` is that of the files before it. `after` is the file that is put, or
/// none if the file is removed.
fn edit_keeps_names(
    alloc: Global,
    files: &Files,
    index: &DocumentIndex,
    name: &FileName,
    after: Option<&Document>,
) -> Result<bool, AllocError>
    requires { IsIndexOf files.now index.now }
    ensures sound { IfOk result (λ keeps. IsTrue keeps → KeepsNamesSound files.now
        (spec.with_file on.Documents files.now name.now (option_copied after.entry))) }
    ensures exact { IfOk result (λ keeps. IsTrue keeps
        ↔ IsToldToKeepNames files.now.documents name.now (option_copied after.entry)) }
{
    let Some(document) = after else {
        return Ok(false);
    };
    let keeps = keeps_names(alloc, files, name, document)?;
    if keeps {
        return Ok(true);
    }
    let (operations, fragments) = (&index.operations, &index.fragments);
    let brings = brings_new_names(alloc, files, name, document, operations, fragments)?;
    Ok(brings)
}

/// The plan of an edit of a schema file. It changes no name in a document file.
fn schema_plan(
    alloc: Global,
    files: &Files,
    known: &Known,
    name: &FileName,
    document: Option<Document>,
) -> Result<EditPlan, AllocError>
    requires { IsKnownOf files.now known.now }
    ensures { IfOk result (IsEditPlanTo files.now
        (spec.with_file on.Schema files.now name.now document)) }
{
    // The law that such an edit changes only the answers that are told as touched.
    laws::edit_schema();
    let before = known.schema.get();
    let edited = edited_types(alloc, files, name, document.as_ref())?;
    let mut changed = files.copy()?;
    let shared = shared_document(alloc, document)?;
    edit_file(&mut changed.schema, name, &shared)?;
    let put = document_in(&shared);
    let schema = edited_schema(alloc, &changed, before, name, put, &edited)?;
    let touched = schema_touched(alloc, files, before, schema.get(), &edited)?;
    let index = known.index.copy()?;
    Ok(EditPlan {
        files: changed,
        touched,
        schema,
        index,
        keeps_names: true,
    })
}

/// The plan of an edit of a document file. The schema stays.
fn document_plan(
    alloc: Global,
    files: &Files,
    known: &Known,
    name: &FileName,
    document: Option<Document>,
) -> Result<EditPlan, AllocError>
    requires { IsKnownOf files.now known.now }
    ensures { IfOk result (IsEditPlanTo files.now
        (spec.with_file on.Documents files.now name.now document)) }
{
    let index = &known.index;
    let touched = touched_by(alloc, files, name, document.as_ref())?;
    let keeps_names = edit_keeps_names(alloc, files, index, name, document.as_ref())?;
    let are_same = keeps_fragments(alloc, files, name, document.as_ref())?;
    let mut changed = files.copy()?;
    let shared = shared_document(alloc, document)?;
    edit_file(&mut changed.documents, name, &shared)?;
    let schema = known.schema.clone()?;
    let after = document_in(&shared);
    let index = edited_index(alloc, files, &changed, index, name, after, are_same)?;
    Ok(EditPlan {
        files: changed,
        touched,
        schema,
        index,
        keeps_names,
    })
}

/// The plan of an edit that leaves these files, and of which nothing more is known.
pub fn whole_plan(alloc: Global, files: Files) -> Result<EditPlan, AllocError>
    requires { AreFilesPlaced files.documents }
    ensures files { IfOk result (λ plan. plan.files ≡ files) }
    ensures plan { IfOk result (λ plan. (before : TheFiles) → IsEditPlanOf before plan) }
{
    let schema = schema_side(alloc, &files)?;
    let schema = Shared::new(alloc, schema)?;
    let index = document_index(alloc, &files)?;
    Ok(EditPlan {
        files,
        touched: Touched::All,
        schema,
        index,
        keeps_names: false,
    })
}

/// The plan of an edit of these files, of which this is known: the file of a name on a side is
/// replaced by this one, or removed if there is none.
pub fn edit_plan(
    alloc: Global,
    files: &Files,
    known: &Known,
    side: FileSide,
    name: &FileName,
    document: Option<Document>,
) -> Result<EditPlan, AllocError>
    requires { IsKnownOf files.now known.now }
    ensures { IfOk result (IsEditPlanTo files.now
        (spec.with_file side files.now name.now document)) }
{
    match side {
        FileSide::Schema => schema_plan(alloc, files, known, name, document),
        FileSide::Documents => document_plan(alloc, files, known, name, document),
    }
}
