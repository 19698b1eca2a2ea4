//! The checks of schema files, and those that an edit of a file keeps.
ghost use Rattle.std.specs.Prelude.{IfOk, IfSome};
ghost use Rattle.std.specs.Option.{option_copied};
ghost use Rattle.gql_node_rules.specs.FileChecks.{IsCheckOf};
ghost use Rattle.gql_schema_rules.specs.ChecksOfFiles.{AreChecksOf};
ghost use Rattle.gql_schema_rules.specs.KeptChecks as spec;

use gql_ast::{Document, FileMap, FileName, Files, Shared};
use gql_node_rules::{FileCheck, SchemaChange};
use gql_types::Schema;
use std::alloc::{AllocError, Global};

/// A new check of a file.
fn new_check(
    alloc: Global,
    document: &Document,
    schema: &Schema,
) -> Result<Shared<FileCheck>, AllocError>
    ensures { IfOk result (λ check. IsCheckOf schema.now document.now check) }
{
    let check = FileCheck::of(alloc, document, schema)?;
    Shared::new(alloc, check)
}

/// The checks of the schema files, each under the name of its file.
pub fn checks_of(
    alloc: Global,
    files: &Files,
    schema: &Schema,
) -> Result<FileMap<Shared<FileCheck>>, AllocError>
    ensures { IfOk result (λ checks. AreChecksOf schema.now files.now.schema checks) }
{
    let mut found = FileMap::new(alloc);
    for (name, document) in files.schema.entries().iter() {
        let check = new_check(alloc, document.get(), schema)?;
        found.put(name.copy()?, check)?;
    }
    Ok(found)
}

/// The check of the file of this name before the edit, if it is that after the edit: the edit does
/// not change the file, and what the check depends on stays.
fn kept_check<'b>(
    name: &FileName,
    edited: &FileName,
    change: &SchemaChange,
    before: &'b FileMap<Shared<FileCheck>>,
) -> Option<&'b Shared<FileCheck>>
    ensures { IfSome (option_copied result)
        (spec.IsKept before.entry.now edited.now change.now name.now) }
{
    if name == edited {
        return None;
    }
    match before.get(name) {
        Some(check) => {
            if check.get().is_kept(change) {
                Some(check)
            } else {
                None
            }
        }
        None => None,
    }
}

/// The check of a file after the edit.
fn check_after_edit(
    alloc: Global,
    schema: &Schema,
    name: &FileName,
    document: &Document,
    edited: &FileName,
    change: &SchemaChange,
    before: &FileMap<Shared<FileCheck>>,
) -> Result<Shared<FileCheck>, AllocError>
    ensures { IfOk result (spec.IsCheckAfter before.now edited.now change.now schema.now
        name.now document.now) }
{
    match kept_check(name, edited, change, before) {
        Some(check) => check.clone(),
        None => new_check(alloc, document, schema),
    }
}

/// The checks of the schema files after an edit of the file of this name, by those before it. The
/// files are those after the edit, and the schema is theirs.
pub fn checks_after_edit(
    alloc: Global,
    files: &Files,
    schema: &Schema,
    edited: &FileName,
    change: &SchemaChange,
    before: &FileMap<Shared<FileCheck>>,
) -> Result<FileMap<Shared<FileCheck>>, AllocError>
    ensures { IfOk result (spec.AreChecksAfter before.now edited.now change.now files.now
        schema.now) }
{
    let mut checks = FileMap::new(alloc);
    for (name, document) in files.schema.entries().iter() {
        let document = document.get();
        let check = check_after_edit(alloc, schema, name, document, edited, change, before)?;
        checks.put(name.copy()?, check)?;
    }
    Ok(checks)
}
