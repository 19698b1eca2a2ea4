//! The faults that the removal of a part brings to the schema.
ghost use Rattle.std.specs.Prelude.{◌≡◌, IfOk};
ghost use Rattle.gql_cut.specs.Cuts.{schema_left as cut};
ghost use Rattle.gql_folder_usage.specs.Brought as spec;
ghost use Rattle.gql_registry.specs.Report.{IsSound};

use gql_ast::{Document, Fault, FileMap, Files, Shared};
use gql_cut::document_left;
use gql_removal::Subject;
use gql_report::in_order;
use gql_schema_rules::schema_faults;
use gql_types::assemble;
use std::alloc::{AllocError, Global};

/// Schema files without a part.
fn schema_left(
    alloc: Global,
    subject: &Subject,
    files: &FileMap<Shared<Document>>,
) -> Result<FileMap<Shared<Document>>, AllocError>
    ensures { IfOk result (λ left. left ≡ cut subject.now files.now) }
{
    let mut left = FileMap::new(alloc);
    for (name, document) in files.entries().iter() {
        let document = document_left(alloc, subject, document.get())?;
        let document = Shared::new(alloc, document)?;
        left.put(name.copy()?, document)?;
    }
    Ok(left)
}

/// The schema files without a part, and no document files.
fn files_left(alloc: Global, subject: &Subject, files: &Files) -> Result<Files, AllocError>
    ensures { IfOk result (λ left. left ≡ spec.files_left subject.now files.now) }
{
    Ok(Files {
        profile: files.profile,
        schema: schema_left(alloc, subject, &files.schema)?,
        documents: FileMap::new(alloc),
    })
}

/// The faults that the removal of a part brings to the schema of these files, which has none: those that
/// it has without the part. The part goes alone, and what refers to it stays.
pub fn faults_brought(
    alloc: Global,
    subject: &Subject,
    files: &Files,
) -> Result<Vec<Shared<Fault>>, AllocError>
    requires sound { IsSound files.now }
    ensures { IfOk result (λ faults. spec.AreBrought subject.now files.now faults.items) }
{
    let left = files_left(alloc, subject, files)?;
    let schema = assemble(alloc, &left)?;
    let faults = schema_faults(alloc, &left, &schema)?;
    let brought = in_order(alloc, faults)?;
    Ok(brought)
}
