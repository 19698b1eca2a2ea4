//! Whether a schema with faults hides the documents.

ghost use Rattle.std.specs.Prelude.{◌≡◌, map, IfOk};
ghost use Rattle.gql_findings.specs.Comparing as spec;
ghost use Rattle.gql_findings.specs.Keys.{texts_in};

use crate::finding::Findings;
use crate::source::Source;
use std::alloc::{AllocError, Global};

/// Whether a file is below the folder of schema files.
fn is_schema_file(source: &Source) -> bool
    ensures { result ≡ spec.is_schema_file source.now }
{
    source.path().starts_with("schema/")
}

/// Whether a file is below the folder of documents.
fn is_document_file(source: &Source) -> bool
    ensures { result ≡ spec.is_document_file source.now }
{
    source.path().starts_with("documents/")
}

/// Whether there is a document file.
fn has_documents(findings: &Findings) -> bool
    ensures { result ≡ spec.has_documents findings.now }
{
    findings.sources.iter().any(is_document_file)
}

/// The schema files, each by its path below its folder and its text.
fn schema_files(alloc: Global, findings: &Findings) -> Result<Vec<(&str, &str)>, AllocError>
    ensures { IfOk result (λ files.
        map texts_in files.items ≡ spec.schema_files findings.now) }
{
    let mut files = Vec::new(alloc);
    for source in findings.sources.as_slice() {
        if is_schema_file(source) {
            files.push((source.path(), source.text()))?;
        }
    }
    Ok(files)
}

/// Whether two checks have the same schema files, byte for byte.
fn have_same_schema(alloc: Global, one: &Findings, other: &Findings) -> Result<bool, AllocError>
    ensures { IfOk result (λ same. same ≡ spec.have_same_schema one.now other.now) }
{
    let files = schema_files(alloc, one)?;
    let others = schema_files(alloc, other)?;
    Ok(files.as_slice() == others.as_slice())
}

/// Whether the documents of now are hidden.
pub fn hides_documents(alloc: Global, now: &Findings, base: &Findings) -> Result<bool, AllocError>
    ensures { IfOk result (λ hidden. hidden ≡ spec.hidden now.now base.now) }
{
    if !now.schema_is_faulty || !has_documents(now) {
        return Ok(false);
    }
    Ok(!have_same_schema(alloc, now, base)?)
}
