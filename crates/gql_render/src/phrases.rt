//! Phrases that several formats have.

ghost use Rattle.std.specs.Prelude.{◌≡◌, ◌++◌, OnOk, string_bytes};
ghost use Rattle.gql_render.specs.Json.{kind_word, system_word};
ghost use Rattle.gql_render.specs.Phrases as spec;

use crate::check::{Against, Check};
use crate::write::{write_number, write_text, write_texts};
use gql_findings::{
    Affected, Finding, Findings, OperationKind, Owner, Source, Spot, SystemKind, Text, label_at,
    sentence, title,
};
use std::alloc::AllocError;

/// The ending of a noun after a number.
fn ending(count: usize) -> &'static str
    ensures { result.now ≡ spec.ending count }
{
    if count == 1 { "" } else { "s" }
}

/// Writes how many there are: `1 fault`, `2 faults`.
#[tactic(auto, unfolding(crate::specs::Phrases::count_text))]
pub fn write_count(out: &mut String, count: usize, noun: &str) -> Result<(), AllocError>
    ensures { OnOk result (string_bytes out.new
        ≡ string_bytes out.old ++ spec.count_text count noun.now) }
{
    write_number(out, count)?;
    write_text(out, " ")?;
    write_text(out, noun)?;
    write_text(out, ending(count))
}

/// The word for a kind of operation.
pub fn kind_word(kind: OperationKind) -> &'static str
    ensures { result.now ≡ kind_word kind }
{
    match kind {
        OperationKind::Query => "query",
        OperationKind::Mutation => "mutation",
        OperationKind::Subscription => "subscription",
    }
}

/// The words for a kind of definition of the type system.
pub fn system_word(kind: SystemKind) -> &'static str
    ensures { result.now ≡ system_word kind }
{
    match kind {
        SystemKind::Schema => "schema",
        SystemKind::Type => "type",
        SystemKind::Directive => "directive",
        SystemKind::SchemaExtension => "schema extension",
        SystemKind::TypeExtension => "type extension",
    }
}

/// The words for an operation without a name.
fn unnamed(kind: OperationKind) -> &'static str {
    match kind {
        OperationKind::Query => "an operation without a name",
        OperationKind::Mutation => "a mutation without a name",
        OperationKind::Subscription => "a subscription without a name",
    }
}

/// Writes an operation by its kind and name, as `query Profile`.
pub fn write_operation(
    out: &mut String,
    kind: OperationKind,
    name: &Option<Text>,
) -> Result<(), AllocError> {
    match name {
        Some(name) => {
            write_text(out, kind_word(kind))?;
            write_texts(out, &[" ", name.as_str()])
        }
        None => write_text(out, unnamed(kind)),
    }
}

/// Writes a definition of the type system, as `type User`.
fn write_system(out: &mut String, kind: SystemKind, name: &Option<Text>) -> Result<(), AllocError> {
    write_text(out, system_word(kind))?;
    match name {
        Some(name) => write_texts(out, &[" ", name.as_str()]),
        None => Ok(()),
    }
}

/// Writes a definition, as `fragment Shown`.
pub fn write_owner(out: &mut String, owner: &Owner) -> Result<(), AllocError> {
    match owner {
        Owner::Fragment(name) => write_texts(out, &["fragment ", name.as_str()]),
        Owner::Operation { kind, name } => write_operation(out, *kind, name),
        Owner::TypeSystem { kind, name } => write_system(out, *kind, name),
    }
}

/// Writes an operation that is not served, as `query Profile (by fragment Shown)`.
pub fn write_affected(out: &mut String, affected: &Affected) -> Result<(), AllocError> {
    write_operation(out, affected.kind, &affected.name)?;
    match &affected.through {
        Some(through) => write_texts(out, &[" (by fragment ", through.as_str(), ")"]),
        None => Ok(()),
    }
}

/// Writes the rule of a fault and what it is about.
pub fn write_rule(out: &mut String, finding: &Finding) -> Result<(), AllocError> {
    write_text(out, finding.rule.name())?;
    let about = finding.about.as_str();
    if about.is_empty() {
        return Ok(());
    }
    write_texts(out, &[" `", about, "`"])
}

/// Writes the name and the sentence of a fault's rule, and the definition that owns the fault.
pub fn write_sentence(out: &mut String, finding: &Finding) -> Result<(), AllocError> {
    write_texts(out, &[title(finding.rule), ": ", sentence(finding.rule)])?;
    let Some(owner) = &finding.owner else {
        return Ok(());
    };
    write_text(out, " (in ")?;
    write_owner(out, &owner.owner)?;
    write_text(out, ")")
}

/// Writes a fault without its places.
pub fn write_fault(out: &mut String, finding: &Finding) -> Result<(), AllocError> {
    write_rule(out, finding)?;
    write_text(out, ": ")?;
    write_sentence(out, finding)
}

/// Writes a place, as `documents/profile.graphql:5:26`.
pub fn write_spot(out: &mut String, sources: &[Source], spot: &Spot) -> Result<(), AllocError> {
    let mut line = itoa::Buffer::new();
    let mut column = itoa::Buffer::new();
    let label = label_at(sources, spot);
    write_texts(
        out,
        &[
            label,
            ":",
            line.format(spot.line),
            ":",
            column.format(spot.column),
        ],
    )
}

/// Writes how many faults a change brings and mends.
#[tactic(auto, unfolding(crate::specs::Phrases::change_counts))]
fn write_change_counts(out: &mut String, base: &Against<'_>) -> Result<(), AllocError>
    ensures { OnOk result (string_bytes out.new
        ≡ string_bytes out.old ++ spec.change_counts base.entry.now) }
{
    write_count(out, base.comparison.brought.len(), "fault")?;
    write_text(out, " brought, ")?;
    write_count(out, base.comparison.mended.len(), "fault")?;
    write_text(out, " mended")
}

/// Writes how many faults there are, and in how many files.
#[tactic(auto, unfolding(crate::specs::Phrases::all_counts))]
fn write_all_counts(out: &mut String, now: &Findings) -> Result<(), AllocError>
    ensures { OnOk result (string_bytes out.new
        ≡ string_bytes out.old ++ spec.all_counts now.now) }
{
    write_count(out, now.findings.len(), "fault")?;
    write_text(out, " in ")?;
    write_count(out, now.sources.len(), "file")
}

/// Writes the counts: `1 fault in 2 files`, or against a base `1 fault brought, 0 faults mended`.
pub fn write_counts(out: &mut String, check: &Check<'_>) -> Result<(), AllocError>
    ensures { OnOk result (string_bytes out.new
        ≡ string_bytes out.old ++ spec.counts_text check.entry.now) }
{
    match &check.base {
        Some(base) => write_change_counts(out, base),
        None => write_all_counts(out, check.now),
    }
}

/// What is said first of a comparison that does not see the documents of now.
const UNKNOWN: &str = "the schema has faults: which operations this change breaks is not known";

/// What is said before all else: that the documents of now are hidden, if they are; else nothing.
pub fn first_words(check: &Check<'_>) -> &'static str
    ensures { result.now ≡ spec.first_words check.entry.now }
{
    match &check.base {
        Some(base) => { if base.comparison.hidden { UNKNOWN } else { "" } }
        None => "",
    }
}

/// What a schema with faults hides, in a sentence; empty where it hides nothing. Without operations
/// there is nothing to hide.
pub fn hidden(check: &Check<'_>) -> &'static str {
    let Some(base) = &check.base else {
        return if check.now.schema_is_faulty && !check.now.operations.is_empty() {
            "the documents are not checked until the schema has no fault"
        } else {
            ""
        };
    };
    if check.now.schema_is_faulty && !check.now.operations.is_empty() {
        "no operation is served until the schema has no fault; nor are the documents checked"
    } else if base.findings.schema_is_faulty && !base.findings.operations.is_empty() {
        "the schema of the base has faults: faults of its documents are not known"
    } else {
        ""
    }
}
