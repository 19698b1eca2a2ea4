//! What faults, causes and operations are known by.

ghost use Rattle.std.specs.Prelude.{◌≡◌, map, IfOk};
ghost use Rattle.std.specs.Option.{option_copied};
ghost use Rattle.gql_findings.specs.Marks as spec;
ghost use Rattle.gql_findings.specs.Keys.{mark_of, marks_of, same_key};
ghost use Rattle.gql_findings.specs.SameMarks.{same_key_equiv, same_key_hashes, same_key_partial, texts_of};
ghost use Rattle.gql_findings.specs.Tokens.{token_at};

use crate::finding::{Finding, Findings, Owner, Spot, SystemKind};
use crate::source::Source;
use gql_ast::{OperationKind, Text};
use std::alloc::{AllocError, Global};
use std::hash::{Hash, Hasher};

/// What something is known by. Parts that it does not have are empty.
#[derive(Clone, Copy)]
pub struct Key<'a> {
    pub kind: u8,
    pub rule: &'a str,
    pub about: &'a str,
    pub first: &'a [u8],
    pub second: &'a [u8],
    pub owner: &'a str,
}

impl<'a> PartialEq for Key<'a> {
    ghost eq = { same_key };

    ghost laws = { same_key_partial };

    fn eq(&self, other: &Key<'a>) -> bool {
        self.kind == other.kind
            && self.rule == other.rule
            && self.about == other.about
            && self.first == other.first
            && self.second == other.second
            && self.owner == other.owner
    }
}

impl<'a> Eq for Key<'a> {
    ghost laws = { same_key_equiv };
}

impl<'a> Hash for Key<'a> {
    ghost hash_input = { λ k. texts_of (mark_of k) };

    ghost respects_eq = { same_key_hashes };

    fn hash<H: Hasher>(&self, state: &mut H) {
        self.rule.hash(state);
        self.about.hash(state);
        self.first.hash(state);
        self.second.hash(state);
        self.owner.hash(state);
    }
}

/// The number of a kind of operation.
fn kind_number(kind: OperationKind) -> u8
    ensures { result ≡ spec.kind_number kind }
{
    match kind {
        OperationKind::Query => 2,
        OperationKind::Mutation => 3,
        OperationKind::Subscription => 4,
    }
}

/// The path, as it is shown, of the file of a place; empty where there is none.
pub fn label_at<'a>(sources: &'a [Source], spot: &Spot) -> &'a str
    ensures { result.now ≡ spec.label_at sources.now spot.now }
{
    match sources.get(spot.source) {
        Some(source) => source.label(),
        None => "",
    }
}

/// The path of the file of a place; empty where the list has no such file.
pub fn path_at<'a>(sources: &'a [Source], spot: &Spot) -> &'a str
    ensures { result.now ≡ spec.path_at sources.now spot.now }
{
    match sources.get(spot.source) {
        Some(source) => source.path(),
        None => "",
    }
}

/// The line that a place is in; empty where the list has no such file.
pub fn line_at<'a>(sources: &'a [Source], spot: &Spot) -> &'a str
    ensures { result.now ≡ spec.line_of sources.now spot.now }
{
    match sources.get(spot.source) {
        Some(source) => source.line(spot.line),
        None => "",
    }
}

/// The token at a place; empty where there is none.
fn token_at<'a>(sources: &'a [Source], spot: &Spot) -> &'a [u8]
    ensures { result.now ≡ token_at sources.now spot.now }
{
    match sources.get(spot.source) {
        Some(source) => source.token(spot.offset),
        None => &[],
    }
}

/// The token at the place of this index of a fault; empty where the fault has no such place.
fn token_in<'a>(sources: &'a [Source], finding: &Finding, index: usize) -> &'a [u8]
    ensures { result.now ≡ spec.token_in sources.now finding.now index }
{
    match finding.spots.get(index) {
        Some(spot) => token_at(sources, spot),
        None => &[],
    }
}

/// The number of a form of a definition of the type system.
fn system_number(kind: SystemKind) -> u8
    ensures { result ≡ spec.system_number kind }
{
    match kind {
        SystemKind::Schema => 8,
        SystemKind::Type => 9,
        SystemKind::Directive => 10,
        SystemKind::SchemaExtension => 11,
        SystemKind::TypeExtension => 12,
    }
}

/// The number of the kind of a definition.
fn owner_kind(owner: &Owner) -> u8
    ensures { result ≡ spec.owner_kind owner.now }
{
    match owner {
        Owner::Fragment(_) => 1,
        Owner::Operation { kind, name } => {
            if name.is_some() {
                kind_number(*kind)
            } else {
                kind_number(*kind) + 3
            }
        }
        Owner::TypeSystem { kind, name: _ } => system_number(*kind),
    }
}

/// The name of a definition; empty where it has none.
fn owner_name(owner: &Owner) -> &str
    ensures { result.now ≡ spec.owner_name owner.now }
{
    let name = match owner {
        Owner::Fragment(name) => return name.as_str(),
        Owner::Operation { kind: _, name } => name,
        Owner::TypeSystem { kind: _, name } => name,
    };
    match name {
        Some(name) => name.as_str(),
        None => "",
    }
}

/// The definition that a fault is known by: its owner, or else that of its first place.
fn definition_of(finding: &Finding) -> Option<&Owner>
    ensures { option_copied result ≡ spec.definition_of finding.now }
{
    match &finding.owner {
        Some(owner) => Some(&owner.owner),
        None => finding.definition.as_ref(),
    }
}

/// What a fault is known by.
pub fn fault_key<'a>(sources: &'a [Source], finding: &'a Finding) -> Key<'a>
    ensures { mark_of result ≡ spec.fault_mark sources.now finding.now }
{
    let (kind, owner) = match definition_of(finding) {
        Some(owner) => (owner_kind(owner), owner_name(owner)),
        None => (0, ""),
    };
    Key {
        kind,
        rule: finding.rule.name(),
        about: finding.about.as_str(),
        first: token_in(sources, finding, 0),
        second: token_in(sources, finding, 1),
        owner,
    }
}

/// What a cause of faults is known by.
pub fn cause_key(finding: &Finding) -> Key<'_>
    ensures { mark_of result ≡ spec.cause_mark finding.now }
{
    Key {
        kind: 0,
        rule: finding.rule.name(),
        about: finding.about.as_str(),
        first: &[],
        second: &[],
        owner: "",
    }
}

/// What an operation is known by.
fn operation_key(name: &Option<Text>) -> Key<'_>
    ensures { mark_of result ≡ spec.operation_mark name.now }
{
    let (kind, about) = match name {
        Some(name) => (1, name.as_str()),
        None => (0, ""),
    };
    Key {
        kind,
        rule: "",
        about,
        first: &[],
        second: &[],
        owner: "",
    }
}

/// What the faults are known by.
pub fn fault_keys(alloc: Global, findings: &Findings) -> Result<Vec<Key<'_>>, AllocError>
    ensures { IfOk result (λ keys. marks_of keys.items ≡ spec.fault_marks findings.now) }
{
    let sources = findings.sources.as_slice();
    let mut keys = Vec::new(alloc);
    for finding in findings.findings.as_slice() {
        keys.push(fault_key(sources, finding))?;
    }
    Ok(keys)
}

/// What the operations are known by.
pub fn operation_keys(alloc: Global, findings: &Findings) -> Result<Vec<Key<'_>>, AllocError>
    ensures { IfOk result (λ keys. marks_of keys.items ≡ spec.operation_marks findings.now) }
{
    let mut keys = Vec::new(alloc);
    for operation in findings.operations.as_slice() {
        keys.push(operation_key(&operation.name))?;
    }
    Ok(keys)
}

/// What the operations that are not served are known by.
pub fn affected_keys(alloc: Global, findings: &Findings) -> Result<Vec<Key<'_>>, AllocError>
    ensures { IfOk result (λ keys. marks_of keys.items ≡ spec.affected_marks findings.now) }
{
    let mut keys = Vec::new(alloc);
    for operation in findings.affected.as_slice() {
        keys.push(operation_key(&operation.name))?;
    }
    Ok(keys)
}
