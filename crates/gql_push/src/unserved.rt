//! Which operations a registry does not serve, by its report and a check of the folder.
ghost use Rattle.std.specs.Prelude.{◌≡◌, slice_get};
ghost use Rattle.gql_push.specs.Unserved as spec;

use crate::report::FaultOwner;

/// What is known of the operations of a folder that a registry does not serve.
#[derive(Clone, Copy, Debug, PartialEq, Eq)]
pub enum Unserved {
    /// There is no fault: all operations of the registry are served.
    Nothing,
    /// The schema has faults: no operation of the registry is served.
    Everything,
    /// So many operations of the folder are not served.
    Exactly(usize),
    /// So many operations of the folder have faults. Others may reach fragments that have some.
    AtLeast(usize),
}

/// What a check of a folder found: who owns each fault, the operations, each by where it starts,
/// and how many of them are not served.
#[derive(Drop)]
pub struct FolderCheck {
    pub owners: Vec<FaultOwner>,
    pub operations: Vec<FaultOwner>,
    pub affected: usize,
}

/// Whether two owners are one.
fn is_same(one: &FaultOwner, other: &FaultOwner) -> bool
    ensures { result ≡ spec.is_same one.now other.now }
{
    match (one, other) {
        (FaultOwner::Schema, FaultOwner::Schema) => true,
        (
            FaultOwner::Definition { file, line, column },
            FaultOwner::Definition {
                file: other_file,
                line: other_line,
                column: other_column,
            },
        ) => file == other_file && line == other_line && column == other_column,
        _ => false,
    }
}

/// Whether one of these is an owner.
fn is_among(owner: &FaultOwner, owners: &[FaultOwner]) -> bool
    ensures { result ≡ spec.is_among owners.now owner.now }
{
    owners.iter().any(|other| is_same(owner, other))
}

/// Whether the one of these at an index, if there is one, is an owner.
fn is_same_at(one: &FaultOwner, owners: &[FaultOwner], at: usize) -> bool
    ensures { result ≡ spec.is_same_if_some one.now (slice_get owners.now at) }
{
    match owners.get(at) {
        Some(other) => is_same(one, other),
        None => false,
    }
}

/// Whether two lists of owners are the same.
fn are_same(these: &[FaultOwner], those: &[FaultOwner]) -> bool
    ensures { result ≡ spec.are_same these.now those.now }
{
    if these.len() != those.len() {
        return false;
    }
    for (at, one) in these.iter().enumerate() {
        if !is_same_at(one, those, at) {
            return false;
        }
    }
    true
}

/// How many of these are among the owners.
fn count_among(operations: &[FaultOwner], owners: &[FaultOwner]) -> usize
    ensures { result ≡ spec.count_among operations.now owners.now }
{
    operations
        .iter()
        .filter(|operation| is_among(operation, owners))
        .count()
}

/// What is known of the operations of a folder that a registry does not serve, whose report has
/// faults of these owners.
pub fn unserved_by(owners: &[FaultOwner], check: &FolderCheck) -> Unserved
    ensures { result ≡ spec.unserved_by owners.now check.now }
{
    if owners.is_empty() {
        return Unserved::Nothing;
    }
    if is_among(&FaultOwner::Schema, owners) {
        return Unserved::Everything;
    }
    if are_same(owners, check.owners.as_slice()) {
        return Unserved::Exactly(check.affected);
    }
    Unserved::AtLeast(count_among(check.operations.as_slice(), owners))
}
