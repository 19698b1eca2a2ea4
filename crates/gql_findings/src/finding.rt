//! Faults and operations, with the places where they are.

use crate::source::Source;
use gql_ast::{OperationKind, Rule, Text};

/// A place in a source of a list: line and column count from 1, and a column counts characters; the
/// offset counts the bytes before it.
#[derive(Clone, Copy, Debug, PartialEq, Eq)]
pub struct Spot {
    pub source: usize,
    pub line: usize,
    pub column: usize,
    pub offset: usize,
}

/// A form of a definition of the type system.
#[derive(Clone, Copy, Debug, PartialEq, Eq)]
pub enum SystemKind {
    Schema,
    Type,
    Directive,
    SchemaExtension,
    TypeExtension,
}

/// A definition of a file: a fragment by its name, an operation, which may have none, or a
/// definition of the type system, of which that of a schema and its extension have no name.
#[derive(Debug, Drop)]
pub enum Owner {
    Fragment(Text),
    Operation {
        kind: OperationKind,
        name: Option<Text>,
    },
    TypeSystem {
        kind: SystemKind,
        name: Option<Text>,
    },
}

/// The definition that owns a fault, and where it starts.
#[derive(Debug, Drop)]
pub struct OwnerAt {
    pub owner: Owner,
    pub spot: Spot,
}

/// A fault: the rule that is broken, the text that it is about, its places (none, one or two), and
/// the definition that owns it. A fault of the schema has no owner; it has the definition that its
/// first place is in.
#[derive(Debug, Drop)]
pub struct Finding {
    pub rule: Rule,
    pub about: Text,
    pub spots: Vec<Spot>,
    pub owner: Option<OwnerAt>,
    pub definition: Option<Owner>,
}

/// An operation, and where it starts.
#[derive(Debug, Drop)]
pub struct OperationAt {
    pub kind: OperationKind,
    pub name: Option<Text>,
    pub spot: Spot,
}

/// An operation that is not served, and the fragment through which, if the fault is not its own.
#[derive(Debug, Drop)]
pub struct Affected {
    pub kind: OperationKind,
    pub name: Option<Text>,
    pub spot: Spot,
    pub through: Option<Text>,
}

/// What a check of a folder finds: the files, their faults in the order of a report, all operations
/// of the documents, and those of them that are not served. While the schema has a fault, documents
/// are not checked: none of their faults is listed, no operation is served, and `affected` is
/// empty.
#[derive(Drop)]
pub struct Findings {
    pub sources: Vec<Source>,
    pub findings: Vec<Finding>,
    pub operations: Vec<OperationAt>,
    pub affected: Vec<Affected>,
    pub schema_is_faulty: bool,
}
