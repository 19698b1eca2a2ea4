//! S34, Duplicate Schemas: there are two schema definitions, or an operation type is given twice.
//! <https://spec.graphql.org/October2021/#sec-Schema>
//! <https://spec.graphql.org/October2021/#sec-Root-Operation-Types>
//!
//! At fault: `schema { query: A } schema { query: A } type A { b: Int }`
//! No fault: `schema { query: A } type A { b: Int }`
ghost use Rattle.std.specs.Prelude.{◌≡◌, ◌++◌, ◌||◌, [], IfOk, OnOk, map, flat_map, codes, if◌then◌else◌};
ghost use Rattle.gql_ast.specs.declared.executable.OperationKind.{OperationKind as TheKind};
ghost use Rattle.gql_ast.specs.declared.rule.Rule.TheVariants as rule;
ghost use Rattle.gql_faults.specs.Faults.{fault_at};
ghost use Rattle.gql_faults.specs.Places.{spot};
ghost use Rattle.gql_node_rules.specs.Borrowed.{lists};
ghost use Rattle.gql_types.specs.Kinds.{same_operation};
ghost use Rattle.gql_schema_rules.specs.KindsSeen.{has};
ghost use Rattle.gql_schema_rules.specs.S34DuplicateSchemas as spec;

use crate::operation_kinds::kind_word;
use gql_ast::{Fault, OperationKind, Rule};
use gql_built_in::name_of_source;
use gql_faults::{Spot, add_fault};
use gql_node_rules::Nodes;
use gql_types::{Root, Schema};
use std::alloc::{AllocError, Global};

/// The places of the words `schema` of definitions.
fn keywords<'t>(alloc: Global, nodes: &Nodes<'t>) -> Result<Vec<Spot<'t>>, AllocError>
    ensures { IfOk result (λ words. map spot words.items ≡ spec.keywords (lists nodes.now)) }
{
    let mut words = Vec::new(alloc);
    for schema in nodes.schemas.as_slice() {
        words.push(Spot {
            file: Some(schema.file),
            place: schema.node.keyword,
        })?;
    }
    Ok(words)
}

/// Adds a fault at each of these words.
fn add_each_keyword(
    alloc: Global,
    words: &[Spot<'_>],
    faults: &mut Vec<Fault>,
) -> Result<(), AllocError>
    ensures { OnOk result (faults.new.items
        ≡ faults.old.items ++ flat_map (fault_at rule.S34 (codes "schema")) (map spot words.now)) }
{
    for word in words {
        add_fault(alloc, Rule::S34, "schema", word, faults)?;
    }
    Ok(())
}

/// Adds a fault at each of these words, if there are two or more.
fn check_keywords(
    alloc: Global,
    words: &[Spot<'_>],
    faults: &mut Vec<Fault>,
) -> Result<(), AllocError>
    ensures { OnOk result (faults.new.items
        ≡ faults.old.items ++ spec.faults_of_keywords (map spot words.now)) }
{
    if words.len() > 1 {
        add_each_keyword(alloc, words, faults)?;
    }
    Ok(())
}

/// The kinds of operations of the earlier roots.
#[derive(Clone, Copy)]
pub struct KindsSeen {
    pub query: bool,
    pub mutation: bool,
    pub subscription: bool,
}

impl KindsSeen {
    /// Whether the kind was seen.
    fn has(self, kind: OperationKind) -> bool
        ensures { result ≡ has self kind }
    {
        match kind {
            OperationKind::Query => self.query,
            OperationKind::Mutation => self.mutation,
            OperationKind::Subscription => self.subscription,
        }
    }

    /// These kinds and one more.
    #[tactic(auto, using(crate::proofs::SeenKinds::with_query, crate::proofs::SeenKinds::with_mutation, crate::proofs::SeenKinds::with_subscription))]
    fn with(self, kind: OperationKind) -> KindsSeen
        ensures { (k : TheKind) → has result k ≡ (has self k || same_operation k kind) }
    {
        match kind {
            OperationKind::Query => KindsSeen {
                query: true,
                ..self
            },
            OperationKind::Mutation => KindsSeen {
                mutation: true,
                ..self
            },
            OperationKind::Subscription => KindsSeen {
                subscription: true,
                ..self
            },
        }
    }
}

/// Adds the fault at the entry of a root, if it has one.
fn add_at_entry(alloc: Global, root: &Root, faults: &mut Vec<Fault>) -> Result<(), AllocError>
    ensures { OnOk result (faults.new.items ≡ faults.old.items
        ++ spec.fault_at_entry root.now.kind root.now.name.file root.now.entry) }
{
    if let Some(place) = root.entry {
        let spot = Spot {
            file: name_of_source(&root.name.file),
            place,
        };
        add_fault(alloc, Rule::S34, kind_word(root.kind), &spot, faults)?;
    }
    Ok(())
}

/// Adds the fault of a root, if its kind was seen.
fn check_root(
    alloc: Global,
    seen: KindsSeen,
    root: &Root,
    faults: &mut Vec<Fault>,
) -> Result<(), AllocError>
    ensures { OnOk result (faults.new.items ≡ faults.old.items ++ (if has seen root.now.kind
        then spec.fault_at_entry root.now.kind root.now.name.file root.now.entry else [])) }
{
    if seen.has(root.kind) {
        add_at_entry(alloc, root, faults)?;
    }
    Ok(())
}

/// Adds the faults of roots.
fn check_roots(alloc: Global, roots: &[Root], faults: &mut Vec<Fault>) -> Result<(), AllocError>
    ensures { OnOk result (faults.new.items ≡ faults.old.items ++ spec.faults_of_roots roots.now) }
{
    let mut seen = KindsSeen {
        query: false,
        mutation: false,
        subscription: false,
    };
    for root in roots {
        check_root(alloc, seen, root, faults)?;
        seen = seen.with(root.kind);
    }
    Ok(())
}

/// Adds the faults by S34.
pub fn check(
    alloc: Global,
    schema: &Schema,
    nodes: &Nodes<'_>,
    faults: &mut Vec<Fault>,
) -> Result<(), AllocError>
    ensures { OnOk result (faults.new.items
        ≡ faults.old.items ++ spec.faults (lists nodes.now) schema.now) }
{
    check_roots(alloc, schema.roots(), faults)?;
    let words = keywords(alloc, nodes)?;
    check_keywords(alloc, words.as_slice(), faults)?;
    Ok(())
}
