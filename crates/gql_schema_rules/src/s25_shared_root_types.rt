//! S25, Shared Root Types: two kinds of operations have the same root operation type.
//! <https://spec.graphql.org/October2021/#sec-Root-Operation-Types>
//!
//! At fault: `schema { query: A mutation: A } type A { a: Int }`
//! No fault: `schema { query: A mutation: B } type A { a: Int } type B { a: Int }`
ghost use Rattle.std.specs.Prelude.{◌≡◌, ◌++◌, ◌∷◌, [], ℕ, List, IfOk, OnOk, map, flat_map, bytes_eq, string_bytes, if◌then◌else◌};
ghost use Rattle.std.specs.Option.{option_map_or};
ghost use Rattle.std.specs.HashMap as hash;
ghost use Rattle.gql_schema_rules.specs.S25SharedRootTypes as spec;
ghost use Rattle.gql_schema_rules.specs.RootGroups as grouped;

use crate::operation_kinds::{is_same, kind_word};
use gql_ast::{Fault, OperationKind, Rule};
use gql_faults::{NamePlace, add_fault_between};
use gql_types::{Root, Schema};
use std::alloc::{AllocError, Global};
use std::collections::HashMap;

/// Root operation types by kind and name, in their order.
type Groups<'s> = HashMap<String, Vec<&'s Root>>;

/// The key of a group.
fn key(alloc: Global, kind: OperationKind, name: &str) -> Result<String, AllocError>
    ensures { IfOk result (λ key. string_bytes key ≡ grouped.key_of kind name.now) }
{
    let mut key = String::from_str(alloc, kind_word(kind))?;
    key.push_str(name)?;
    Ok(key)
}

/// Adds the faults of a root with those of a group.
fn check_each(
    alloc: Global,
    root: &Root,
    group: &[&Root],
    faults: &mut Vec<Fault>,
) -> Result<(), AllocError>
    ensures { OnOk result (faults.new.items ≡ faults.old.items
        ++ flat_map (spec.fault_with root.now) (map (λ q. q.now) group.now)) }
{
    let name = NamePlace::of(&root.name);
    for earlier in group {
        let other = NamePlace::of(&earlier.name);
        let about = name.name.as_str();
        add_fault_between(alloc, Rule::S25, about, &name.spot(), &other.spot(), faults)?;
    }
    Ok(())
}

/// Adds the faults of a root with those of the group of a key.
fn check_group(
    alloc: Global,
    root: &Root,
    key: &str,
    groups: &Groups<'_>,
    faults: &mut Vec<Fault>,
) -> Result<(), AllocError>
    ensures { OnOk result (faults.new.items ≡ faults.old.items
        ++ flat_map (spec.fault_with root.now)
        (option_map_or
        (λ group. map (λ x. x.now) group.items) (hash.get_by_text groups.now key.now) [])) }
{
    match groups.get(key) {
        Some(group) => check_each(alloc, root, group.as_slice(), faults),
        None => Ok(()),
    }
}

/// Adds the faults of a root with the earlier ones of a kind, unless it is of that kind.
fn check_kind(
    alloc: Global,
    root: &Root,
    kind: OperationKind,
    groups: &Groups<'_>,
    faults: &mut Vec<Fault>,
) -> Result<(), AllocError>
    ensures { OnOk result (faults.new.items ≡ faults.old.items ++ grouped.grouped_as
        (λ q. option_map_or
        (λ group. map (λ x. x.now) group.items) (hash.get_by_text groups.now q) []) root.now kind) }
{
    if !is_same(kind, root.kind) {
        let key = key(alloc, kind, root.name.node.as_str())?;
        check_group(alloc, root, key.as_str(), groups, faults)?;
    }
    Ok(())
}

/// Adds the faults of a root with the earlier ones of all other kinds.
fn check_earlier(
    alloc: Global,
    root: &Root,
    groups: &Groups<'_>,
    faults: &mut Vec<Fault>,
) -> Result<(), AllocError>
    ensures { OnOk result (faults.new.items ≡ faults.old.items ++ grouped.grouped_earlier
        (λ q. option_map_or
        (λ group. map (λ x. x.now) group.items) (hash.get_by_text groups.now q) []) root.now) }
{
    check_kind(alloc, root, OperationKind::Query, groups, faults)?;
    check_kind(alloc, root, OperationKind::Mutation, groups, faults)?;
    check_kind(alloc, root, OperationKind::Subscription, groups, faults)?;
    Ok(())
}

/// Adds the faults of a root, if its type is known.
fn check_root(
    alloc: Global,
    schema: &Schema,
    root: &Root,
    groups: &Groups<'_>,
    faults: &mut Vec<Fault>,
) -> Result<(), AllocError>
    ensures { OnOk result (faults.new.items ≡ faults.old.items ++ grouped.grouped_with schema.now
        (λ q. option_map_or
        (λ group. map (λ x. x.now) group.items) (hash.get_by_text groups.now q) []) root.now) }
{
    if schema.get(root.name.node.as_str()).is_some() {
        check_earlier(alloc, root, groups, faults)?;
    }
    Ok(())
}

/// Adds a root to its group.
fn remember<'s>(alloc: Global, root: &'s Root, groups: &mut Groups<'s>) -> Result<(), AllocError>
    ensures { OnOk result ((q : List ℕ) → option_map_or
        (λ group. map (λ x. x.now) group.items) (hash.get_by_text groups.new q) []
        ≡ option_map_or (λ group. map (λ x. x.now) group.items) (hash.get_by_text groups.old q) []
        ++ (if bytes_eq q (grouped.key root.now) then root.now ∷ [] else [])) }
{
    let key = key(alloc, root.kind, root.name.node.as_str())?;
    groups.entry(key)?.or_default().push(root)?;
    Ok(())
}

/// Adds the faults by S25.
pub fn check(alloc: Global, schema: &Schema, faults: &mut Vec<Fault>) -> Result<(), AllocError>
    ensures { OnOk result (faults.new.items ≡ faults.old.items ++ spec.faults schema.now) }
{
    let mut groups: Groups<'_> = HashMap::new(alloc);
    for root in schema.roots() {
        check_root(alloc, schema, root, &groups, faults)?;
        remember(alloc, root, &mut groups)?;
    }
    Ok(())
}
