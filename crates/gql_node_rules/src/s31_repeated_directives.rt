//! S31, Repeated Directives: a directive that is not repeatable is applied twice.
//! <https://spec.graphql.org/October2021/#sec-Schema-Extension>
//! <https://spec.graphql.org/October2021/#sec-Directives-Are-Unique-Per-Location>
//!
//! At fault: `type Query { a: Int @d @d } directive @d on FIELD_DEFINITION`
//! No fault: `type Query { a: Int @d @d } directive @d repeatable on FIELD_DEFINITION`
ghost use Rattle.std.specs.Prelude.{◌≡◌, ◌++◌, [], IfOk, OnOk, map, flat_map, bytes_eq, nat_lt, unwrap_or, if◌then◌else◌};
ghost use Rattle.std.specs.HashMap as hash;
ghost use Rattle.gql_faults.specs.Places.{named};
ghost use Rattle.gql_node_rules.specs.Applied as applied_spec;
ghost use Rattle.gql_node_rules.specs.Borrowed.{annotations, application, lists};
ghost use Rattle.gql_node_rules.specs.S31RepeatedDirectives as spec;

use crate::applied::{Annotated, Applied, all_applied, schema_and_extensions, type_and_extensions};
use crate::nodes::Nodes;
use gql_ast::{Fault, Rule};
use gql_faults::{NamePlace, add_fault, counts};
use gql_types::{Batched, Schema, SchemaType};
use std::alloc::{AllocError, Global};
use std::collections::HashMap;

/// The names of these directives.
fn names_of<'t>(alloc: Global, group: &[Applied<'t>]) -> Result<Vec<NamePlace<'t>>, AllocError>
    ensures { IfOk result (λ names. map named names.items
        ≡ spec.names_of (map application group.now)) }
{
    let mut names = Vec::new(alloc);
    for applied in group {
        names.push(NamePlace {
            file: applied.file,
            name: &applied.directive.name,
        })?;
    }
    Ok(names)
}

/// Adds the fault at a directive, if it is defined and not repeatable.
fn add_unless_repeatable(
    alloc: Global,
    schema: &Schema,
    applied: &Applied<'_>,
    faults: &mut Vec<Fault>,
) -> Result<(), AllocError>
    ensures { OnOk result (faults.new.items
        ≡ faults.old.items ++ spec.unless_repeatable schema.now (application applied.now)) }
{
    let name = applied.name();
    match schema.directive(name) {
        Some(definition) => {
            if !definition.node.get().is_repeatable {
                add_fault(alloc, Rule::S31, name, &applied.spot(), faults)?;
            }
            Ok(())
        }
        None => Ok(()),
    }
}

/// Adds the fault at one of the directives that were counted.
fn check_applied(
    alloc: Global,
    schema: &Schema,
    counts: &HashMap<&str, usize>,
    applied: &Applied<'_>,
    faults: &mut Vec<Fault>,
) -> Result<(), AllocError>
    ensures { OnOk result (faults.new.items ≡ faults.old.items
        ++ (if nat_lt 1 (unwrap_or (hash.get_by (λ k. bytes_eq
        (applied_spec.name_of (application applied.now)) k.now) counts.now) 0)
        then spec.unless_repeatable schema.now (application applied.now) else [])) }
{
    if counts.get(applied.name()).copied().unwrap_or(0) > 1 {
        add_unless_repeatable(alloc, schema, applied, faults)?;
    }
    Ok(())
}

/// Adds the faults of directives that count together.
#[tactic(auto, using(crate::proofs::Few::few))]
fn check_group(
    alloc: Global,
    schema: &Schema,
    group: &[Applied<'_>],
    faults: &mut Vec<Fault>,
) -> Result<(), AllocError>
    ensures { OnOk result (faults.new.items
        ≡ faults.old.items ++ spec.faults_in_group schema.now (map application group.now)) }
{
    if group.len() < 2 {
        // one directive is not repeated
        return Ok(());
    }
    let names = names_of(alloc, group)?;
    let counts = counts(alloc, names.as_slice())?;
    for applied in group {
        check_applied(alloc, schema, &counts, applied, faults)?;
    }
    Ok(())
}

/// Adds the faults of nodes whose directives count together.
fn check_together(
    alloc: Global,
    schema: &Schema,
    nodes: &[Annotated<'_>],
    faults: &mut Vec<Fault>,
) -> Result<(), AllocError>
    ensures { OnOk result (faults.new.items
        ≡ faults.old.items ++ spec.faults_together schema.now (map annotations nodes.now)) }
{
    let group = all_applied(alloc, nodes)?;
    check_group(alloc, schema, group.as_slice(), faults)?;
    Ok(())
}

/// Adds the faults of a node.
#[tactic(auto, using(crate::proofs::Few::few_alone))]
fn check_node(
    alloc: Global,
    schema: &Schema,
    node: &Annotated<'_>,
    faults: &mut Vec<Fault>,
) -> Result<(), AllocError>
    ensures { OnOk result (faults.new.items
        ≡ faults.old.items ++ spec.faults_alone schema.now (annotations node.now)) }
{
    if node.directives.len() < 2 {
        // one directive is not repeated
        return Ok(());
    }
    check_together(alloc, schema, &[*node], faults)?;
    Ok(())
}

/// Adds the faults of nodes, each alone.
pub fn check_nodes(
    alloc: Global,
    schema: &Schema,
    nodes: &[Annotated<'_>],
    faults: &mut Vec<Fault>,
) -> Result<(), AllocError>
    ensures { OnOk result (faults.new.items
        ≡ faults.old.items ++ flat_map (spec.faults_alone schema.now) (map annotations nodes.now)) }
{
    for node in nodes {
        check_node(alloc, schema, node, faults)?;
    }
    Ok(())
}

/// Adds the faults of a type with its extensions.
#[tactic(auto, using(crate::proofs::Few::few_on_type))]
fn check_type(
    alloc: Global,
    schema: &Schema,
    of_type: &SchemaType,
    faults: &mut Vec<Fault>,
) -> Result<(), AllocError>
    ensures { OnOk result (faults.new.items
        ≡ faults.old.items ++ spec.faults_of_type schema.now of_type.now) }
{
    let own = &of_type.definition.node.get().directives;
    if of_type.extensions.is_empty() && own.len() < 2 {
        // one directive is not repeated
        return Ok(());
    }
    let nodes = type_and_extensions(alloc, of_type)?;
    check_together(alloc, schema, nodes.as_slice(), faults)?;
    Ok(())
}

/// Adds the faults of these types, each with its extensions.
pub fn check_types(
    alloc: Global,
    schema: &Schema,
    types: &[Batched<SchemaType>],
    faults: &mut Vec<Fault>,
) -> Result<(), AllocError>
    ensures { OnOk result (faults.new.items
        ≡ faults.old.items ++ flat_map (spec.faults_of_type schema.now) types.now) }
{
    for of_type in types {
        check_type(alloc, schema, of_type.get(), faults)?;
    }
    Ok(())
}

/// Adds the faults of the schema with its extensions.
pub fn check_schema(
    alloc: Global,
    schema: &Schema,
    nodes: &Nodes<'_>,
    faults: &mut Vec<Fault>,
) -> Result<(), AllocError>
    ensures { OnOk result (faults.new.items
        ≡ faults.old.items ++ spec.faults_of_schema (lists nodes.now) schema.now) }
{
    let nodes = schema_and_extensions(alloc, nodes)?;
    check_together(alloc, schema, nodes.as_slice(), faults)?;
    Ok(())
}
