//! The names that schema files define (GraphQL 3.3 to 3.13).
ghost use Rattle.std.specs.Prelude.{◌≡◌, ◌++◌, IfOk, OnOk, map};
ghost use Rattle.gql_faults.specs.Places.{named};
ghost use Rattle.gql_node_rules.specs.Borrowed.{one, lists};
ghost use Rattle.gql_node_rules.specs.DefinedNames as spec;
ghost use Rattle.gql_node_rules.specs.Nodes.{each};

use crate::node::Node;
use crate::nodes::Nodes;
use gql_faults::{HasOwnName, NamePlace};
use std::alloc::{AllocError, Global};

/// Adds the names of these nodes.
fn add_names<'t, T: HasOwnName>(
    nodes: &[Node<'t, T>],
    found: &mut Vec<NamePlace<'t>>,
) -> Result<(), AllocError>
    ensures { OnOk result (map named found.new.items
        ≡ map named found.old.items ++ each T.own_name (map one nodes.now)) }
{
    for node in nodes {
        found.push(NamePlace {
            file: Some(node.file),
            name: node.node.own_name(),
        })?;
    }
    Ok(())
}

/// The names of these nodes.
pub fn names_of<'t, T: HasOwnName>(
    alloc: Global,
    nodes: &[Node<'t, T>],
) -> Result<Vec<NamePlace<'t>>, AllocError>
    ensures { IfOk result (λ found. map named found.items ≡ each T.own_name (map one nodes.now)) }
{
    let mut found = Vec::with_capacity(alloc, nodes.len())?;
    add_names(nodes, &mut found)?;
    Ok(found)
}

/// Adds the names of definitions and of extensions of types.
fn add_definitions<'t>(nodes: &Nodes<'t>, found: &mut Vec<NamePlace<'t>>) -> Result<(), AllocError>
    ensures { OnOk result (map named found.new.items
        ≡ map named found.old.items ++ spec.definition_names (lists nodes.now)) }
{
    add_names(nodes.types.as_slice(), found)?;
    add_names(nodes.type_extensions.as_slice(), found)?;
    add_names(nodes.directives.as_slice(), found)?;
    Ok(())
}

/// Adds the names of their parts.
fn add_parts<'t>(nodes: &Nodes<'t>, found: &mut Vec<NamePlace<'t>>) -> Result<(), AllocError>
    ensures { OnOk result (map named found.new.items
        ≡ map named found.old.items ++ spec.part_names (lists nodes.now)) }
{
    add_names(nodes.fields.as_slice(), found)?;
    add_names(nodes.arguments.as_slice(), found)?;
    add_names(nodes.input_fields.as_slice(), found)?;
    add_names(nodes.values.as_slice(), found)?;
    Ok(())
}

/// How many names there are. This is for the list's memory alone.
fn count(nodes: &Nodes<'_>) -> usize {
    let types = nodes
        .types
        .len()
        .saturating_add(nodes.type_extensions.len());
    let definitions = types.saturating_add(nodes.directives.len());
    let fields = nodes.fields.len().saturating_add(nodes.input_fields.len());
    let parts = fields
        .saturating_add(nodes.arguments.len())
        .saturating_add(nodes.values.len());
    definitions.saturating_add(parts)
}

/// All names of definitions, of extensions of types and of their parts.
pub fn defined_names<'t>(alloc: Global, nodes: &Nodes<'t>) -> Result<Vec<NamePlace<'t>>, AllocError>
    ensures { IfOk result (λ found. map named found.items ≡ spec.defined_names (lists nodes.now)) }
{
    let mut found = Vec::with_capacity(alloc, count(nodes))?;
    add_definitions(nodes, &mut found)?;
    add_parts(nodes, &mut found)?;
    Ok(found)
}
