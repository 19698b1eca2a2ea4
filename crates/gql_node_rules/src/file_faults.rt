//! The rules on the nodes of one schema file, and those on definitions that may be in several.
ghost use Rattle.std.specs.Prelude.{◌≡◌, ◌++◌, ◌||◌, ℕ, List, IfOk, OnOk, map, bytes_eq};
ghost use Rattle.std.specs.HashSet.{contains};
ghost use Rattle.gql_node_rules.specs.Borrowed.{annotations, lists};
ghost use Rattle.gql_node_rules.specs.DirectiveUses.{faults_of_all, is_name_of, is_referred};
ghost use Rattle.gql_node_rules.specs.FileChecks.{IsUseBy};
ghost use Rattle.gql_node_rules.specs.FileFaults as spec;
ghost use Rattle.gql_node_rules.specs.NodeFaults.{reference_faults, role_faults};
ghost use Rattle.gql_node_rules.specs.Resolved.{reference, resolution, roles, roles_of};

use crate::applied::{Annotated, all_annotated, all_applied};
use crate::directive_use::DirectiveUse;
use crate::nodes::Nodes;
use crate::references::{Reference, References, all_references};
use crate::resolved::{Resolved, all_resolved};
use crate::rules::{check_floats, check_known, check_roles};
use crate::signature::signatures;
use crate::{
    s29_unknown_directives, s30_bad_locations, s31_repeated_directives, s32_bad_arguments,
    s33_bad_argument_values,
};
use gql_ast::{Fault, Text};
use gql_types::{Batched, Schema, SchemaType};
use std::alloc::{AllocError, Global};
use std::collections::HashSet;

/// Adds the names of these references to a set.
fn add_names(references: &[Reference<'_>], names: &mut HashSet<Text>) -> Result<(), AllocError>
    ensures { OnOk result ((q : List ℕ) → contains bytes_eq names.new q
        ≡ (contains bytes_eq names.old q || is_name_of (map reference references.now) q)) }
{
    for reference in references {
        names.insert(reference.name.name.text.copy()?)?;
    }
    Ok(())
}

/// The names of the types that are referred to.
fn names_of(alloc: Global, references: &References<'_>) -> Result<HashSet<Text>, AllocError>
    ensures { IfOk result (λ names. (q : List ℕ)
        → contains bytes_eq names q ≡ is_referred (roles references.now) q) }
{
    let mut names = HashSet::new(alloc);
    add_names(references.inputs.as_slice(), &mut names)?;
    add_names(references.outputs.as_slice(), &mut names)?;
    add_names(references.interfaces.as_slice(), &mut names)?;
    add_names(references.members.as_slice(), &mut names)?;
    add_names(references.roots.as_slice(), &mut names)?;
    Ok(names)
}

/// Adds the faults by S16, S20 to S22 and P01. The result has the names of the types that the nodes
/// refer to.
pub fn check_references(
    alloc: Global,
    schema: &Schema,
    nodes: &Nodes<'_>,
    faults: &mut Vec<Fault>,
) -> Result<HashSet<Text>, AllocError>
    ensures { IfOk result (λ names. (faults.new.items ≡ faults.old.items
        ++ (role_faults (lists nodes.now) schema.now
        ++ reference_faults (lists nodes.now) schema.now))
        × ((q : List ℕ) → contains bytes_eq names q
        ≡ is_referred (roles_of (lists nodes.now) schema.now) q)) }
{
    let references = all_references(alloc, schema, nodes)?;
    check_roles(alloc, &references, faults)?;
    check_known(alloc, &references, faults)?;
    check_floats(alloc, &references, faults)?;
    let names = names_of(alloc, &references)?;
    Ok(names)
}

/// Adds the faults of nodes, and of the directives on them, by S29 to S33. Each node is checked by
/// itself.
fn check_resolved(
    alloc: Global,
    schema: &Schema,
    nodes: &[Annotated<'_>],
    all: &[Resolved<'_, '_, '_>],
    faults: &mut Vec<Fault>,
) -> Result<(), AllocError>
    ensures { OnOk result (faults.new.items ≡ faults.old.items
        ++ faults_of_all schema.now (map annotations nodes.now) (map resolution all.now)) }
{
    s29_unknown_directives::check(alloc, all, faults)?;
    s30_bad_locations::check(alloc, all, faults)?;
    s31_repeated_directives::check_nodes(alloc, schema, nodes, faults)?;
    s32_bad_arguments::check(alloc, all, faults)?;
    s33_bad_argument_values::check(alloc, schema, all, faults)?;
    Ok(())
}

/// Adds the faults by S29 to S33 that a node has by itself. The result is what the directives ask.
pub fn check_directives(
    alloc: Global,
    schema: &Schema,
    nodes: &Nodes<'_>,
    faults: &mut Vec<Fault>,
) -> Result<DirectiveUse, AllocError>
    ensures { IfOk result (λ directives. (faults.new.items ≡ faults.old.items
        ++ spec.directive_faults (lists nodes.now) schema.now)
        × IsUseBy schema.now (lists nodes.now) directives) }
{
    let annotated = all_annotated(alloc, nodes)?;
    let applied = all_applied(alloc, annotated.as_slice())?;
    let signatures = signatures(alloc, schema)?;
    let resolved = all_resolved(alloc, &signatures, applied.as_slice())?;
    check_resolved(
        alloc,
        schema,
        annotated.as_slice(),
        resolved.as_slice(),
        faults,
    )?;
    let directives = DirectiveUse::of(alloc, schema, resolved.as_slice())?;
    Ok(directives)
}

/// The faults by S31 of these types with their extensions. A type without extensions has one if it
/// has two directives at least.
pub fn joint_type_faults(
    alloc: Global,
    schema: &Schema,
    types: &[Batched<SchemaType>],
) -> Result<Vec<Fault>, AllocError>
    ensures { IfOk result (λ found. found.items ≡ spec.joint_on_types schema.now types.now) }
{
    let mut faults = Vec::new(alloc);
    s31_repeated_directives::check_types(alloc, schema, types, &mut faults)?;
    Ok(faults)
}

/// The faults by S31 of the schema with its extensions.
pub fn joint_schema_faults(
    alloc: Global,
    schema: &Schema,
    nodes: &Nodes<'_>,
) -> Result<Vec<Fault>, AllocError>
    ensures { IfOk result (λ found.
        found.items ≡ spec.joint_on_schema (lists nodes.now) schema.now) }
{
    let mut faults = Vec::new(alloc);
    s31_repeated_directives::check_schema(alloc, schema, nodes, &mut faults)?;
    Ok(faults)
}
