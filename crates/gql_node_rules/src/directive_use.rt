//! What the directives that a schema file applies ask of the schema (GraphQL 2.12, 3.13).
ghost use Rattle.std.specs.Prelude.{◌≡◌, ◌++◌, ℕ, List, Some, IfOk, OnOk, map, bytes_eq};
ghost use Rattle.std.specs.HashSet.{contains};
ghost use Rattle.std.specs.List.{list_any};
ghost use Rattle.gql_node_rules.specs.Borrowed.{application};
ghost use Rattle.gql_node_rules.specs.DirectiveUses.{IsUseOf, types_of_all};
ghost use Rattle.gql_node_rules.specs.Resolved.{resolution};
ghost use Rattle.gql_node_rules.specs.ValueTypes as spec;

use crate::applied::Applied;
use crate::resolved::Resolved;
use crate::signature::Signature;
use gql_ast::{Argument, Text};
use gql_inputs::name_in;
use gql_types::{Schema, TypeKind};
use std::alloc::{AllocError, Global};
use std::collections::HashSet;

/// What applied directives ask of the schema, besides their definitions.
#[derive(Drop)]
pub struct DirectiveUse {
    pub has_directives: bool,
    /// The names of the types of the values that they give.
    pub values: HashSet<Text>,
    /// Whether one of these is an input object.
    pub has_input_objects: bool,
}

/// Adds the name of the type of a given argument, if the directive defines it.
fn add_given<'s>(
    signature: &Signature<'s>,
    argument: &Argument,
    found: &mut Vec<&'s Text>,
) -> Result<(), AllocError>
    ensures { OnOk result (map (λ n. n.now) found.new.items ≡ map (λ n. n.now) found.old.items
        ++ spec.type_of_given signature.now.definition.now.node.arguments argument.now) }
{
    if let Some(definition) = signature.argument(argument.name.as_str()) {
        found.push(name_in(&definition.of_type))?;
    }
    Ok(())
}

/// Adds the names of the types of the values that a directive gives which is defined.
fn add_known<'s>(
    signature: &Signature<'s>,
    applied: &Applied<'_>,
    found: &mut Vec<&'s Text>,
) -> Result<(), AllocError>
    ensures { OnOk result (map (λ n. n.now) found.new.items ≡ map (λ n. n.now) found.old.items
        ++ spec.types_by (Some signature.now.definition.now) (application applied.now)) }
{
    for argument in applied.directive.arguments.as_slice() {
        add_given(signature, argument, found)?;
    }
    Ok(())
}

/// Adds the names of the types of the values that a directive gives.
fn add_types<'s>(
    resolved: &Resolved<'_, 's, '_>,
    found: &mut Vec<&'s Text>,
) -> Result<(), AllocError>
    ensures { OnOk result (map (λ n. n.now) found.new.items ≡ map (λ n. n.now) found.old.items
        ++ spec.types_by (resolution resolved.now).known (resolution resolved.now).application) }
{
    match resolved.signature {
        Some(signature) => add_known(signature, &resolved.applied, found),
        None => Ok(()),
    }
}

/// The names of the types of the values that directives give.
fn value_types<'s>(alloc: Global, all: &[Resolved<'_, 's, '_>]) -> Result<Vec<&'s Text>, AllocError>
    ensures { IfOk result (λ found. map (λ n. n.now) found.items
        ≡ types_of_all (map resolution all.now)) }
{
    let mut found = Vec::new(alloc);
    for resolved in all {
        add_types(resolved, &mut found)?;
    }
    Ok(found)
}

/// The set of these names.
fn set_of(alloc: Global, names: &[&Text]) -> Result<HashSet<Text>, AllocError>
    ensures { IfOk result (λ set. (q : List ℕ) → contains bytes_eq set q
        ≡ list_any (bytes_eq q) (map (λ n. n.now) names.now)) }
{
    let mut set = HashSet::new(alloc);
    for name in names {
        set.insert(name.copy()?)?;
    }
    Ok(set)
}

/// Whether the type of that name is an input object.
fn is_input_object(schema: &Schema, name: &str) -> bool
    ensures { result ≡ spec.is_input_object schema.now name.now }
{
    match schema.kind(name) {
        Some(kind) => kind.is(TypeKind::InputObject),
        None => false,
    }
}

/// Whether one of these names is that of an input object.
fn has_input_object(schema: &Schema, names: &[&Text]) -> bool
    ensures { result ≡ list_any (λ n. spec.is_input_object schema.now n.now) names.now }
{
    names
        .iter()
        .any(|name| is_input_object(schema, name.as_str()))
}

impl DirectiveUse {
    /// What these applied directives ask.
    pub fn of(
        alloc: Global,
        schema: &Schema,
        all: &[Resolved<'_, '_, '_>],
    ) -> Result<DirectiveUse, AllocError>
        ensures { IfOk result (IsUseOf schema.now (map resolution all.now)) }
    {
        let types = value_types(alloc, all)?;
        let values = set_of(alloc, types.as_slice())?;
        let has_input_objects = has_input_object(schema, types.as_slice());
        Ok(DirectiveUse {
            has_directives: !all.is_empty(),
            values,
            has_input_objects,
        })
    }
}
