//! What an edit of a schema file changes in the schema, of what the rules on nodes ask.
ghost use Rattle.std.specs.Prelude.{◌≡◌, ◌++◌, ◌∷◌, [], ℕ, List, IfOk, OnOk, IsTrue, false, filter, if◌then◌else◌, true};
ghost use Rattle.gql_inputs.specs.InputTypes.{is_open};
ghost use Rattle.gql_inputs.specs.Lookups.{in_schema};
ghost use Rattle.gql_types.specs.Edits.{KeepsOthers};
ghost use Rattle.gql_node_rules.specs.SchemaChanges as spec;

use crate::s36_misplaced_appends::mutation_root;
use crate::same_input::is_same_input;
use gql_ast::{DirectiveDefinition, Same, Shared, Text, same_option};
use gql_inputs::is_open;
use gql_types::{Named, Schema, SchemaType, Sited, TypeKind};
use std::alloc::{AllocError, Global};

/// What may differ between the schema before and after an edit: kinds of types, whether Float is a
/// type, input types, the directives, and the definition of the mutation root type.
#[derive(Drop)]
pub struct SchemaChange {
    /// The names that have another kind, or that no longer or newly have one.
    pub kinds: Named<Text>,
    /// Whether Float is a type in one of the two alone: scalars of schema files take other numbers
    /// then.
    pub floats: bool,
    /// The edited names that are not the same as an input type before and after the edit.
    pub inputs: Named<Text>,
    pub directives: bool,
    pub mutation_root: bool,
}

/// Whether two kinds are the same, or neither is known.
fn is_same_known(kind: Option<TypeKind>, other: Option<TypeKind>) -> bool
    ensures { result ≡ spec.same_known kind other }
{
    match kind {
        Some(kind) => match other {
            Some(other) => kind.is(other),
            None => false,
        },
        None => other.is_none(),
    }
}

/// Adds a name, if it has another kind after the edit.
fn add_if_other_kind(
    before: &Schema,
    after: &Schema,
    name: &Text,
    found: &mut Vec<Text>,
) -> Result<(), AllocError>
    ensures { OnOk result (found.new.items ≡ found.old.items
        ++ (if spec.has_other_kind before.now after.now name.now then name.now ∷ [] else [])) }
{
    if !is_same_known(before.kind(name.as_str()), after.kind(name.as_str())) {
        found.push(name.copy()?)?;
    }
    Ok(())
}

/// Adds a name, unless it is the same as an input type before and after the edit.
fn add_if_other_input(
    alloc: Global,
    before: &Schema,
    after: &Schema,
    name: &Text,
    found: &mut Vec<Text>,
) -> Result<(), AllocError>
    ensures keeps { OnOk result ((q : List ℕ) → spec.is_among found.old.items q ≡ true
        → spec.is_among found.new.items q ≡ true) }
    ensures named { OnOk result (spec.is_among found.new.items name.now ≡ false
        → is_open before.now ≡ is_open after.now
        → in_schema before.now name.now ≡ in_schema after.now name.now) }
{
    if !is_same_input(alloc, before, after, name.as_str())? {
        found.push(name.copy()?)?;
    }
    Ok(())
}

/// Those of these names that have another kind after the edit.
fn other_kinds(
    alloc: Global,
    before: &Schema,
    after: &Schema,
    names: &[Text],
) -> Result<Vec<Text>, AllocError>
    ensures { IfOk result (λ found. found.items
        ≡ filter (spec.has_other_kind before.now after.now) names.now) }
{
    let mut found = Vec::new(alloc);
    for name in names {
        add_if_other_kind(before, after, name, &mut found)?;
    }
    Ok(found)
}

/// Those of these names that are not the same as an input type before and after the edit.
fn other_inputs(
    alloc: Global,
    before: &Schema,
    after: &Schema,
    names: &[Text],
) -> Result<Vec<Text>, AllocError>
    ensures { IfOk result (λ found. spec.NamesInputs before.now after.now names.now found.items) }
{
    let mut found = Vec::new(alloc);
    for name in names {
        add_if_other_input(alloc, before, after, name, &mut found)?;
    }
    Ok(found)
}

/// Whether Float is a type in one of two schemas alone.
fn has_other_floats(schema: &Schema, other: &Schema) -> bool
    ensures { result ≡ false → is_open schema.now ≡ is_open other.now }
{
    is_open(schema) != is_open(other)
}

/// Whether two definitions of directives are the same, with the same places.
fn is_same_directive(
    directive: &Sited<Shared<DirectiveDefinition>>,
    other: &Sited<Shared<DirectiveDefinition>>,
) -> bool
    ensures { IsTrue result → directive.now ≡ other.now }
{
    same_option(&directive.file, &other.file) && directive.node.same(&other.node)
}

/// Whether the directives of two schemas are the same, with the same places.
fn has_same_directives(
    directives: &[Sited<Shared<DirectiveDefinition>>],
    others: &[Sited<Shared<DirectiveDefinition>>],
) -> bool
    ensures { IsTrue result → directives.now ≡ others.now }
{
    if directives.len() != others.len() {
        return false;
    }
    for i in 0..directives.len() {
        if !is_same_directive(&directives[i], &others[i]) {
            return false;
        }
    }
    true
}

/// Whether two types have definitions of the same name, place and kind.
fn is_same_definition(of_type: &SchemaType, other: &SchemaType) -> bool
    ensures { IsTrue result → spec.root_definition of_type.now ≡ spec.root_definition other.now }
{
    let definition = of_type.definition.node.get();
    let its = other.definition.node.get();
    same_option(&of_type.definition.file, &other.definition.file)
        && definition.name.same(&its.name)
        && TypeKind::of(&definition.parts) == TypeKind::of(&its.parts)
}

/// Whether the mutation root types of two schemas have the same definition, or neither has one.
fn has_same_mutation_root(schema: &Schema, other: &Schema) -> bool
    ensures { IsTrue result
        → spec.mutation_definition schema.now ≡ spec.mutation_definition other.now }
{
    match mutation_root(schema) {
        Some(root) => match mutation_root(other) {
            Some(other) => is_same_definition(root, other),
            None => false,
        },
        None => mutation_root(other).is_none(),
    }
}

impl SchemaChange {
    /// What differs between the schema before and after an edit. The edit changed types of these
    /// names alone.
    pub fn between(
        alloc: Global,
        before: &Schema,
        after: &Schema,
        edited: &Named<Text>,
    ) -> Result<SchemaChange, AllocError>
        ensures { IfOk result (λ change. KeepsOthers edited.now before.now after.now
            → KeepsOthers edited.now after.now before.now
            → spec.IsChange change before.now after.now) }
    {
        let kinds = other_kinds(alloc, before, after, edited.as_slice())?;
        let inputs = other_inputs(alloc, before, after, edited.as_slice())?;
        Ok(SchemaChange {
            kinds: Named::new(alloc, kinds)?,
            floats: has_other_floats(before, after),
            inputs: Named::new(alloc, inputs)?,
            directives: !has_same_directives(before.directives(), after.directives()),
            mutation_root: !has_same_mutation_root(before, after),
        })
    }
}
