//! The names of fragments that selection sets spread themselves.
ghost use Rattle.std.specs.Prelude.{◌≡◌, ◌++◌, [], ℕ, List, IfOk, OnOk, Option, map, flat_map};
ghost use Rattle.gql_facts.specs.Worlds.{Facts};
ghost use Rattle.gql_merge.specs.FieldSets.{part_in, part_within};
ghost use Rattle.gql_merge.specs.MergedNodes.{sets_in};
ghost use Rattle.gql_merge.specs.SpreadNames as spec;

use gql_ast::{Definition, Selection, Text, Tree};
use std::alloc::{AllocError, Global};

/// The names that a selection set spreads, but for those below its fields.
#[derive(Drop)]
pub struct SetNames<'t> {
    pub names: Vec<&'t Text>,
}

/// Adds the names that a selection spreads, but for those below a field.
#[cycle(names)]
fn add_name<'t>(selection: &'t Selection, names: &mut Vec<&'t Text>) -> Result<(), AllocError>
    ensures { OnOk result (spec.AddsNames
        (λ facts file parent. part_in facts file selection.now parent)
        names.old.items names.new.items) }
{
    match selection {
        Selection::Field(_) => {}
        Selection::Spread(spread) => names.push(&spread.name.text)?,
        Selection::InlineFragment(inline) => add_names(inline.selections.as_slice(), names)?,
    }
    Ok(())
}

/// Adds the names that a selection set spreads, but for those below its fields.
#[cycle(names)]
fn add_names<'t>(set: &'t [Selection], names: &mut Vec<&'t Text>) -> Result<(), AllocError>
    ensures { OnOk result (spec.AddsNames
        (λ facts file parent. part_within facts file parent set.now)
        names.old.items names.new.items) }
{
    for selection in set {
        add_name(selection, names)?;
    }
    Ok(())
}

/// The names that a selection set spreads, but for those below its fields.
pub fn own_names(alloc: Global, set: &[Selection]) -> Result<Vec<&Text>, AllocError>
    ensures { IfOk result (λ names. spec.AddsNames
        (λ facts file parent. part_within facts file parent set.now) [] names.items) }
{
    let mut names = Vec::new(alloc);
    add_names(set, &mut names)?;
    Ok(names)
}

/// Adds the names of a selection set, if there are any.
fn add_own<'t>(
    alloc: Global,
    set: &'t [Selection],
    sets: &mut Vec<SetNames<'t>>,
) -> Result<(), AllocError>
    ensures { OnOk result ((facts : Facts) (file : List ℕ) (parent : Option (List ℕ))
        → map spec.names_of sets.new.items ≡ map spec.names_of sets.old.items
        ++ spec.if_any (part_within facts file parent set.now).names) }
{
    let names = own_names(alloc, set)?;
    if names.is_empty() {
        return Ok(());
    }
    sets.push(SetNames { names })?;
    Ok(())
}

/// Adds the names of the sets within a selection.
#[cycle(within)]
fn add_within<'t>(
    alloc: Global,
    selection: &'t Selection,
    sets: &mut Vec<SetNames<'t>>,
) -> Result<(), AllocError>
    ensures { OnOk result (spec.AddsSets
        (λ facts file parent. part_in facts file selection.now parent)
        sets.old.items sets.new.items) }
{
    match selection {
        Selection::Field(field) => {
            add_sets(alloc, field.selections.as_slice(), sets)?;
            add_own(alloc, field.selections.as_slice(), sets)?;
        }
        Selection::Spread(_) => {}
        Selection::InlineFragment(inline) => add_sets(alloc, inline.selections.as_slice(), sets)?,
    }
    Ok(())
}

/// Adds the names of the sets within a selection set.
#[cycle(within)]
fn add_sets<'t>(
    alloc: Global,
    set: &'t [Selection],
    sets: &mut Vec<SetNames<'t>>,
) -> Result<(), AllocError>
    ensures { OnOk result (spec.AddsSets
        (λ facts file parent. part_within facts file parent set.now)
        sets.old.items sets.new.items) }
{
    for selection in set {
        add_within(alloc, selection, sets)?;
    }
    Ok(())
}

/// The names of a selection set and of those within it.
fn all_names(alloc: Global, set: &[Selection]) -> Result<Vec<SetNames<'_>>, AllocError>
    ensures { IfOk result (λ sets. (facts : Facts) (file : List ℕ) (parent : Option (List ℕ))
        → map spec.names_of sets.items ≡ spec.names_in (part_within facts file parent set.now)) }
{
    let mut sets = Vec::new(alloc);
    add_sets(alloc, set, &mut sets)?;
    add_own(alloc, set, &mut sets)?;
    Ok(sets)
}

/// The names that each selection set of a definition spreads, but for those below its fields. There
/// is none for a set without spreads.
pub fn set_names<'t>(
    alloc: Global,
    definition: &'t Definition,
) -> Result<Vec<SetNames<'t>>, AllocError>
    ensures { IfOk result (λ sets. (facts : Facts) → map spec.names_of sets.items
        ≡ flat_map spec.spread_by (sets_in facts definition.now)) }
{
    match &definition.tree {
        Tree::Operation(operation) => all_names(alloc, operation.get().selections.as_slice()),
        Tree::Fragment(fragment) => all_names(alloc, fragment.get().selections.as_slice()),
        _ => Ok(Vec::new(alloc)),
    }
}
