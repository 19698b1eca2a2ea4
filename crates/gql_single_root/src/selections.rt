//! The fields and the spreads at the root of a selection set.
ghost use Rattle.std.specs.Prelude.{◌≡◌, ◌++◌, ◌∷◌, [], OnOk, map, if◌then◌else◌};
ghost use Rattle.gql_ast.specs.declared.executable.Selection.TheVariants as forms;
ghost use Rattle.gql_single_root.specs.RootSelections as spec;
ghost use Rattle.gql_single_root.specs.RootSelections.{Adds, IsAtRootOf};

use crate::conditions::{applies, stays};
use gql_ast::{InlineFragment, Selection, Text};
use gql_facts::World;
use std::alloc::{AllocError, Global};

/// Whether a selection is a field or a spread, and stays.
fn is_kept(selection: &Selection) -> bool
    ensures { result ≡ spec.is_kept selection.now }
{
    match selection {
        Selection::Field(field) => stays(field.directives.as_slice()),
        Selection::Spread(spread) => stays(spread.directives.as_slice()),
        Selection::InlineFragment(_) => false,
    }
}

/// Adds a field or a spread, if it stays.
fn add_kept<'t>(selection: &'t Selection, found: &mut Vec<&'t Selection>) -> Result<(), AllocError>
    ensures { OnOk result (map (λ x. x.now) found.new.items ≡ map (λ x. x.now) found.old.items
        ++ (if spec.is_kept selection.now then selection.now ∷ [] else [])) }
{
    if is_kept(selection) {
        found.push(selection)?;
    }
    Ok(())
}

/// Adds what is at the root of an inline fragment, if it stays and applies.
#[cycle(selections)]
fn add_inline<'t, W: World>(
    alloc: Global,
    world: &mut W,
    root: &Text,
    inline: &'t InlineFragment,
    found: &mut Vec<&'t Selection>,
) -> Result<(), AllocError>
    ensures facts { W.facts world.new ≡ W.facts world.old }
    ensures names { W.names world.new ≡ W.names world.old }
    ensures lent { W.lent world.new ≡ W.lent world.old }
    ensures added { OnOk result (Adds
        (IsAtRootOf (W.facts world.old) root.now (forms.InlineFragment inline.now ∷ []))
        (map (λ x. x.now) found.old.items) (map (λ x. x.now) found.new.items)) }
{
    if !stays(inline.directives.as_slice()) {
        return Ok(());
    }
    let is_on = applies(alloc, world, root, &inline.condition)?;
    if !is_on {
        return Ok(());
    }
    add_set(alloc, world, root, inline.selections.as_slice(), found)?;
    Ok(())
}

/// Adds a field or a spread, if it stays; of an inline fragment what is at its root.
#[cycle(selections)]
fn add_selection<'t, W: World>(
    alloc: Global,
    world: &mut W,
    root: &Text,
    selection: &'t Selection,
    found: &mut Vec<&'t Selection>,
) -> Result<(), AllocError>
    ensures facts { W.facts world.new ≡ W.facts world.old }
    ensures names { W.names world.new ≡ W.names world.old }
    ensures lent { W.lent world.new ≡ W.lent world.old }
    ensures added { OnOk result (Adds
        (IsAtRootOf (W.facts world.old) root.now (selection.now ∷ []))
        (map (λ x. x.now) found.old.items) (map (λ x. x.now) found.new.items)) }
{
    match selection {
        Selection::Field(_) => add_kept(selection, found)?,
        Selection::Spread(_) => add_kept(selection, found)?,
        Selection::InlineFragment(inline) => add_inline(alloc, world, root, inline, found)?,
    }
    Ok(())
}

/// Adds the fields and the spreads at the root of a selection set.
#[cycle(selections)]
pub fn add_set<'t, W: World>(
    alloc: Global,
    world: &mut W,
    root: &Text,
    set: &'t [Selection],
    found: &mut Vec<&'t Selection>,
) -> Result<(), AllocError>
    ensures facts { W.facts world.new ≡ W.facts world.old }
    ensures names { W.names world.new ≡ W.names world.old }
    ensures lent { W.lent world.new ≡ W.lent world.old }
    ensures added { OnOk result (Adds
        (IsAtRootOf (W.facts world.old) root.now set.now)
        (map (λ x. x.now) found.old.items) (map (λ x. x.now) found.new.items)) }
{
    for selection in set {
        add_selection(alloc, world, root, selection, found)?;
    }
    Ok(())
}
