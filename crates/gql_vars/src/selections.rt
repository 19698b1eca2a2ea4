//! The uses of variables in selections, in definitions, and in what a definition reaches.
ghost use Rattle.std.specs.Prelude.{◌≡◌, ◌++◌, map, flat_map, IfOk, OnOk};
ghost use Rattle.gql_ast.specs.declared.executable.Selection.TheVariants as selections;
ghost use Rattle.gql_facts.specs.declared.fact.FragmentFact.{FragmentFact as AFragment};
ghost use Rattle.gql_vars.specs.Lists.{use_of, uses_in as all_uses_in};
ghost use Rattle.gql_vars.specs.Uses as spec;

use crate::uses::{VariableUse, add_argument_uses, add_directive_uses};
use gql_ast::{Definition, Field, FileName, Fragment, InlineFragment, Operation, Selection, Tree};
use gql_facts::FragmentFact;
use std::alloc::{AllocError, Global};

#[cycle(selections)]
fn add_field_uses<'t>(
    file: &'t FileName,
    field: &'t Field,
    uses: &mut Vec<VariableUse<'t>>,
) -> Result<(), AllocError>
    ensures { OnOk result (map use_of uses.new.items ≡ map use_of uses.old.items
        ++ spec.selection_uses file.now (selections.Field field.now)) }
{
    add_argument_uses(file, field.arguments.as_slice(), uses)?;
    add_directive_uses(file, field.directives.as_slice(), uses)?;
    add_set_uses(file, field.selections.as_slice(), uses)?;
    Ok(())
}

#[cycle(selections)]
fn add_inline_uses<'t>(
    file: &'t FileName,
    inline: &'t InlineFragment,
    uses: &mut Vec<VariableUse<'t>>,
) -> Result<(), AllocError>
    ensures { OnOk result (map use_of uses.new.items ≡ map use_of uses.old.items
        ++ spec.selection_uses file.now (selections.InlineFragment inline.now)) }
{
    add_directive_uses(file, inline.directives.as_slice(), uses)?;
    add_set_uses(file, inline.selections.as_slice(), uses)?;
    Ok(())
}

#[cycle(selections)]
#[tactic(auto, using(crate::proofs::SelectionUses::in_spread))]
fn add_selection_uses<'t>(
    file: &'t FileName,
    selection: &'t Selection,
    uses: &mut Vec<VariableUse<'t>>,
) -> Result<(), AllocError>
    ensures { OnOk result (map use_of uses.new.items ≡ map use_of uses.old.items
        ++ spec.selection_uses file.now selection.now) }
{
    match selection {
        Selection::Field(field) => add_field_uses(file, field, uses),
        Selection::Spread(spread) => add_directive_uses(file, spread.directives.as_slice(), uses),
        Selection::InlineFragment(inline) => add_inline_uses(file, inline, uses),
    }
}

#[cycle(selections)]
fn add_set_uses<'t>(
    file: &'t FileName,
    set: &'t [Selection],
    uses: &mut Vec<VariableUse<'t>>,
) -> Result<(), AllocError>
    ensures { OnOk result (map use_of uses.new.items ≡ map use_of uses.old.items
        ++ spec.set_uses file.now set.now) }
{
    for selection in set {
        add_selection_uses(file, selection, uses)?;
    }
    Ok(())
}

fn add_operation_uses<'t>(
    file: &'t FileName,
    operation: &'t Operation,
    uses: &mut Vec<VariableUse<'t>>,
) -> Result<(), AllocError>
    ensures { OnOk result (map use_of uses.new.items ≡ map use_of uses.old.items
        ++ spec.operation_uses file.now operation.now) }
{
    add_directive_uses(file, operation.directives.as_slice(), uses)?;
    add_set_uses(file, operation.selections.as_slice(), uses)
}

fn add_fragment_uses<'t>(
    file: &'t FileName,
    fragment: &'t Fragment,
    uses: &mut Vec<VariableUse<'t>>,
) -> Result<(), AllocError>
    ensures { OnOk result (map use_of uses.new.items ≡ map use_of uses.old.items
        ++ spec.fragment_uses file.now fragment.now) }
{
    add_directive_uses(file, fragment.directives.as_slice(), uses)?;
    add_set_uses(file, fragment.selections.as_slice(), uses)
}

/// Adds the uses in a definition, without those in the fragments that it reaches.
fn add_tree_uses<'t>(
    file: &'t FileName,
    tree: &'t Tree,
    uses: &mut Vec<VariableUse<'t>>,
) -> Result<(), AllocError>
    ensures { OnOk result (map use_of uses.new.items ≡ map use_of uses.old.items
        ++ spec.tree_uses file.now tree.now) }
{
    match tree {
        Tree::Operation(operation) => add_operation_uses(file, operation.get(), uses),
        Tree::Fragment(fragment) => add_fragment_uses(file, fragment.get(), uses),
        _ => Ok(()),
    }
}

/// The uses in a definition and in these fragments.
pub fn uses_in<'t>(
    alloc: Global,
    definition: &'t Definition,
    members: &'t [FragmentFact],
) -> Result<Vec<VariableUse<'t>>, AllocError>
    ensures { IfOk result (λ uses. map use_of uses.items
        ≡ all_uses_in definition.now members.now) }
{
    let mut uses = Vec::new(alloc);
    add_tree_uses(&definition.file, &definition.tree, &mut uses)?;
    for member in members {
        add_fragment_uses(&member.file, member.fragment.get(), &mut uses)?;
    }
    Ok(uses)
}
