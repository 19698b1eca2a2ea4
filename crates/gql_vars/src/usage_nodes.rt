//! The usages of variables in selections, in definitions, and in what a definition reaches.
ghost use Rattle.std.specs.Prelude.{◌≡◌, ◌++◌, ℕ, List, IfOk, OnOk, bytes_eq, flat_map, option_map};
ghost use Rattle.std.specs.HashMap as hash;
ghost use Rattle.std.specs.Option.{option_copied};
ghost use Rattle.gql_ast.specs.declared.executable.VariableDefinition.{VariableDefinition as AVariable};
ghost use Rattle.gql_facts.specs.Nodes as nodes;
ghost use Rattle.gql_rules.specs.LocalFaults.{of_field};
ghost use Rattle.gql_vars.specs.Misuses as spec;
ghost use Rattle.gql_vars.specs.Usages.{fragment_usages, operation_usages};
ghost use Rattle.gql_vars.specs.Variables.{variable_named};

use crate::parents::{composite, parent_of_operation, parent_within, type_of};
use crate::tables::first_variables;
use crate::usage_check::UsageCheck;
use crate::usages::{check_arguments, check_directives};
use gql_ast::{
    Fault, Field, FileName, FilePlace, Fragment, InlineFragment, Operation, Selection, Text,
    VariableDefinition,
};
use gql_facts::{FieldFact, FragmentFact, InputFact, World};
use gql_rules::{ask_field, field_in};
use gql_types::DefinedInputs;
use std::alloc::{AllocError, Global};
use std::collections::HashMap;

/// The arguments that a field defines, if it is known.
fn arguments_of(known: Option<&FieldFact>) -> Option<&DefinedInputs<InputFact>>
    ensures { option_copied result ≡ of_field (option_copied known.entry) }
{
    match known {
        Some(known) => Some(&known.arguments),
        None => None,
    }
}

/// Adds the faults of a field, without what it selects. The result is the parent type of that.
fn check_node<W: World>(
    alloc: Global,
    world: &mut W,
    check: &UsageCheck<'_, '_>,
    parent: &Option<Text>,
    field: &Field,
    faults: &mut Vec<Fault>,
) -> Result<Option<Text>, AllocError>
    ensures facts { W.facts world.new ≡ W.facts world.old }
    ensures names { W.names world.new ≡ W.names world.old }
    ensures lent { W.lent world.new ≡ W.lent world.old }
    ensures below { IfOk result (λ t. t
        ≡ nodes.parent_below (W.facts world.old) parent.now field.now.name.text) }
    ensures found { OnOk result (faults.new.items ≡ faults.old.items
        ++ spec.node_misuses (W.facts world.old) check.now
        (nodes.field (nodes.field_node parent.now field.now))) }
{
    let fact = ask_field(alloc, world, parent, &field.name.text)?;
    let known = field_in(&fact);
    let given = field.arguments.as_slice();
    check_arguments(alloc, world, check, arguments_of(known), given, faults)?;
    check_directives(alloc, world, check, field.directives.as_slice(), faults)?;
    let below = composite(alloc, world, type_of(known))?;
    Ok(below)
}

/// Adds the faults of a field, and in what it selects.
#[cycle(usages)]
fn check_field<W: World>(
    alloc: Global,
    world: &mut W,
    check: &UsageCheck<'_, '_>,
    parent: &Option<Text>,
    field: &Field,
    faults: &mut Vec<Fault>,
) -> Result<(), AllocError>
    ensures facts { W.facts world.new ≡ W.facts world.old }
    ensures names { W.names world.new ≡ W.names world.old }
    ensures lent { W.lent world.new ≡ W.lent world.old }
    ensures found { OnOk result (faults.new.items ≡ faults.old.items
        ++ spec.field_visit (W.facts world.old) check.now parent.now field.now) }
{
    let below = check_node(alloc, world, check, parent, field, faults)?;
    let selected = field.selections.as_slice();
    check_set(alloc, world, check, &below, selected, faults)?;
    Ok(())
}

/// Adds the faults of an inline fragment, and in what it selects.
#[cycle(usages)]
fn check_inline<W: World>(
    alloc: Global,
    world: &mut W,
    check: &UsageCheck<'_, '_>,
    parent: &Option<Text>,
    inline: &InlineFragment,
    faults: &mut Vec<Fault>,
) -> Result<(), AllocError>
    ensures facts { W.facts world.new ≡ W.facts world.old }
    ensures names { W.names world.new ≡ W.names world.old }
    ensures lent { W.lent world.new ≡ W.lent world.old }
    ensures found { OnOk result (faults.new.items ≡ faults.old.items
        ++ spec.inline_visit (W.facts world.old) check.now parent.now inline.now) }
{
    check_directives(alloc, world, check, inline.directives.as_slice(), faults)?;
    let within = parent_within(alloc, world, parent, &inline.condition)?;
    let selected = inline.selections.as_slice();
    check_set(alloc, world, check, &within, selected, faults)?;
    Ok(())
}

/// Adds the faults of a selection, and in what it selects.
#[cycle(usages)]
fn check_selection<W: World>(
    alloc: Global,
    world: &mut W,
    check: &UsageCheck<'_, '_>,
    parent: &Option<Text>,
    selection: &Selection,
    faults: &mut Vec<Fault>,
) -> Result<(), AllocError>
    ensures facts { W.facts world.new ≡ W.facts world.old }
    ensures names { W.names world.new ≡ W.names world.old }
    ensures lent { W.lent world.new ≡ W.lent world.old }
    ensures found { OnOk result (faults.new.items ≡ faults.old.items
        ++ spec.selection_misuses (W.facts world.old) check.now parent.now selection.now) }
{
    match selection {
        Selection::Field(field) => check_field(alloc, world, check, parent, field, faults)?,
        Selection::Spread(spread) => {
            check_directives(alloc, world, check, spread.directives.as_slice(), faults)?
        }
        Selection::InlineFragment(inline) => {
            check_inline(alloc, world, check, parent, inline, faults)?
        }
    }
    Ok(())
}

/// Adds the faults in a selection set with this parent type.
#[cycle(usages)]
fn check_set<W: World>(
    alloc: Global,
    world: &mut W,
    check: &UsageCheck<'_, '_>,
    parent: &Option<Text>,
    set: &[Selection],
    faults: &mut Vec<Fault>,
) -> Result<(), AllocError>
    ensures facts { W.facts world.new ≡ W.facts world.old }
    ensures names { W.names world.new ≡ W.names world.old }
    ensures lent { W.lent world.new ≡ W.lent world.old }
    ensures found { OnOk result (faults.new.items ≡ faults.old.items
        ++ spec.set_misuses (W.facts world.old) check.now parent.now set.now) }
{
    for selection in set {
        check_selection(alloc, world, check, parent, selection, faults)?;
    }
    Ok(())
}

/// Adds the faults in an operation, without the fragments that it reaches.
fn check_operation<W: World>(
    alloc: Global,
    world: &mut W,
    check: &UsageCheck<'_, '_>,
    operation: &Operation,
    faults: &mut Vec<Fault>,
) -> Result<(), AllocError>
    ensures facts { W.facts world.new ≡ W.facts world.old }
    ensures names { W.names world.new ≡ W.names world.old }
    ensures lent { W.lent world.new ≡ W.lent world.old }
    ensures found { OnOk result (faults.new.items ≡ faults.old.items
        ++ spec.operation_misuses (W.facts world.old) check.now operation.now) }
{
    check_directives(alloc, world, check, operation.directives.as_slice(), faults)?;
    let parent = parent_of_operation(alloc, world, operation.kind)?;
    let selected = operation.selections.as_slice();
    check_set(alloc, world, check, &parent, selected, faults)?;
    Ok(())
}

/// Adds the faults in a fragment, without those that it reaches.
fn check_fragment<W: World>(
    alloc: Global,
    world: &mut W,
    check: &UsageCheck<'_, '_>,
    fragment: &Fragment,
    faults: &mut Vec<Fault>,
) -> Result<(), AllocError>
    ensures facts { W.facts world.new ≡ W.facts world.old }
    ensures names { W.names world.new ≡ W.names world.old }
    ensures lent { W.lent world.new ≡ W.lent world.old }
    ensures found { OnOk result (faults.new.items ≡ faults.old.items
        ++ spec.fragment_misuses (W.facts world.old) check.now fragment.now) }
{
    check_directives(alloc, world, check, fragment.directives.as_slice(), faults)?;
    let parent = composite(alloc, world, Some(&fragment.condition.text))?;
    let selected = fragment.selections.as_slice();
    check_set(alloc, world, check, &parent, selected, faults)?;
    Ok(())
}

/// Adds the faults in a fragment of this file.
fn check_member<W: World>(
    alloc: Global,
    world: &mut W,
    owner: &FilePlace,
    first: &HashMap<&str, &VariableDefinition>,
    file: &FileName,
    fragment: &Fragment,
    faults: &mut Vec<Fault>,
) -> Result<(), AllocError>
    ensures facts { W.facts world.new ≡ W.facts world.old }
    ensures names { W.names world.new ≡ W.names world.old }
    ensures lent { W.lent world.new ≡ W.lent world.old }
    ensures found { OnOk result ((variables : List AVariable)
        → ((q : List ℕ) → option_map (λ v. v.now) (hash.get_by (λ k. bytes_eq q k.now) first.now)
        ≡ variable_named variables q)
        → faults.new.items ≡ faults.old.items
        ++ flat_map (spec.misuse (W.facts world.old) owner.now variables)
        (fragment_usages (W.facts world.old) file.now fragment.now)) }
{
    let check = UsageCheck { owner, file, first };
    check_fragment(alloc, world, &check, fragment, faults)?;
    Ok(())
}

/// Adds the faults in an operation of this file.
fn check_own<W: World>(
    alloc: Global,
    world: &mut W,
    owner: &FilePlace,
    first: &HashMap<&str, &VariableDefinition>,
    file: &FileName,
    operation: &Operation,
    faults: &mut Vec<Fault>,
) -> Result<(), AllocError>
    ensures facts { W.facts world.new ≡ W.facts world.old }
    ensures names { W.names world.new ≡ W.names world.old }
    ensures lent { W.lent world.new ≡ W.lent world.old }
    ensures found { OnOk result ((variables : List AVariable)
        → ((q : List ℕ) → option_map (λ v. v.now) (hash.get_by (λ k. bytes_eq q k.now) first.now)
        ≡ variable_named variables q)
        → faults.new.items ≡ faults.old.items
        ++ flat_map (spec.misuse (W.facts world.old) owner.now variables)
        (operation_usages (W.facts world.old) file.now operation.now)) }
{
    let check = UsageCheck { owner, file, first };
    check_operation(alloc, world, &check, operation, faults)?;
    Ok(())
}

/// Adds the faults in these fragments.
fn check_members<W: World>(
    alloc: Global,
    world: &mut W,
    owner: &FilePlace,
    first: &HashMap<&str, &VariableDefinition>,
    members: &[FragmentFact],
    faults: &mut Vec<Fault>,
) -> Result<(), AllocError>
    ensures facts { W.facts world.new ≡ W.facts world.old }
    ensures names { W.names world.new ≡ W.names world.old }
    ensures lent { W.lent world.new ≡ W.lent world.old }
    ensures found { OnOk result ((variables : List AVariable)
        → ((q : List ℕ) → option_map (λ v. v.now) (hash.get_by (λ k. bytes_eq q k.now) first.now)
        ≡ variable_named variables q)
        → faults.new.items ≡ faults.old.items
        ++ flat_map (spec.misuses_of_member (W.facts world.old) owner.now variables)
        members.now) }
{
    for member in members {
        let fragment = member.fragment.get();
        check_member(alloc, world, owner, first, &member.file, fragment, faults)?;
    }
    Ok(())
}

/// Adds the faults of an operation of this file, by the fragments that it reaches. An operation
/// without variables has none.
pub fn check<W: World>(
    alloc: Global,
    world: &mut W,
    owner: &FilePlace,
    file: &FileName,
    operation: &Operation,
    members: &[FragmentFact],
    faults: &mut Vec<Fault>,
) -> Result<(), AllocError>
    ensures facts { W.facts world.new ≡ W.facts world.old }
    ensures names { W.names world.new ≡ W.names world.old }
    ensures lent { W.lent world.new ≡ W.lent world.old }
    ensures found { OnOk result (faults.new.items ≡ faults.old.items
        ++ spec.usage_faults (W.facts world.old) owner.now file.now operation.now members.now
        operation.now.variables) }
{
    let variables = operation.variables.as_slice();
    if variables.is_empty() {
        return Ok(());
    }
    let first = first_variables(alloc, variables)?;
    check_own(alloc, world, owner, &first, file, operation, faults)?;
    check_members(alloc, world, owner, &first, members, faults)?;
    Ok(())
}
