//! The keys that a definition reads by itself, asked with their answers kept.
ghost use Rattle.std.specs.Prelude.{◌≡◌, IfOk, OnOk, flat_map};
ghost use Rattle.indexmap.specs.IndexMap.{keys};
ghost use Rattle.gql_facts.specs.Nodes as nodes;
ghost use Rattle.gql_facts.specs.OwnReads as spec;
ghost use Rattle.gql_facts.specs.Scans.{add_keys};
ghost use Rattle.gql_reads.specs.Closings.{AreRight};

use crate::asking::{ask, note};
use gql_ast::{
    Directive, Field, Fragment, InlineFragment, Name, Operation, Selection, Spread, Text, Tree,
    VariableDefinition,
};
use gql_facts::{Fact, Key, World, float_read};
use gql_types::WrittenType;
use indexmap::IndexMap;
use std::alloc::{AllocError, Global};

fn note_directives<W: World>(
    alloc: Global,
    world: &mut W,
    directives: &[Directive],
    answers: &mut IndexMap<Key, Fact>,
) -> Result<(), AllocError>
    requires right { AreRight (W.facts world.old) answers.old.entries }
    ensures facts { W.facts world.new ≡ W.facts world.old }
    ensures names { W.names world.new ≡ W.names world.old }
    ensures lent { W.lent world.new ≡ W.lent world.old }
    ensures right { OnOk result (AreRight (W.facts world.old) answers.new.entries) }
    ensures asked { OnOk result (keys answers.new
        ≡ add_keys (keys answers.old) (spec.directive_reads directives.now)) }
{
    for directive in directives {
        let key = Key::DirectiveOf(directive.name.text.copy()?);
        note(alloc, world, key, answers)?;
    }
    Ok(())
}

fn note_variable<W: World>(
    alloc: Global,
    world: &mut W,
    variable: &VariableDefinition,
    answers: &mut IndexMap<Key, Fact>,
) -> Result<(), AllocError>
    requires right { AreRight (W.facts world.old) answers.old.entries }
    ensures facts { W.facts world.new ≡ W.facts world.old }
    ensures names { W.names world.new ≡ W.names world.old }
    ensures lent { W.lent world.new ≡ W.lent world.old }
    ensures right { OnOk result (AreRight (W.facts world.old) answers.new.entries) }
    ensures asked { OnOk result (keys answers.new
        ≡ add_keys (keys answers.old) (spec.variable_reads variable.now)) }
{
    let of_type = WrittenType::of(alloc, &variable.of_type)?;
    note(alloc, world, Key::KindOf(of_type.name.copy()?), answers)?;
    note(alloc, world, Key::InputOf(of_type.name.copy()?), answers)?;
    note(alloc, world, Key::EnumOf(of_type.name.copy()?), answers)?;
    note_directives(alloc, world, variable.directives.as_slice(), answers)
}

fn note_variables<W: World>(
    alloc: Global,
    world: &mut W,
    variables: &[VariableDefinition],
    answers: &mut IndexMap<Key, Fact>,
) -> Result<(), AllocError>
    requires right { AreRight (W.facts world.old) answers.old.entries }
    ensures facts { W.facts world.new ≡ W.facts world.old }
    ensures names { W.names world.new ≡ W.names world.old }
    ensures lent { W.lent world.new ≡ W.lent world.old }
    ensures right { OnOk result (AreRight (W.facts world.old) answers.new.entries) }
    ensures asked { OnOk result (keys answers.new
        ≡ add_keys (keys answers.old) (flat_map spec.variable_reads variables.now)) }
{
    for variable in variables {
        note_variable(alloc, world, variable, answers)?;
    }
    Ok(())
}

fn is_composite(fact: &Fact) -> bool
    ensures { result ≡ nodes.is_composite_fact fact.now }
{
    match fact {
        Fact::Kind(kind) => kind.is_composite(),
        _ => false,
    }
}

fn field_type(fact: &Fact) -> Result<Option<Text>, AllocError>
    ensures { IfOk result (λ t. t ≡ nodes.field_type_in fact.now) }
{
    match fact {
        Fact::Field(field) => Ok(Some(field.get().of_type.name.copy()?)),
        _ => Ok(None),
    }
}

fn root_type(fact: &Fact) -> Result<Option<Text>, AllocError>
    ensures { IfOk result (λ t. t ≡ nodes.root_in fact.now) }
{
    match fact {
        Fact::Root(name) => Ok(Some(name.get().copy()?)),
        _ => Ok(None),
    }
}

/// Asks about a type that may be composite. The result is the type, if it is.
fn enter<W: World>(
    alloc: Global,
    world: &mut W,
    of_type: Option<Text>,
    answers: &mut IndexMap<Key, Fact>,
) -> Result<Option<Text>, AllocError>
    requires right { AreRight (W.facts world.old) answers.old.entries }
    ensures facts { W.facts world.new ≡ W.facts world.old }
    ensures names { W.names world.new ≡ W.names world.old }
    ensures lent { W.lent world.new ≡ W.lent world.old }
    ensures parent { IfOk result (λ p. p ≡ nodes.composite (W.facts world.old) of_type) }
    ensures right { OnOk result (AreRight (W.facts world.old) answers.new.entries) }
    ensures asked { OnOk result (keys answers.new
        ≡ add_keys (keys answers.old) (spec.composite_reads of_type)) }
{
    let Some(name) = of_type else {
        return Ok(None);
    };
    let fact = ask(alloc, world, Key::KindOf(name.copy()?), answers)?;
    note(alloc, world, Key::PossibleOf(name.copy()?), answers)?;
    if is_composite(&fact) {
        Ok(Some(name))
    } else {
        Ok(None)
    }
}

/// Asks about a field of a parent type. The result is the parent type of what the field selects.
fn enter_field<W: World>(
    alloc: Global,
    world: &mut W,
    parent: &Option<Text>,
    name: &Text,
    answers: &mut IndexMap<Key, Fact>,
) -> Result<Option<Text>, AllocError>
    requires right { AreRight (W.facts world.old) answers.old.entries }
    ensures facts { W.facts world.new ≡ W.facts world.old }
    ensures names { W.names world.new ≡ W.names world.old }
    ensures lent { W.lent world.new ≡ W.lent world.old }
    ensures parent { IfOk result (λ p. p
        ≡ nodes.parent_below (W.facts world.old) parent.now name.now) }
    ensures right { OnOk result (AreRight (W.facts world.old) answers.new.entries) }
    ensures asked { OnOk result (keys answers.new
        ≡ add_keys (keys answers.old) (spec.field_reads (W.facts world.old) parent.now name.now)) }
{
    let Some(parent) = parent else {
        return Ok(None);
    };
    let key = Key::FieldOf {
        of_type: parent.copy()?,
        field: name.copy()?,
    };
    let fact = ask(alloc, world, key, answers)?;
    let of_type = field_type(&fact)?;
    let below = enter(alloc, world, of_type, answers)?;
    Ok(below)
}

/// Asks about a type condition. The result is the parent type within the inline fragment.
fn enter_condition<W: World>(
    alloc: Global,
    world: &mut W,
    parent: &Option<Text>,
    condition: &Option<Name>,
    answers: &mut IndexMap<Key, Fact>,
) -> Result<Option<Text>, AllocError>
    requires right { AreRight (W.facts world.old) answers.old.entries }
    ensures facts { W.facts world.new ≡ W.facts world.old }
    ensures names { W.names world.new ≡ W.names world.old }
    ensures lent { W.lent world.new ≡ W.lent world.old }
    ensures parent { IfOk result (λ p. p
        ≡ nodes.parent_within (W.facts world.old) parent.now condition.now) }
    ensures right { OnOk result (AreRight (W.facts world.old) answers.new.entries) }
    ensures asked { OnOk result (keys answers.new
        ≡ add_keys (keys answers.old) (spec.condition_reads condition.now)) }
{
    match condition {
        Some(condition) => {
            let of_type = Some(condition.text.copy()?);
            enter(alloc, world, of_type, answers)
        }
        None => match parent {
            Some(parent) => Ok(Some(parent.copy()?)),
            None => Ok(None),
        },
    }
}

#[cycle(scan)]
fn scan_field<W: World>(
    alloc: Global,
    world: &mut W,
    parent: &Option<Text>,
    field: &Field,
    answers: &mut IndexMap<Key, Fact>,
) -> Result<(), AllocError>
    requires right { AreRight (W.facts world.old) answers.old.entries }
    ensures facts { W.facts world.new ≡ W.facts world.old }
    ensures names { W.names world.new ≡ W.names world.old }
    ensures lent { W.lent world.new ≡ W.lent world.old }
    ensures right { OnOk result (AreRight (W.facts world.old) answers.new.entries) }
    ensures asked { OnOk result (keys answers.new
        ≡ add_keys (keys answers.old) (spec.field_scan (W.facts world.old) parent.now field.now)) }
{
    let below = enter_field(alloc, world, parent, &field.name.text, answers)?;
    note_directives(alloc, world, field.directives.as_slice(), answers)?;
    scan_set(alloc, world, &below, field.selections.as_slice(), answers)?;
    Ok(())
}

#[cycle(scan)]
fn scan_inline<W: World>(
    alloc: Global,
    world: &mut W,
    parent: &Option<Text>,
    inline: &InlineFragment,
    answers: &mut IndexMap<Key, Fact>,
) -> Result<(), AllocError>
    requires right { AreRight (W.facts world.old) answers.old.entries }
    ensures facts { W.facts world.new ≡ W.facts world.old }
    ensures names { W.names world.new ≡ W.names world.old }
    ensures lent { W.lent world.new ≡ W.lent world.old }
    ensures right { OnOk result (AreRight (W.facts world.old) answers.new.entries) }
    ensures asked { OnOk result (keys answers.new ≡ add_keys (keys answers.old)
        (spec.inline_scan (W.facts world.old) parent.now inline.now)) }
{
    let within = enter_condition(alloc, world, parent, &inline.condition, answers)?;
    note_directives(alloc, world, inline.directives.as_slice(), answers)?;
    scan_set(alloc, world, &within, inline.selections.as_slice(), answers)?;
    Ok(())
}

fn note_spread<W: World>(
    alloc: Global,
    world: &mut W,
    spread: &Spread,
    answers: &mut IndexMap<Key, Fact>,
) -> Result<(), AllocError>
    requires right { AreRight (W.facts world.old) answers.old.entries }
    ensures facts { W.facts world.new ≡ W.facts world.old }
    ensures names { W.names world.new ≡ W.names world.old }
    ensures lent { W.lent world.new ≡ W.lent world.old }
    ensures right { OnOk result (AreRight (W.facts world.old) answers.new.entries) }
    ensures asked { OnOk result (keys answers.new
        ≡ add_keys (keys answers.old) (spec.spread_scan spread.now)) }
{
    note(
        alloc,
        world,
        Key::FragmentOf(spread.name.text.copy()?),
        answers,
    )?;
    note_directives(alloc, world, spread.directives.as_slice(), answers)
}

#[cycle(scan)]
fn scan_selection<W: World>(
    alloc: Global,
    world: &mut W,
    parent: &Option<Text>,
    selection: &Selection,
    answers: &mut IndexMap<Key, Fact>,
) -> Result<(), AllocError>
    requires right { AreRight (W.facts world.old) answers.old.entries }
    ensures facts { W.facts world.new ≡ W.facts world.old }
    ensures names { W.names world.new ≡ W.names world.old }
    ensures lent { W.lent world.new ≡ W.lent world.old }
    ensures right { OnOk result (AreRight (W.facts world.old) answers.new.entries) }
    ensures asked { OnOk result (keys answers.new ≡ add_keys (keys answers.old)
        (spec.selection_scan (W.facts world.old) parent.now selection.now)) }
{
    match selection {
        Selection::Field(field) => scan_field(alloc, world, parent, field, answers)?,
        Selection::Spread(spread) => note_spread(alloc, world, spread, answers)?,
        Selection::InlineFragment(inline) => scan_inline(alloc, world, parent, inline, answers)?,
    }
    Ok(())
}

#[cycle(scan)]
fn scan_set<W: World>(
    alloc: Global,
    world: &mut W,
    parent: &Option<Text>,
    set: &[Selection],
    answers: &mut IndexMap<Key, Fact>,
) -> Result<(), AllocError>
    requires right { AreRight (W.facts world.old) answers.old.entries }
    ensures facts { W.facts world.new ≡ W.facts world.old }
    ensures names { W.names world.new ≡ W.names world.old }
    ensures lent { W.lent world.new ≡ W.lent world.old }
    ensures right { OnOk result (AreRight (W.facts world.old) answers.new.entries) }
    ensures asked { OnOk result (keys answers.new
        ≡ add_keys (keys answers.old) (spec.set_scan (W.facts world.old) parent.now set.now)) }
{
    for selection in set {
        scan_selection(alloc, world, parent, selection, answers)?;
    }
    Ok(())
}

fn scan_operation<W: World>(
    alloc: Global,
    world: &mut W,
    operation: &Operation,
    answers: &mut IndexMap<Key, Fact>,
) -> Result<(), AllocError>
    requires right { AreRight (W.facts world.old) answers.old.entries }
    ensures facts { W.facts world.new ≡ W.facts world.old }
    ensures names { W.names world.new ≡ W.names world.old }
    ensures lent { W.lent world.new ≡ W.lent world.old }
    ensures right { OnOk result (AreRight (W.facts world.old) answers.new.entries) }
    ensures asked { OnOk result (keys answers.new
        ≡ add_keys (keys answers.old) (spec.operation_reads (W.facts world.old) operation.now)) }
{
    let fact = ask(alloc, world, Key::RootOf(operation.kind), answers)?;
    let root = root_type(&fact)?;
    let parent = enter(alloc, world, root, answers)?;
    note_directives(alloc, world, operation.directives.as_slice(), answers)?;
    note_variables(alloc, world, operation.variables.as_slice(), answers)?;
    scan_set(
        alloc,
        world,
        &parent,
        operation.selections.as_slice(),
        answers,
    )?;
    Ok(())
}

fn scan_fragment<W: World>(
    alloc: Global,
    world: &mut W,
    fragment: &Fragment,
    answers: &mut IndexMap<Key, Fact>,
) -> Result<(), AllocError>
    requires right { AreRight (W.facts world.old) answers.old.entries }
    ensures facts { W.facts world.new ≡ W.facts world.old }
    ensures names { W.names world.new ≡ W.names world.old }
    ensures lent { W.lent world.new ≡ W.lent world.old }
    ensures right { OnOk result (AreRight (W.facts world.old) answers.new.entries) }
    ensures asked { OnOk result (keys answers.new
        ≡ add_keys (keys answers.old) (spec.fragment_reads (W.facts world.old) fragment.now)) }
{
    let condition = Some(fragment.condition.text.copy()?);
    let parent = enter(alloc, world, condition, answers)?;
    note_directives(alloc, world, fragment.directives.as_slice(), answers)?;
    scan_set(
        alloc,
        world,
        &parent,
        fragment.selections.as_slice(),
        answers,
    )?;
    Ok(())
}

/// Asks the keys that a definition reads by itself.
pub fn scan_tree<W: World>(
    alloc: Global,
    world: &mut W,
    tree: &Tree,
    answers: &mut IndexMap<Key, Fact>,
) -> Result<(), AllocError>
    requires right { AreRight (W.facts world.old) answers.old.entries }
    ensures facts { W.facts world.new ≡ W.facts world.old }
    ensures names { W.names world.new ≡ W.names world.old }
    ensures lent { W.lent world.new ≡ W.lent world.old }
    ensures right { OnOk result (AreRight (W.facts world.old) answers.new.entries) }
    ensures asked { OnOk result (keys answers.new
        ≡ add_keys (keys answers.old) (spec.tree_reads (W.facts world.old) tree.now)) }
{
    note(alloc, world, float_read(alloc)?, answers)?;
    match tree {
        Tree::Operation(operation) => scan_operation(alloc, world, operation.get(), answers)?,
        Tree::Fragment(fragment) => scan_fragment(alloc, world, fragment.get(), answers)?,
        _ => (),
    }
    Ok(())
}
