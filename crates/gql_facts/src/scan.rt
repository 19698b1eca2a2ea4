//! The keys that the parts of a definition read. If a fact decides a parent type, the world is asked
//! for it at once.
ghost use Rattle.std.specs.Prelude.{◌≡◌, [], ◌∷◌, IfOk, OnOk, OnErr, flat_map, option_map};
ghost use Rattle.gql_types.specs.Written.{written};
ghost use Rattle.gql_facts.specs.Nodes as nodes;
ghost use Rattle.gql_facts.specs.OwnReads as spec;
ghost use Rattle.gql_facts.specs.Scans.{Records, Scans, add_keys};
ghost use Rattle.gql_types.specs.WrittenTypes.{named_type};

use crate::fact::Fact;
use crate::key::Key;
use crate::world::World;
use gql_ast::{
    Directive, Field, Fragment, InlineFragment, Name, Operation, Selection, Spread, Text, Tree,
    TypeRef, VariableDefinition,
};
use gql_types::WrittenType;
use indexmap::IndexSet;
use std::alloc::{AllocError, Global};

/// Adds a key, unless it is there.
pub fn keep(key: Key, keys: &mut IndexSet<Key>) -> Result<(), AllocError>
    ensures { OnOk result (keys.new.keys ≡ add_keys keys.old.keys (key ∷ [])) }
{
    keys.insert(key)?;
    Ok(())
}

fn keep_directives(directives: &[Directive], keys: &mut IndexSet<Key>) -> Result<(), AllocError>
    ensures { OnOk result (keys.new.keys
        ≡ add_keys keys.old.keys (spec.directive_reads directives.now)) }
{
    for directive in directives {
        keep(Key::DirectiveOf(directive.name.text.copy()?), keys)?;
    }
    Ok(())
}

fn keep_variable(
    alloc: Global,
    variable: &VariableDefinition,
    keys: &mut IndexSet<Key>,
) -> Result<(), AllocError>
    ensures { OnOk result (keys.new.keys
        ≡ add_keys keys.old.keys (spec.variable_reads variable.now)) }
{
    let of_type = WrittenType::of(alloc, &variable.of_type)?;
    keep(Key::KindOf(of_type.name.copy()?), keys)?;
    keep(Key::InputOf(of_type.name.copy()?), keys)?;
    keep(Key::EnumOf(of_type.name.copy()?), keys)?;
    keep_directives(variable.directives.as_slice(), keys)
}

fn keep_variables(
    alloc: Global,
    variables: &[VariableDefinition],
    keys: &mut IndexSet<Key>,
) -> Result<(), AllocError>
    ensures { OnOk result (keys.new.keys
        ≡ add_keys keys.old.keys (flat_map spec.variable_reads variables.now)) }
{
    for variable in variables {
        keep_variable(alloc, variable, keys)?;
    }
    Ok(())
}

/// Asks a key.
fn ask<W: World>(
    alloc: Global,
    world: &mut W,
    key: Key,
    keys: &mut IndexSet<Key>,
) -> Result<Fact, AllocError>
    ensures facts { W.facts world.new ≡ W.facts world.old }
    ensures names { W.names world.new ≡ W.names world.old }
    ensures lent { W.lent world.new ≡ W.lent world.old }
    ensures answer { IfOk result (λ f. f ≡ W.facts world.old key) }
    ensures scanned { OnOk result (Scans (W.facts world.old)
        (key ∷ [])
        keys.old.keys (W.asked world.old) keys.new.keys (W.asked world.new)) }
    ensures failed { OnErr result (Records (W.facts world.old)
        (key ∷ [])
        (W.asked world.old) (W.asked world.new)) }
{
    let fact = world.fact(alloc, &key)?;
    keys.insert(key)?;
    Ok(fact)
}

fn is_composite(fact: &Fact) -> bool
    ensures { result ≡ nodes.is_composite_fact fact.now }
{
    match fact {
        Fact::Kind(kind) => kind.is_composite(),
        _ => false,
    }
}

fn field_type(fact: &Fact) -> Result<Option<Text>, AllocError>
    ensures { IfOk result (λ t. t ≡ nodes.field_type_in fact.now) }
{
    match fact {
        Fact::Field(field) => Ok(Some(field.get().of_type.name.copy()?)),
        _ => Ok(None),
    }
}

fn root_type(fact: &Fact) -> Result<Option<Text>, AllocError>
    ensures { IfOk result (λ t. t ≡ nodes.root_in fact.now) }
{
    match fact {
        Fact::Root(name) => Ok(Some(name.get().copy()?)),
        _ => Ok(None),
    }
}

/// Asks about a type that may be composite. The result is the type, if it is.
fn enter<W: World>(
    alloc: Global,
    world: &mut W,
    of_type: Option<Text>,
    keys: &mut IndexSet<Key>,
) -> Result<Option<Text>, AllocError>
    ensures facts { W.facts world.new ≡ W.facts world.old }
    ensures names { W.names world.new ≡ W.names world.old }
    ensures lent { W.lent world.new ≡ W.lent world.old }
    ensures parent { IfOk result (λ p. p ≡ nodes.composite (W.facts world.old) of_type) }
    ensures scanned { OnOk result (Scans (W.facts world.old)
        (spec.composite_reads of_type)
        keys.old.keys (W.asked world.old) keys.new.keys (W.asked world.new)) }
    ensures failed { OnErr result (Records (W.facts world.old)
        (spec.composite_reads of_type)
        (W.asked world.old) (W.asked world.new)) }
{
    let Some(name) = of_type else {
        return Ok(None);
    };
    let fact = ask(alloc, world, Key::KindOf(name.copy()?), keys)?;
    keep(Key::PossibleOf(name.copy()?), keys)?;
    if is_composite(&fact) {
        Ok(Some(name))
    } else {
        Ok(None)
    }
}

/// Asks about a field of a parent type. The result is the parent type of what the field selects.
fn enter_field<W: World>(
    alloc: Global,
    world: &mut W,
    parent: &Option<Text>,
    name: &Text,
    keys: &mut IndexSet<Key>,
) -> Result<Option<Text>, AllocError>
    ensures facts { W.facts world.new ≡ W.facts world.old }
    ensures names { W.names world.new ≡ W.names world.old }
    ensures lent { W.lent world.new ≡ W.lent world.old }
    ensures parent { IfOk result (λ p. p
        ≡ nodes.parent_below (W.facts world.old) parent.now name.now) }
    ensures scanned { OnOk result (Scans (W.facts world.old)
        (spec.field_reads (W.facts world.old) parent.now name.now)
        keys.old.keys (W.asked world.old) keys.new.keys (W.asked world.new)) }
    ensures failed { OnErr result (Records (W.facts world.old)
        (spec.field_reads (W.facts world.old) parent.now name.now)
        (W.asked world.old) (W.asked world.new)) }
{
    let Some(parent) = parent else {
        return Ok(None);
    };
    let key = Key::FieldOf {
        of_type: parent.copy()?,
        field: name.copy()?,
    };
    let fact = ask(alloc, world, key, keys)?;
    let of_type = field_type(&fact)?;
    let below = enter(alloc, world, of_type, keys)?;
    Ok(below)
}

/// Asks about a type condition. The result is the parent type within the inline fragment.
fn enter_condition<W: World>(
    alloc: Global,
    world: &mut W,
    parent: &Option<Text>,
    condition: &Option<Name>,
    keys: &mut IndexSet<Key>,
) -> Result<Option<Text>, AllocError>
    ensures facts { W.facts world.new ≡ W.facts world.old }
    ensures names { W.names world.new ≡ W.names world.old }
    ensures lent { W.lent world.new ≡ W.lent world.old }
    ensures parent { IfOk result (λ p. p
        ≡ nodes.parent_within (W.facts world.old) parent.now condition.now) }
    ensures scanned { OnOk result (Scans (W.facts world.old)
        (spec.condition_reads condition.now)
        keys.old.keys (W.asked world.old) keys.new.keys (W.asked world.new)) }
    ensures failed { OnErr result (Records (W.facts world.old)
        (spec.condition_reads condition.now)
        (W.asked world.old) (W.asked world.new)) }
{
    match condition {
        Some(condition) => {
            let of_type = Some(condition.text.copy()?);
            enter(alloc, world, of_type, keys)
        }
        None => match parent {
            Some(parent) => Ok(Some(parent.copy()?)),
            None => Ok(None),
        },
    }
}

#[cycle(scan)]
fn scan_field<W: World>(
    alloc: Global,
    world: &mut W,
    parent: &Option<Text>,
    field: &Field,
    keys: &mut IndexSet<Key>,
) -> Result<(), AllocError>
    ensures facts { W.facts world.new ≡ W.facts world.old }
    ensures names { W.names world.new ≡ W.names world.old }
    ensures lent { W.lent world.new ≡ W.lent world.old }
    ensures scanned { OnOk result (Scans (W.facts world.old)
        (spec.field_scan (W.facts world.old) parent.now field.now)
        keys.old.keys (W.asked world.old) keys.new.keys (W.asked world.new)) }
    ensures failed { OnErr result (Records (W.facts world.old)
        (spec.field_scan (W.facts world.old) parent.now field.now)
        (W.asked world.old) (W.asked world.new)) }
{
    let below = enter_field(alloc, world, parent, &field.name.text, keys)?;
    keep_directives(field.directives.as_slice(), keys)?;
    scan_set(alloc, world, &below, field.selections.as_slice(), keys)?;
    Ok(())
}

#[cycle(scan)]
fn scan_inline<W: World>(
    alloc: Global,
    world: &mut W,
    parent: &Option<Text>,
    inline: &InlineFragment,
    keys: &mut IndexSet<Key>,
) -> Result<(), AllocError>
    ensures facts { W.facts world.new ≡ W.facts world.old }
    ensures names { W.names world.new ≡ W.names world.old }
    ensures lent { W.lent world.new ≡ W.lent world.old }
    ensures scanned { OnOk result (Scans (W.facts world.old)
        (spec.inline_scan (W.facts world.old) parent.now inline.now)
        keys.old.keys (W.asked world.old) keys.new.keys (W.asked world.new)) }
    ensures failed { OnErr result (Records (W.facts world.old)
        (spec.inline_scan (W.facts world.old) parent.now inline.now)
        (W.asked world.old) (W.asked world.new)) }
{
    let within = enter_condition(alloc, world, parent, &inline.condition, keys)?;
    keep_directives(inline.directives.as_slice(), keys)?;
    scan_set(alloc, world, &within, inline.selections.as_slice(), keys)?;
    Ok(())
}

fn keep_spread(spread: &Spread, keys: &mut IndexSet<Key>) -> Result<(), AllocError>
    ensures { OnOk result (keys.new.keys ≡ add_keys keys.old.keys (spec.spread_scan spread.now)) }
{
    keep(Key::FragmentOf(spread.name.text.copy()?), keys)?;
    keep_directives(spread.directives.as_slice(), keys)
}

#[cycle(scan)]
fn scan_selection<W: World>(
    alloc: Global,
    world: &mut W,
    parent: &Option<Text>,
    selection: &Selection,
    keys: &mut IndexSet<Key>,
) -> Result<(), AllocError>
    ensures facts { W.facts world.new ≡ W.facts world.old }
    ensures names { W.names world.new ≡ W.names world.old }
    ensures lent { W.lent world.new ≡ W.lent world.old }
    ensures scanned { OnOk result (Scans (W.facts world.old)
        (spec.selection_scan (W.facts world.old) parent.now selection.now)
        keys.old.keys (W.asked world.old) keys.new.keys (W.asked world.new)) }
    ensures failed { OnErr result (Records (W.facts world.old)
        (spec.selection_scan (W.facts world.old) parent.now selection.now)
        (W.asked world.old) (W.asked world.new)) }
{
    match selection {
        Selection::Field(field) => scan_field(alloc, world, parent, field, keys)?,
        Selection::Spread(spread) => keep_spread(spread, keys)?,
        Selection::InlineFragment(inline) => scan_inline(alloc, world, parent, inline, keys)?,
    }
    Ok(())
}

#[cycle(scan)]
fn scan_set<W: World>(
    alloc: Global,
    world: &mut W,
    parent: &Option<Text>,
    set: &[Selection],
    keys: &mut IndexSet<Key>,
) -> Result<(), AllocError>
    ensures facts { W.facts world.new ≡ W.facts world.old }
    ensures names { W.names world.new ≡ W.names world.old }
    ensures lent { W.lent world.new ≡ W.lent world.old }
    ensures scanned { OnOk result (Scans (W.facts world.old)
        (spec.set_scan (W.facts world.old) parent.now set.now)
        keys.old.keys (W.asked world.old) keys.new.keys (W.asked world.new)) }
    ensures failed { OnErr result (Records (W.facts world.old)
        (spec.set_scan (W.facts world.old) parent.now set.now)
        (W.asked world.old) (W.asked world.new)) }
{
    for selection in set {
        scan_selection(alloc, world, parent, selection, keys)?;
    }
    Ok(())
}

fn scan_operation<W: World>(
    alloc: Global,
    world: &mut W,
    operation: &Operation,
    keys: &mut IndexSet<Key>,
) -> Result<(), AllocError>
    ensures facts { W.facts world.new ≡ W.facts world.old }
    ensures names { W.names world.new ≡ W.names world.old }
    ensures lent { W.lent world.new ≡ W.lent world.old }
    ensures scanned { OnOk result (Scans (W.facts world.old)
        (spec.operation_reads (W.facts world.old) operation.now)
        keys.old.keys (W.asked world.old) keys.new.keys (W.asked world.new)) }
    ensures failed { OnErr result (Records (W.facts world.old)
        (spec.operation_reads (W.facts world.old) operation.now)
        (W.asked world.old) (W.asked world.new)) }
{
    let fact = ask(alloc, world, Key::RootOf(operation.kind), keys)?;
    let root = root_type(&fact)?;
    let parent = enter(alloc, world, root, keys)?;
    keep_directives(operation.directives.as_slice(), keys)?;
    keep_variables(alloc, operation.variables.as_slice(), keys)?;
    scan_set(alloc, world, &parent, operation.selections.as_slice(), keys)?;
    Ok(())
}

/// Adds the keys that a fragment reads by itself.
pub fn scan_fragment<W: World>(
    alloc: Global,
    world: &mut W,
    fragment: &Fragment,
    keys: &mut IndexSet<Key>,
) -> Result<(), AllocError>
    ensures facts { W.facts world.new ≡ W.facts world.old }
    ensures names { W.names world.new ≡ W.names world.old }
    ensures lent { W.lent world.new ≡ W.lent world.old }
    ensures scanned { OnOk result (Scans (W.facts world.old)
        (spec.fragment_reads (W.facts world.old) fragment.now)
        keys.old.keys (W.asked world.old) keys.new.keys (W.asked world.new)) }
    ensures failed { OnErr result (Records (W.facts world.old)
        (spec.fragment_reads (W.facts world.old) fragment.now)
        (W.asked world.old) (W.asked world.new)) }
{
    let condition = Some(fragment.condition.text.copy()?);
    let parent = enter(alloc, world, condition, keys)?;
    keep_directives(fragment.directives.as_slice(), keys)?;
    scan_set(alloc, world, &parent, fragment.selections.as_slice(), keys)?;
    Ok(())
}

/// Adds the keys that the parts of a definition read.
pub fn scan_tree<W: World>(
    alloc: Global,
    world: &mut W,
    tree: &Tree,
    keys: &mut IndexSet<Key>,
) -> Result<(), AllocError>
    ensures facts { W.facts world.new ≡ W.facts world.old }
    ensures names { W.names world.new ≡ W.names world.old }
    ensures lent { W.lent world.new ≡ W.lent world.old }
    ensures scanned { OnOk result (Scans (W.facts world.old)
        (spec.executable_reads (W.facts world.old) tree.now)
        keys.old.keys (W.asked world.old) keys.new.keys (W.asked world.new)) }
    ensures failed { OnErr result (Records (W.facts world.old)
        (spec.executable_reads (W.facts world.old) tree.now)
        (W.asked world.old) (W.asked world.new)) }
{
    match tree {
        Tree::Operation(operation) => scan_operation(alloc, world, operation.get(), keys)?,
        Tree::Fragment(fragment) => scan_fragment(alloc, world, fragment.get(), keys)?,
        _ => (),
    }
    Ok(())
}
