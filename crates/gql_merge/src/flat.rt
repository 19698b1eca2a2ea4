//! Selection sets by numbers: the sets within a set come before it.
ghost use Rattle.std.specs.Prelude.{◌≡◌, ◌++◌, IfOk, OnOk};
ghost use Rattle.gql_ast.specs.declared.executable.Selection.TheVariants as selections;
ghost use Rattle.gql_facts.specs.Nodes.{has_any};
ghost use Rattle.gql_merge.specs.FieldSets.{part_in, part_within};
ghost use Rattle.gql_merge.specs.Flat as spec;

use crate::known::{KnownField, see_field};
use crate::parents::parent_within;
use gql_ast::{Field, FileName, InlineFragment, Selection, Text};
use gql_facts::World;
use std::alloc::{AllocError, Global};

/// A field whose definition is known, and the number of the set that it selects.
#[derive(Drop)]
pub struct FlatField<'t> {
    pub known: KnownField<'t>,
    pub below: Option<usize>,
}

impl<'t> FlatField<'t> {
    /// A copy of the field.
    pub fn copy(&self) -> Result<FlatField<'t>, AllocError>
        ensures { IfOk result (λ f. f ≡ self.now) }
    {
        Ok(FlatField {
            known: self.known.copy()?,
            below: self.below,
        })
    }
}

/// The fields of a selection set and of its inline fragments, and the names of the fragments that
/// these spread.
#[derive(Drop)]
pub struct FlatSet<'t> {
    pub fields: Vec<FlatField<'t>>,
    pub names: Vec<&'t Text>,
}

/// Adds a field, if it is known.
fn push_known<'t>(
    known: Option<KnownField<'t>>,
    below: Option<usize>,
    own: &mut FlatSet<'t>,
) -> Result<(), AllocError>
    ensures names { own.new.names.items ≡ own.old.names.items }
    ensures fields { OnOk result (own.new.fields.items
        ≡ own.old.fields.items ++ spec.flat_if known.entry below) }
{
    if let Some(known) = known {
        own.fields.push(FlatField { known, below })?;
    }
    Ok(())
}

/// Adds the set that a field selects, if it selects anything. The result is its number.
#[cycle(sets)]
fn add_below<'t, W: World>(
    alloc: Global,
    world: &mut W,
    file: &'t FileName,
    parent: &Option<Text>,
    set: &'t [Selection],
    sets: &mut Vec<FlatSet<'t>>,
) -> Result<Option<usize>, AllocError>
    ensures facts { W.facts world.new ≡ W.facts world.old }
    ensures names { W.names world.new ≡ W.names world.old }
    ensures lent { W.lent world.new ≡ W.lent world.old }
    ensures added { IfOk result (λ number. spec.AddsBelow (has_any set.now)
        (part_within (W.facts world.old) file.now parent.now set.now)
        sets.old.items sets.new.items number) }
{
    if set.is_empty() {
        return Ok(None);
    }
    let number = add_set(alloc, world, file, parent, set, sets)?;
    Ok(Some(number))
}

#[cycle(sets)]
fn add_field<'t, W: World>(
    alloc: Global,
    world: &mut W,
    file: &'t FileName,
    parent: &Option<Text>,
    field: &'t Field,
    sets: &mut Vec<FlatSet<'t>>,
    own: &mut FlatSet<'t>,
) -> Result<(), AllocError>
    ensures facts { W.facts world.new ≡ W.facts world.old }
    ensures names { W.names world.new ≡ W.names world.old }
    ensures lent { W.lent world.new ≡ W.lent world.old }
    ensures added { OnOk result (spec.Grows
        (part_in (W.facts world.old) file.now (selections.Field field.now) parent.now)
        sets.old.items own.old sets.new.items own.new) }
{
    let seen = see_field(alloc, world, file, parent, field)?;
    let set = field.selections.as_slice();
    let below = add_below(alloc, world, file, &seen.below, set, sets)?;
    push_known(seen.known, below, own)?;
    Ok(())
}

#[cycle(sets)]
fn add_inline<'t, W: World>(
    alloc: Global,
    world: &mut W,
    file: &'t FileName,
    parent: &Option<Text>,
    inline: &'t InlineFragment,
    sets: &mut Vec<FlatSet<'t>>,
    own: &mut FlatSet<'t>,
) -> Result<(), AllocError>
    ensures facts { W.facts world.new ≡ W.facts world.old }
    ensures names { W.names world.new ≡ W.names world.old }
    ensures lent { W.lent world.new ≡ W.lent world.old }
    ensures added { OnOk result (spec.Grows
        (part_in (W.facts world.old) file.now (selections.InlineFragment inline.now) parent.now)
        sets.old.items own.old sets.new.items own.new) }
{
    let within = parent_within(alloc, world, parent, &inline.condition)?;
    let set = inline.selections.as_slice();
    add_selections(alloc, world, file, &within, set, sets, own)?;
    Ok(())
}

#[cycle(sets)]
fn add_selection<'t, W: World>(
    alloc: Global,
    world: &mut W,
    file: &'t FileName,
    parent: &Option<Text>,
    selection: &'t Selection,
    sets: &mut Vec<FlatSet<'t>>,
    own: &mut FlatSet<'t>,
) -> Result<(), AllocError>
    ensures facts { W.facts world.new ≡ W.facts world.old }
    ensures names { W.names world.new ≡ W.names world.old }
    ensures lent { W.lent world.new ≡ W.lent world.old }
    ensures added { OnOk result (spec.Grows
        (part_in (W.facts world.old) file.now selection.now parent.now)
        sets.old.items own.old sets.new.items own.new) }
{
    match selection {
        Selection::Field(field) => add_field(alloc, world, file, parent, field, sets, own)?,
        Selection::Spread(spread) => own.names.push(&spread.name.text)?,
        Selection::InlineFragment(inline) => {
            add_inline(alloc, world, file, parent, inline, sets, own)?
        }
    }
    Ok(())
}

#[cycle(sets)]
fn add_selections<'t, W: World>(
    alloc: Global,
    world: &mut W,
    file: &'t FileName,
    parent: &Option<Text>,
    set: &'t [Selection],
    sets: &mut Vec<FlatSet<'t>>,
    own: &mut FlatSet<'t>,
) -> Result<(), AllocError>
    ensures facts { W.facts world.new ≡ W.facts world.old }
    ensures names { W.names world.new ≡ W.names world.old }
    ensures lent { W.lent world.new ≡ W.lent world.old }
    ensures added { OnOk result (spec.Grows
        (part_within (W.facts world.old) file.now parent.now set.now)
        sets.old.items own.old sets.new.items own.new) }
{
    for selection in set {
        add_selection(alloc, world, file, parent, selection, sets, own)?;
    }
    Ok(())
}

/// Adds a selection set with this parent type, after the sets within it. The result is its number.
#[cycle(sets)]
pub fn add_set<'t, W: World>(
    alloc: Global,
    world: &mut W,
    file: &'t FileName,
    parent: &Option<Text>,
    set: &'t [Selection],
    sets: &mut Vec<FlatSet<'t>>,
) -> Result<usize, AllocError>
    ensures facts { W.facts world.new ≡ W.facts world.old }
    ensures names { W.names world.new ≡ W.names world.old }
    ensures lent { W.lent world.new ≡ W.lent world.old }
    ensures added { IfOk result (λ number. spec.AddsSet
        (part_within (W.facts world.old) file.now parent.now set.now)
        sets.old.items sets.new.items number) }
{
    let mut own = FlatSet {
        fields: Vec::new(alloc),
        names: Vec::new(alloc),
    };
    add_selections(alloc, world, file, parent, set, sets, &mut own)?;
    let number = sets.len();
    sets.push(own)?;
    Ok(number)
}
