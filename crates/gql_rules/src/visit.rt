//! One visit of a selection set, which knows the parent type of each node.
ghost use Rattle.std.specs.Prelude.{◌≡◌, ◌++◌, OnOk};
ghost use Rattle.gql_rules.specs.LocalFaults as spec;

use crate::conditions::{check_inline, check_spread};
use crate::fields;
use gql_ast::{Fault, Field, FilePlace, InlineFragment, Selection, Text};
use gql_facts::World;
use std::alloc::{AllocError, Global};

#[cycle(visit)]
fn visit_field<W: World>(
    alloc: Global,
    world: &mut W,
    owner: &FilePlace,
    parent: &Option<Text>,
    field: &Field,
    faults: &mut Vec<Fault>,
) -> Result<(), AllocError>
    ensures facts { W.facts world.new ≡ W.facts world.old }
    ensures names { W.names world.new ≡ W.names world.old }
    ensures lent { W.lent world.new ≡ W.lent world.old }
    ensures found { OnOk result (faults.new.items ≡ faults.old.items
        ++ spec.field_visit (W.facts world.old) owner.now parent.now field.now) }
{
    let below = fields::check(alloc, world, owner, parent, field, faults)?;
    visit_set(
        alloc,
        world,
        owner,
        &below,
        field.selections.as_slice(),
        faults,
    )?;
    Ok(())
}

#[cycle(visit)]
fn visit_inline<W: World>(
    alloc: Global,
    world: &mut W,
    owner: &FilePlace,
    parent: &Option<Text>,
    inline: &InlineFragment,
    faults: &mut Vec<Fault>,
) -> Result<(), AllocError>
    ensures facts { W.facts world.new ≡ W.facts world.old }
    ensures names { W.names world.new ≡ W.names world.old }
    ensures lent { W.lent world.new ≡ W.lent world.old }
    ensures found { OnOk result (faults.new.items ≡ faults.old.items
        ++ spec.inline_visit (W.facts world.old) owner.now parent.now inline.now) }
{
    let within = check_inline(alloc, world, owner, parent, inline, faults)?;
    visit_set(
        alloc,
        world,
        owner,
        &within,
        inline.selections.as_slice(),
        faults,
    )?;
    Ok(())
}

#[cycle(visit)]
fn visit_selection<W: World>(
    alloc: Global,
    world: &mut W,
    owner: &FilePlace,
    parent: &Option<Text>,
    selection: &Selection,
    faults: &mut Vec<Fault>,
) -> Result<(), AllocError>
    ensures facts { W.facts world.new ≡ W.facts world.old }
    ensures names { W.names world.new ≡ W.names world.old }
    ensures lent { W.lent world.new ≡ W.lent world.old }
    ensures found { OnOk result (faults.new.items ≡ faults.old.items
        ++ spec.selection_visit (W.facts world.old) owner.now parent.now selection.now) }
{
    match selection {
        Selection::Field(field) => visit_field(alloc, world, owner, parent, field, faults)?,
        Selection::Spread(spread) => check_spread(alloc, world, owner, parent, spread, faults)?,
        Selection::InlineFragment(inline) => {
            visit_inline(alloc, world, owner, parent, inline, faults)?
        }
    }
    Ok(())
}

/// Adds the faults of the nodes of a selection set with this parent type.
#[cycle(visit)]
pub fn visit_set<W: World>(
    alloc: Global,
    world: &mut W,
    owner: &FilePlace,
    parent: &Option<Text>,
    set: &[Selection],
    faults: &mut Vec<Fault>,
) -> Result<(), AllocError>
    ensures facts { W.facts world.new ≡ W.facts world.old }
    ensures names { W.names world.new ≡ W.names world.old }
    ensures lent { W.lent world.new ≡ W.lent world.old }
    ensures found { OnOk result (faults.new.items ≡ faults.old.items
        ++ spec.set_visit (W.facts world.old) owner.now parent.now set.now) }
{
    for selection in set {
        visit_selection(alloc, world, owner, parent, selection, faults)?;
    }
    Ok(())
}
