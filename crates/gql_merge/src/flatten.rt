//! The selection sets of a definition and of the fragments that it reaches, by numbers.
ghost use Rattle.std.specs.Prelude.{◌≡◌, IfOk, OnOk, bytes_eq};
ghost use Rattle.std.specs.HashMap as hash;
ghost use Rattle.gql_merge.specs.Flat.{AddsSet, Draws};
ghost use Rattle.gql_merge.specs.Flattened as spec;
ghost use Rattle.gql_merge.specs.MergedNodes.{fragment_part, operation_part, sets_in};

use crate::flat::{FlatSet, add_set};
use crate::parents::{composite, root_parent};
use gql_ast::{Definition, FileName, Fragment, Operation, Tree};
use gql_facts::{FragmentFact, World};
use std::alloc::{AllocError, Global};
use std::collections::HashMap;

/// Adds the sets of an operation. The result is the number of its own set.
fn add_operation<'t, W: World>(
    alloc: Global,
    world: &mut W,
    file: &'t FileName,
    operation: &'t Operation,
    sets: &mut Vec<FlatSet<'t>>,
) -> Result<usize, AllocError>
    ensures facts { W.facts world.new ≡ W.facts world.old }
    ensures names { W.names world.new ≡ W.names world.old }
    ensures lent { W.lent world.new ≡ W.lent world.old }
    ensures added { IfOk result (λ number. AddsSet
        (operation_part (W.facts world.old) file.now operation.now)
        sets.old.items sets.new.items number) }
{
    let parent = root_parent(alloc, world, operation.kind)?;
    let set = operation.selections.as_slice();
    add_set(alloc, world, file, &parent, set, sets)
}

/// Adds the sets of a fragment. The result is the number of its own set.
fn add_fragment<'t, W: World>(
    alloc: Global,
    world: &mut W,
    file: &'t FileName,
    fragment: &'t Fragment,
    sets: &mut Vec<FlatSet<'t>>,
) -> Result<usize, AllocError>
    ensures facts { W.facts world.new ≡ W.facts world.old }
    ensures names { W.names world.new ≡ W.names world.old }
    ensures lent { W.lent world.new ≡ W.lent world.old }
    ensures added { IfOk result (λ number. AddsSet
        (fragment_part (W.facts world.old) file.now fragment.now)
        sets.old.items sets.new.items number) }
{
    let parent = composite(alloc, world, &fragment.condition.text)?;
    let set = fragment.selections.as_slice();
    add_set(alloc, world, file, &parent, set, sets)
}

/// The sets of a definition.
pub fn own_sets<'t, W: World>(
    alloc: Global,
    world: &mut W,
    definition: &'t Definition,
) -> Result<Vec<FlatSet<'t>>, AllocError>
    ensures facts { W.facts world.new ≡ W.facts world.old }
    ensures names { W.names world.new ≡ W.names world.old }
    ensures lent { W.lent world.new ≡ W.lent world.old }
    ensures drawn { IfOk result (λ sets. Draws sets.items
        (sets_in (W.facts world.old) definition.now)) }
{
    let mut sets = Vec::new(alloc);
    let file = &definition.file;
    match &definition.tree {
        Tree::Operation(operation) => {
            add_operation(alloc, world, file, operation.get(), &mut sets)?;
            Ok(sets)
        }
        Tree::Fragment(fragment) => {
            add_fragment(alloc, world, file, fragment.get(), &mut sets)?;
            Ok(sets)
        }
        _ => Ok(sets),
    }
}

/// Adds the sets of a fragment, and the number of its own set under its name.
fn add_member<'t, W: World>(
    alloc: Global,
    world: &mut W,
    member: &'t FragmentFact,
    sets: &mut Vec<FlatSet<'t>>,
    numbers: &mut HashMap<&'t str, usize>,
) -> Result<(), AllocError>
    ensures facts { W.facts world.new ≡ W.facts world.old }
    ensures names { W.names world.new ≡ W.names world.old }
    ensures lent { W.lent world.new ≡ W.lent world.old }
    ensures added { OnOk result (spec.AddsMember (W.facts world.old) member.now sets.old.items
        (λ q. hash.get_by (λ k. bytes_eq q k.now) numbers.old) sets.new.items
        (λ q. hash.get_by (λ k. bytes_eq q k.now) numbers.new)) }
{
    let fragment = member.fragment.get();
    let number = add_fragment(alloc, world, &member.file, fragment, sets)?;
    numbers.insert(fragment.name.as_str(), number)?;
    Ok(())
}

/// Adds the sets of these fragments. The result has the number of each fragment's own set under its
/// name.
pub fn add_members<'t, W: World>(
    alloc: Global,
    world: &mut W,
    members: &'t [FragmentFact],
    sets: &mut Vec<FlatSet<'t>>,
) -> Result<HashMap<&'t str, usize>, AllocError>
    ensures facts { W.facts world.new ≡ W.facts world.old }
    ensures names { W.names world.new ≡ W.names world.old }
    ensures lent { W.lent world.new ≡ W.lent world.old }
    ensures added { IfOk result (λ numbers. spec.AddsMembers (W.facts world.old) members.now
        sets.old.items sets.new.items (λ q. hash.get_by (λ k. bytes_eq q k.now) numbers)) }
{
    let mut numbers: HashMap<&'t str, usize> = HashMap::new(alloc);
    for member in members {
        add_member(alloc, world, member, sets, &mut numbers)?;
    }
    Ok(numbers)
}
