//! The root fields of an operation, by a walk through the fragments that it spreads at its root.
ghost use Rattle.std.specs.Prelude.{◌≡◌, ◌∷◌, [], ℕ, List, Some, IfOk, OnOk, bytes_eq, map, slice_get, option_and_then, Contains};
ghost use Rattle.std.specs.HashMap as hash;
ghost use Rattle.std.specs.Option.{option_copied};
ghost use Rattle.gql_facts.specs.Members.{Lists};
ghost use Rattle.gql_facts.specs.declared.fact.FragmentFact.{FragmentFact as AFragment};
ghost use Rattle.gql_single_root.specs.RootSelections.{IsAtRootOf};
ghost use Rattle.gql_single_root.specs.Walks as spec;

use crate::conditions::is_possible;
use crate::selections::add_set;
use gql_ast::{Field, FileName, Selection, Text};
use gql_facts::{FragmentFact, World};
use indexmap::IndexSet;
use std::alloc::{AllocError, Global};
use std::collections::HashMap;

/// A root field, and the file that it is in.
#[derive(Clone, Copy)]
pub struct RootField<'t> {
    pub file: &'t FileName,
    pub field: &'t Field,
}

/// What a walk has met so far.
#[derive(Drop)]
pub struct Walk<'t> {
    /// The places of the fragments that are spread, each once.
    pub entered: IndexSet<usize>,
    /// The root fields.
    pub fields: Vec<RootField<'t>>,
}

/// The place of each of these fragments, under its name.
fn places_of<'t>(
    alloc: Global,
    members: &'t [FragmentFact],
) -> Result<HashMap<&'t str, usize>, AllocError>
    ensures { IfOk result (λ places. spec.ArePlaces members.now members.now
        (λ q. hash.get_by (λ k. bytes_eq q k.now) places)) }
{
    let mut places: HashMap<&'t str, usize> = HashMap::new(alloc);
    for place in 0..members.len() {
        places.insert(members[place].fragment.get().name.as_str(), place)?;
    }
    Ok(places)
}

/// Adds the place of the fragment of a name, if there is one.
fn keep_place(
    name: &str,
    places: &HashMap<&str, usize>,
    entered: &mut IndexSet<usize>,
) -> Result<(), AllocError>
    ensures { OnOk result (entered.new.keys ≡ spec.with_place entered.old.keys
        (hash.get_by (λ k. bytes_eq name.now k.now) places.now)) }
{
    if let Some(place) = places.get(name) {
        entered.insert(*place)?;
    }
    Ok(())
}

/// Adds a field, or the place of the fragment that a spread names.
fn add_one<'t>(
    file: &'t FileName,
    selection: &'t Selection,
    places: &HashMap<&str, usize>,
    walk: &mut Walk<'t>,
) -> Result<(), AllocError>
    ensures { OnOk result (spec.Takes (λ q. hash.get_by (λ k. bytes_eq q k.now) places.now)
        file.now (Contains (selection.now ∷ [])) walk.old walk.new) }
{
    match selection {
        Selection::Field(field) => walk.fields.push(RootField { file, field })?,
        Selection::Spread(spread) => keep_place(spread.name.as_str(), places, &mut walk.entered)?,
        Selection::InlineFragment(_) => {}
    }
    Ok(())
}

/// Adds the fields, and the places of the fragments that the spreads name.
fn add_all<'t>(
    file: &'t FileName,
    found: &[&'t Selection],
    places: &HashMap<&str, usize>,
    walk: &mut Walk<'t>,
) -> Result<(), AllocError>
    ensures { OnOk result (spec.Takes (λ q. hash.get_by (λ k. bytes_eq q k.now) places.now)
        file.now (Contains (map (λ x. x.now) found.now)) walk.old walk.new) }
{
    for selection in found {
        add_one(file, selection, places, walk)?;
    }
    Ok(())
}

/// Adds what is at the root of a selection set.
fn add_root<'t, W: World>(
    alloc: Global,
    world: &mut W,
    root: &Text,
    file: &'t FileName,
    set: &'t [Selection],
    places: &HashMap<&str, usize>,
    walk: &mut Walk<'t>,
) -> Result<(), AllocError>
    ensures facts { W.facts world.new ≡ W.facts world.old }
    ensures names { W.names world.new ≡ W.names world.old }
    ensures lent { W.lent world.new ≡ W.lent world.old }
    ensures taken { OnOk result (spec.Takes (λ q. hash.get_by (λ k. bytes_eq q k.now) places.now)
        file.now (IsAtRootOf (W.facts world.old) root.now set.now) walk.old walk.new) }
{
    let mut found = Vec::new(alloc);
    add_set(alloc, world, root, set, &mut found)?;
    add_all(file, found.as_slice(), places, walk)?;
    Ok(())
}

/// Adds what is at the root of a fragment, if its condition applies.
fn add_fragment<'t, W: World>(
    alloc: Global,
    world: &mut W,
    root: &Text,
    member: &'t FragmentFact,
    places: &HashMap<&str, usize>,
    walk: &mut Walk<'t>,
) -> Result<(), AllocError>
    ensures facts { W.facts world.new ≡ W.facts world.old }
    ensures names { W.names world.new ≡ W.names world.old }
    ensures lent { W.lent world.new ≡ W.lent world.old }
    ensures taken { OnOk result (spec.Takes (λ q. hash.get_by (λ k. bytes_eq q k.now) places.now)
        member.now.file (spec.IsAtRootOfFragment (W.facts world.old) root.now member.now)
        walk.old walk.new) }
{
    let fragment = member.fragment.get();
    let is_on = is_possible(alloc, world, root, &fragment.condition.text)?;
    if !is_on {
        return Ok(());
    }
    let set = fragment.selections.as_slice();
    add_root(alloc, world, root, &member.file, set, places, walk)?;
    Ok(())
}

/// The fragment whose place was met at an index.
fn member_met<'t>(
    entered: &IndexSet<usize>,
    at: usize,
    members: &'t [FragmentFact],
) -> Option<&'t FragmentFact>
    ensures { option_copied result
        ≡ option_and_then (slice_get members.now) (slice_get entered.now.keys at) }
{
    match entered.get_index(at) {
        Some(place) => members.get(*place),
        None => None,
    }
}

/// Enters the fragment whose place was met at an index.
fn enter<'t, W: World>(
    alloc: Global,
    world: &mut W,
    root: &Text,
    at: usize,
    members: &'t [FragmentFact],
    places: &HashMap<&str, usize>,
    walk: &mut Walk<'t>,
) -> Result<(), AllocError>
    ensures facts { W.facts world.new ≡ W.facts world.old }
    ensures names { W.names world.new ≡ W.names world.old }
    ensures lent { W.lent world.new ≡ W.lent world.old }
    ensures taken { OnOk result ((i : ℕ) (g : AFragment)
        → slice_get walk.old.entered.keys at ≡ Some i → slice_get members.now i ≡ Some g
        → spec.Takes (λ q. hash.get_by (λ k. bytes_eq q k.now) places.now) g.file
        (spec.IsAtRootOfFragment (W.facts world.old) root.now g) walk.old walk.new) }
{
    match member_met(&walk.entered, at, members) {
        Some(member) => add_fragment(alloc, world, root, member, places, walk)?,
        None => {}
    }
    Ok(())
}

/// The root fields of a selection set in this file. `members` are fragments, among which are those
/// that the set spreads at its root, in any number of steps. None is entered twice.
pub fn root_fields<'t, W: World>(
    alloc: Global,
    world: &mut W,
    root: &Text,
    file: &'t FileName,
    set: &'t [Selection],
    members: &'t [FragmentFact],
) -> Result<Vec<RootField<'t>>, AllocError>
    requires { spec.HasAll (W.facts world.old) root.now set.now members.now }
    ensures facts { W.facts world.new ≡ W.facts world.old }
    ensures names { W.names world.new ≡ W.names world.old }
    ensures lent { W.lent world.new ≡ W.lent world.old }
    ensures fields { IfOk result (λ fields. Lists (map spec.found_of fields.items)
        (spec.IsRootField (W.facts world.old) root.now file.now set.now)) }
{
    let places = places_of(alloc, members)?;
    let mut walk = Walk {
        entered: IndexSet::new(alloc),
        fields: Vec::new(alloc),
    };
    add_root(alloc, world, root, file, set, &places, &mut walk)?;
    let mut at = 0;
    'fragments: while at < walk.entered.len() {
        enter(alloc, world, root, at, members, &places, &mut walk)?;
        at += 1;
    }
    let Walk { entered: _, fields } = walk;
    Ok(fields)
}
