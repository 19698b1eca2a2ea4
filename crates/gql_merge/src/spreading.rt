//! The fragments that the selection sets of a definition spread.
ghost use Rattle.std.specs.Prelude.{◌≡◌, ◌++◌, [], ℕ, List, Contains, IfOk, OnOk, bytes_eq, flat_map, length, map, slice_get};
ghost use Rattle.std.specs.Option.{option_copied};
ghost use Rattle.std.specs.HashMap as hash;
ghost use Rattle.gql_clashes.specs.Numbered.{IsWhole};
ghost use Rattle.gql_facts.specs.Members.{Lists};
ghost use Rattle.gql_facts.specs.Reads.{Reaches};
ghost use Rattle.gql_facts.specs.Worlds.{Facts, IsWorld};
ghost use Rattle.gql_merge.specs.SpreadNames as named;
ghost use Rattle.gql_merge.specs.SpreadPlaces as spec;
ghost use Rattle.gql_merge.specs.SpreadSets.{AreSpreadSets};

use crate::numbers::spreads_of;
use crate::spread_names::{SetNames, own_names, set_names};
use gql_ast::Definition;
use gql_clashes::{Body, Sets, spread_bodies};
use gql_facts::FragmentFact;
use std::alloc::{AllocError, Global};
use std::collections::HashMap;

/// The fragments that a selection set spreads, in any number of steps, but for what is below its
/// fields.
pub struct SpreadSet {
    pub fragments: Vec<FragmentFact>,
}

impl Drop for SpreadSet {
    fn drop(self) {
        let SpreadSet { fragments: _ } = self;
    }
}

/// The place of each of these fragments, under its name.
fn places_of<'t>(
    alloc: Global,
    members: &'t [FragmentFact],
) -> Result<HashMap<&'t str, usize>, AllocError>
    ensures { IfOk result (λ places. spec.ArePlaces members.now members.now
        (λ q. hash.get_by (λ k. bytes_eq q k.now) places)) }
{
    let mut places: HashMap<&'t str, usize> = HashMap::new(alloc);
    for place in 0..members.len() {
        places.insert(members[place].fragment.get().name.as_str(), place)?;
    }
    Ok(places)
}

/// The own set of a fragment, as a body without fields.
fn own_body(
    alloc: Global,
    member: &FragmentFact,
    places: &HashMap<&str, usize>,
) -> Result<Body, AllocError>
    ensures fields { IfOk result (λ body. body.fields.items ≡ []) }
    ensures spreads { IfOk result (λ body. (facts : Facts) → body.spreads.items
        ≡ spec.places_spread (λ q. hash.get_by (λ k. bytes_eq q k.now) places.now) facts member.now) }
{
    let names = own_names(alloc, member.fragment.get().selections.as_slice())?;
    let spreads = spreads_of(alloc, names.as_slice(), places)?;
    Ok(Body {
        fields: Vec::new(alloc),
        spreads,
    })
}

/// The own sets of these fragments, as bodies without fields.
fn own_bodies(
    alloc: Global,
    members: &[FragmentFact],
    places: &HashMap<&str, usize>,
) -> Result<Vec<Body>, AllocError>
    ensures fields { IfOk result (λ bodies.
        map (λ b. b.fields.items) bodies.items ≡ map spec.no_places members.now) }
    ensures spreads { IfOk result (λ bodies. (facts : Facts) → map (λ b. b.spreads.items) bodies.items
        ≡ map (spec.places_spread (λ q. hash.get_by (λ k. bytes_eq q k.now) places.now) facts)
        members.now) }
{
    let mut bodies = Vec::with_capacity(alloc, members.len())?;
    for member in members {
        bodies.push(own_body(alloc, member, places)?)?;
    }
    Ok(bodies)
}

/// The fragment at a place, if there is one.
fn fragment_at(members: &[FragmentFact], place: usize) -> Option<&FragmentFact>
    ensures { option_copied result ≡ slice_get members.now place }
{
    members.get(place)
}

/// Adds the fragment at a place.
fn add_at(
    members: &[FragmentFact],
    place: usize,
    found: &mut Vec<FragmentFact>,
) -> Result<(), AllocError>
    ensures { OnOk result (found.new.items ≡ found.old.items ++ spec.member_at members.now place) }
{
    match fragment_at(members, place) {
        Some(member) => {
            found.push(member.copy()?)?;
            Ok(())
        }
        None => Ok(()),
    }
}

/// The fragments at these places.
fn members_at(
    alloc: Global,
    members: &[FragmentFact],
    places: &[usize],
) -> Result<Vec<FragmentFact>, AllocError>
    ensures { IfOk result (λ found. found.items ≡ flat_map (spec.member_at members.now) places.now) }
{
    let mut found = Vec::with_capacity(alloc, places.len())?;
    for place in places {
        add_at(members, *place, &mut found)?;
    }
    Ok(found)
}

/// The fragments that a set of these names spreads.
fn spread_set(
    alloc: Global,
    members: &[FragmentFact],
    places: &HashMap<&str, usize>,
    bodies: &Sets,
    set: &SetNames<'_>,
) -> Result<SpreadSet, AllocError>
    requires whole { IsWhole bodies.now }
    requires count { length bodies.now.bodies.items ≡ length members.now }
    requires places { spec.ArePlaces members.now members.now
        (λ q. hash.get_by (λ k. bytes_eq q k.now) places.now) }
    ensures { IfOk result (λ spread. Lists spread.fragments.items (spec.IsSpreadFrom members.now
        (λ q. hash.get_by (λ k. bytes_eq q k.now) places.now) bodies.now
        (named.names_of set.now))) }
{
    let first = spreads_of(alloc, set.names.as_slice(), places)?;
    let found = spread_bodies(alloc, bodies, first.as_slice())?;
    let fragments = members_at(alloc, members, found.as_slice())?;
    Ok(SpreadSet { fragments })
}

/// The fragments that each of these sets spreads.
fn spread_by_each(
    alloc: Global,
    members: &[FragmentFact],
    places: &HashMap<&str, usize>,
    bodies: &Sets,
    sets: &[SetNames<'_>],
) -> Result<Vec<SpreadSet>, AllocError>
    requires whole { IsWhole bodies.now }
    requires count { length bodies.now.bodies.items ≡ length members.now }
    requires places { spec.ArePlaces members.now members.now
        (λ q. hash.get_by (λ k. bytes_eq q k.now) places.now) }
    ensures { IfOk result (λ found. spec.AreSpreadFrom members.now
        (λ q. hash.get_by (λ k. bytes_eq q k.now) places.now) bodies.now
        (map named.names_of sets.now) found.items) }
{
    let mut found = Vec::with_capacity(alloc, sets.len())?;
    for set in sets {
        found.push(spread_set(alloc, members, places, bodies, set)?)?;
    }
    Ok(found)
}

/// The fragments that each selection set of a definition spreads, in any number of steps, but for
/// what is below its fields. There is no list for a set that spreads nothing. `members` are the
/// fragments that the definition reaches.
pub fn spread_sets(
    alloc: Global,
    definition: &Definition,
    members: &[FragmentFact],
) -> Result<Vec<SpreadSet>, AllocError>
    ensures { IfOk result (λ sets. (facts : Facts) (names : List (List ℕ)) → IsWorld facts names
        → Lists members.now (Reaches facts definition.now)
        → AreSpreadSets facts definition.now sets.items) }
{
    let sets = set_names(alloc, definition)?;
    let places = places_of(alloc, members)?;
    let own = own_bodies(alloc, members, &places)?;
    let bodies = Sets {
        fields: Vec::new(alloc),
        bodies: own,
    };
    let found = spread_by_each(alloc, members, &places, &bodies, sets.as_slice())?;
    Ok(found)
}
