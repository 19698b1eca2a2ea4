//! The faults that an operation answers for.

ghost use Rattle.std.specs.Prelude.{◌≡◌, ◌↔◌, IsTrue, IfOk};
ghost use Rattle.std.specs.HashSet.{contains};
ghost use Rattle.std.specs.List.{list_any};
ghost use Rattle.gql_serving.specs.Owned.{IsOwned, Picks, fragment_owner};
ghost use Rattle.gql_serving.specs.OwnedAmong.{IsOwnedAmong, owner_places};
ghost use Rattle.gql_serving.specs.Owners.{AreAt, AreOwnersOf, same_place};

use crate::owner::Owners;
use gql_ast::{Definition, Fault, FilePlace, FileSide, Shared};
use gql_facts::{FragmentFact, World, walk_reads};
use gql_report::place_cmp;
use gql_rules::owner_of;
use std::alloc::{AllocError, Global};

/// The most places that are compared one by one.
const FEW: usize = 4;

/// Where a fragment starts.
fn place_of(member: &FragmentFact) -> Result<FilePlace, AllocError>
    ensures { IfOk result (λ at. at ≡ fragment_owner member.now) }
{
    Ok(FilePlace {
        side: FileSide::Documents,
        file: member.file.copy()?,
        place: member.fragment.get().place,
    })
}

/// Where a definition starts, and where each of these fragments does.
fn places_of(
    alloc: Global,
    definition: &Definition,
    members: &[FragmentFact],
) -> Result<Vec<FilePlace>, AllocError>
    ensures { IfOk result (λ places. places.items ≡ owner_places definition.now members.now) }
{
    let mut places = Vec::new(alloc);
    places.push(owner_of(definition)?)?;
    for member in members {
        places.push(place_of(member)?)?;
    }
    Ok(places)
}

/// Whether the owner at one of these places is among these owners.
fn is_any_among(places: &[FilePlace], owners: &Owners) -> Result<bool, AllocError>
    ensures { IfOk result (λ is.
        is ≡ list_any (contains same_place owners.now.places) places.now) }
{
    for place in places {
        let has = owners.has(place)?;
        if has {
            return Ok(true);
        }
    }
    Ok(false)
}

/// Whether a place is one of these.
fn is_listed(place: &FilePlace, places: &[FilePlace]) -> bool
    ensures { result ≡ list_any (same_place place.now) places.now }
{
    for other in places {
        if place_cmp(place, other).is_eq() {
            return true;
        }
    }
    false
}

/// Whether a place is one of these, at which these owners are. Few places are compared with it; many
/// are looked up.
fn is_among(place: &FilePlace, places: &[FilePlace], owners: &Owners) -> Result<bool, AllocError>
    ensures { IfOk result (λ is. AreAt places.now owners.now
        → is ≡ list_any (same_place place.now) places.now) }
{
    if places.len() <= FEW {
        return Ok(is_listed(place, places));
    }
    let has = owners.has(place)?;
    Ok(has)
}

/// Whether the owner of a fault is at one of these places, at which these owners are.
fn is_owned(fault: &Fault, places: &[FilePlace], owners: &Owners) -> Result<bool, AllocError>
    ensures { IfOk result (λ is. AreAt places.now owners.now
        → IsTrue is ↔ IsOwnedAmong places.now fault.now) }
{
    match &fault.owner {
        None => Ok(false),
        Some(owner) => {
            let is_among = is_among(owner, places, owners)?;
            Ok(is_among)
        }
    }
}

/// Those of these faults that are owned by what starts at one of these places.
fn picked(
    alloc: Global,
    places: &[FilePlace],
    faults: &[Shared<Fault>],
) -> Result<Vec<Shared<Fault>>, AllocError>
    ensures { IfOk result (λ owned. Picks (IsOwnedAmong places.now) faults.now owned.items) }
{
    let owners = Owners::at(alloc, places)?;
    let mut owned = Vec::new(alloc);
    for fault in faults {
        let is_owned = is_owned(fault.get(), places, &owners)?;
        if is_owned {
            owned.push(fault.clone()?)?;
        }
    }
    Ok(owned)
}

/// Those of these faults that an operation answers for, in their order: the faults that it owns,
/// and those that the fragments own that it reaches. Where it owns none of them, and no fragment
/// does that it reaches, the faults are not visited: `owners` are asked, which are theirs. If there
/// are no faults, the world is not called.
pub fn owned_faults<W: World>(
    alloc: Global,
    world: &mut W,
    definition: &Definition,
    faults: &[Shared<Fault>],
    owners: &Owners,
) -> Result<Vec<Shared<Fault>>, AllocError>
    ensures facts { W.facts world.new ≡ W.facts world.old }
    ensures names { W.names world.new ≡ W.names world.old }
    ensures lent { W.lent world.new ≡ W.lent world.old }
    ensures owned { IfOk result (λ owned. AreOwnersOf faults.now owners.now
        → Picks (IsOwned (W.facts world.old) definition.now) faults.now owned.items) }
{
    if faults.is_empty() {
        return Ok(Vec::new(alloc));
    }
    let walk = walk_reads(alloc, world, definition)?;
    let places = places_of(alloc, definition, walk.members.as_slice())?;
    let is_any_among = is_any_among(places.as_slice(), owners)?;
    if !is_any_among {
        return Ok(Vec::new(alloc));
    }
    picked(alloc, places.as_slice(), faults)
}
