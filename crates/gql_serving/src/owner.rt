//! The owners of faults, as sets that are asked for places.

ghost use Rattle.std.specs.Prelude.{◌≡◌, ◌↔◌, ◌++◌, ◌||◌, IfOk, OnOk, IsTrue};
ghost use Rattle.std.specs.Hash as fed;
ghost use Rattle.std.specs.HashSet.{contains};
ghost use Rattle.gql_ast.specs.declared.fault.FilePlace.{FilePlace as ThePlace};
ghost use Rattle.gql_serving.specs.Owners.{AreAt, AreOwnersOf, is_owner, same_place};
ghost use Rattle.gql_serving.specs.SamePlaces.{same_place_equiv, same_place_hashes, same_place_partial};

use gql_ast::{Fault, FilePlace, Shared};
use gql_report::place_cmp;
use std::alloc::{AllocError, Global};
use std::collections::HashSet;
use std::hash::{Hash, Hasher};
use std::marker::Model;

/// The place of an owner. Contracts see the place.
#[derive(Drop)]
struct Owner {
    place: FilePlace,
}

impl Model for Owner {
    ghost use Rattle.gql_ast.specs.declared.fault.FilePlace.{FilePlace};
    ghost use Rattle.gql_ast.specs.contracts.fault.FilePlace as contracts;
    ghost use Rattle.std.specs.Coded.{codes};

    ghost Value = { FilePlace };

    ghost coded = { Prim.hlevel (codes, contracts.the_row.coded) };

    ghost view = { λ o. o.place };
}

impl PartialEq for Owner {
    ghost eq = { same_place };

    ghost laws = { same_place_partial };

    fn eq(&self, other: &Owner) -> bool {
        place_cmp(&self.place, &other.place).is_eq()
    }
}

impl Eq for Owner {
    ghost laws = { same_place_equiv };
}

impl Hash for Owner {
    ghost hash_input = { λ p. fed.str p.file ++ fed.usize p.place.offset };

    ghost respects_eq = { same_place_hashes };

    fn hash<H: Hasher>(&self, state: &mut H) {
        self.place.file.as_str().hash(state);
        state.write_usize(self.place.place.offset);
    }
}

/// The owners of faults.
#[derive(Drop)]
pub struct Owners {
    places: HashSet<Owner>,
}

/// Adds the owner of a fault, if it has one.
fn add_owner(fault: &Fault, places: &mut HashSet<Owner>) -> Result<(), AllocError>
    ensures { OnOk result ((p : ThePlace) → contains same_place places.new p
        ≡ (is_owner p fault.now || contains same_place places.old p)) }
{
    if let Some(owner) = &fault.owner {
        places.insert(Owner {
            place: owner.copy()?,
        })?;
    }
    Ok(())
}

impl Owners {
    /// The owners of these faults.
    pub fn new(alloc: Global, faults: &[Shared<Fault>]) -> Result<Owners, AllocError>
        ensures { IfOk result (AreOwnersOf faults.now) }
    {
        let mut places = HashSet::new(alloc);
        for fault in faults {
            add_owner(fault.get(), &mut places)?;
        }
        Ok(Owners { places })
    }

    /// The owners at these places.
    pub(crate) fn at(alloc: Global, owners: &[FilePlace]) -> Result<Owners, AllocError>
        ensures { IfOk result (AreAt owners.now) }
    {
        let mut places = HashSet::new(alloc);
        for owner in owners {
            places.insert(Owner {
                place: owner.copy()?,
            })?;
        }
        Ok(Owners { places })
    }

    /// Whether the owner at a place is one of them.
    pub(crate) fn has(&self, place: &FilePlace) -> Result<bool, AllocError>
        ensures { IfOk result (λ has. has ≡ contains same_place self.now.places place.now) }
    {
        let owner = Owner {
            place: place.copy()?,
        };
        Ok(self.places.contains(&owner))
    }
}
