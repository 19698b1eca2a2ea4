//! Faults that several lists share.
ghost use Rattle.std.specs.Prelude.{◌≡◌, ◌++◌, IfOk, OnOk};

use gql_ast::{Fault, FilePlace, Items, Shared};
use std::alloc::{AllocError, Global};

/// These places, in a list that has room for no more.
fn fitted_places(alloc: Global, places: &[FilePlace]) -> Result<Items<FilePlace>, AllocError>
    ensures { IfOk result (λ fitted. fitted ≡ places.now) }
{
    let mut fitted = Vec::with_capacity(alloc, places.len())?;
    for place in places {
        fitted.push(place.copy()?)?;
    }
    Ok(Items::from_vec(fitted))
}

/// The fault, in as little memory as it needs: a list of places that grew has room for four, and a
/// place takes more memory than all else that a fault is made of. The faults of pairs of fields come
/// with a list of its length.
fn fitted(alloc: Global, fault: Fault) -> Result<Fault, AllocError>
    ensures { IfOk result (λ fitted. fitted ≡ fault) }
{
    let mut fitted = fault;
    let places = fitted_places(alloc, fitted.places.as_slice())?;
    fitted.places = places;
    Ok(fitted)
}

/// Moves faults to the end of a list whose faults can be shared.
pub fn share_into(
    alloc: Global,
    faults: Vec<Fault>,
    shared: &mut Vec<Shared<Fault>>,
) -> Result<(), AllocError>
    ensures { OnOk result (shared.new.items ≡ shared.old.items ++ faults.items) }
{
    for fault in faults {
        let fault = fitted(alloc, fault)?;
        shared.push(Shared::new(alloc, fault)?)?;
    }
    Ok(())
}

/// Moves faults that can be shared to the end of a list.
pub fn add_shared(
    more: Vec<Shared<Fault>>,
    shared: &mut Vec<Shared<Fault>>,
) -> Result<(), AllocError>
    ensures { OnOk result (shared.new.items ≡ shared.old.items ++ more.items) }
{
    let mut more = more;
    shared.append(&mut more)
}

/// These faults, so that they can be shared.
pub fn shared_faults(alloc: Global, faults: Vec<Fault>) -> Result<Vec<Shared<Fault>>, AllocError>
    ensures { IfOk result (λ shared. shared.items ≡ faults.items) }
{
    let mut shared = Vec::new(alloc);
    share_into(alloc, faults, &mut shared)?;
    Ok(shared)
}
