//! Faults at two fields.
ghost use Rattle.std.specs.Prelude.{◌≡◌, ◌++◌, ◌∷◌, [], IfOk, OnOk};
ghost use Rattle.gql_merge.specs.Conflicts as conflicts;
ghost use Rattle.gql_merge.specs.Known.{info_in};
ghost use Rattle.gql_merge.specs.MergedNodes.{is_before as is_before_it};
ghost use Rattle.gql_merge.specs.PairFaults as spec;

use crate::columns::own_name;
use crate::flat::FlatField;
use gql_ast::{Fault, FilePlace, FileSide, Items, Rule, Shared};
use std::alloc::{AllocError, Global};
use std::cmp::Ordering;

/// Whether a field is before another: by the names of their files, then by their places.
pub fn is_before(first: &FlatField<'_>, second: &FlatField<'_>) -> bool
    ensures { result ≡ is_before_it (info_in first.now.known) (info_in second.now.known) }
{
    let start = own_name(first.known.field).place.offset;
    let other = own_name(second.known.field).place.offset;
    match first.known.file.cmp(second.known.file) {
        Ordering::Less => true,
        Ordering::Equal => start < other,
        Ordering::Greater => false,
    }
}

/// Where a field starts.
pub fn place_of(field: &FlatField<'_>) -> Result<FilePlace, AllocError>
    ensures { IfOk result (λ at. at ≡ conflicts.place_of (info_in field.now.known)) }
{
    Ok(FilePlace {
        side: FileSide::Documents,
        file: field.known.file.copy()?,
        place: own_name(field.known.field).place,
    })
}

/// Two places, in a list that has room for no more.
fn two_places(
    alloc: Global,
    first: FilePlace,
    second: FilePlace,
) -> Result<Items<FilePlace>, AllocError>
    ensures { IfOk result (λ places. places ≡ first ∷ second ∷ []) }
{
    let mut places = Vec::with_capacity(alloc, 2)?;
    places.push(first)?;
    places.push(second)?;
    Ok(Items::from_vec(places))
}

fn fault_of_pair(
    alloc: Global,
    owner: &FilePlace,
    rule: Rule,
    first: &FlatField<'_>,
    second: &FlatField<'_>,
) -> Result<Shared<Fault>, AllocError>
    ensures { IfOk result (λ f. f ≡ conflicts.fault_of_pair owner.now rule
        (info_in first.now.known) (info_in second.now.known)) }
{
    let fault = Fault {
        rule,
        about: own_name(first.known.field).text.copy()?,
        places: two_places(alloc, place_of(first)?, place_of(second)?)?,
        owner: Some(owner.copy()?),
    };
    Shared::new(alloc, fault)
}

/// Adds the fault of two fields, in their order. There may be many, so each is put at once where it
/// can be shared.
pub fn add_fault_of_pair(
    alloc: Global,
    owner: &FilePlace,
    rule: Rule,
    first: &FlatField<'_>,
    second: &FlatField<'_>,
    faults: &mut Vec<Shared<Fault>>,
) -> Result<(), AllocError>
    ensures { OnOk result (faults.new.items ≡ faults.old.items
        ++ spec.ordered_fault owner.now rule (info_in first.now.known)
        (info_in second.now.known) ∷ []) }
{
    if is_before(first, second) {
        faults.push(fault_of_pair(alloc, owner, rule, first, second)?)?;
    } else {
        faults.push(fault_of_pair(alloc, owner, rule, second, first)?)?;
    }
    Ok(())
}
