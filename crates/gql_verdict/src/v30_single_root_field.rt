//! V30, Single Root Field: a subscription has no root field, root fields of several response names,
//! or one that is an introspection field.
//! <https://spec.graphql.org/October2021/#sec-Single-root-field>
//!
//! At fault: `subscription A { barked { name } heard }`
//! No fault: `subscription A { barked { name owner { name } } }`
ghost use Rattle.std.specs.Prelude.{◌≡◌, IfOk, map};
ghost use Rattle.gql_facts.specs.Members.{Lists};
ghost use Rattle.gql_facts.specs.Reads.{Reaches};
ghost use Rattle.gql_verdict.specs.V30SingleRootField as spec;

use gql_ast::{Definition, Fault, FilePlace, FileSide, Items, Rule};
use gql_facts::{FragmentFact, World};
use gql_rules::owner_of;
use gql_single_root::{RootFault, single_root_faults};
use std::alloc::{AllocError, Global};

/// Where a fault is.
fn place_of(fault: &RootFault) -> Result<FilePlace, AllocError>
    ensures { IfOk result (λ at. at ≡ spec.place_of fault.now) }
{
    Ok(FilePlace {
        side: FileSide::Documents,
        file: fault.file.copy()?,
        place: fault.place,
    })
}

/// A fault as a report has it, where this is its owner.
fn fault_of(alloc: Global, owner: &FilePlace, fault: &RootFault) -> Result<Fault, AllocError>
    ensures { IfOk result (λ x. x ≡ spec.fault_of owner.now fault.now) }
{
    let mut places = Items::new(alloc);
    places.push(place_of(fault)?)?;
    Ok(Fault {
        rule: Rule::V30,
        about: fault.about.copy()?,
        places,
        owner: Some(owner.copy()?),
    })
}

/// These faults as a report has them, where this is their owner.
fn faults_of(
    alloc: Global,
    owner: &FilePlace,
    found: &[RootFault],
) -> Result<Vec<Fault>, AllocError>
    ensures { IfOk result (λ faults. faults.items ≡ map (spec.fault_of owner.now) found.now) }
{
    let mut faults = Vec::with_capacity(alloc, found.len())?;
    for fault in found {
        faults.push(fault_of(alloc, owner, fault)?)?;
    }
    Ok(faults)
}

/// The faults of a definition by V30, if these are the fragments that it reaches.
pub fn root_faults<W: World>(
    alloc: Global,
    world: &mut W,
    definition: &Definition,
    members: &[FragmentFact],
) -> Result<Vec<Fault>, AllocError>
    requires { Lists members.now (Reaches (W.facts world.old) definition.now) }
    ensures facts { W.facts world.new ≡ W.facts world.old }
    ensures names { W.names world.new ≡ W.names world.old }
    ensures lent { W.lent world.new ≡ W.lent world.old }
    ensures found { IfOk result (λ faults.
        Lists faults.items (spec.IsRootFault (W.facts world.old) definition.now)) }
{
    let found = single_root_faults(alloc, world, definition, members)?;
    let owner = owner_of(definition)?;
    let faults = faults_of(alloc, &owner, found.as_slice())?;
    Ok(faults)
}
