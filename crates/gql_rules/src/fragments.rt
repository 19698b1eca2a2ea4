//! The faults of a fragment.
ghost use Rattle.std.specs.Prelude.{◌≡◌, ◌++◌, OnOk};
ghost use Rattle.gql_rules.specs.LocalFaults as spec;

use crate::conditions::check_condition;
use crate::directives;
use crate::visit::visit_set;
use gql_ast::{DirectiveLocation, Fault, FilePlace, Fragment};
use gql_facts::World;
use std::alloc::{AllocError, Global};

/// Adds the faults of a fragment, without those of what it reaches.
pub fn check<W: World>(
    alloc: Global,
    world: &mut W,
    owner: &FilePlace,
    fragment: &Fragment,
    faults: &mut Vec<Fault>,
) -> Result<(), AllocError>
    ensures facts { W.facts world.new ≡ W.facts world.old }
    ensures names { W.names world.new ≡ W.names world.old }
    ensures lent { W.lent world.new ≡ W.lent world.old }
    ensures found { OnOk result (faults.new.items ≡ faults.old.items
        ++ spec.fragment_faults (W.facts world.old) owner.now fragment.now) }
{
    let parent = check_condition(alloc, world, owner, &fragment.condition, faults)?;
    let applied = fragment.directives.as_slice();
    let location = DirectiveLocation::FragmentDefinition;
    directives::check(alloc, world, owner, location, applied, faults)?;
    visit_set(
        alloc,
        world,
        owner,
        &parent,
        fragment.selections.as_slice(),
        faults,
    )?;
    Ok(())
}
