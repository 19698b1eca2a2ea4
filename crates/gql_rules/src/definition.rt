//! The faults of one definition.
ghost use Rattle.std.specs.Prelude.{◌≡◌, ◌++◌, IfOk, OnOk};
ghost use Rattle.std.specs.Option.{option_copied};
ghost use Rattle.gql_facts.specs.Members.{Lists};
ghost use Rattle.gql_facts.specs.Reads.{Reaches};
ghost use Rattle.gql_facts.specs.Worlds.{Facts};
ghost use Rattle.gql_rules.specs.LocalFaults as spec;
ghost use Rattle.gql_rules.specs.V16FragmentSpreadsMustNotFormCycles as v16;

use crate::faults::add_fault_of;
use crate::v16_fragment_spreads_must_not_form_cycles::is_cyclic;
use crate::{fragments, operations};
use gql_ast::{Definition, Fault, FilePlace, FileSide, Fragment, Rule, Shared, Tree};
use gql_facts::{FragmentFact, World};
use std::alloc::{AllocError, Global};

/// Where a definition starts.
pub fn owner_of(definition: &Definition) -> Result<FilePlace, AllocError>
    ensures { IfOk result (λ owner. owner ≡ spec.owner_of definition.now) }
{
    Ok(FilePlace {
        side: FileSide::Documents,
        file: definition.file.copy()?,
        place: definition.tree.place(),
    })
}

/// The fragment that a definition is.
fn own_fragment(tree: &Tree) -> Option<&Shared<Fragment>>
    ensures { option_copied result ≡ v16.own_fragment tree.now }
{
    match tree {
        Tree::Fragment(fragment) => Some(fragment),
        _ => None,
    }
}

/// Adds the faults of the parts of a definition.
fn check_parts<W: World>(
    alloc: Global,
    world: &mut W,
    owner: &FilePlace,
    tree: &Tree,
    faults: &mut Vec<Fault>,
) -> Result<(), AllocError>
    ensures facts { W.facts world.new ≡ W.facts world.old }
    ensures names { W.names world.new ≡ W.names world.old }
    ensures lent { W.lent world.new ≡ W.lent world.old }
    ensures found { OnOk result (faults.new.items ≡ faults.old.items
        ++ spec.tree_faults (W.facts world.old) owner.now tree.now) }
{
    match tree {
        Tree::Operation(operation) => {
            operations::check(alloc, world, owner, operation.get(), faults)?
        }
        Tree::Fragment(fragment) => {
            fragments::check(alloc, world, owner, fragment.get(), faults)?
        }
        _ => (),
    }
    Ok(())
}

/// Adds the fault of a fragment that reaches itself, where these are the fragments that it reaches.
fn check_cycle(
    alloc: Global,
    owner: &FilePlace,
    definition: &Definition,
    members: &[FragmentFact],
    faults: &mut Vec<Fault>,
) -> Result<(), AllocError>
    requires { owner.now ≡ spec.owner_of definition.now }
    ensures { OnOk result ((facts : Facts) → Lists members.now (Reaches facts definition.now)
        → spec.AddsCycle facts definition.now faults.old.items faults.new.items) }
{
    let Some(fragment) = own_fragment(&definition.tree) else {
        return Ok(());
    };
    if is_cyclic(definition, fragment, members) {
        add_fault_of(alloc, owner, Rule::V16, &fragment.get().name, faults)?;
    }
    Ok(())
}

/// The faults of an operation or a fragment by the rules on one definition: V04, V07 to V10, V12,
/// V13, V15 to V24, P03 and P05 (GraphQL specification, 5). A definition of the type system has
/// none. The caller has the fragments that the definition reaches. If an allocation fails, the
/// world answers as before.
pub fn local_faults<W: World>(
    alloc: Global,
    world: &mut W,
    definition: &Definition,
    members: &[FragmentFact],
) -> Result<Vec<Fault>, AllocError>
    requires { Lists members.now (Reaches (W.facts world.old) definition.now) }
    ensures facts { W.facts world.new ≡ W.facts world.old }
    ensures names { W.names world.new ≡ W.names world.old }
    ensures lent { W.lent world.new ≡ W.lent world.old }
    ensures found { IfOk result (λ found.
        Lists found.items (spec.IsFault (W.facts world.old) definition.now)) }
{
    let owner = owner_of(definition)?;
    let mut faults = Vec::new(alloc);
    check_parts(alloc, world, &owner, &definition.tree, &mut faults)?;
    check_cycle(alloc, &owner, definition, members, &mut faults)?;
    Ok(faults)
}
