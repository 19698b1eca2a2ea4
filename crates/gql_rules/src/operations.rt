//! The faults of an operation.
ghost use Rattle.std.specs.Prelude.{◌≡◌, ◌++◌, IfOk, OnOk, flat_map};
ghost use Rattle.gql_facts.specs.Nodes as nodes;
ghost use Rattle.gql_rules.specs.LocalFaults as spec;

use crate::asking::kind_of;
use crate::conditions::composite_by;
use crate::locations::location_of;
use crate::visit::visit_set;
use crate::{directives, p03_subscriptions, p05_mutations_without_a_root, v18_to_v21_values};
use gql_ast::{DirectiveLocation, Fault, FilePlace, Operation, Text, VariableDefinition};
use gql_facts::{Fact, Key, World};
use std::alloc::{AllocError, Global};

/// The name of the type that an operation selects from, by the answer for the root operation type of
/// its kind.
fn selected_by(root: &Fact) -> Result<Option<Text>, AllocError>
    ensures { IfOk result (λ t. t ≡ nodes.root_in root.now) }
{
    match root {
        Fact::Root(name) => Ok(Some(name.get().copy()?)),
        _ => Ok(None),
    }
}

/// A type, if it is known and composite.
fn composite<W: World>(
    alloc: Global,
    world: &mut W,
    of_type: &Option<Text>,
) -> Result<Option<Text>, AllocError>
    ensures facts { W.facts world.new ≡ W.facts world.old }
    ensures names { W.names world.new ≡ W.names world.old }
    ensures lent { W.lent world.new ≡ W.lent world.old }
    ensures parent { IfOk result (λ t. t ≡ nodes.composite (W.facts world.old) of_type.now) }
{
    let Some(of_type) = of_type else {
        return Ok(None);
    };
    let kind = kind_of(alloc, world, of_type)?;
    composite_by(of_type, kind)
}

fn check_variable<W: World>(
    alloc: Global,
    world: &mut W,
    owner: &FilePlace,
    variable: &VariableDefinition,
    faults: &mut Vec<Fault>,
) -> Result<(), AllocError>
    ensures facts { W.facts world.new ≡ W.facts world.old }
    ensures names { W.names world.new ≡ W.names world.old }
    ensures lent { W.lent world.new ≡ W.lent world.old }
    ensures found { OnOk result (faults.new.items ≡ faults.old.items
        ++ spec.variable_faults (W.facts world.old) owner.now variable.now) }
{
    v18_to_v21_values::check_default(alloc, world, owner, variable, faults)?;
    let applied = variable.directives.as_slice();
    let location = DirectiveLocation::VariableDefinition;
    directives::check(alloc, world, owner, location, applied, faults)?;
    Ok(())
}

fn check_variables<W: World>(
    alloc: Global,
    world: &mut W,
    owner: &FilePlace,
    variables: &[VariableDefinition],
    faults: &mut Vec<Fault>,
) -> Result<(), AllocError>
    ensures facts { W.facts world.new ≡ W.facts world.old }
    ensures names { W.names world.new ≡ W.names world.old }
    ensures lent { W.lent world.new ≡ W.lent world.old }
    ensures found { OnOk result (faults.new.items ≡ faults.old.items
        ++ flat_map (spec.variable_faults (W.facts world.old) owner.now) variables.now) }
{
    for variable in variables {
        check_variable(alloc, world, owner, variable, faults)?;
    }
    Ok(())
}

/// Adds the faults of an operation.
pub fn check<W: World>(
    alloc: Global,
    world: &mut W,
    owner: &FilePlace,
    operation: &Operation,
    faults: &mut Vec<Fault>,
) -> Result<(), AllocError>
    ensures facts { W.facts world.new ≡ W.facts world.old }
    ensures names { W.names world.new ≡ W.names world.old }
    ensures lent { W.lent world.new ≡ W.lent world.old }
    ensures found { OnOk result (faults.new.items ≡ faults.old.items
        ++ spec.operation_faults (W.facts world.old) owner.now operation.now) }
{
    let root = world.fact(alloc, &Key::RootOf(operation.kind))?;
    p03_subscriptions::check(alloc, owner, operation, &root, faults)?;
    p05_mutations_without_a_root::check(alloc, owner, operation, &root, faults)?;
    let (at, applied) = (location_of(operation.kind), operation.directives.as_slice());
    directives::check(alloc, world, owner, at, applied, faults)?;
    check_variables(alloc, world, owner, operation.variables.as_slice(), faults)?;
    let selected = selected_by(&root)?;
    let parent = composite(alloc, world, &selected)?;
    visit_set(
        alloc,
        world,
        owner,
        &parent,
        operation.selections.as_slice(),
        faults,
    )?;
    Ok(())
}
