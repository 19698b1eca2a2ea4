//! The faults of an operation by the rules on variables.
ghost use Rattle.std.specs.Prelude.{◌≡◌, ◌++◌, IfOk, OnOk, flat_map};
ghost use Rattle.gql_facts.specs.Members.{Lists as ListsAll};
ghost use Rattle.gql_facts.specs.Reads.{Reaches};
ghost use Rattle.gql_vars.specs.Lists.{type_faults, use_faults};
ghost use Rattle.gql_vars.specs.VariableFaults as spec;

use crate::selections::uses_in;
use crate::tables::first_variables;
use crate::{
    p04_float_variables, usage_nodes, v25_variable_uniqueness, v26_variables_are_input_types,
    v27_all_variable_uses_defined, v28_all_variables_used,
};
use gql_ast::{Definition, Fault, FilePlace, Operation, Tree, VariableDefinition};
use gql_facts::{FragmentFact, World};
use gql_rules::owner_of;
use std::alloc::{AllocError, Global};

/// Adds the faults of the variables' types, by V26 and P04.
fn check_types<W: World>(
    alloc: Global,
    world: &mut W,
    owner: &FilePlace,
    variables: &[VariableDefinition],
    faults: &mut Vec<Fault>,
) -> Result<(), AllocError>
    ensures facts { W.facts world.new ≡ W.facts world.old }
    ensures names { W.names world.new ≡ W.names world.old }
    ensures lent { W.lent world.new ≡ W.lent world.old }
    ensures found { OnOk result (faults.new.items ≡ faults.old.items
        ++ flat_map (type_faults (W.facts world.old) owner.now) variables.now) }
{
    for variable in variables {
        v26_variables_are_input_types::check(alloc, world, owner, variable, faults)?;
        p04_float_variables::check(alloc, world, owner, variable, faults)?;
    }
    Ok(())
}

/// Adds the faults by V27 and V28, by the fragments that the operation reaches.
fn check_uses(
    alloc: Global,
    owner: &FilePlace,
    definition: &Definition,
    members: &[FragmentFact],
    variables: &[VariableDefinition],
    faults: &mut Vec<Fault>,
) -> Result<(), AllocError>
    ensures { OnOk result (faults.new.items ≡ faults.old.items
        ++ use_faults owner.now definition.now members.now variables.now) }
{
    let first = first_variables(alloc, variables)?;
    let uses = uses_in(alloc, definition, members)?;
    v27_all_variable_uses_defined::check(alloc, owner, &first, uses.as_slice(), faults)?;
    v28_all_variables_used::check(alloc, owner, variables, &first, uses.as_slice(), faults)?;
    Ok(())
}

/// The faults of an operation, which is the definition.
fn operation_faults<W: World>(
    alloc: Global,
    world: &mut W,
    definition: &Definition,
    operation: &Operation,
    members: &[FragmentFact],
) -> Result<Vec<Fault>, AllocError>
    requires { ListsAll members.now (Reaches (W.facts world.old) definition.now) }
    ensures facts { W.facts world.new ≡ W.facts world.old }
    ensures names { W.names world.new ≡ W.names world.old }
    ensures lent { W.lent world.new ≡ W.lent world.old }
    ensures found { IfOk result (λ found.
        ListsAll found.items (spec.IsFaultOf (W.facts world.old) definition.now operation.now)) }
{
    let owner = owner_of(definition)?;
    let variables = operation.variables.as_slice();
    let mut faults = Vec::new(alloc);
    v25_variable_uniqueness::check(alloc, &owner, variables, &mut faults)?;
    check_types(alloc, world, &owner, variables, &mut faults)?;
    check_uses(alloc, &owner, definition, members, variables, &mut faults)?;
    let file = &definition.file;
    usage_nodes::check(alloc, world, &owner, file, operation, members, &mut faults)?;
    Ok(faults)
}

/// The faults of an operation by the rules on its variables: V25 to V29 and P04 (GraphQL
/// specification, 5.8). Another definition has none. The caller has the fragments that the
/// definition reaches. If an allocation fails, the world answers as before.
pub fn variable_faults<W: World>(
    alloc: Global,
    world: &mut W,
    definition: &Definition,
    members: &[FragmentFact],
) -> Result<Vec<Fault>, AllocError>
    requires { ListsAll members.now (Reaches (W.facts world.old) definition.now) }
    ensures facts { W.facts world.new ≡ W.facts world.old }
    ensures names { W.names world.new ≡ W.names world.old }
    ensures lent { W.lent world.new ≡ W.lent world.old }
    ensures found { IfOk result (λ found.
        ListsAll found.items (spec.IsVariableFault (W.facts world.old) definition.now)) }
{
    match &definition.tree {
        Tree::Operation(operation) => {
            let faults = operation_faults(alloc, world, definition, operation.get(), members)?;
            Ok(faults)
        }
        _ => Ok(Vec::new(alloc)),
    }
}
