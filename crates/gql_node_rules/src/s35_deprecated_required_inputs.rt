//! S35, Deprecated Required Inputs: a required argument or input field is deprecated.
//! It is a rule of later editions of the specification.
//!
//! At fault: `type Query { a(b: Int! @deprecated): Int }`
//! No fault: `type Query { a(b: Int @deprecated): Int }`
ghost use Rattle.std.specs.Prelude.{◌≡◌, ◌++◌, OnOk, map, flat_map};
ghost use Rattle.gql_node_rules.specs.Borrowed.{lists, one};
ghost use Rattle.gql_node_rules.specs.S35DeprecatedRequiredInputs as spec;

use crate::node::Node;
use crate::nodes::Nodes;
use gql_ast::{Directive, Fault, InputValueDefinition, Rule};
use gql_faults::{Spot, add_fault, is_required};
use std::alloc::{AllocError, Global};

/// Adds the fault of a directive on a required argument or input field.
fn check_directive(
    alloc: Global,
    input: &Node<'_, InputValueDefinition>,
    directive: &Directive,
    faults: &mut Vec<Fault>,
) -> Result<(), AllocError>
    ensures { OnOk result (faults.new.items ≡ faults.old.items
        ++ spec.fault_of_directive (one input.now) directive.now) }
{
    if "deprecated" == directive.name.as_str() {
        let at = Spot {
            file: Some(input.file),
            place: directive.place,
        };
        add_fault(alloc, Rule::S35, input.node.name.as_str(), &at, faults)?;
    }
    Ok(())
}

/// Adds the faults of a required argument or input field.
fn check_required(
    alloc: Global,
    input: &Node<'_, InputValueDefinition>,
    faults: &mut Vec<Fault>,
) -> Result<(), AllocError>
    ensures { OnOk result (faults.new.items ≡ faults.old.items
        ++ flat_map (spec.fault_of_directive (one input.now)) input.now.node.now.directives) }
{
    for directive in input.node.directives.as_slice() {
        check_directive(alloc, input, directive, faults)?;
    }
    Ok(())
}

fn check_input(
    alloc: Global,
    input: &Node<'_, InputValueDefinition>,
    faults: &mut Vec<Fault>,
) -> Result<(), AllocError>
    ensures { OnOk result (faults.new.items ≡ faults.old.items
        ++ spec.faults_of_input (one input.now)) }
{
    if is_required(input.node) {
        check_required(alloc, input, faults)?;
    }
    Ok(())
}

fn check_inputs(
    alloc: Global,
    inputs: &[Node<'_, InputValueDefinition>],
    faults: &mut Vec<Fault>,
) -> Result<(), AllocError>
    ensures { OnOk result (faults.new.items ≡ faults.old.items
        ++ flat_map spec.faults_of_input (map one inputs.now)) }
{
    for input in inputs {
        check_input(alloc, input, faults)?;
    }
    Ok(())
}

/// Adds the faults by S35.
pub fn check(alloc: Global, nodes: &Nodes<'_>, faults: &mut Vec<Fault>) -> Result<(), AllocError>
    ensures { OnOk result (faults.new.items ≡ faults.old.items ++ spec.faults (lists nodes.now)) }
{
    check_inputs(alloc, nodes.arguments.as_slice(), faults)?;
    check_inputs(alloc, nodes.input_fields.as_slice(), faults)?;
    Ok(())
}
