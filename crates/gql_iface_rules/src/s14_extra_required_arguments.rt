//! S14, Extra Required Arguments: a required argument is not one of the interface's field.
//! <https://spec.graphql.org/October2021/#sec-Objects>
//! <https://spec.graphql.org/October2021/#sec-Interfaces>
//!
//! At fault: `interface N { a: Int } type Query implements N { a(b: Int!): Int }`
//! No fault: `interface N { a: Int } type Query implements N { a(b: Int): Int }`
ghost use Rattle.std.specs.Prelude.{◌≡◌, ◌++◌, OnOk, map, flat_map};
ghost use Rattle.gql_iface_rules.specs.Borrowed.{pair};
ghost use Rattle.gql_iface_rules.specs.S14ExtraRequiredArguments as spec;

use crate::arguments::{Arguments, argument_in, arguments_of};
use crate::implementing::FieldPair;
use gql_ast::{Fault, InputValueDefinition, Rule, Shared};
use gql_built_in::Sited;
use gql_faults::{NamePlace, add_fault_between, is_required};
use gql_types::HasName;
use std::alloc::{AllocError, Global};

/// Whether the argument is required and none of these arguments has its name.
fn is_extra(expected: &Arguments, argument: &Sited<Shared<InputValueDefinition>>) -> bool
    ensures { result ≡ spec.is_extra expected.now argument.now }
{
    match argument_in(expected, argument.name()) {
        Some(_expected) => false,
        None => is_required(argument.node.get()),
    }
}

/// Adds the fault of an argument of the type's field.
fn check_argument(
    alloc: Global,
    fields: &FieldPair<'_>,
    expected: &Arguments,
    argument: &Sited<Shared<InputValueDefinition>>,
    faults: &mut Vec<Fault>,
) -> Result<(), AllocError>
    ensures { OnOk result (faults.new.items ≡ faults.old.items
        ++ spec.extra_required_argument (pair fields.now) expected.now argument.now) }
{
    if !is_extra(expected, argument) {
        return Ok(());
    }
    let first = NamePlace::of_node(argument).spot();
    let second = NamePlace::of_node(fields.expected).spot();
    add_fault_between(alloc, Rule::S14, argument.name(), &first, &second, faults)
}

/// Adds the faults of these arguments of the type's field.
fn check_arguments(
    alloc: Global,
    fields: &FieldPair<'_>,
    expected: &Arguments,
    arguments: &[Sited<Shared<InputValueDefinition>>],
    faults: &mut Vec<Fault>,
) -> Result<(), AllocError>
    ensures { OnOk result (faults.new.items ≡ faults.old.items
        ++ flat_map (spec.extra_required_argument (pair fields.now) expected.now) arguments.now) }
{
    for argument in arguments {
        check_argument(alloc, fields, expected, argument, faults)?;
    }
    Ok(())
}

/// Adds the faults of two fields.
fn check_pair(
    alloc: Global,
    fields: &FieldPair<'_>,
    faults: &mut Vec<Fault>,
) -> Result<(), AllocError>
    ensures { OnOk result (faults.new.items
        ≡ faults.old.items ++ spec.extra_required_arguments (pair fields.now)) }
{
    if fields.own.node.get().arguments.is_empty() {
        return Ok(());
    }
    let expected = arguments_of(alloc, fields.expected)?;
    let own = arguments_of(alloc, fields.own)?;
    check_arguments(alloc, fields, &expected, own.as_slice(), faults)
}

/// Adds the faults by S14, of these pairs of fields.
pub fn check(
    alloc: Global,
    pairs: &[FieldPair<'_>],
    faults: &mut Vec<Fault>,
) -> Result<(), AllocError>
    ensures { OnOk result (faults.new.items
        ≡ faults.old.items ++ flat_map spec.extra_required_arguments (map pair pairs.now)) }
{
    for fields in pairs {
        check_pair(alloc, fields, faults)?;
    }
    Ok(())
}
