//! S04, Built-In Names: a built-in scalar or directive, or Float, is defined again.
//! <https://spec.graphql.org/October2021/#sec-Schema>
//!
//! At fault: `type Query { a: Int } scalar String`
//! No fault: `type Query { a: Date } scalar Date`
ghost use Rattle.std.specs.Prelude.{◌≡◌, ◌++◌, OnOk, map, flat_map};
ghost use Rattle.gql_faults.specs.Places.{named};
ghost use Rattle.gql_node_rules.specs.Borrowed.{lists};
ghost use Rattle.gql_schema_rules.specs.S04BuiltInNames as spec;

use gql_ast::{Fault, Rule};
use gql_faults::{NamePlace, add_fault_of};
use gql_node_rules::{Nodes, is_float, names_of};
use gql_types::is_same_name;
use std::alloc::{AllocError, Global};

/// Whether a built-in scalar, or Float, has this name.
#[tactic(auto, unfolding(gql_built_in::specs::BuiltIn::scalars, gql_built_in::specs::BuiltInWords::type_of, gql_built_in::specs::BuiltInWords::word))]
fn is_scalar_name(name: &str) -> bool
    ensures { result ≡ spec.is_scalar_name name.now }
{
    is_same_name(name, "Int")
        || is_same_name(name, "String")
        || is_same_name(name, "Boolean")
        || is_same_name(name, "ID")
        || is_float(name)
}

/// Whether a built-in directive has this name.
#[tactic(auto, unfolding(gql_built_in::specs::BuiltIn::directives, gql_built_in::specs::BuiltIn::skip, gql_built_in::specs::BuiltIn::include, gql_built_in::specs::BuiltIn::deprecated, gql_built_in::specs::BuiltIn::specified_by, gql_built_in::specs::BuiltIn::append, gql_built_in::specs::BuiltInWords::directive, gql_built_in::specs::BuiltInWords::word))]
fn is_directive_name(name: &str) -> bool
    ensures { result ≡ spec.is_directive_name name.now }
{
    name == "skip"
        || name == "include"
        || name == "deprecated"
        || name == "specifiedBy"
        || name == "append"
}

/// Adds the fault at the name of a type.
fn check_type(
    alloc: Global,
    name: &NamePlace<'_>,
    faults: &mut Vec<Fault>,
) -> Result<(), AllocError>
    ensures { OnOk result (faults.new.items ≡ faults.old.items
        ++ spec.fault_of_type (named name.now)) }
{
    if is_scalar_name(name.name.as_str()) {
        add_fault_of(alloc, Rule::S04, name, faults)?;
    }
    Ok(())
}

/// Adds the faults at the names of types.
fn check_types(
    alloc: Global,
    names: &[NamePlace<'_>],
    faults: &mut Vec<Fault>,
) -> Result<(), AllocError>
    ensures { OnOk result (faults.new.items
        ≡ faults.old.items ++ flat_map spec.fault_of_type (map named names.now)) }
{
    for name in names {
        check_type(alloc, name, faults)?;
    }
    Ok(())
}

/// Adds the fault at the name of a directive.
fn check_directive(
    alloc: Global,
    name: &NamePlace<'_>,
    faults: &mut Vec<Fault>,
) -> Result<(), AllocError>
    ensures { OnOk result (faults.new.items
        ≡ faults.old.items ++ spec.fault_of_directive (named name.now)) }
{
    if is_directive_name(name.name.as_str()) {
        add_fault_of(alloc, Rule::S04, name, faults)?;
    }
    Ok(())
}

/// Adds the faults at the names of directives.
fn check_directives(
    alloc: Global,
    names: &[NamePlace<'_>],
    faults: &mut Vec<Fault>,
) -> Result<(), AllocError>
    ensures { OnOk result (faults.new.items
        ≡ faults.old.items ++ flat_map spec.fault_of_directive (map named names.now)) }
{
    for name in names {
        check_directive(alloc, name, faults)?;
    }
    Ok(())
}

/// Adds the faults by S04.
pub fn check(alloc: Global, nodes: &Nodes<'_>, faults: &mut Vec<Fault>) -> Result<(), AllocError>
    ensures { OnOk result (faults.new.items ≡ faults.old.items ++ spec.faults (lists nodes.now)) }
{
    let types = names_of(alloc, nodes.types.as_slice())?;
    check_types(alloc, types.as_slice(), faults)?;
    let directives = names_of(alloc, nodes.directives.as_slice())?;
    check_directives(alloc, directives.as_slice(), faults)?;
    Ok(())
}
