//! S13, Missing Arguments: an argument of the interface's field is missing, or its type differs.
//! <https://spec.graphql.org/October2021/#sec-Objects>
//! <https://spec.graphql.org/October2021/#sec-Interfaces>
//!
//! At fault: `interface N { a(b: Int): Int } type Query implements N { a: Int }`
//! No fault: `interface N { a(b: Int): Int } type Query implements N { a(b: Int): Int }`
ghost use Rattle.std.specs.Prelude.{◌≡◌, ◌↔◌, ◌++◌, IsTrue, OnOk, map, flat_map};
ghost use Rattle.gql_iface_rules.specs.Borrowed.{pair};
ghost use Rattle.gql_iface_rules.specs.S13MissingArguments as spec;
ghost use Rattle.gql_types.specs.Written.{written};

use crate::arguments::{Arguments, argument_in, arguments_of};
use crate::implementing::FieldPair;
use gql_ast::{Fault, InputValueDefinition, Rule, Shared, TypeRef};
use gql_built_in::Sited;
use gql_faults::{NamePlace, add_fault_between};
use gql_types::HasName;
use std::alloc::{AllocError, Global};

/// Whether two types are written the same (GraphQL 2.11).
#[tactic(auto, using(gql_types::specs::Written::written_named, gql_types::specs::Written::written_list, gql_types::specs::Written::written_non_null, crate::proofs::Types::named_same))]
fn is_same_type(of_type: &TypeRef, other: &TypeRef) -> bool
    ensures value { result ≡ spec.is_same_type (written of_type.now) (written other.now) }
    ensures same { IsTrue result ↔ (written of_type.now ≡ written other.now) }
{
    match of_type {
        TypeRef::Named(name) => match other {
            TypeRef::Named(other) => name.as_str() == other.as_str(),
            TypeRef::List { .. } | TypeRef::NonNull(_) => false,
        },
        TypeRef::List { item, .. } => match other {
            TypeRef::List { item: other, .. } => is_same_type(item.get(), other.get()),
            TypeRef::Named(_) | TypeRef::NonNull(_) => false,
        },
        TypeRef::NonNull(of_type) => match other {
            TypeRef::NonNull(other) => is_same_type(of_type.get(), other.get()),
            TypeRef::Named(_) | TypeRef::List { .. } => false,
        },
    }
}

/// Whether one of these arguments has the argument's name, and the first of them its type.
fn has_argument(own: &Arguments, expected: &Sited<Shared<InputValueDefinition>>) -> bool
    ensures { result ≡ spec.has_argument own.now expected.now }
{
    match argument_in(own, expected.name()) {
        Some(argument) => is_same_type(&argument.node.get().of_type, &expected.node.get().of_type),
        None => false,
    }
}

/// Adds the fault for an argument of the interface's field, unless the type's field has it.
fn check_argument(
    alloc: Global,
    fields: &FieldPair<'_>,
    own: &Arguments,
    expected: &Sited<Shared<InputValueDefinition>>,
    faults: &mut Vec<Fault>,
) -> Result<(), AllocError>
    ensures { OnOk result (faults.new.items
        ≡ faults.old.items ++ spec.missing_argument (pair fields.now) own.now expected.now) }
{
    if has_argument(own, expected) {
        return Ok(());
    }
    let first = NamePlace::of_node(fields.own).spot();
    let second = NamePlace::of_node(fields.expected).spot();
    add_fault_between(alloc, Rule::S13, expected.name(), &first, &second, faults)
}

/// Adds the faults for these arguments of the interface's field.
fn check_arguments(
    alloc: Global,
    fields: &FieldPair<'_>,
    own: &Arguments,
    expected: &[Sited<Shared<InputValueDefinition>>],
    faults: &mut Vec<Fault>,
) -> Result<(), AllocError>
    ensures { OnOk result (faults.new.items ≡ faults.old.items
        ++ flat_map (spec.missing_argument (pair fields.now) own.now) expected.now) }
{
    for argument in expected {
        check_argument(alloc, fields, own, argument, faults)?;
    }
    Ok(())
}

/// Adds the faults of two fields.
fn check_pair(
    alloc: Global,
    fields: &FieldPair<'_>,
    faults: &mut Vec<Fault>,
) -> Result<(), AllocError>
    ensures { OnOk result (faults.new.items
        ≡ faults.old.items ++ spec.missing_arguments (pair fields.now)) }
{
    if fields.expected.node.get().arguments.is_empty() {
        return Ok(());
    }
    let own = arguments_of(alloc, fields.own)?;
    let expected = arguments_of(alloc, fields.expected)?;
    check_arguments(alloc, fields, &own, expected.as_slice(), faults)
}

/// Adds the faults by S13, of these pairs of fields.
pub fn check(
    alloc: Global,
    pairs: &[FieldPair<'_>],
    faults: &mut Vec<Fault>,
) -> Result<(), AllocError>
    ensures { OnOk result (faults.new.items
        ≡ faults.old.items ++ flat_map spec.missing_arguments (map pair pairs.now)) }
{
    for fields in pairs {
        check_pair(alloc, fields, faults)?;
    }
    Ok(())
}
