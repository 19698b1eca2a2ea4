//! S15, Incompatible Field Types: a field's type is not covariant with the interface's.
//! <https://spec.graphql.org/October2021/#sec-Objects>
//! <https://spec.graphql.org/October2021/#sec-Interfaces>
//!
//! At fault: `interface N { a: Int! } type Query implements N { a: Int }`
//! No fault: `interface N { a: Int } type Query implements N { a: Int! }`
ghost use Rattle.std.specs.Prelude.{◌≡◌, ◌++◌, IfOk, OnOk, map, flat_map};
ghost use Rattle.std.specs.List.{list_all};
ghost use Rattle.gql_iface_rules.specs.Borrowed.{pair};
ghost use Rattle.gql_iface_rules.specs.KnownNames.{is_answered};
ghost use Rattle.gql_iface_rules.specs.S15IncompatibleFieldTypes as spec;

use crate::implementing::FieldPair;
use gql_ast::{Fault, Rule};
use gql_faults::{NamePlace, add_fault_between};
use gql_types::{HasName, Schema};
use std::alloc::{AllocError, Global};

/// Whether the answer is no.
fn is_no(answer: Option<bool>) -> bool
    ensures { result ≡ spec.is_no answer }
{
    match answer {
        Some(answer) => !answer,
        None => false,
    }
}

/// Adds the fault of two fields. The result is whether it is known if their types are covariant.
fn check_pair(
    alloc: Global,
    schema: &Schema,
    fields: &FieldPair<'_>,
    faults: &mut Vec<Fault>,
) -> Result<bool, AllocError>
    ensures faults { OnOk result (faults.new.items
        ≡ faults.old.items ++ spec.incompatible_field_type schema.now (pair fields.now)) }
    ensures answered { IfOk result (λ answered.
        answered ≡ is_answered schema.now (pair fields.now)) }
{
    let own = &fields.own.node.get().of_type;
    let expected = &fields.expected.node.get().of_type;
    let answer = schema.is_covariant(own, expected);
    if is_no(answer) {
        let first = NamePlace::of_node(fields.own).spot();
        let second = NamePlace::of_node(fields.expected).spot();
        let name = fields.expected.name();
        add_fault_between(alloc, Rule::S15, name, &first, &second, faults)?;
    }
    Ok(answer.is_some())
}

/// Adds the faults by S15, of these pairs of fields. The result is whether it is known of all of
/// them if their types are covariant.
pub fn check(
    alloc: Global,
    schema: &Schema,
    pairs: &[FieldPair<'_>],
    faults: &mut Vec<Fault>,
) -> Result<bool, AllocError>
    ensures faults { OnOk result (faults.new.items ≡ faults.old.items
        ++ flat_map (spec.incompatible_field_type schema.now) (map pair pairs.now)) }
    ensures answered { IfOk result (λ answered.
        answered ≡ list_all (is_answered schema.now) (map pair pairs.now)) }
{
    let mut are_answered = true;
    for fields in pairs {
        let is_answered = check_pair(alloc, schema, fields, faults)?;
        are_answered = are_answered && is_answered;
    }
    Ok(are_answered)
}
