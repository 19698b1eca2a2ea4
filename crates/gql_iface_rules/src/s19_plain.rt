//! Default values that hold no object, so that they need no other default value.
ghost use Rattle.std.specs.Prelude.{◌≡◌, false};
ghost use Rattle.std.specs.List.{All};
ghost use Rattle.gql_iface_rules.specs.S19Plain as spec;

use crate::s19_inputs::Input;
use gql_ast::Literal;
use gql_types::{Batched, SchemaType};

/// Whether a value is a list or an object.
#[tactic(auto, using(crate::proofs::S19Equations::object_values_variable, crate::proofs::S19Equations::object_values_int, crate::proofs::S19Equations::object_values_float, crate::proofs::S19Equations::object_values_string, crate::proofs::S19Equations::object_values_boolean, crate::proofs::S19Equations::object_values_null, crate::proofs::S19Equations::object_values_enum))]
fn is_compound(value: &Literal) -> bool
    ensures { result ≡ false → spec.HoldsNone value.now }
{
    match value {
        Literal::List { .. } | Literal::Object { .. } => true,
        Literal::Variable { .. }
        | Literal::Int { .. }
        | Literal::Float { .. }
        | Literal::String { .. }
        | Literal::Boolean { .. }
        | Literal::Null { .. }
        | Literal::Enum { .. } => false,
    }
}

/// Whether one of these values is a list or an object.
fn is_any_compound(values: &[Literal]) -> bool
    ensures { result ≡ false → All spec.HoldsNone values.now }
{
    for value in values {
        if is_compound(value) {
            return true;
        }
    }
    false
}

/// Whether a value may hold an object.
fn may_hold(value: &Literal) -> bool
    ensures { result ≡ false → spec.HoldsNone value.now }
{
    match value {
        Literal::List { items, .. } => is_any_compound(items.as_slice()),
        Literal::Object { .. }
        | Literal::Variable { .. }
        | Literal::Int { .. }
        | Literal::Float { .. }
        | Literal::String { .. }
        | Literal::Boolean { .. }
        | Literal::Null { .. }
        | Literal::Enum { .. } => is_compound(value),
    }
}

/// Whether the default value of a field may hold an object.
fn may_need(field: &Input) -> bool
    ensures { result ≡ false → spec.NeedsNone field.now }
{
    match &field.node.get().default {
        Some(default) => may_hold(default),
        None => false,
    }
}

/// Whether the default value of one of these fields may hold an object.
fn may_any_need(fields: &[Input]) -> bool
    ensures { result ≡ false → All spec.NeedsNone fields.now }
{
    for field in fields {
        if may_need(field) {
            return true;
        }
    }
    false
}

/// Whether a default value of one of these types may hold an object.
pub fn may_types_need(types: &[Batched<SchemaType>]) -> bool
    ensures { result ≡ false → All spec.TypeNeedsNone types.now }
{
    for of_type in types {
        if may_any_need(of_type.get().input_fields.as_slice()) {
            return true;
        }
    }
    false
}
