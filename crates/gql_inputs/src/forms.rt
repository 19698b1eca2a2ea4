//! What a value is, whatever is expected of it.
ghost use Rattle.std.specs.Prelude.{◌≡◌};
ghost use Rattle.gql_inputs.specs.Values as spec;

use gql_ast::Literal;
use gql_text::Place;

/// Where a value starts.
#[tactic(auto, using(crate::proofs::ValueForms::value_variable, crate::proofs::ValueForms::value_int, crate::proofs::ValueForms::value_float, crate::proofs::ValueForms::value_string, crate::proofs::ValueForms::value_boolean, crate::proofs::ValueForms::value_null, crate::proofs::ValueForms::value_enum, crate::proofs::ValueForms::value_list, crate::proofs::ValueForms::value_object))]
pub fn place_of(value: &Literal) -> Place
    ensures { result ≡ spec.place_of (spec.value_of value.now) }
{
    match value {
        Literal::Variable { place, .. }
        | Literal::Int { place, .. }
        | Literal::Float { place, .. }
        | Literal::String { place, .. }
        | Literal::Boolean { place, .. }
        | Literal::Null { place }
        | Literal::Enum { place, .. }
        | Literal::List { place, .. }
        | Literal::Object { place, .. } => *place,
    }
}

/// Whether a value is `null`.
#[tactic(auto, using(crate::proofs::ValueForms::value_variable, crate::proofs::ValueForms::value_int, crate::proofs::ValueForms::value_float, crate::proofs::ValueForms::value_string, crate::proofs::ValueForms::value_boolean, crate::proofs::ValueForms::value_null, crate::proofs::ValueForms::value_enum, crate::proofs::ValueForms::value_list, crate::proofs::ValueForms::value_object))]
pub fn is_null(value: &Literal) -> bool
    ensures { result ≡ spec.is_null (spec.value_of value.now) }
{
    match value {
        Literal::Null { .. } => true,
        Literal::Variable { .. }
        | Literal::Int { .. }
        | Literal::Float { .. }
        | Literal::String { .. }
        | Literal::Boolean { .. }
        | Literal::Enum { .. }
        | Literal::List { .. }
        | Literal::Object { .. } => false,
    }
}

/// Whether a value may be an item where lists are expected: a list, `null` or a variable (3.11).
#[tactic(auto, using(crate::proofs::ValueForms::value_variable, crate::proofs::ValueForms::value_int, crate::proofs::ValueForms::value_float, crate::proofs::ValueForms::value_string, crate::proofs::ValueForms::value_boolean, crate::proofs::ValueForms::value_null, crate::proofs::ValueForms::value_enum, crate::proofs::ValueForms::value_list, crate::proofs::ValueForms::value_object))]
pub fn may_be_list(value: &Literal) -> bool
    ensures { result ≡ spec.may_be_list (spec.value_of value.now) }
{
    match value {
        Literal::List { .. } | Literal::Null { .. } | Literal::Variable { .. } => true,
        Literal::Int { .. }
        | Literal::Float { .. }
        | Literal::String { .. }
        | Literal::Boolean { .. }
        | Literal::Enum { .. }
        | Literal::Object { .. } => false,
    }
}
