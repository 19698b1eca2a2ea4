//! The values of JSON, by their forms (GraphQL specification, 3.5 to 3.12).
ghost use Rattle.std.specs.Prelude.{◌≡◌, ℕ, suc, IfOk, option_map};
ghost use Rattle.std.specs.Option.{option_copied};
ghost use Rattle.gql_types.specs.Written.{written};
ghost use Rattle.serde_json.specs.View.{view, number_view};
ghost use Rattle.gql_coerce.specs.Coercion.{coerced as levels_of};
ghost use Rattle.gql_coerce.specs.Frames.{focus_at};
ghost use Rattle.gql_coerce.specs.Inputs.{json_input, of_number, may_be_list as input_may_be_list};
ghost use Rattle.gql_coerce.specs.Singles.{single_of};

use crate::expected::coerce_null;
use crate::forms::single_focus;
use crate::frame::Focus;
use crate::part::{ListItems, ObjectFields};
use crate::single::Single;
use gql_ast::TypeRef;
use gql_types::Schema;
use serde_json::{Number, Value};
use std::alloc::{AllocError, Global};

fn number(number: &Number) -> Single<'_>
    ensures { single_of result ≡ of_number (number_view number.now) }
{
    match number.as_i64() {
        Some(number) => Single::Whole(number),
        None => Single::Fraction(number.as_f64()),
    }
}

/// Whether a value may be an item where lists are expected: a list or `null`.
#[tactic(auto, using(crate::proofs::JsonForms::may_null, crate::proofs::JsonForms::may_bool, crate::proofs::JsonForms::may_number, crate::proofs::JsonForms::may_string, crate::proofs::JsonForms::may_array, crate::proofs::JsonForms::may_object))]
pub fn may_be_list(item: &Value) -> bool
    ensures { result ≡ input_may_be_list (json_input (view item.now)) }
{
    match item {
        Value::Array(_) | Value::Null => true,
        Value::Bool(_) | Value::Number(_) | Value::String(_) | Value::Object(_) => false,
    }
}

/// A value of JSON.
#[tactic(auto, using(crate::proofs::JsonForms::coerced_null, crate::proofs::JsonForms::coerced_bool, crate::proofs::JsonForms::coerced_number, crate::proofs::JsonForms::coerced_string, crate::proofs::JsonForms::coerced_array, crate::proofs::JsonForms::coerced_object))]
pub fn focus_of<'v>(
    alloc: Global,
    value: &'v Value,
    schema: &Schema,
    expected: Option<&'v TypeRef>,
) -> Result<Focus<'v>, AllocError>
    ensures { IfOk result (λ focus. (n : ℕ)
        → levels_of (suc n) schema.now (json_input (view value.now))
        (option_map written (option_copied expected.entry)) ≡ focus_at (suc n) schema.now focus) }
{
    match value {
        Value::Null => Ok(Focus::Answer(coerce_null(alloc, expected))),
        Value::Bool(truth) => single_focus(alloc, schema, &Single::Truth(*truth), expected),
        Value::Number(found) => single_focus(alloc, schema, &number(found), expected),
        Value::String(text) => {
            single_focus(alloc, schema, &Single::JsonText(text.as_str()), expected)
        }
        Value::Array(items) => Ok(Focus::List(ListItems::Json(items.as_slice()), expected)),
        Value::Object(members) => Ok(Focus::Object(ObjectFields::Json(members), expected)),
    }
}
