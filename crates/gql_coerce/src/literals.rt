//! Literals, by their forms (GraphQL specification, 3.5 to 3.12).
ghost use Rattle.std.specs.Prelude.{◌≡◌, ℕ, suc, false, is_some, IfOk, IfSome, Option, Some, option_map};
ghost use Rattle.std.specs.Option.{option_copied};
ghost use Rattle.gql_types.specs.Written.{Written, written};
ghost use Rattle.gql_types.specs.declared.schema.Schema.{Schema as ASchema};
ghost use Rattle.serde_json.specs.Find.{as_null, get};
ghost use Rattle.serde_json.specs.View.{view};
ghost use Rattle.gql_coerce.specs.Coercion.{coerced as levels_of};
ghost use Rattle.gql_coerce.specs.Frames.{focus_at};
ghost use Rattle.gql_coerce.specs.Inputs.{literal, of_int, may_be_list as input_may_be_list};
ghost use Rattle.gql_coerce.specs.Outcomes.{value as given};
ghost use Rattle.gql_coerce.specs.Scopes.{values_in};
ghost use Rattle.gql_coerce.specs.Singles.{single_of};

use crate::coerced_object::CoercedObject;
use crate::coerced_value::CoercedValue;
use crate::expected::{coerce_given, coerce_null};
use crate::forms::single_focus;
use crate::frame::Focus;
use crate::part::{ListItems, ObjectFields};
use crate::single::Single;
use gql_ast::{Literal, Shared, TypeRef};
use gql_inputs::{real_of, whole_number};
use gql_types::Schema;
use serde_json::Value;
use std::alloc::{AllocError, Global};

fn whole(text: &str) -> Single<'_>
    ensures { single_of result ≡ of_int text.now }
{
    match whole_number(text) {
        Some(number) => Single::Whole(number),
        None => Single::OutOfRange(real_of(text)),
    }
}

/// The value of a variable.
fn value_of<'v>(variables: Option<&'v CoercedObject>, name: &str) -> Option<&'v Value>
    ensures { option_map (λ v. view v.now) result
        ≡ get name.now (values_in (option_map (λ v. view v.now) variables.entry)) }
{
    match variables {
        Some(values) => values.get(name),
        None => None,
    }
}

/// The value of a variable, which others may share, if it is not null.
fn named_value<'v>(
    variables: Option<&'v CoercedObject>,
    name: &str,
) -> Option<&'v Shared<CoercedValue>>
    ensures { IfSome result (λ v. (is_some (as_null (view v.now)) ≡ false)
        × (get name.now (values_in (option_map (λ v. view v.now) variables.entry))
        ≡ Some (view v.now))) }
{
    let value = variables?.shared(name)?;
    if value.get().get().is_null() {
        None
    } else {
        Some(value)
    }
}

/// The value of the variable that a literal is, which others may share. There is none if the
/// literal is not a variable, or if the variable has no value or null.
#[tactic(auto, using(crate::proofs::Reading::variable_comes))]
pub fn shared_value<'v>(
    value: &Literal,
    variables: Option<&'v CoercedObject>,
) -> Option<&'v Shared<CoercedValue>>
    ensures { IfSome result (λ v. (n : ℕ) → (s : ASchema) → (e : Option Written)
        → levels_of (suc n) s
        (literal (values_in (option_map (λ v. view v.now) variables.entry)) value.now) e
        ≡ given (Some (view v.now))) }
{
    match value {
        Literal::Variable { name, .. } => named_value(variables, name.as_str()),
        Literal::Int { .. }
        | Literal::Float { .. }
        | Literal::String { .. }
        | Literal::Boolean { .. }
        | Literal::Null { .. }
        | Literal::Enum { .. }
        | Literal::List { .. }
        | Literal::Object { .. } => None,
    }
}

/// Whether a literal may be an item where lists are expected: a list, `null` or a variable.
#[tactic(auto, using(crate::proofs::Reading::may_variable, crate::proofs::Reading::may_int, crate::proofs::Reading::may_float, crate::proofs::Reading::may_string, crate::proofs::Reading::may_boolean, crate::proofs::Reading::may_null, crate::proofs::Reading::may_enum, crate::proofs::Reading::may_list, crate::proofs::Reading::may_object))]
pub fn may_be_list(item: &Literal, variables: Option<&CoercedObject>) -> bool
    ensures { result ≡ input_may_be_list
        (literal (values_in (option_map (λ v. view v.now) variables.entry)) item.now) }
{
    match item {
        Literal::List { .. } | Literal::Null { .. } | Literal::Variable { .. } => true,
        Literal::Int { .. }
        | Literal::Float { .. }
        | Literal::String { .. }
        | Literal::Boolean { .. }
        | Literal::Enum { .. }
        | Literal::Object { .. } => false,
    }
}

/// A literal, with the object that has the values of the variables, if there may be some.
#[tactic(auto, using(crate::proofs::Reading::coerced_variable, crate::proofs::Reading::coerced_int, crate::proofs::Reading::coerced_float, crate::proofs::Reading::coerced_string, crate::proofs::Reading::coerced_boolean, crate::proofs::Reading::coerced_null, crate::proofs::Reading::coerced_enum, crate::proofs::Reading::coerced_list, crate::proofs::Reading::coerced_object))]
pub fn focus_of<'v>(
    alloc: Global,
    value: &'v Literal,
    variables: Option<&'v CoercedObject>,
    schema: &Schema,
    expected: Option<&'v TypeRef>,
) -> Result<Focus<'v>, AllocError>
    ensures { IfOk result (λ focus. (n : ℕ) → levels_of (suc n) schema.now
        (literal (values_in (option_map (λ v. view v.now) variables.entry)) value.now)
        (option_map written (option_copied expected.entry)) ≡ focus_at (suc n) schema.now focus) }
{
    match value {
        Literal::Variable { name, .. } => {
            let found = value_of(variables, name.as_str());
            Ok(Focus::Answer(coerce_given(alloc, found, expected)?))
        }
        Literal::Null { .. } => Ok(Focus::Answer(coerce_null(alloc, expected))),
        Literal::Int { text, .. } => {
            single_focus(alloc, schema, &whole(text.as_str()), expected)
        }
        Literal::Float { text, .. } => {
            single_focus(
                alloc,
                schema,
                &Single::Fraction(real_of(text.as_str())),
                expected,
            )
        }
        Literal::String { value, .. } => {
            single_focus(alloc, schema, &Single::Text(value.as_str()), expected)
        }
        Literal::Boolean { value, .. } => {
            single_focus(alloc, schema, &Single::Truth(*value), expected)
        }
        Literal::Enum { name, .. } => {
            single_focus(alloc, schema, &Single::Name(name.as_str()), expected)
        }
        Literal::List { items, .. } => {
            Ok(Focus::List(ListItems::Literals(items.as_slice(), variables), expected))
        }
        Literal::Object { fields, .. } => {
            Ok(Focus::Object(
                ObjectFields::Literal(fields.as_slice(), variables),
                expected,
            ))
        }
    }
}
