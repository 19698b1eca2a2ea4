//! What is expected of an input and of its parts (GraphQL specification, 3.11 and 3.12): a type, or
//! none within a custom scalar.
ghost use Rattle.std.specs.Prelude.{◌≡◌, None, option_map, IfOk};
ghost use Rattle.std.specs.Option.{option_copied};
ghost use Rattle.gql_types.specs.Written.{written};
ghost use Rattle.serde_json.specs.View.{view};
ghost use Rattle.gql_coerce.specs.Coercion as spec;
ghost use Rattle.gql_coerce.specs.Expecting.{expected_of};
ghost use Rattle.gql_coerce.specs.Outcomes.{said, some, after};
ghost use Rattle.gql_coerce.specs.Singles.{single_of};

use crate::coerced::{Coerced, refused};
use crate::coerced_value::CoercedValue;
use crate::copies::copy_of;
use crate::ones::in_lists;
use crate::refusal::Reason;
use crate::single::{Single, as_any, as_type};
use gql_ast::{InputValueDefinition, TypeRef};
use gql_inputs::{input_type, is_custom_scalar, is_list, is_non_null, is_open, item_of};
use gql_types::{Schema, SchemaType};
use serde_json::Value;
use std::alloc::{AllocError, Global};

/// What `null` comes to.
pub fn coerce_null(alloc: Global, expected: Option<&TypeRef>) -> Coerced
    ensures { said result
        ≡ some (spec.null_at (option_map written (option_copied expected.entry))) }
{
    match expected {
        Some(of_type) => {
            if is_non_null(of_type) {
                refused(alloc, Reason::NullForNonNull)
            } else {
                Coerced::Given(CoercedValue::new(Value::Null))
            }
        }
        None => Coerced::Given(CoercedValue::new(Value::Null)),
    }
}

/// What an item comes to: one that is not given is `null`.
pub fn or_null(alloc: Global, expected: Option<&TypeRef>, coerced: Coerced) -> Coerced
    ensures { said result ≡ some
        (after (said coerced) (spec.or_null (option_map written (option_copied expected.entry)))) }
{
    match coerced {
        Coerced::Absent => coerce_null(alloc, expected),
        Coerced::Given(_) | Coerced::Refused(_) => coerced,
    }
}

fn by_type(
    alloc: Global,
    schema: &Schema,
    single: &Single<'_>,
    expected: Option<&TypeRef>,
) -> Result<Coerced, AllocError>
    ensures { IfOk result (λ c. said c ≡ some (spec.single_at schema.now
        (option_map written (option_copied expected.entry)) (single_of single.now))) }
{
    match expected {
        None => as_any(alloc, is_open(schema), single),
        Some(of_type) => match input_type(schema, of_type) {
            Some(found) => as_type(alloc, schema, found, single),
            None => Ok(refused(alloc, Reason::WrongKind)),
        },
    }
}

/// What a value without parts comes to.
pub fn coerce_single(
    alloc: Global,
    schema: &Schema,
    single: &Single<'_>,
    expected: Option<&TypeRef>,
) -> Result<Coerced, AllocError>
    ensures { IfOk result (λ c. said c
        ≡ spec.once (option_map written (option_copied expected.entry))
        (some (spec.single_at schema.now
        (option_map written (option_copied expected.entry)) (single_of single.now)))) }
{
    if expects_list(expected) {
        let coerced = by_type(alloc, schema, single, expected)?;
        in_lists(alloc, expected, coerced)
    } else {
        by_type(alloc, schema, single, expected)
    }
}

/// What the value of a variable comes to; it has been coerced already.
pub fn coerce_given(
    alloc: Global,
    given: Option<&Value>,
    expected: Option<&TypeRef>,
) -> Result<Coerced, AllocError>
    ensures { IfOk result (λ c. said c ≡ spec.variable_at
        (option_map written (option_copied expected.entry))
        (option_map (λ v. view v.now) given.entry)) }
{
    match given {
        Some(value) => {
            if value.is_null() {
                Ok(coerce_null(alloc, expected))
            } else {
                Ok(Coerced::Given(copy_of(alloc, value)?))
            }
        }
        None => Ok(Coerced::Absent),
    }
}

/// Whether a list is expected.
pub fn expects_list(expected: Option<&TypeRef>) -> bool
    ensures { result ≡ spec.is_list_expected (option_map written (option_copied expected.entry)) }
{
    match expected {
        Some(of_type) => is_list(of_type),
        None => false,
    }
}

/// What is expected of the items of a list.
#[derive(Clone, Copy)]
pub enum Expected<'t> {
    /// A list is not taken here.
    Nothing,
    /// The list is within a custom scalar.
    Anything,
    Type(&'t TypeRef),
}

fn by_scalar<'t>(found: Option<&SchemaType>) -> Expected<'t>
    ensures { expected_of result ≡ spec.item_expected (option_copied found.entry) None }
{
    match found {
        Some(found) => {
            if is_custom_scalar(found) {
                Expected::Anything
            } else {
                Expected::Nothing
            }
        }
        None => Expected::Nothing,
    }
}

/// What is expected of the items of a list that is given for this type.
pub fn items_expected<'t>(schema: &Schema, expected: Option<&'t TypeRef>) -> Expected<'t>
    ensures { expected_of result
        ≡ spec.items_expected schema.now (option_map written (option_copied expected.entry)) }
{
    match expected {
        None => Expected::Anything,
        Some(of_type) => match item_of(of_type) {
            Some(item) => Expected::Type(item),
            None => by_scalar(input_type(schema, of_type)),
        },
    }
}

/// The type of a field that is defined.
pub fn type_of<'t>(definition: Option<&'t InputValueDefinition>) -> Option<&'t TypeRef>
    ensures { option_map written (option_copied result)
        ≡ option_map (λ d. written d.now.of_type) definition.entry }
{
    match definition {
        Some(definition) => Some(&definition.of_type),
        None => None,
    }
}
