//! Values without parts: what scalars and enums make of them (GraphQL specification, 3.5 and 3.9).
ghost use Rattle.std.specs.Prelude.{◌≡◌, Some, None, option_map, IfOk};
ghost use Rattle.std.specs.Option.{option_copied};
ghost use Rattle.gql_inputs.specs.InputTypes.{is_open};
ghost use Rattle.gql_types.specs.Written.{written};
ghost use Rattle.serde_json.specs.Data as json;
ghost use Rattle.serde_json.specs.Find.{of_integer};
ghost use Rattle.gql_coerce.specs.Outcomes.{said, some, value};
ghost use Rattle.gql_coerce.specs.Scalars as spec;
ghost use Rattle.gql_coerce.specs.Singles.{single_of};
ghost use Rattle.gql_coerce.specs.declared.single.Single.TheVariants as single_form;

use crate::coerced::{Coerced, refused};
use crate::coerced_value::CoercedValue;
use crate::refusal::Reason;
use gql_inputs::{Scalar, custom_scalar, scalar_in};
use gql_types::{HasName, Schema, SchemaType, TypeKind};
use serde_json::{Number, Value};
use std::alloc::{AllocError, Global};

/// A value without parts.
#[derive(Clone, Copy)]
pub enum Single<'v> {
    /// An integer of 64 bits.
    Whole(i64),
    /// An integer literal of more bits, by its nearest double if that is finite.
    OutOfRange(Option<f64>),
    /// Another number, by the same.
    Fraction(Option<f64>),
    /// A string of a document.
    Text(&'v str),
    /// A string of JSON.
    JsonText(&'v str),
    Truth(bool),
    /// An enum literal.
    Name(&'v str),
}

fn of_text(alloc: Global, text: &str) -> Result<Coerced, AllocError>
    ensures { IfOk result (λ c. said c ≡ some (value (json.string text.now))) }
{
    let text = String::from_str(alloc, text)?;
    Ok(Coerced::Given(CoercedValue::new(Value::from(text))))
}

fn of_whole(number: i64) -> Coerced
    ensures { said result ≡ some (value (json.number (of_integer number))) }
{
    Coerced::Given(CoercedValue::new(Value::from(number)))
}

fn of_truth(truth: bool) -> Coerced
    ensures { said result ≡ some (value (json.boolean truth)) }
{
    Coerced::Given(CoercedValue::new(Value::from(truth)))
}

fn as_int(alloc: Global, single: &Single<'_>) -> Coerced
    ensures { said result ≡ some (spec.as_int (single_of single.now)) }
{
    match *single {
        Single::Whole(number) => {
            if -2147483648 <= number && number < 2147483648 {
                of_whole(number)
            } else {
                refused(alloc, Reason::OutOfRange)
            }
        }
        Single::OutOfRange(_) => refused(alloc, Reason::OutOfRange),
        Single::Fraction(_)
        | Single::Text(_)
        | Single::JsonText(_)
        | Single::Truth(_)
        | Single::Name(_) => refused(alloc, Reason::WrongKind),
    }
}

fn decimal(alloc: Global, number: i64) -> Result<Coerced, AllocError>
    ensures { IfOk result (λ c. said c ≡ some (spec.as_id (single_of (single_form.Whole number)))) }
{
    let mut digits = itoa::Buffer::new();
    of_text(alloc, digits.format(number))
}

fn as_id(alloc: Global, single: &Single<'_>) -> Result<Coerced, AllocError>
    ensures { IfOk result (λ c. said c ≡ some (spec.as_id (single_of single.now))) }
{
    match *single {
        Single::Whole(number) => decimal(alloc, number),
        Single::Text(text) | Single::JsonText(text) => of_text(alloc, text),
        Single::OutOfRange(_) => Ok(refused(alloc, Reason::OutOfRange)),
        Single::Fraction(_) | Single::Truth(_) | Single::Name(_) => {
            Ok(refused(alloc, Reason::WrongKind))
        }
    }
}

fn as_string(alloc: Global, single: &Single<'_>) -> Result<Coerced, AllocError>
    ensures { IfOk result (λ c. said c ≡ some (spec.as_string (single_of single.now))) }
{
    match *single {
        Single::Text(text) | Single::JsonText(text) => of_text(alloc, text),
        Single::Whole(_)
        | Single::OutOfRange(_)
        | Single::Fraction(_)
        | Single::Truth(_)
        | Single::Name(_) => Ok(refused(alloc, Reason::WrongKind)),
    }
}

fn as_boolean(alloc: Global, single: &Single<'_>) -> Coerced
    ensures { said result ≡ some (spec.as_boolean (single_of single.now)) }
{
    match *single {
        Single::Truth(truth) => of_truth(truth),
        Single::Whole(_)
        | Single::OutOfRange(_)
        | Single::Fraction(_)
        | Single::Text(_)
        | Single::JsonText(_)
        | Single::Name(_) => refused(alloc, Reason::WrongKind),
    }
}

/// A double, if it is finite.
fn of_real(alloc: Global, x: Option<f64>) -> Coerced
    ensures { said result ≡ some (spec.of_real x) }
{
    match x {
        Some(x) => match Number::from_f64(x) {
            Some(number) => Coerced::Given(CoercedValue::new(Value::Number(number))),
            None => refused(alloc, Reason::OutOfRange),
        },
        None => refused(alloc, Reason::OutOfRange),
    }
}

fn as_float(alloc: Global, single: &Single<'_>) -> Coerced
    ensures { said result ≡ some (spec.as_float (single_of single.now)) }
{
    match *single {
        Single::Whole(number) => of_whole(number),
        Single::OutOfRange(x) | Single::Fraction(x) => of_real(alloc, x),
        Single::Text(_) | Single::JsonText(_) | Single::Truth(_) | Single::Name(_) => {
            refused(alloc, Reason::WrongKind)
        }
    }
}

fn as_custom(alloc: Global, single: &Single<'_>) -> Result<Coerced, AllocError>
    ensures { IfOk result (λ c. said c ≡ some (spec.as_custom (single_of single.now))) }
{
    match *single {
        Single::Whole(number) => Ok(of_whole(number)),
        Single::OutOfRange(_) => Ok(refused(alloc, Reason::OutOfRange)),
        Single::Fraction(_) => Ok(refused(alloc, Reason::WrongKind)),
        Single::Truth(truth) => Ok(of_truth(truth)),
        Single::Text(text) | Single::JsonText(text) | Single::Name(text) => of_text(alloc, text),
    }
}

fn as_open(alloc: Global, single: &Single<'_>) -> Result<Coerced, AllocError>
    ensures { IfOk result (λ c. said c ≡ some (spec.as_open (single_of single.now))) }
{
    match *single {
        Single::Whole(number) => Ok(of_whole(number)),
        Single::OutOfRange(x) | Single::Fraction(x) => Ok(of_real(alloc, x)),
        Single::Truth(truth) => Ok(of_truth(truth)),
        Single::Text(text) | Single::JsonText(text) | Single::Name(text) => of_text(alloc, text),
    }
}

fn as_scalar(alloc: Global, scalar: Scalar, single: &Single<'_>) -> Result<Coerced, AllocError>
    ensures { IfOk result (λ c. said c ≡ some (spec.as_scalar scalar (single_of single.now))) }
{
    match scalar {
        Scalar::Int => Ok(as_int(alloc, single)),
        Scalar::Id => as_id(alloc, single),
        Scalar::String => as_string(alloc, single),
        Scalar::Boolean => Ok(as_boolean(alloc, single)),
        Scalar::Float => Ok(as_float(alloc, single)),
        Scalar::Custom => as_custom(alloc, single),
        Scalar::Open => as_open(alloc, single),
    }
}

/// What a scalar of a schema file makes of a value without parts, where Float is a type or is not.
pub fn as_any(alloc: Global, floats: bool, single: &Single<'_>) -> Result<Coerced, AllocError>
    ensures { IfOk result (λ c. said c ≡ some (spec.as_any floats (single_of single.now))) }
{
    as_scalar(alloc, custom_scalar(floats), single)
}

fn of_enum(alloc: Global, of_type: &SchemaType, name: &str) -> Result<Coerced, AllocError>
    ensures { IfOk result (λ c. said c ≡ some (spec.of_enum of_type.now name.now)) }
{
    if of_type.values.get(name).is_some() {
        of_text(alloc, name)
    } else {
        Ok(refused(alloc, Reason::NotInEnum))
    }
}

fn as_enum(alloc: Global, of_type: &SchemaType, single: &Single<'_>) -> Result<Coerced, AllocError>
    ensures { IfOk result (λ c. said c ≡ some (spec.as_enum of_type.now (single_of single.now))) }
{
    match *single {
        Single::JsonText(name) | Single::Name(name) => of_enum(alloc, of_type, name),
        Single::Whole(_)
        | Single::OutOfRange(_)
        | Single::Fraction(_)
        | Single::Text(_)
        | Single::Truth(_) => Ok(refused(alloc, Reason::WrongKind)),
    }
}

/// What a type makes of a value without parts.
pub fn as_type(
    alloc: Global,
    schema: &Schema,
    of_type: &SchemaType,
    single: &Single<'_>,
) -> Result<Coerced, AllocError>
    ensures { IfOk result (λ c. said c ≡ some (spec.as_kind (is_open schema.now) of_type.now
        of_type.now.kind (single_of single.now))) }
{
    match of_type.kind {
        TypeKind::Scalar => as_scalar(alloc, scalar_in(schema, of_type.name()), single),
        TypeKind::Enum => as_enum(alloc, of_type, single),
        TypeKind::InputObject | TypeKind::Object | TypeKind::Interface | TypeKind::Union => Ok(
            refused(alloc, Reason::WrongKind),
        ),
    }
}
