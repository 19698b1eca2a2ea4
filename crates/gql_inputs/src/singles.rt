//! Values without parts: which input types take them (GraphQL specification, 3.5 and 3.9).
ghost use Rattle.std.specs.Prelude.{◌≡◌, ◌++◌, IfOk, OnOk};
ghost use Rattle.gql_ast.specs.declared.rule.Rule.TheVariants as rule;
ghost use Rattle.gql_inputs.specs.BadValues as spec;
ghost use Rattle.gql_inputs.specs.ExpectedTypes.{written_of};
ghost use Rattle.gql_inputs.specs.Values.{place_of as start_of, value_of};

use crate::bad_value::{BadValue, add_bad};
use crate::expected_type::ExpectedType;
use crate::forms::place_of;
use crate::input_types::{InputKind, InputType, InputTypes};
use crate::numbers::{is_int, is_long, is_number, is_real};
use crate::scalar::{Scalar, is_custom};
use gql_ast::{Literal, Rule, Text};
use gql_text::Place;
use std::alloc::{AllocError, Global};

/// Whether a scalar takes an integer.
pub fn scalar_takes_int(scalar: Scalar, text: &str) -> bool
    ensures { result ≡ spec.scalar_takes_int text.now scalar }
{
    match scalar {
        Scalar::Int => is_int(text),
        Scalar::Id | Scalar::Custom => is_long(text),
        Scalar::Float | Scalar::Open => is_number(text),
        Scalar::String | Scalar::Boolean => false,
    }
}

/// Whether a scalar takes a number with a fraction or an exponent.
pub fn scalar_takes_float(scalar: Scalar, text: &str) -> bool
    ensures { result ≡ spec.scalar_takes_float text.now scalar }
{
    match scalar {
        Scalar::Float | Scalar::Open => is_real(text),
        Scalar::Int | Scalar::Id | Scalar::Custom | Scalar::String | Scalar::Boolean => false,
    }
}

fn scalar_takes_string(scalar: Scalar) -> bool
    ensures { result ≡ spec.scalar_takes_string scalar }
{
    match scalar {
        Scalar::String | Scalar::Id | Scalar::Custom | Scalar::Open => true,
        Scalar::Int | Scalar::Float | Scalar::Boolean => false,
    }
}

fn scalar_takes_boolean(scalar: Scalar) -> bool
    ensures { result ≡ spec.scalar_takes_boolean scalar }
{
    match scalar {
        Scalar::Boolean | Scalar::Custom | Scalar::Open => true,
        Scalar::Int | Scalar::Float | Scalar::String | Scalar::Id => false,
    }
}

fn takes_int<T: InputType>(of_type: &T, text: &str) -> bool
    ensures { result ≡ spec.takes_as_scalar (spec.scalar_takes_int text.now) (T.form of_type.now) }
{
    match of_type.kind() {
        InputKind::Scalar(scalar) => scalar_takes_int(scalar, text),
        InputKind::Enum | InputKind::InputObject => false,
    }
}

fn takes_float<T: InputType>(of_type: &T, text: &str) -> bool
    ensures { result ≡ spec.takes_as_scalar (spec.scalar_takes_float text.now)
        (T.form of_type.now) }
{
    match of_type.kind() {
        InputKind::Scalar(scalar) => scalar_takes_float(scalar, text),
        InputKind::Enum | InputKind::InputObject => false,
    }
}

fn takes_string<T: InputType>(of_type: &T) -> bool
    ensures { result ≡ spec.takes_as_scalar spec.scalar_takes_string (T.form of_type.now) }
{
    match of_type.kind() {
        InputKind::Scalar(scalar) => scalar_takes_string(scalar),
        InputKind::Enum | InputKind::InputObject => false,
    }
}

fn takes_boolean<T: InputType>(of_type: &T) -> bool
    ensures { result ≡ spec.takes_as_scalar spec.scalar_takes_boolean (T.form of_type.now) }
{
    match of_type.kind() {
        InputKind::Scalar(scalar) => scalar_takes_boolean(scalar),
        InputKind::Enum | InputKind::InputObject => false,
    }
}

fn takes_name<T: InputType>(of_type: &T, name: &str) -> bool
    ensures { result ≡ spec.takes_name name.now (T.form of_type.now) }
{
    match of_type.kind() {
        InputKind::Scalar(scalar) => is_custom(scalar),
        InputKind::Enum => of_type.has_value(name),
        InputKind::InputObject => false,
    }
}

/// Whether an input type is a scalar of a schema file.
pub fn is_custom_type<T: InputType>(of_type: &T) -> bool
    ensures { result ≡ spec.is_custom_form (T.form of_type.now) }
{
    match of_type.kind() {
        InputKind::Scalar(scalar) => is_custom(scalar),
        InputKind::Enum | InputKind::InputObject => false,
    }
}

/// Whether an input type takes a value, if the value has no parts; else true.
#[tactic(auto, using(crate::proofs::ValueForms::value_variable, crate::proofs::ValueForms::value_int, crate::proofs::ValueForms::value_float, crate::proofs::ValueForms::value_string, crate::proofs::ValueForms::value_boolean, crate::proofs::ValueForms::value_null, crate::proofs::ValueForms::value_enum, crate::proofs::ValueForms::value_list, crate::proofs::ValueForms::value_object))]
fn takes<T: InputType>(of_type: &T, value: &Literal) -> bool
    ensures { result ≡ spec.takes (value_of value.now) (T.form of_type.now) }
{
    match value {
        Literal::Int { text, .. } => takes_int(of_type, text.as_str()),
        Literal::Float { text, .. } => takes_float(of_type, text.as_str()),
        Literal::String { .. } => takes_string(of_type),
        Literal::Boolean { .. } => takes_boolean(of_type),
        Literal::Enum { name, .. } => takes_name(of_type, name.as_str()),
        Literal::Variable { .. }
        | Literal::Null { .. }
        | Literal::List { .. }
        | Literal::Object { .. } => true,
    }
}

/// The type that a fault is about: a custom scalar by its name, another type as it is written for
/// one value.
fn expected_text<T: InputType>(
    alloc: Global,
    of_type: ExpectedType<'_>,
    found_type: &T,
) -> Result<Text, AllocError>
    ensures { IfOk result (λ text. text
        ≡ spec.expected (written_of of_type.entry) (T.form found_type.now)) }
{
    if is_custom_type(found_type) {
        of_type.name().copy()
    } else {
        of_type.one().text(alloc)
    }
}

/// Adds a value without parts, unless the type takes it.
fn add_unless_taken<T: InputType>(
    alloc: Global,
    value: &Literal,
    of_type: ExpectedType<'_>,
    found_type: &T,
    found: &mut Vec<BadValue>,
) -> Result<(), AllocError>
    ensures { OnOk result (found.new.items ≡ found.old.items
        ++ spec.single_at (written_of of_type.entry) (value_of value.now) (T.form found_type.now)) }
{
    if !takes(found_type, value) {
        let about = expected_text(alloc, of_type, found_type)?;
        add_bad(Rule::V18, place_of(value), about, found)?;
    }
    Ok(())
}

/// Adds a value without parts, if the type is known and does not take it.
pub fn add_single<A: InputTypes>(
    alloc: Global,
    value: &Literal,
    types: &mut A,
    of_type: ExpectedType<'_>,
    found: &mut Vec<BadValue>,
) -> Result<(), AllocError>
    ensures look { A.look types.new ≡ A.look types.old }
    ensures kept { A.kept types.new ≡ A.kept types.old }
    ensures found { OnOk result (found.new.items ≡ found.old.items
        ++ spec.single_misfits (A.look types.old) (written_of of_type.entry) (value_of value.now)) }
{
    if let Some(found_type) = types.input_type(alloc, of_type.name())? {
        add_unless_taken(alloc, value, of_type, &found_type, found)?;
    }
    Ok(())
}
