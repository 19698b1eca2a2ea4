//! Values of the built-in scalars that need no error, which are written at once.
ghost use Rattle.std.specs.Prelude.{◌≡◌, false, None, Some, IfSome};
ghost use Rattle.gql_inputs.specs.InputTypes.{is_list};
ghost use Rattle.gql_types.specs.Written.{written};
ghost use Rattle.serde_json.specs.Data as json;
ghost use Rattle.serde_json.specs.Find.{as_array, of_integer};
ghost use Rattle.serde_json.specs.View.{view};
ghost use Rattle.gql_steps.specs.JsonText.{json_text};
ghost use Rattle.gql_steps.specs.Direct.{IsDirect, data_of};
ghost use Rattle.gql_steps.specs.Execution.{is_null};
ghost use Rattle.gql_steps.specs.Leaves as spec;
ghost use Rattle.gql_steps.specs.Parts.{plain};
ghost use Rattle.gql_steps.specs.States.{Executes};

use crate::ended::Ended;
use crate::kinds::ValueKind;
use crate::leaves::{is_of_32_bits, write_truth};
use crate::refusal::ExecRefusal;
use crate::run::Run;
use crate::steps::{write, write_text, write_whole};
use gql_ast::TypeRef;
use gql_inputs::{Scalar, is_list};
use serde_json::Value;

/// A value of a built-in scalar, or null.
#[derive(Clone, Copy)]
pub enum Direct<'v> {
    Null,
    Whole(i64),
    Text(&'v str),
    Truth(bool),
}

/// The integer in a value that is an Int.
#[inline(always)]
pub fn int_in(value: &Value) -> Option<i64>
    ensures { IfSome result
        (λ z. spec.as_int (view value.now) ≡ Some (json.number (of_integer z))) }
{
    match value.as_i64() {
        Some(whole) => {
            if is_of_32_bits(whole) {
                Some(whole)
            } else {
                None
            }
        }
        None => None,
    }
}

/// A value as an Int, if it is one.
#[inline(always)]
fn direct_int<'v>(value: &'v Value) -> Option<Direct<'v>>
    ensures { IfSome result (λ x. spec.as_int (view value.now) ≡ Some (data_of x)) }
{
    match int_in(value) {
        Some(whole) => Some(Direct::Whole(whole)),
        None => None,
    }
}

/// A value as a String, if it is one.
#[inline(always)]
fn direct_text<'v>(value: &'v Value) -> Option<Direct<'v>>
    ensures string { IfSome result (λ x. spec.as_string (view value.now) ≡ Some (data_of x)) }
    ensures id { IfSome result (λ x. spec.as_id (view value.now) ≡ Some (data_of x)) }
{
    match value.as_str() {
        Some(text) => Some(Direct::Text(text)),
        None => None,
    }
}

/// A value as a Boolean, if it is one.
#[inline(always)]
fn direct_truth<'v>(value: &'v Value) -> Option<Direct<'v>>
    ensures { IfSome result (λ x. spec.as_boolean (view value.now) ≡ Some (data_of x)) }
{
    match value.as_bool() {
        Some(truth) => Some(Direct::Truth(truth)),
        None => None,
    }
}

/// A value as one of a scalar, if it is written as it is. A Float and a
/// scalar of a schema file are left to `complete_scalar`, and so is an ID that is an integer.
#[inline(always)]
pub fn direct_scalar<'v>(scalar: Scalar, value: &'v Value) -> Option<Direct<'v>>
    ensures value { IfSome result (λ x. spec.as_scalar scalar (view value.now) ≡ Some (data_of x)) }
    ensures present { IfSome result (λ x. is_null (view value.now) ≡ false) }
    ensures single { IfSome result (λ x. as_array (view value.now) ≡ None) }
{
    match scalar {
        Scalar::Int => direct_int(value),
        Scalar::String => direct_text(value),
        Scalar::Id => direct_text(value),
        Scalar::Boolean => direct_truth(value),
        Scalar::Float => None,
        Scalar::Custom => None,
        Scalar::Open => None,
    }
}

/// A value in a place of a type, if it is one of a built-in scalar and is written as it is.
pub fn direct_value<'v>(kind: ValueKind, of_type: &TypeRef, value: &'v Value) -> Option<Direct<'v>>
    ensures { IfSome result
        (λ x. IsDirect kind (written of_type.now) (view value.now) (data_of x)) }
{
    match kind {
        ValueKind::Scalar(scalar) => {
            if is_list(of_type) {
                None
            } else {
                direct_scalar(scalar, value)
            }
        }
        ValueKind::Enum => None,
        ValueKind::Object => None,
        ValueKind::Abstract => None,
        ValueKind::NoOutput => None,
    }
}

/// Writes a value of a built-in scalar, or null.
pub fn write_direct(run: &mut Run<'_>, direct: Direct<'_>) -> Result<Ended, ExecRefusal>
    ensures { Executes (plain (json_text (data_of direct.entry))) result run.old run.new }
{
    match direct {
        Direct::Null => write(run, b"null")?,
        Direct::Whole(whole) => write_whole(run, whole)?,
        Direct::Text(text) => write_text(run, text)?,
        Direct::Truth(truth) => write_truth(run, truth)?,
    }
    Ok(Ended::Written)
}
