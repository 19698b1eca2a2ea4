//! The values of leaves (GraphQL specification, 3.5, 3.9 and 6.4.3).
ghost use Rattle.std.specs.Prelude.{◌≡◌, None, OnOk, IfErr};
ghost use Rattle.serde_json.specs.Data.{boolean};
ghost use Rattle.serde_json.specs.View.{view};
ghost use Rattle.gql_steps.specs.JsonText.{json_text};
ghost use Rattle.gql_steps.specs.Leaves as spec;
ghost use Rattle.gql_steps.specs.LeafParts.{leaf_part};
ghost use Rattle.gql_steps.specs.Parts.{plain};
ghost use Rattle.gql_steps.specs.Plans.{values_in};
ghost use Rattle.gql_steps.specs.States.{Executes, Follows, path_of};

use crate::ended::Ended;
use crate::kinds::is_enum_value;
use crate::refusal::ExecRefusal;
use crate::run::{Reason, Run};
use crate::steps::{raise, write, write_any, write_text, write_whole};
use gql_inputs::Scalar;
use gql_text::Place;
use gql_types::Schema;
use serde_json::Value;
use std::alloc::Global;

/// A leaf type, and the place of the field whose value is completed.
#[derive(Clone, Copy)]
pub struct Leaf<'d> {
    pub name: &'d str,
    pub place: Place,
}

/// The error that the value is not of the type.
fn not_of_type(alloc: Global, leaf: Leaf<'_>, run: &mut Run<'_>) -> Result<Ended, ExecRefusal>
    ensures { Executes (leaf_part leaf.entry (path_of run.old) None) result run.old run.new }
{
    raise(alloc, run, leaf.place, Reason::NotOfType(leaf.name))
}

/// Whether an integer is one of 32 bits.
pub fn is_of_32_bits(whole: i64) -> bool
    ensures { result ≡ spec.is_of_32_bits whole }
{
    -2_147_483_648 <= whole && whole < 2_147_483_648
}

/// Completes an integer of the data as an Int.
fn complete_whole(
    alloc: Global,
    leaf: Leaf<'_>,
    whole: i64,
    run: &mut Run<'_>,
) -> Result<Ended, ExecRefusal>
    ensures { Executes (leaf_part leaf.entry (path_of run.old) (spec.int_of whole))
        result run.old run.new }
{
    if !is_of_32_bits(whole) {
        return not_of_type(alloc, leaf, run);
    }
    write_whole(run, whole)?;
    Ok(Ended::Written)
}

/// Completes an Int: an integer of 32 bits.
fn complete_int(
    alloc: Global,
    leaf: Leaf<'_>,
    value: &Value,
    run: &mut Run<'_>,
) -> Result<Ended, ExecRefusal>
    ensures { Executes (leaf_part leaf.entry (path_of run.old) (spec.as_int (view value.now)))
        result run.old run.new }
{
    match value.as_i64() {
        Some(whole) => complete_whole(alloc, leaf, whole, run),
        None => not_of_type(alloc, leaf, run),
    }
}

/// Completes an ID: a string, or an integer as its text.
fn complete_id(
    alloc: Global,
    leaf: Leaf<'_>,
    value: &Value,
    run: &mut Run<'_>,
) -> Result<Ended, ExecRefusal>
    ensures { Executes (leaf_part leaf.entry (path_of run.old) (spec.as_id (view value.now)))
        result run.old run.new }
{
    if let Some(text) = value.as_str() {
        write_text(run, text)?;
        return Ok(Ended::Written);
    }
    match value.as_i64() {
        Some(whole) => {
            let mut digits = itoa::Buffer::new();
            write_text(run, digits.format(whole))?;
            Ok(Ended::Written)
        }
        None => not_of_type(alloc, leaf, run),
    }
}

/// Completes a String.
fn complete_string(
    alloc: Global,
    leaf: Leaf<'_>,
    value: &Value,
    run: &mut Run<'_>,
) -> Result<Ended, ExecRefusal>
    ensures { Executes (leaf_part leaf.entry (path_of run.old) (spec.as_string (view value.now)))
        result run.old run.new }
{
    match value.as_str() {
        Some(text) => {
            write_text(run, text)?;
            Ok(Ended::Written)
        }
        None => not_of_type(alloc, leaf, run),
    }
}

/// Writes `true` or `false`.
pub fn write_truth(run: &mut Run<'_>, truth: bool) -> Result<(), ExecRefusal>
    ensures follows { OnOk result (Follows (plain (json_text (boolean truth))) run.old run.new) }
    ensures err { IfErr result (λ e. e ≡ ExecRefusal.Memory) }
{
    if truth {
        write(run, b"true")
    } else {
        write(run, b"false")
    }
}

/// Completes a Boolean.
fn complete_boolean(
    alloc: Global,
    leaf: Leaf<'_>,
    value: &Value,
    run: &mut Run<'_>,
) -> Result<Ended, ExecRefusal>
    ensures { Executes (leaf_part leaf.entry (path_of run.old) (spec.as_boolean (view value.now)))
        result run.old run.new }
{
    match value.as_bool() {
        Some(truth) => {
            write_truth(run, truth)?;
            Ok(Ended::Written)
        }
        None => not_of_type(alloc, leaf, run),
    }
}

/// Writes a value as it is.
fn complete_any(run: &mut Run<'_>, value: &Value) -> Result<Ended, ExecRefusal>
    ensures { Executes (plain (json_text (view value.now))) result run.old run.new }
{
    write_any(run, value)?;
    Ok(Ended::Written)
}

/// Completes a Float: a number.
fn complete_float(
    alloc: Global,
    leaf: Leaf<'_>,
    value: &Value,
    run: &mut Run<'_>,
) -> Result<Ended, ExecRefusal>
    ensures { Executes (leaf_part leaf.entry (path_of run.old) (spec.as_float (view value.now)))
        result run.old run.new }
{
    match value {
        Value::Number(_) => complete_any(run, value),
        Value::Null | Value::Bool(_) | Value::String(_) => not_of_type(alloc, leaf, run),
        Value::Array(_) | Value::Object(_) => not_of_type(alloc, leaf, run),
    }
}

/// Completes a value of a scalar.
pub fn complete_scalar(
    alloc: Global,
    scalar: Scalar,
    leaf: Leaf<'_>,
    value: &Value,
    run: &mut Run<'_>,
) -> Result<Ended, ExecRefusal>
    ensures { Executes (leaf_part leaf.entry (path_of run.old)
        (spec.as_scalar scalar (view value.now))) result run.old run.new }
{
    match scalar {
        Scalar::Int => complete_int(alloc, leaf, value, run),
        Scalar::Id => complete_id(alloc, leaf, value, run),
        Scalar::String => complete_string(alloc, leaf, value, run),
        Scalar::Boolean => complete_boolean(alloc, leaf, value, run),
        Scalar::Float => complete_float(alloc, leaf, value, run),
        Scalar::Custom => complete_any(run, value),
        Scalar::Open => complete_any(run, value),
    }
}

/// Completes a value of an enum: a string among its values.
pub fn complete_enum(
    alloc: Global,
    schema: &Schema,
    leaf: Leaf<'_>,
    value: &Value,
    run: &mut Run<'_>,
) -> Result<Ended, ExecRefusal>
    ensures { Executes (leaf_part leaf.entry (path_of run.old)
        (spec.as_enum (values_in schema.now leaf.entry.name.now) (view value.now)))
        result run.old run.new }
{
    let Some(text) = value.as_str() else {
        return not_of_type(alloc, leaf, run);
    };
    if !is_enum_value(schema, leaf.name, text) {
        return not_of_type(alloc, leaf, run);
    }
    write_text(run, text)?;
    Ok(Ended::Written)
}
