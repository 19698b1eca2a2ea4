//! The calls of this crate, for one input.
ghost use Rattle.std.specs.Prelude.{◌≡◌, Some, option_map, IfOk, IfErr};
ghost use Rattle.gql_types.specs.Written.{written};
ghost use Rattle.serde_json.specs.View.{view};
ghost use Rattle.gql_coerce.specs.Comes.{Comes, value as comes_to};
ghost use Rattle.gql_coerce.specs.Inputs.{literal, json_input};
ghost use Rattle.gql_coerce.specs.Requests.{Tells};

use crate::coerced_object::CoercedObject;
use crate::coerced_value::CoercedValue;
use crate::fault::{CoerceFault, result_of};
use crate::part::Part;
use crate::walk;
use gql_ast::{Literal, TypeRef};
use gql_types::Schema;
use serde_json::Value;
use std::alloc::Global;

/// The value of a literal at a type (GraphQL specification, 3.5 to 3.12), or the first refusal.
/// Items are coerced in their order. Of an object, unknown fields are refused first; then come the
/// fields that the type defines, in their order. The object `variables` has the values of the
/// variables, which are copied; a variable without a value comes to none. `Memory` is returned, too,
/// if a default value that the input takes leads back to itself.
pub fn coerce_literal(
    alloc: Global,
    schema: &Schema,
    value: &Literal,
    of_type: &TypeRef,
    variables: &CoercedObject,
) -> Result<Option<CoercedValue>, CoerceFault>
    ensures ok { IfOk result (λ v. Comes schema.now (literal (view variables.now) value.now)
        (written of_type.now) (comes_to (option_map view v))) }
    ensures err { IfErr result (λ e. Tells e
        (Comes schema.now (literal (view variables.now) value.now) (written of_type.now))) }
{
    let part = Part::Literal(value, Some(variables));
    let coerced = walk::coerce(alloc, schema, part, Some(of_type))?;
    result_of(coerced)
}

/// The value of a value of JSON at a type (GraphQL specification, 3.5 to 3.12), or the first
/// refusal. Items are coerced in their order. Of an object, unknown members are refused first, in
/// the order of the bytes of their keys; then come the fields that the type defines, in their
/// order. `Memory` is returned, too, if a default value that the input takes leads back to itself.
pub fn coerce_json(
    alloc: Global,
    schema: &Schema,
    value: &Value,
    of_type: &TypeRef,
) -> Result<CoercedValue, CoerceFault>
    ensures ok { IfOk result (λ v. Comes schema.now
        (json_input (view value.now)) (written of_type.now) (comes_to (Some (view v)))) }
    ensures err { IfErr result
        (λ e. Tells e (Comes schema.now (json_input (view value.now)) (written of_type.now))) }
{
    let coerced = walk::coerce(alloc, schema, Part::Json(value), Some(of_type))?;
    match result_of(coerced)? {
        Some(value) => Ok(value),
        None => Ok(CoercedValue::new(Value::Null)),
    }
}
