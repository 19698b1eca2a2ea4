//! Whether a value fits a type, and what of it does not (GraphQL specification, 5.6).
ghost use Rattle.std.specs.Prelude.{◌≡◌, ◌++◌, IfOk, OnOk};
ghost use Rattle.gql_types.specs.Written.{written};
ghost use Rattle.gql_inputs.specs.BadValues as spec;
ghost use Rattle.gql_inputs.specs.ExpectedTypes.{written_of};
ghost use Rattle.gql_inputs.specs.Values.{value_of};

use crate::bad_value::BadValue;
use crate::expected_type::ExpectedType;
use crate::input_types::InputTypes;
use crate::misfits::add_misfits;
use crate::of_schema::OfSchema;
use crate::repeats::add_repeats;
use crate::value_fits::value_fits;
use gql_ast::{Literal, TypeRef};
use gql_types::Schema;
use std::alloc::{AllocError, Global};

/// Adds what of a value does not fit the type that is expected (GraphQL specification, 5.6), by the
/// input types that `types` knows: values of another type (V18), unknown fields (V19), fields that
/// occur more than once (V20), and required fields that are not given (V21). Under an unknown type,
/// V20 alone is found. If the call fails, `found` may hold a part of them.
pub fn add_bad_values<A: InputTypes>(
    alloc: Global,
    types: &mut A,
    value: &Literal,
    of_type: ExpectedType<'_>,
    found: &mut Vec<BadValue>,
) -> Result<(), AllocError>
    ensures look { A.look types.new ≡ A.look types.old }
    ensures kept { A.kept types.new ≡ A.kept types.old }
    ensures found { OnOk result (found.new.items ≡ found.old.items
        ++ spec.bad_values_by (A.look types.old) (value_of value.now) (written_of of_type.entry)) }
{
    add_misfits(alloc, value, types, of_type, found)?;
    add_repeats(alloc, value, found)
}

/// What of a value does not fit a type of a schema, as `add_bad_values` finds it.
pub fn bad_values(
    alloc: Global,
    schema: &Schema,
    value: &Literal,
    of_type: &TypeRef,
) -> Result<Vec<BadValue>, AllocError>
    ensures { IfOk result (λ found. found.items
        ≡ spec.bad_values schema.now value.now (written of_type.now)) }
{
    let mut found = Vec::new(alloc);
    let mut types = OfSchema { schema };
    let expected = ExpectedType::Placed(of_type);
    add_bad_values(alloc, &mut types, value, expected, &mut found)?;
    Ok(found)
}

/// Whether a value fits a type of a schema. It ends at the first part of a list or an object that
/// does not.
pub fn fits(
    alloc: Global,
    schema: &Schema,
    value: &Literal,
    of_type: &TypeRef,
) -> Result<bool, AllocError>
    ensures { IfOk result (λ b. b ≡ spec.fits schema.now value.now (written of_type.now)) }
{
    let mut types = OfSchema { schema };
    let expected = ExpectedType::Placed(of_type);
    if !value_fits(alloc, value, &mut types, expected)? {
        return Ok(false);
    }
    let mut found = Vec::new(alloc);
    add_repeats(alloc, value, &mut found)?;
    Ok(found.is_empty())
}
