//! Values of a scalar of a schema file. Where Float is not a type, it takes no number with a
//! fraction or an exponent, and no integer of more than 64 bits; else it takes each number that has
//! a finite nearest double. This holds wherever the number is in the value (this registry's own
//! rule; GraphQL specification, 3.5.5, leaves it open).
ghost use Rattle.std.specs.Prelude.{◌≡◌, ◌++◌, flat_map, OnOk};
ghost use Rattle.gql_ast.specs.declared.literal.Literal.{Literal as AValue};
ghost use Rattle.gql_ast.specs.declared.literal.ObjectField.{ObjectField as AField};
ghost use Rattle.gql_ast.specs.declared.rule.Rule.TheVariants as rule;
ghost use Rattle.gql_inputs.specs.BadValues as spec;
ghost use Rattle.gql_inputs.specs.Values.{value_of};

use crate::bad_value::{BadValue, add_bad};
use crate::scalar::Scalar;
use crate::singles::{scalar_takes_float, scalar_takes_int};
use gql_ast::{Literal, ObjectField, Rule, Text};
use std::alloc::{AllocError, Global};

/// Adds what a scalar of a schema file, of that name, does not take of a value.
#[cycle(within)]
#[tactic(auto, using(crate::proofs::Inside::within_variable, crate::proofs::Inside::within_int, crate::proofs::Inside::within_float, crate::proofs::Inside::within_string, crate::proofs::Inside::within_boolean, crate::proofs::Inside::within_null, crate::proofs::Inside::within_enum, crate::proofs::Inside::within_list, crate::proofs::Inside::within_object, crate::proofs::Empties::nothing, crate::proofs::Empties::nothing_in_range, crate::proofs::Empties::nothing_of_a_float))]
pub fn add_within(
    alloc: Global,
    value: &Literal,
    scalar: Scalar,
    name: &str,
    found: &mut Vec<BadValue>,
) -> Result<(), AllocError>
    ensures { OnOk result (found.new.items
        ≡ found.old.items ++ spec.within scalar name.now (value_of value.now)) }
{
    match value {
        Literal::Int { place, text } => {
            if !scalar_takes_int(scalar, text.as_str()) {
                add_bad(Rule::V18, *place, Text::from_str(alloc, name)?, found)?;
            }
        }
        Literal::Float { place, text } => {
            if !scalar_takes_float(scalar, text.as_str()) {
                add_bad(Rule::V18, *place, Text::from_str(alloc, name)?, found)?;
            }
        }
        Literal::List { items, .. } => {
            add_within_all(alloc, items.as_slice(), scalar, name, found)?;
        }
        Literal::Object { fields, .. } => {
            add_within_fields(alloc, fields.as_slice(), scalar, name, found)?;
        }
        Literal::Variable { .. }
        | Literal::String { .. }
        | Literal::Boolean { .. }
        | Literal::Null { .. }
        | Literal::Enum { .. } => {}
    }
    Ok(())
}

/// Adds what a scalar of a schema file, of that name, does not take of these values.
#[cycle(within)]
pub fn add_within_all(
    alloc: Global,
    items: &[Literal],
    scalar: Scalar,
    name: &str,
    found: &mut Vec<BadValue>,
) -> Result<(), AllocError>
    ensures { OnOk result (found.new.items ≡ found.old.items
        ++ flat_map (λ (x : AValue). spec.within scalar name.now (value_of x)) items.now) }
{
    for item in items {
        add_within(alloc, item, scalar, name, found)?;
    }
    Ok(())
}

/// Adds what a scalar of a schema file, of that name, does not take of the values of these fields.
#[cycle(within)]
pub fn add_within_fields(
    alloc: Global,
    fields: &[ObjectField],
    scalar: Scalar,
    name: &str,
    found: &mut Vec<BadValue>,
) -> Result<(), AllocError>
    ensures { OnOk result (found.new.items ≡ found.old.items
        ++ flat_map (λ (f : AField). spec.within scalar name.now (value_of f.value)) fields.now) }
{
    for field in fields {
        add_within(alloc, &field.value, scalar, name, found)?;
    }
    Ok(())
}
