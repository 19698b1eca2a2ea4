//! V20: fields that occur more than once in an object (GraphQL specification, 5.6.3), wherever the
//! object is in a value.
ghost use Rattle.std.specs.Prelude.{◌≡◌, ◌++◌, None, map, flat_map, IfOk, OnOk};
ghost use Rattle.gql_ast.specs.declared.literal.Literal.{Literal as AValue};
ghost use Rattle.gql_ast.specs.declared.literal.ObjectField.{ObjectField as AField};
ghost use Rattle.gql_faults.specs.Places.{named};
ghost use Rattle.gql_types.specs.Parts.{sited};
ghost use Rattle.gql_inputs.specs.BadValues as spec;
ghost use Rattle.gql_inputs.specs.Values.{given_field, value_of};

use crate::bad_value::{BadValue, add_bad};
use gql_ast::{Literal, ObjectField, Rule};
use gql_faults::{NamePlace, repeated};
use std::alloc::{AllocError, Global};

/// The names of the fields, in their order.
fn names<'v>(alloc: Global, fields: &'v [ObjectField]) -> Result<Vec<NamePlace<'v>>, AllocError>
    ensures { IfOk result (λ names. map named names.items
        ≡ sited None (map (λ (f : AField). f.name) fields.now)) }
{
    let mut names = Vec::new(alloc);
    for field in fields {
        names.push(NamePlace {
            file: None,
            name: &field.name,
        })?;
    }
    Ok(names)
}

/// Adds one field, which occurs more than once.
fn add_repeat(
    alloc: Global,
    name: &NamePlace<'_>,
    found: &mut Vec<BadValue>,
) -> Result<(), AllocError>
    ensures { OnOk result (found.new.items ≡ found.old.items ++ spec.repeat (named name.now)) }
{
    let about = name.name.text.copy()?;
    add_bad(Rule::V20, name.name.place, about, found)
}

/// Adds each of these fields.
fn add_all_repeats(
    alloc: Global,
    names: &[NamePlace<'_>],
    found: &mut Vec<BadValue>,
) -> Result<(), AllocError>
    ensures { OnOk result (found.new.items
        ≡ found.old.items ++ flat_map spec.repeat (map named names.now)) }
{
    for name in names {
        add_repeat(alloc, name, found)?;
    }
    Ok(())
}

/// Adds the fields of one object that occur more than once.
#[tactic(auto, using(crate::proofs::Empties::names_of))]
fn add_field_repeats(
    alloc: Global,
    fields: &[ObjectField],
    found: &mut Vec<BadValue>,
) -> Result<(), AllocError>
    ensures { OnOk result (found.new.items
        ≡ found.old.items ++ spec.field_repeats (map given_field fields.now)) }
{
    let names = names(alloc, fields)?;
    let repeated = repeated(alloc, names.as_slice())?;
    add_all_repeats(alloc, repeated.as_slice(), found)?;
    Ok(())
}

/// Adds the fields that occur more than once in an object of a value, each time.
#[cycle(repeats)]
#[tactic(auto, using(crate::proofs::Repeating::repeats_variable, crate::proofs::Repeating::repeats_int, crate::proofs::Repeating::repeats_float, crate::proofs::Repeating::repeats_string, crate::proofs::Repeating::repeats_boolean, crate::proofs::Repeating::repeats_null, crate::proofs::Repeating::repeats_enum, crate::proofs::Repeating::repeats_list, crate::proofs::Repeating::repeats_object, crate::proofs::Empties::no_repeats))]
pub fn add_repeats(
    alloc: Global,
    value: &Literal,
    found: &mut Vec<BadValue>,
) -> Result<(), AllocError>
    ensures { OnOk result (found.new.items ≡ found.old.items ++ spec.repeats (value_of value.now)) }
{
    match value {
        Literal::List { items, .. } => add_repeats_in_all(alloc, items.as_slice(), found)?,
        Literal::Object { fields, .. } => {
            add_field_repeats(alloc, fields.as_slice(), found)?;
            add_repeats_in_fields(alloc, fields.as_slice(), found)?;
        }
        Literal::Variable { .. }
        | Literal::Int { .. }
        | Literal::Float { .. }
        | Literal::String { .. }
        | Literal::Boolean { .. }
        | Literal::Null { .. }
        | Literal::Enum { .. } => {}
    }
    Ok(())
}

/// Adds those in the items of a list.
#[cycle(repeats)]
fn add_repeats_in_all(
    alloc: Global,
    items: &[Literal],
    found: &mut Vec<BadValue>,
) -> Result<(), AllocError>
    ensures { OnOk result (found.new.items
        ≡ found.old.items ++ flat_map (λ (x : AValue). spec.repeats (value_of x)) items.now) }
{
    for item in items {
        add_repeats(alloc, item, found)?;
    }
    Ok(())
}

/// Adds those in the values of an object's fields.
#[cycle(repeats)]
fn add_repeats_in_fields(
    alloc: Global,
    fields: &[ObjectField],
    found: &mut Vec<BadValue>,
) -> Result<(), AllocError>
    ensures { OnOk result (found.new.items ≡ found.old.items
        ++ flat_map (λ (f : AField). spec.repeats (value_of f.value)) fields.now) }
{
    for field in fields {
        add_repeats(alloc, &field.value, found)?;
    }
    Ok(())
}
