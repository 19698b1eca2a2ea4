//! Whether a value fits a type, up to its first part that does not (GraphQL specification, 5.6.1,
//! 5.6.2 and 5.6.4). Of the faults, no more are made than those of that part.
ghost use Rattle.std.specs.Prelude.{◌≡◌, ◌++◌, map, flat_map, IfOk};
ghost use Rattle.gql_ast.specs.declared.literal.Literal.{Literal as AValue};
ghost use Rattle.gql_text.specs.declared.place.Place.{Place as APlace};
ghost use Rattle.gql_inputs.specs.BadValues as spec;
ghost use Rattle.gql_inputs.specs.ExpectedTypes.{written_of};
ghost use Rattle.gql_inputs.specs.Lookups.{fields_in};
ghost use Rattle.gql_inputs.specs.NothingFound.{is_clean};
ghost use Rattle.gql_inputs.specs.Values.{fields_of, given_field, value_of, values_of};

use crate::expected_type::ExpectedType;
use crate::forms::{is_null, may_be_list};
use crate::input_types::{InputKind, InputType, InputTypes};
use crate::misfits::{add_list_at_one, add_misfits, add_to_scalar};
use crate::missing::{gives_required, is_required};
use gql_ast::{Literal, ObjectField};
use gql_text::Place;
use std::alloc::{AllocError, Global};

/// Whether a value fits the type, except for fields that occur more than once.
#[cycle(fits)]
#[tactic(auto, using(crate::proofs::Judged::misfits_list, crate::proofs::Judged::misfits_object))]
pub fn value_fits<A: InputTypes>(
    alloc: Global,
    value: &Literal,
    types: &mut A,
    of_type: ExpectedType<'_>,
) -> Result<bool, AllocError>
    ensures look { A.look types.new ≡ A.look types.old }
    ensures kept { A.kept types.new ≡ A.kept types.old }
    ensures fits { IfOk result (λ fits. fits ≡ is_clean
        (spec.misfits (A.look types.old) (written_of of_type.entry) (value_of value.now))) }
{
    match value {
        Literal::List { place, items } => {
            list_fits(alloc, items.as_slice(), *place, types, of_type)
        }
        Literal::Object { place, fields } => {
            object_fits(alloc, fields.as_slice(), *place, types, of_type)
        }
        Literal::Variable { .. }
        | Literal::Int { .. }
        | Literal::Float { .. }
        | Literal::String { .. }
        | Literal::Boolean { .. }
        | Literal::Null { .. }
        | Literal::Enum { .. } => {
            let mut found = Vec::new(alloc);
            add_misfits(alloc, value, types, of_type, &mut found)?;
            Ok(found.is_empty())
        }
    }
}

/// Whether a list fits.
#[cycle(fits)]
#[tactic(auto, using(crate::proofs::Judged::items_misfits_is))]
fn list_fits<A: InputTypes>(
    alloc: Global,
    items: &[Literal],
    place: Place,
    types: &mut A,
    of_type: ExpectedType<'_>,
) -> Result<bool, AllocError>
    ensures look { A.look types.new ≡ A.look types.old }
    ensures kept { A.kept types.new ≡ A.kept types.old }
    ensures fits { IfOk result (λ fits. fits ≡ is_clean
        (spec.list_misfits (A.look types.old) place
        (written_of of_type.entry) (values_of (map value_of items.now)))) }
{
    match of_type.item() {
        Some(item_type) => items_fit(alloc, items, types, item_type),
        None => {
            let mut found = Vec::new(alloc);
            add_list_at_one(alloc, items, place, types, of_type, &mut found)?;
            Ok(found.is_empty())
        }
    }
}

/// Whether all items of a list fit their type.
#[cycle(fits)]
fn items_fit<A: InputTypes>(
    alloc: Global,
    items: &[Literal],
    types: &mut A,
    of_type: ExpectedType<'_>,
) -> Result<bool, AllocError>
    ensures look { A.look types.new ≡ A.look types.old }
    ensures kept { A.kept types.new ≡ A.kept types.old }
    ensures fits { IfOk result (λ fits. fits ≡ is_clean
        (flat_map (λ (x : AValue). spec.item_misfits
        (A.look types.old) (written_of of_type.entry) (value_of x)) items.now)) }
{
    for item in items {
        if !item_fits(alloc, item, types, of_type)? {
            return Ok(false);
        }
    }
    Ok(true)
}

/// Whether one item fits. An item is not made a list of one.
#[cycle(fits)]
fn item_fits<A: InputTypes>(
    alloc: Global,
    item: &Literal,
    types: &mut A,
    of_type: ExpectedType<'_>,
) -> Result<bool, AllocError>
    ensures look { A.look types.new ≡ A.look types.old }
    ensures kept { A.kept types.new ≡ A.kept types.old }
    ensures fits { IfOk result (λ fits. fits ≡ is_clean
        (spec.item_misfits (A.look types.old) (written_of of_type.entry) (value_of item.now))) }
{
    if of_type.is_list() && !may_be_list(item) {
        Ok(types.input_type(alloc, of_type.name())?.is_none())
    } else {
        value_fits(alloc, item, types, of_type)
    }
}

/// Whether an object fits.
#[cycle(fits)]
#[tactic(auto, using(crate::proofs::Judged::fields_misfits_is))]
fn object_fits<A: InputTypes>(
    alloc: Global,
    fields: &[ObjectField],
    place: Place,
    types: &mut A,
    of_type: ExpectedType<'_>,
) -> Result<bool, AllocError>
    ensures look { A.look types.new ≡ A.look types.old }
    ensures kept { A.kept types.new ≡ A.kept types.old }
    ensures fits { IfOk result (λ fits. fits ≡ is_clean
        (spec.object_misfits (A.look types.old) place
        (written_of of_type.entry) (fields_of (map given_field fields.now)))) }
{
    match types.input_type(alloc, of_type.name())? {
        None => Ok(true),
        Some(found_type) => match found_type.kind() {
            InputKind::InputObject => input_object_fits(alloc, fields, types, &found_type),
            InputKind::Scalar(scalar) => {
                let mut found = Vec::new(alloc);
                add_to_scalar(alloc, fields, place, scalar, of_type, &mut found)?;
                Ok(found.is_empty())
            }
            InputKind::Enum => Ok(false),
        },
    }
}

/// Whether the fields of an object fit those of its type, and none of these is missing.
#[cycle(fits)]
fn input_object_fits<A: InputTypes>(
    alloc: Global,
    fields: &[ObjectField],
    types: &mut A,
    of_type: &A::Answer,
) -> Result<bool, AllocError>
    ensures look { A.look types.new ≡ A.look types.old }
    ensures kept { A.kept types.new ≡ A.kept types.old }
    ensures fits { IfOk result (λ fits. (place : APlace) → fits ≡ is_clean
        (flat_map (spec.field_misfits (A.look types.old) (fields_in (A.Answer.form of_type.now)))
        (map given_field fields.now)
        ++ flat_map (spec.missing place (map given_field fields.now))
        (fields_in (A.Answer.form of_type.now)))) }
{
    if !fields_fit(alloc, fields, types, of_type)? {
        return Ok(false);
    }
    gives_required(alloc, fields, of_type)
}

/// Whether the fields of an object fit the fields of its type.
#[cycle(fits)]
fn fields_fit<A: InputTypes>(
    alloc: Global,
    fields: &[ObjectField],
    types: &mut A,
    of_type: &A::Answer,
) -> Result<bool, AllocError>
    ensures look { A.look types.new ≡ A.look types.old }
    ensures kept { A.kept types.new ≡ A.kept types.old }
    ensures fits { IfOk result (λ fits. fits ≡ is_clean
        (flat_map (spec.field_misfits (A.look types.old) (fields_in (A.Answer.form of_type.now)))
        (map given_field fields.now))) }
{
    for field in fields {
        if !field_fits(alloc, field, types, of_type)? {
            return Ok(false);
        }
    }
    Ok(true)
}

/// Whether one field fits: the type has it, and its value fits the field's type. `null` at a
/// required field is a missing field, and not looked at here.
#[cycle(fits)]
fn field_fits<A: InputTypes>(
    alloc: Global,
    field: &ObjectField,
    types: &mut A,
    of_type: &A::Answer,
) -> Result<bool, AllocError>
    ensures look { A.look types.new ≡ A.look types.old }
    ensures kept { A.kept types.new ≡ A.kept types.old }
    ensures fits { IfOk result (λ fits. fits ≡ is_clean
        (spec.field_misfits (A.look types.old)
        (fields_in (A.Answer.form of_type.now)) (given_field field.now))) }
{
    match of_type.field(field.name.as_str()) {
        Some(definition) => {
            if is_null(&field.value) && is_required(&definition) {
                Ok(true)
            } else {
                value_fits(alloc, &field.value, types, definition.of_type)
            }
        }
        None => Ok(false),
    }
}
