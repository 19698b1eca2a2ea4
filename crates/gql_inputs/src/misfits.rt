//! Values that do not fit the type that is expected (GraphQL specification, 5.6.1, 5.6.2 and
//! 5.6.4).
ghost use Rattle.std.specs.Prelude.{◌≡◌, ◌++◌, ℕ, List, is_some, map, flat_map, IfOk, OnOk};
ghost use Rattle.gql_ast.specs.declared.literal.Literal.{Literal as AValue};
ghost use Rattle.gql_types.specs.Written.{Written};
ghost use Rattle.gql_inputs.specs.BadValues as spec;
ghost use Rattle.gql_inputs.specs.ExpectedTypes.{written_of};
ghost use Rattle.gql_inputs.specs.InputTypes.{item_of as item_of_type, name_in as name_of_type};
ghost use Rattle.gql_inputs.specs.Lookups.{FieldForm, fields_in};
ghost use Rattle.gql_inputs.specs.Values.{fields_of, given_field, value_of, values_of};

use crate::bad_value::{BadValue, add_bad};
use crate::expected_type::ExpectedType;
use crate::forms::{is_null, may_be_list, place_of};
use crate::input_types::{InputField, InputKind, InputType, InputTypes};
use crate::missing::{add_missing, is_required};
use crate::scalar::{Scalar, is_custom};
use crate::singles::add_single;
use crate::within::{add_within_all, add_within_fields};
use gql_ast::{Literal, ObjectField, Rule};
use gql_text::Place;
use std::alloc::{AllocError, Global};

/// Adds a value that does not fit, if the type is known.
fn add_if_known<A: InputTypes>(
    alloc: Global,
    place: Place,
    types: &mut A,
    of_type: ExpectedType<'_>,
    found: &mut Vec<BadValue>,
) -> Result<(), AllocError>
    ensures look { A.look types.new ≡ A.look types.old }
    ensures kept { A.kept types.new ≡ A.kept types.old }
    ensures found { OnOk result (found.new.items ≡ found.old.items
        ++ spec.never_fits (A.look types.old) place (written_of of_type.entry)) }
{
    if types.input_type(alloc, of_type.name())?.is_some() {
        add_bad(Rule::V18, place, of_type.text(alloc)?, found)?;
    }
    Ok(())
}

/// Adds null, if the type is Non-Null.
fn add_null<A: InputTypes>(
    alloc: Global,
    place: Place,
    types: &mut A,
    of_type: ExpectedType<'_>,
    found: &mut Vec<BadValue>,
) -> Result<(), AllocError>
    ensures look { A.look types.new ≡ A.look types.old }
    ensures kept { A.kept types.new ≡ A.kept types.old }
    ensures found { OnOk result (found.new.items ≡ found.old.items
        ++ spec.null_misfits (A.look types.old) place (written_of of_type.entry)) }
{
    if of_type.is_non_null() {
        add_if_known(alloc, place, types, of_type, found)?;
    }
    Ok(())
}

/// Adds a list or an object where another value is expected, about the type of that value.
fn add_at_one(
    alloc: Global,
    place: Place,
    of_type: ExpectedType<'_>,
    found: &mut Vec<BadValue>,
) -> Result<(), AllocError>
    ensures { OnOk result (found.new.items
        ≡ found.old.items ++ spec.at_one place (written_of of_type.entry)) }
{
    add_bad(Rule::V18, place, of_type.one().text(alloc)?, found)
}

/// Adds what of a list does not fit a type that is not a list.
#[tactic(auto, using(crate::proofs::Inside::within_values_is))]
pub fn add_list_at_one<A: InputTypes>(
    alloc: Global,
    items: &[Literal],
    place: Place,
    types: &mut A,
    of_type: ExpectedType<'_>,
    found: &mut Vec<BadValue>,
) -> Result<(), AllocError>
    ensures look { A.look types.new ≡ A.look types.old }
    ensures kept { A.kept types.new ≡ A.kept types.old }
    ensures found { OnOk result (found.new.items ≡ found.old.items
        ++ spec.where_known (A.look types.old) (written_of of_type.entry)
        (spec.list_at_one place (written_of of_type.entry)
        (λ s name. spec.within_values s name (values_of (map value_of items.now))))) }
{
    match types.input_type(alloc, of_type.name())? {
        None => Ok(()),
        Some(found_type) => match found_type.kind() {
            InputKind::Scalar(scalar) => {
                add_list_to_scalar(alloc, items, place, scalar, of_type, found)
            }
            InputKind::Enum | InputKind::InputObject => { add_at_one(alloc, place, of_type, found) }
        },
    }
}

/// Adds what of a list does not fit a scalar.
#[tactic(auto, using(crate::proofs::Inside::within_values_is))]
fn add_list_to_scalar(
    alloc: Global,
    items: &[Literal],
    place: Place,
    scalar: Scalar,
    of_type: ExpectedType<'_>,
    found: &mut Vec<BadValue>,
) -> Result<(), AllocError>
    ensures { OnOk result (found.new.items ≡ found.old.items
        ++ spec.at_scalar place (written_of of_type.entry)
        (λ s name. spec.within_values s name (values_of (map value_of items.now))) scalar) }
{
    if is_custom(scalar) {
        add_within_all(alloc, items, scalar, of_type.name().as_str(), found)
    } else {
        add_at_one(alloc, place, of_type, found)
    }
}

/// Adds what of a value does not fit the type, except for fields that occur more than once.
#[cycle(misfits)]
#[tactic(auto, using(crate::proofs::Judged::misfits_variable, crate::proofs::Judged::misfits_int, crate::proofs::Judged::misfits_float, crate::proofs::Judged::misfits_string, crate::proofs::Judged::misfits_boolean, crate::proofs::Judged::misfits_null, crate::proofs::Judged::misfits_enum, crate::proofs::Judged::misfits_list, crate::proofs::Judged::misfits_object, crate::proofs::Empties::no_misfits))]
pub fn add_misfits<A: InputTypes>(
    alloc: Global,
    value: &Literal,
    types: &mut A,
    of_type: ExpectedType<'_>,
    found: &mut Vec<BadValue>,
) -> Result<(), AllocError>
    ensures look { A.look types.new ≡ A.look types.old }
    ensures kept { A.kept types.new ≡ A.kept types.old }
    ensures found { OnOk result (found.new.items ≡ found.old.items
        ++ spec.misfits (A.look types.old) (written_of of_type.entry) (value_of value.now)) }
{
    match value {
        Literal::Variable { .. } => Ok(()),
        Literal::Null { place } => add_null(alloc, *place, types, of_type, found),
        Literal::Int { .. }
        | Literal::Float { .. }
        | Literal::String { .. }
        | Literal::Boolean { .. }
        | Literal::Enum { .. } => add_single(alloc, value, types, of_type, found),
        Literal::List { place, items } => {
            add_list(alloc, items.as_slice(), *place, types, of_type, found)
        }
        Literal::Object { place, fields } => {
            add_object(alloc, fields.as_slice(), *place, types, of_type, found)
        }
    }
}

/// Adds what of a list does not fit.
#[cycle(misfits)]
#[tactic(auto, using(crate::proofs::Judged::items_misfits_is))]
fn add_list<A: InputTypes>(
    alloc: Global,
    items: &[Literal],
    place: Place,
    types: &mut A,
    of_type: ExpectedType<'_>,
    found: &mut Vec<BadValue>,
) -> Result<(), AllocError>
    ensures look { A.look types.new ≡ A.look types.old }
    ensures kept { A.kept types.new ≡ A.kept types.old }
    ensures found { OnOk result (found.new.items ≡ found.old.items
        ++ spec.list_misfits (A.look types.old) place
        (written_of of_type.entry) (values_of (map value_of items.now))) }
{
    match of_type.item() {
        Some(item_type) => add_items(alloc, items, types, item_type, found),
        None => add_list_at_one(alloc, items, place, types, of_type, found),
    }
}

/// Adds what of the items of a list does not fit their type.
#[cycle(misfits)]
fn add_items<A: InputTypes>(
    alloc: Global,
    items: &[Literal],
    types: &mut A,
    of_type: ExpectedType<'_>,
    found: &mut Vec<BadValue>,
) -> Result<(), AllocError>
    ensures look { A.look types.new ≡ A.look types.old }
    ensures kept { A.kept types.new ≡ A.kept types.old }
    ensures found { OnOk result (found.new.items ≡ found.old.items
        ++ flat_map (λ (x : AValue). spec.item_misfits
        (A.look types.old) (written_of of_type.entry) (value_of x)) items.now) }
{
    for item in items {
        add_item(alloc, item, types, of_type, found)?;
    }
    Ok(())
}

/// Adds what of one item does not fit. An item is not made a list of one.
#[cycle(misfits)]
fn add_item<A: InputTypes>(
    alloc: Global,
    item: &Literal,
    types: &mut A,
    of_type: ExpectedType<'_>,
    found: &mut Vec<BadValue>,
) -> Result<(), AllocError>
    ensures look { A.look types.new ≡ A.look types.old }
    ensures kept { A.kept types.new ≡ A.kept types.old }
    ensures found { OnOk result (found.new.items ≡ found.old.items
        ++ spec.item_misfits (A.look types.old) (written_of of_type.entry) (value_of item.now)) }
{
    if of_type.is_list() && !may_be_list(item) {
        add_if_known(alloc, place_of(item), types, of_type, found)
    } else {
        add_misfits(alloc, item, types, of_type, found)
    }
}

/// Adds what of an object does not fit.
#[cycle(misfits)]
#[tactic(auto, using(crate::proofs::Judged::fields_misfits_is))]
fn add_object<A: InputTypes>(
    alloc: Global,
    fields: &[ObjectField],
    place: Place,
    types: &mut A,
    of_type: ExpectedType<'_>,
    found: &mut Vec<BadValue>,
) -> Result<(), AllocError>
    ensures look { A.look types.new ≡ A.look types.old }
    ensures kept { A.kept types.new ≡ A.kept types.old }
    ensures found { OnOk result (found.new.items ≡ found.old.items
        ++ spec.object_misfits (A.look types.old) place
        (written_of of_type.entry) (fields_of (map given_field fields.now))) }
{
    match types.input_type(alloc, of_type.name())? {
        None => Ok(()),
        Some(found_type) => match found_type.kind() {
            InputKind::InputObject => {
                add_fields(alloc, fields, types, &found_type, found)?;
                add_missing(alloc, fields, place, &found_type, found)
            }
            InputKind::Scalar(scalar) => add_to_scalar(
                alloc, fields, place, scalar, of_type, found,
            ),
            InputKind::Enum => add_at_one(alloc, place, of_type, found),
        },
    }
}

/// Adds what of an object does not fit a scalar.
#[tactic(auto, using(crate::proofs::Inside::within_fields_is))]
pub fn add_to_scalar(
    alloc: Global,
    fields: &[ObjectField],
    place: Place,
    scalar: Scalar,
    of_type: ExpectedType<'_>,
    found: &mut Vec<BadValue>,
) -> Result<(), AllocError>
    ensures { OnOk result (found.new.items ≡ found.old.items
        ++ spec.at_scalar place (written_of of_type.entry)
        (λ s name. spec.within_fields s name (fields_of (map given_field fields.now))) scalar) }
{
    if is_custom(scalar) {
        add_within_fields(alloc, fields, scalar, of_type.name().as_str(), found)
    } else {
        add_at_one(alloc, place, of_type, found)
    }
}

/// Adds what of the fields of an object does not fit the fields of its type.
#[cycle(misfits)]
fn add_fields<A: InputTypes>(
    alloc: Global,
    fields: &[ObjectField],
    types: &mut A,
    of_type: &A::Answer,
    found: &mut Vec<BadValue>,
) -> Result<(), AllocError>
    ensures look { A.look types.new ≡ A.look types.old }
    ensures kept { A.kept types.new ≡ A.kept types.old }
    ensures found { OnOk result (found.new.items ≡ found.old.items
        ++ flat_map (spec.field_misfits (A.look types.old) (fields_in (A.Answer.form of_type.now)))
        (map given_field fields.now)) }
{
    for field in fields {
        add_field(alloc, field, types, of_type, found)?;
    }
    Ok(())
}

/// Adds what of one field does not fit: a field that the type does not have, or a value that does
/// not fit its type. `null` at a required field is reported by V21 alone, with the missing fields.
#[cycle(misfits)]
fn add_field<A: InputTypes>(
    alloc: Global,
    field: &ObjectField,
    types: &mut A,
    of_type: &A::Answer,
    found: &mut Vec<BadValue>,
) -> Result<(), AllocError>
    ensures look { A.look types.new ≡ A.look types.old }
    ensures kept { A.kept types.new ≡ A.kept types.old }
    ensures found { OnOk result (found.new.items ≡ found.old.items
        ++ spec.field_misfits (A.look types.old)
        (fields_in (A.Answer.form of_type.now)) (given_field field.now)) }
{
    match of_type.field(field.name.as_str()) {
        Some(definition) => {
            if is_null(&field.value) && is_required(&definition) {
                Ok(())
            } else {
                add_misfits(alloc, &field.value, types, definition.of_type, found)
            }
        }
        None => add_bad(Rule::V19, field.name.place, field.name.text.copy()?, found),
    }
}
