//! V21: required fields that an object does not give, or gives as `null` (GraphQL specification,
//! 5.6.4).
ghost use Rattle.std.specs.Prelude.{◌≡◌, ◌++◌, ◌&&◌, ◌||◌, ℕ, List, true, map, flat_map, bytes_eq, is_some, IfOk, OnOk};
ghost use Rattle.std.specs.HashMap as hash;
ghost use Rattle.gql_text.specs.declared.place.Place.{Place as APlace};
ghost use Rattle.gql_inputs.specs.BadValues as spec;
ghost use Rattle.gql_inputs.specs.Lookups.{field_form, fields_in, is_required as is_required_field};
ghost use Rattle.gql_inputs.specs.NothingFound.{is_clean};
ghost use Rattle.gql_inputs.specs.Values.{given_field, is_null as is_null_value, value_of};

use crate::bad_value::{BadValue, add_bad};
use crate::forms::is_null;
use crate::input_types::{InputField, InputType};
use gql_ast::{ObjectField, Rule};
use gql_text::Place;
use std::alloc::{AllocError, Global};
use std::collections::HashMap;

/// Whether a field has to be given.
pub fn is_required(field: &InputField<'_>) -> bool
    ensures { result ≡ is_required_field (field_form field.now) }
{
    field.of_type.is_non_null() && !field.has_default
}

/// The names of the fields.
fn names<'v>(alloc: Global, fields: &'v [ObjectField]) -> Result<HashMap<&'v str, ()>, AllocError>
    ensures { IfOk result (λ names. (q : List ℕ) →
        is_some (hash.get_by (λ k. bytes_eq q k.now) names)
        ≡ spec.is_given (map given_field fields.now) q) }
{
    let mut names = HashMap::new(alloc);
    for field in fields {
        names.insert(field.name.as_str(), ())?;
    }
    Ok(names)
}

fn add_if_null<'v>(
    field: &'v ObjectField,
    names: &mut HashMap<&'v str, ()>,
) -> Result<(), AllocError>
    ensures { OnOk result ((q : List ℕ) → is_some (hash.get_by (λ k. bytes_eq q k.now) names.new)
        ≡ (is_some (hash.get_by (λ k. bytes_eq q k.now) names.old)
        || (bytes_eq q field.now.name.text && is_null_value (value_of field.now.value)))) }
{
    if is_null(&field.value) {
        names.insert(field.name.as_str(), ())?;
    }
    Ok(())
}

/// The names of the fields that are `null`.
fn nulls<'v>(alloc: Global, fields: &'v [ObjectField]) -> Result<HashMap<&'v str, ()>, AllocError>
    ensures { IfOk result (λ names. (q : List ℕ) →
        is_some (hash.get_by (λ k. bytes_eq q k.now) names)
        ≡ spec.is_null_given (map given_field fields.now) q) }
{
    let mut names = HashMap::new(alloc);
    for field in fields {
        add_if_null(field, &mut names)?;
    }
    Ok(names)
}

/// What fields give: all names, and those that are `null`.
#[derive(Drop)]
struct Given<'v> {
    names: HashMap<&'v str, ()>,
    nulls: HashMap<&'v str, ()>,
}

impl Given<'_> {
    fn lacks(&self, name: &str) -> bool
        ensures { result
            ≡ spec.lacks (is_some (hash.get_by (λ k. bytes_eq name.now k.now) self.now.names))
            (is_some (hash.get_by (λ k. bytes_eq name.now k.now) self.now.nulls)) }
    {
        !self.names.contains_key(name) || self.nulls.contains_key(name)
    }
}

/// Adds a required field, if it is missing or `null`.
fn add_if_missing(
    given: &Given<'_>,
    place: Place,
    field: &InputField<'_>,
    found: &mut Vec<BadValue>,
) -> Result<(), AllocError>
    requires { is_required_field (field_form field.now) ≡ true }
    ensures { OnOk result (found.new.items ≡ found.old.items ++ spec.missing_if
        (spec.lacks (is_some (hash.get_by (λ k. bytes_eq field.now.name.now k.now) given.now.names))
        (is_some (hash.get_by (λ k. bytes_eq field.now.name.now k.now) given.now.nulls))) place
        (field_form field.now)) }
{
    if given.lacks(field.name.as_str()) {
        add_bad(Rule::V21, place, field.name.copy()?, found)?;
    }
    Ok(())
}

/// Adds the required fields of an input object that the fields do not give, at the object's start.
pub fn add_missing<T: InputType>(
    alloc: Global,
    fields: &[ObjectField],
    place: Place,
    of_type: &T,
    found: &mut Vec<BadValue>,
) -> Result<(), AllocError>
    ensures { OnOk result (found.new.items ≡ found.old.items
        ++ flat_map (spec.missing place (map given_field fields.now))
        (fields_in (T.form of_type.now))) }
{
    let names = names(alloc, fields)?;
    let nulls = nulls(alloc, fields)?;
    let given = Given { names, nulls };
    for index in 0..of_type.required_count() {
        let field = of_type.required_at(index);
        add_if_missing(&given, place, &field, found)?;
    }
    Ok(())
}

/// Whether fields give each required field of an input object, and none of these as `null`.
pub fn gives_required<T: InputType>(
    alloc: Global,
    fields: &[ObjectField],
    of_type: &T,
) -> Result<bool, AllocError>
    ensures { IfOk result (λ gives. (place : APlace) → gives ≡ is_clean
        (flat_map (spec.missing place (map given_field fields.now))
        (fields_in (T.form of_type.now)))) }
{
    let names = names(alloc, fields)?;
    let nulls = nulls(alloc, fields)?;
    let given = Given { names, nulls };
    for index in 0..of_type.required_count() {
        let field = of_type.required_at(index);
        if given.lacks(field.name.as_str()) {
            return Ok(false);
        }
    }
    Ok(true)
}
