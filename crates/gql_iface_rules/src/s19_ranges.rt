//! The fields that the objects within a default value do not give, as ranges of numbers: a field is
//! missing if the number of the first field of its name is in a range.
ghost use Rattle.std.specs.Prelude.{◌≡◌, ◌<◌, ◌++◌, ◌↔◌, ◌⊎◌, ℕ, [], map, flat_map, length, slice_index_or, IfOk, OnOk};
ghost use Rattle.std.specs.List.Sorted.{IsNonDecreasing, IsPermutation};
ghost use Rattle.gql_ast.specs.declared.type_system.InputValueDefinition.{InputValueDefinition};
ghost use Rattle.gql_built_in.specs.declared.sited.Sited.{Sited};
ghost use Rattle.gql_iface_rules.specs.S19DefaultValueCycles.{default_values, is_variable, name_of_given};
ghost use Rattle.gql_iface_rules.specs.S19Inputs.{object, object_value};
ghost use Rattle.gql_iface_rules.specs.S19Ranges as spec;
ghost use Rattle.gql_cycles.specs.Cover.{IsWithinAny};

use crate::s19_inputs::{Input, InputObject};
use crate::s19_object_values::{ObjectValue, default_values};
use gql_ast::{Literal, ObjectField};
use gql_cycles::Range;
use gql_types::Named;
use std::alloc::{AllocError, Global};

/// Adds the number of the first field of a name.
fn add_first(
    input_object: &InputObject<'_>,
    name: &str,
    numbers: &mut Vec<usize>,
) -> Result<(), AllocError>
    ensures { OnOk result (numbers.new.items ≡ numbers.old.items
        ++ spec.first_number (object input_object.now).inputs name.now) }
{
    match input_object.inputs.get(name) {
        Some(input) => {
            numbers.push(input.number)?;
            Ok(())
        }
        None => Ok(()),
    }
}

/// Whether a value is a variable.
#[tactic(auto, using(gql_inputs::proofs::ValueForms::value_variable, gql_inputs::proofs::ValueForms::value_int, gql_inputs::proofs::ValueForms::value_float, gql_inputs::proofs::ValueForms::value_string, gql_inputs::proofs::ValueForms::value_boolean, gql_inputs::proofs::ValueForms::value_null, gql_inputs::proofs::ValueForms::value_enum, gql_inputs::proofs::ValueForms::value_list, gql_inputs::proofs::ValueForms::value_object))]
fn is_variable(value: &Literal) -> bool
    ensures { result ≡ is_variable value.now }
{
    match value {
        Literal::Variable { .. } => true,
        Literal::Int { .. }
        | Literal::Float { .. }
        | Literal::String { .. }
        | Literal::Boolean { .. }
        | Literal::Null { .. }
        | Literal::Enum { .. }
        | Literal::List { .. }
        | Literal::Object { .. } => false,
    }
}

/// Adds the number of the first field of the name of a field, if the object gives it.
fn add_given(
    input_object: &InputObject<'_>,
    field: &ObjectField,
    numbers: &mut Vec<usize>,
) -> Result<(), AllocError>
    ensures { OnOk result (numbers.new.items ≡ numbers.old.items
        ++ flat_map (spec.first_number (object input_object.now).inputs)
        (name_of_given field.now)) }
{
    if is_variable(&field.value) {
        Ok(())
    } else {
        add_first(input_object, field.name.as_str(), numbers)
    }
}

/// The numbers of the first fields of the names that an object gives.
fn given_numbers(alloc: Global, at: &ObjectValue<'_, '_>) -> Result<Vec<usize>, AllocError>
    ensures { IfOk result (λ numbers. numbers.items ≡ spec.given_numbers (object_value at.now)) }
{
    let mut numbers = Vec::with_capacity(alloc, at.fields.len())?;
    for field in at.fields {
        add_given(at.input_object, field, &mut numbers)?;
    }
    Ok(numbers)
}

/// The same, from the least to the greatest.
fn sorted_numbers(alloc: Global, at: &ObjectValue<'_, '_>) -> Result<Vec<usize>, AllocError>
    ensures rises { IfOk result (λ numbers. IsNonDecreasing numbers.items) }
    ensures moved { IfOk result
        (λ numbers. IsPermutation (spec.given_numbers (object_value at.now)) numbers.items) }
{
    let mut numbers = given_numbers(alloc, at)?;
    numbers.sort()?;
    Ok(numbers)
}

/// Adds the range before a number, and returns where the rest starts.
fn add_gap(
    start: usize,
    number: usize,
    end: usize,
    gaps: &mut Vec<Range>,
) -> Result<usize, AllocError>
    ensures gaps { OnOk result (gaps.new.items ≡ gaps.old.items
        ++ spec.gap_before start number end) }
    ensures start { IfOk result (λ rest. rest ≡ spec.start_after start number end) }
{
    if start <= number && number < end {
        gaps.push(Range { start, end: number })?;
        Ok(number + 1)
    } else {
        Ok(start)
    }
}

/// Adds what these numbers leave of a range.
fn add_gaps(numbers: &Range, given: &[usize], gaps: &mut Vec<Range>) -> Result<(), AllocError>
    requires { IsNonDecreasing given.now }
    ensures { OnOk result ((p : ℕ) → IsWithinAny gaps.new.items p
        ↔ (IsWithinAny gaps.old.items p ⊎ spec.IsLeft numbers.now given.now p)) }
{
    let mut start = numbers.start;
    for number in given {
        start = add_gap(start, *number, numbers.end, gaps)?;
    }
    gaps.push(Range {
        start,
        end: numbers.end,
    })?;
    Ok(())
}

/// Adds the ranges of the fields that an object does not give.
fn add_missing(
    alloc: Global,
    at: &ObjectValue<'_, '_>,
    ranges: &mut Vec<Range>,
) -> Result<(), AllocError>
    ensures { OnOk result ((p : ℕ) → IsWithinAny ranges.new.items p
        ↔ (IsWithinAny ranges.old.items p ⊎ spec.IsMissing (object_value at.now) p)) }
{
    let given = sorted_numbers(alloc, at)?;
    add_gaps(&at.input_object.numbers, given.as_slice(), ranges)?;
    Ok(())
}

/// The ranges of the fields that these objects do not give.
fn missing(alloc: Global, all: &[ObjectValue<'_, '_>]) -> Result<Vec<Range>, AllocError>
    ensures { IfOk result (λ ranges. spec.AreMissing (map object_value all.now) ranges.items) }
{
    let mut ranges = Vec::new(alloc);
    for at in all {
        add_missing(alloc, at, &mut ranges)?;
    }
    Ok(ranges)
}

/// The same for the objects within the default value of a field.
fn default_ranges(
    alloc: Global,
    field: &Input,
    objects: &Named<InputObject<'_>>,
) -> Result<Vec<Range>, AllocError>
    ensures { IfOk result
        (λ ranges. spec.AreMissing (default_values
        (map object objects.now) field.now) ranges.items) }
{
    let all = default_values(alloc, field, objects)?;
    let ranges = missing(alloc, all.as_slice())?;
    Ok(ranges)
}

/// The same for each field.
pub fn all_ranges(
    alloc: Global,
    fields: &[&Input],
    objects: &Named<InputObject<'_>>,
) -> Result<Vec<Vec<Range>>, AllocError>
    ensures length { IfOk result (λ ranges. length ranges.items ≡ length fields.now) }
    ensures ranges { IfOk result
        (λ ranges. (i : ℕ) (d : Sited InputValueDefinition) → i < length fields.now
        → spec.AreMissing (default_values (map object objects.now)
        (slice_index_or (map (λ f. f.now) fields.now) i d))
        (slice_index_or (map (λ v. v.items) ranges.items) i [])) }
{
    let mut ranges = Vec::with_capacity(alloc, fields.len())?;
    for field in fields {
        ranges.push(default_ranges(alloc, field, objects)?)?;
    }
    Ok(ranges)
}
