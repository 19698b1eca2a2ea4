//! The default values that are needed when fields of a name are not given: a name has the number of
//! its first field.
ghost use Rattle.std.specs.Prelude.{◌≡◌, ◌<◌, ◌++◌, ◌↔◌, ℕ, [], map, flat_map, length, replicate, slice_index_or, IfOk, OnOk, Contains};
ghost use Rattle.gql_iface_rules.specs.S19Inputs.{numbered, object};
ghost use Rattle.gql_iface_rules.specs.S19Ends as spec;

use crate::s19_inputs::{InputObject, NumberedInput};
use gql_types::{HasName, Named};
use std::alloc::{AllocError, Global};

/// A field that has a default, and the first field of its name.
#[derive(Clone, Copy)]
pub struct End {
    pub first: usize,
    pub number: usize,
}

/// Adds a field, if it has a default.
fn add_end(
    input_object: &InputObject<'_>,
    input: &NumberedInput<'_>,
    ends: &mut Vec<End>,
) -> Result<(), AllocError>
    ensures { OnOk result (ends.new.items ≡ ends.old.items
        ++ spec.end_of (object input_object.now) (numbered input.now)) }
{
    if !input.field.node.get().default.is_some() {
        return Ok(());
    }
    match input_object.inputs.get(input.name()) {
        Some(first) => {
            ends.push(End {
                first: first.number,
                number: input.number,
            })?;
            Ok(())
        }
        None => Ok(()),
    }
}

/// Adds the fields of an input object that have a default.
fn add_ends(input_object: &InputObject<'_>, ends: &mut Vec<End>) -> Result<(), AllocError>
    ensures { OnOk result (ends.new.items ≡ ends.old.items
        ++ spec.ends_of (object input_object.now)) }
{
    for input in input_object.inputs.as_slice() {
        add_end(input_object, input, ends)?;
    }
    Ok(())
}

/// All fields that have a default.
pub fn all_ends(alloc: Global, objects: &Named<InputObject<'_>>) -> Result<Vec<End>, AllocError>
    ensures { IfOk result (λ ends. ends.items ≡ flat_map spec.ends_of (map object objects.now)) }
{
    let mut ends = Vec::new(alloc);
    for input_object in objects.as_slice() {
        add_ends(input_object, &mut ends)?;
    }
    Ok(ends)
}

/// That many empty rows.
fn empty_rows(alloc: Global, count: usize) -> Result<Vec<Vec<usize>>, AllocError>
    ensures { IfOk result (λ rows. map (λ v. v.items) rows.items ≡ replicate count []) }
{
    let mut rows = Vec::with_capacity(alloc, count)?;
    for _ in 0..count {
        rows.push(Vec::new(alloc))?;
    }
    Ok(rows)
}

/// Adds a field to the row of the first field of its name.
fn put_end(end: &End, rows: &mut Vec<Vec<usize>>) -> Result<(), AllocError>
    ensures { OnOk result (map (λ v. v.items) rows.new.items
        ≡ spec.with_end end.now (map (λ v. v.items) rows.old.items)) }
{
    if end.first < rows.len() {
        let row = &mut rows[end.first];
        row.push(end.number)?;
    }
    Ok(())
}

/// At each number, the fields that have a default and the name of the field of that number.
pub fn end_rows(alloc: Global, count: usize, ends: &[End]) -> Result<Vec<Vec<usize>>, AllocError>
    ensures { IfOk result (λ rows. spec.Rows count ends.now (map (λ v. v.items) rows.items)) }
{
    let mut rows = empty_rows(alloc, count)?;
    for end in ends {
        put_end(end, &mut rows)?;
    }
    Ok(rows)
}
