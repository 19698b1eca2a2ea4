//! Numbers for the fields and the sets that are kept.
ghost use Rattle.std.specs.Prelude.{◌≡◌, ◌++◌, ◌<◌, [], IfOk, OnOk, bytes_eq, flat_map, length, map};
ghost use Rattle.std.specs.HashMap as hash;
ghost use Rattle.gql_merge.specs.FieldSets.{list_of};
ghost use Rattle.gql_merge.specs.Numbers as spec;
ghost use Rattle.gql_merge.specs.declared.flat.FlatSet.{FlatSet as ASet};

use crate::columns::{Columns, columns_of, own_name};
use crate::flat::{FlatField, FlatSet};
use gql_ast::Text;
use gql_clashes::{Body, NumberedField, Sets};
use std::alloc::{AllocError, Global};
use std::collections::HashMap;

/// Adds these fields. The result has their numbers.
fn add_fields<'t>(
    alloc: Global,
    fields: &[FlatField<'t>],
    all: &mut Vec<FlatField<'t>>,
) -> Result<Vec<usize>, AllocError>
    ensures all { OnOk result (all.new.items
        ≡ all.old.items ++ fields.now) }
    ensures numbers { IfOk result (λ numbers. numbers.items
        ≡ spec.numbers_from (length all.old.items) fields.now) }
{
    let mut numbers = Vec::new(alloc);
    for field in fields {
        numbers.push(all.len())?;
        all.push(field.copy()?)?;
    }
    Ok(numbers)
}

/// The number of a fragment, if it has one.
fn add_number(
    name: &Text,
    fragments: &HashMap<&str, usize>,
    numbers: &mut Vec<usize>,
) -> Result<(), AllocError>
    ensures { OnOk result (numbers.new.items ≡ numbers.old.items
        ++ list_of (hash.get_by (λ k. bytes_eq name.now k.now) fragments.now)) }
{
    if let Some(number) = fragments.get(name.as_str()) {
        numbers.push(*number)?;
    }
    Ok(())
}

/// The numbers of the fragments of these names.
pub fn spreads_of(
    alloc: Global,
    names: &[&Text],
    fragments: &HashMap<&str, usize>,
) -> Result<Vec<usize>, AllocError>
    ensures { IfOk result (λ numbers. numbers.items ≡ flat_map
        (λ n. list_of (hash.get_by (λ k. bytes_eq n.now k.now) fragments.now)) names.now) }
{
    let mut numbers = Vec::new(alloc);
    for name in names {
        add_number(name, fragments, &mut numbers)?;
    }
    Ok(numbers)
}

/// The bodies of these sets. Their fields are added to all fields.
fn bodies_of<'t>(
    alloc: Global,
    sets: &[FlatSet<'t>],
    fragments: &HashMap<&str, usize>,
    all: &mut Vec<FlatField<'t>>,
) -> Result<Vec<Body>, AllocError>
    ensures all { OnOk result (all.new.items
        ≡ all.old.items ++ flat_map (λ (s : ASet). s.fields.items) sets.now) }
    ensures direct { IfOk result (λ bodies. map (λ b. b.fields.items) bodies.items
        ≡ spec.direct_from (length all.old.items) sets.now) }
    ensures spreads { IfOk result (λ bodies. map (λ b. b.spreads.items) bodies.items
        ≡ map (spec.spreads_of (λ q. hash.get_by (λ k. bytes_eq q k.now) fragments.now)) sets.now) }
{
    let mut bodies = Vec::new(alloc);
    for set in sets {
        let fields = add_fields(alloc, set.fields.as_slice(), all)?;
        let spreads = spreads_of(alloc, set.names.as_slice(), fragments)?;
        bodies.push(Body { fields, spreads })?;
    }
    Ok(bodies)
}

fn below_of(field: &FlatField<'_>) -> Option<usize>
    ensures { result ≡ field.now.below }
{
    field.below
}

/// The field at a place, by its numbers.
fn numbered_field(all: &[FlatField<'_>], columns: &Columns, place: usize) -> NumberedField
    requires columns { spec.AreColumns all.now columns.now }
    requires place { place < length all.now }
    ensures { spec.IsNumberAt all.now place result }
{
    let field = &all[place];
    NumberedField {
        file: columns.files[place],
        start: own_name(field.known.field).place.offset,
        response_name: columns.names[place],
        parent: columns.parents[place],
        of_object: field.known.of_object,
        call: columns.calls[place],
        shape: columns.shapes[place],
        below: below_of(field),
    }
}

/// All fields by their numbers.
fn numbered_fields(alloc: Global, all: &[FlatField<'_>]) -> Result<Vec<NumberedField>, AllocError>
    ensures { IfOk result (λ fields. spec.AreNumbersOf all.now
        all.now fields.items) }
{
    let columns = columns_of(alloc, all)?;
    let mut fields = Vec::new(alloc);
    for place in 0..all.len() {
        fields.push(numbered_field(all, &columns, place))?;
    }
    Ok(fields)
}

/// The numbers of these sets and of their fields, which are added to `all`.
pub fn numbered_sets<'t>(
    alloc: Global,
    sets: &[FlatSet<'t>],
    fragments: &HashMap<&str, usize>,
    all: &mut Vec<FlatField<'t>>,
) -> Result<Sets, AllocError>
    requires { all.old.items ≡ [] }
    ensures { IfOk result (λ z. spec.Numbers sets.now
        (λ q. hash.get_by (λ k. bytes_eq q k.now) fragments.now)
        all.new.items z) }
{
    let bodies = bodies_of(alloc, sets, fragments, all)?;
    let fields = numbered_fields(alloc, all.as_slice())?;
    Ok(Sets { fields, bodies })
}
