//! The faults of root fields.
ghost use Rattle.std.specs.Prelude.{◌≡◌, ◌↔◌, IfOk, IsTrue, OnOk, flat_map, map};
ghost use Rattle.indexmap.specs.IndexSet.{insert_all};
ghost use Rattle.gql_single_root.specs.RootFaults.{is_fault};
ghost use Rattle.gql_single_root.specs.V30SingleRootField as spec;
ghost use Rattle.gql_single_root.specs.Walks.{AreSeveral, field_faults, found_of};

use crate::fault::RootFault;
use crate::walk::RootField;
use gql_ast::{Field, FileName, Name, Operation, Text};
use indexmap::IndexSet;
use std::alloc::{AllocError, Global};

/// The response name of a field: its alias, or its name (GraphQL specification, 2.7).
fn response_name(field: &Field) -> &Name
    ensures { result.now ≡ spec.response_name field.now }
{
    match &field.alias {
        Some(alias) => alias,
        None => &field.name,
    }
}

/// Whether a field is an introspection field.
fn is_introspection(field: &Field) -> bool
    ensures { result ≡ spec.is_introspection field.now }
{
    field.name.as_str().as_bytes().starts_with(b"__")
}

/// Whether two fields have one response name.
fn share_name(field: &RootField<'_>, other: &RootField<'_>) -> bool
    ensures { IsTrue result ↔ ((spec.response_name field.now.field.now).text
        ≡ (spec.response_name other.now.field.now).text) }
{
    response_name(field.field).as_str() == response_name(other.field).as_str()
}

/// Whether two of these fields have different response names.
pub fn are_several(fields: &[RootField<'_>]) -> bool
    ensures { IsTrue result ↔ AreSeveral (map found_of fields.now) }
{
    for field in fields {
        if !share_name(&fields[0], field) {
            return true;
        }
    }
    false
}

/// The fault at a field.
fn fault_of(field: &RootField<'_>) -> Result<RootFault, AllocError>
    ensures { IfOk result (λ x. x ≡ spec.fault_of field.now.file.now field.now.field.now) }
{
    let name = response_name(field.field);
    Ok(RootFault {
        file: field.file.copy()?,
        place: name.place,
        about: name.text.copy()?,
    })
}

/// Adds the fault of a field, if there are several response names or it is an introspection field.
fn check_field(
    field: &RootField<'_>,
    are_several: bool,
    faults: &mut IndexSet<RootFault>,
) -> Result<(), AllocError>
    ensures { OnOk result (faults.new.keys ≡ insert_all is_fault faults.old.keys
        (field_faults are_several (found_of field.now))) }
{
    if are_several || is_introspection(field.field) {
        faults.insert(fault_of(field)?)?;
    }
    Ok(())
}

/// Adds the faults of these fields.
pub fn check_fields(
    fields: &[RootField<'_>],
    are_several: bool,
    faults: &mut IndexSet<RootFault>,
) -> Result<(), AllocError>
    ensures { OnOk result (faults.new.keys ≡ insert_all is_fault faults.old.keys
        (flat_map (field_faults are_several) (map found_of fields.now))) }
{
    for field in fields {
        check_field(field, are_several, faults)?;
    }
    Ok(())
}

/// The name of an operation, or an empty text.
fn name_or_empty(alloc: Global, name: &Option<Name>) -> Result<Text, AllocError>
    ensures { IfOk result (λ text. text ≡ spec.name_or_empty name.now) }
{
    match name {
        Some(name) => name.text.copy(),
        None => Text::from_str(alloc, ""),
    }
}

/// The fault of an operation without a root field.
pub fn fault_of_none(
    alloc: Global,
    file: &FileName,
    operation: &Operation,
) -> Result<RootFault, AllocError>
    ensures { IfOk result (λ x. x ≡ spec.fault_of_none file.now operation.now) }
{
    Ok(RootFault {
        file: file.copy()?,
        place: operation.place,
        about: name_or_empty(alloc, &operation.name)?,
    })
}
