//! The objects within a default value, at their input objects (GraphQL 3.10).
ghost use Rattle.std.specs.Prelude.{◌≡◌, ◌++◌, true, map, flat_map, IfOk, OnOk};
ghost use Rattle.gql_iface_rules.specs.S19DefaultValueCycles as spec;
ghost use Rattle.gql_iface_rules.specs.S19Inputs.{object, object_value};
ghost use Rattle.gql_types.specs.Written.{written};

use crate::s19_inputs::{Input, InputObject, object_of};
use gql_ast::{Literal, ObjectField, TypeRef};
use gql_inputs::{is_list, item_of};
use gql_types::{Named, SchemaType};
use std::alloc::{AllocError, Global};

/// An object within a value, and the input object of its type.
#[derive(Clone, Copy)]
pub struct ObjectValue<'a, 's> {
    pub input_object: &'a InputObject<'s>,
    pub fields: &'a [ObjectField],
}

/// Adds the objects within a value at a type, which may be that of the items of a list.
#[cycle(object_values)]
#[tactic(auto, using(crate::proofs::S19Equations::object_values_variable, crate::proofs::S19Equations::object_values_int, crate::proofs::S19Equations::object_values_float, crate::proofs::S19Equations::object_values_string, crate::proofs::S19Equations::object_values_boolean, crate::proofs::S19Equations::object_values_null, crate::proofs::S19Equations::object_values_enum, crate::proofs::S19Equations::object_values_list, crate::proofs::S19Equations::object_values_object, crate::proofs::S19Steps::no_object_values))]
pub fn add_object_values<'a, 's>(
    alloc: Global,
    value: &'a Literal,
    is_item: bool,
    of_type: &TypeRef,
    objects: &'a Named<InputObject<'s>>,
    object_values: &mut Vec<ObjectValue<'a, 's>>,
) -> Result<(), AllocError>
    ensures { OnOk result (map object_value object_values.new.items
        ≡ map object_value object_values.old.items
        ++ spec.object_values (map object objects.now) value.now is_item (written of_type.now)) }
{
    match value {
        Literal::Object { fields, .. } => {
            add_object(
                alloc,
                fields.as_slice(),
                is_item,
                of_type,
                objects,
                object_values,
            )?;
        }
        Literal::List { items, .. } => {
            add_list(alloc, items.as_slice(), of_type, objects, object_values)?;
        }
        Literal::Variable { .. }
        | Literal::Int { .. }
        | Literal::Float { .. }
        | Literal::String { .. }
        | Literal::Boolean { .. }
        | Literal::Null { .. }
        | Literal::Enum { .. } => {}
    }
    Ok(())
}

#[cycle(object_values)]
fn add_list<'a, 's>(
    alloc: Global,
    items: &'a [Literal],
    of_type: &TypeRef,
    objects: &'a Named<InputObject<'s>>,
    object_values: &mut Vec<ObjectValue<'a, 's>>,
) -> Result<(), AllocError>
    ensures { OnOk result (map object_value object_values.new.items
        ≡ map object_value object_values.old.items
        ++ spec.list_at (map (spec.object_values (map object objects.now)) items.now)
        (written of_type.now)) }
{
    match item_of(of_type) {
        Some(item_type) => add_items(alloc, items, item_type, objects, object_values)?,
        None => {}
    }
    Ok(())
}

#[cycle(object_values)]
fn add_items<'a, 's>(
    alloc: Global,
    items: &'a [Literal],
    of_type: &TypeRef,
    objects: &'a Named<InputObject<'s>>,
    object_values: &mut Vec<ObjectValue<'a, 's>>,
) -> Result<(), AllocError>
    ensures { OnOk result (map object_value object_values.new.items
        ≡ map object_value object_values.old.items
        ++ flat_map (λ x. x true (written of_type.now))
        (map (spec.object_values (map object objects.now)) items.now)) }
{
    for item in items {
        add_object_values(alloc, item, true, of_type, objects, object_values)?;
    }
    Ok(())
}

#[cycle(object_values)]
fn add_object<'a, 's>(
    alloc: Global,
    fields: &'a [ObjectField],
    is_item: bool,
    of_type: &TypeRef,
    objects: &'a Named<InputObject<'s>>,
    object_values: &mut Vec<ObjectValue<'a, 's>>,
) -> Result<(), AllocError>
    ensures { OnOk result (map object_value object_values.new.items
        ≡ map object_value object_values.old.items
        ++ spec.object_at (map object objects.now)
        (map (spec.given (map object objects.now)) fields.now) is_item (written of_type.now)) }
{
    if !(is_item && is_list(of_type)) {
        if let Some(found) = object_of(objects, of_type) {
            add_values_of_object(alloc, fields, found, objects, object_values)?;
        }
    }
    Ok(())
}

#[cycle(object_values)]
fn add_values_of_object<'a, 's>(
    alloc: Global,
    fields: &'a [ObjectField],
    found: &'a InputObject<'s>,
    objects: &'a Named<InputObject<'s>>,
    object_values: &mut Vec<ObjectValue<'a, 's>>,
) -> Result<(), AllocError>
    ensures { OnOk result (map object_value object_values.new.items
        ≡ map object_value object_values.old.items
        ++ spec.values_of_object (map (spec.given (map object objects.now)) fields.now)
        (object found.now)) }
{
    add_fields(alloc, fields, found.of_type, objects, object_values)?;
    object_values.push(ObjectValue {
        input_object: found,
        fields,
    })?;
    Ok(())
}

#[cycle(object_values)]
fn add_fields<'a, 's>(
    alloc: Global,
    fields: &'a [ObjectField],
    of_type: &SchemaType,
    objects: &'a Named<InputObject<'s>>,
    object_values: &mut Vec<ObjectValue<'a, 's>>,
) -> Result<(), AllocError>
    ensures { OnOk result (map object_value object_values.new.items
        ≡ map object_value object_values.old.items
        ++ flat_map (spec.values_in_field of_type.now)
        (map (spec.given (map object objects.now)) fields.now)) }
{
    for field in fields {
        add_field(alloc, field, of_type, objects, object_values)?;
    }
    Ok(())
}

#[cycle(object_values)]
fn add_field<'a, 's>(
    alloc: Global,
    field: &'a ObjectField,
    of_type: &SchemaType,
    objects: &'a Named<InputObject<'s>>,
    object_values: &mut Vec<ObjectValue<'a, 's>>,
) -> Result<(), AllocError>
    ensures { OnOk result (map object_value object_values.new.items
        ≡ map object_value object_values.old.items
        ++ spec.values_in_field of_type.now (spec.given (map object objects.now) field.now)) }
{
    if let Some(definition) = of_type.input_fields.get(field.name.as_str()) {
        let field_type = &definition.node.get().of_type;
        add_object_values(
            alloc,
            &field.value,
            false,
            field_type,
            objects,
            object_values,
        )?;
    }
    Ok(())
}

/// The objects within the default of a field.
pub fn default_values<'a, 's>(
    alloc: Global,
    field: &'a Input,
    objects: &'a Named<InputObject<'s>>,
) -> Result<Vec<ObjectValue<'a, 's>>, AllocError>
    ensures { IfOk result
        (λ object_values. map object_value object_values.items
        ≡ spec.default_values (map object objects.now) field.now) }
{
    let mut object_values = Vec::new(alloc);
    let definition = field.node.get();
    if let Some(default) = &definition.default {
        add_object_values(
            alloc,
            default,
            false,
            &definition.of_type,
            objects,
            &mut object_values,
        )?;
    }
    Ok(object_values)
}
