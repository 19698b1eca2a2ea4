//! Whether a name is the same as an input type in two schemas.
ghost use Rattle.std.specs.Prelude.{◌≡◌, Bool, IfOk, IsTrue, map};
ghost use Rattle.gql_inputs.specs.InputTypes.{is_open};
ghost use Rattle.gql_inputs.specs.Lookups.{field_of, form_of, in_schema};
ghost use Rattle.gql_types.specs.Possible.{name_of};

use gql_ast::{InputValueDefinition, Same, Shared};
use gql_types::{Schema, SchemaType, Sited, TypeKind, WrittenType};
use std::alloc::{AllocError, Global};

/// Whether two definitions define the same field of an input object: with one name and type, and
/// both with a default value or both without one.
fn is_same_field(
    alloc: Global,
    field: &Sited<Shared<InputValueDefinition>>,
    other: &Sited<Shared<InputValueDefinition>>,
) -> Result<bool, AllocError>
    ensures { IfOk result (λ is_same. IsTrue is_same → field_of field.now ≡ field_of other.now) }
{
    let field = field.node.get();
    let other = other.node.get();
    if !field.name.text.same(&other.name.text) {
        return Ok(false);
    }
    if field.default.is_some() != other.default.is_some() {
        return Ok(false);
    }
    let its = WrittenType::of(alloc, &field.of_type)?;
    let theirs = WrittenType::of(alloc, &other.of_type)?;
    Ok(its.same(&theirs))
}

/// Whether two lists define the same fields of an input object.
fn are_same_fields(
    alloc: Global,
    fields: &[Sited<Shared<InputValueDefinition>>],
    others: &[Sited<Shared<InputValueDefinition>>],
) -> Result<bool, AllocError>
    ensures { IfOk result (λ are_same. IsTrue are_same
        → map field_of fields.now ≡ map field_of others.now) }
{
    if fields.len() != others.len() {
        return Ok(false);
    }
    for i in 0..fields.len() {
        if !is_same_field(alloc, &fields[i], &others[i])? {
            return Ok(false);
        }
    }
    Ok(true)
}

/// Whether two types of one name and kind are the same input type, or are none.
fn is_same_form(alloc: Global, of_type: &SchemaType, other: &SchemaType) -> Result<bool, AllocError>
    requires name { name_of of_type.now ≡ name_of other.now }
    requires kind { of_type.now.kind ≡ other.now.kind }
    ensures { IfOk result (λ is_same. IsTrue is_same
        → (floats : Bool) → form_of floats of_type.now ≡ form_of floats other.now) }
{
    match of_type.kind {
        TypeKind::Enum => Ok(of_type.values.has_names_of(&other.values)),
        TypeKind::InputObject => {
            let others = other.input_fields.as_slice();
            are_same_fields(alloc, of_type.input_fields.as_slice(), others)
        }
        TypeKind::Scalar | TypeKind::Object | TypeKind::Interface | TypeKind::Union => Ok(true),
    }
}

/// Whether two types of one name are the same input type, or neither is one.
fn is_same_type(alloc: Global, of_type: &SchemaType, other: &SchemaType) -> Result<bool, AllocError>
    requires { name_of of_type.now ≡ name_of other.now }
    ensures { IfOk result (λ is_same. IsTrue is_same
        → (floats : Bool) → form_of floats of_type.now ≡ form_of floats other.now) }
{
    if of_type.kind.is(other.kind) {
        return is_same_form(alloc, of_type, other);
    }
    Ok(!of_type.kind.is_input() && !other.kind.is_input())
}

/// Whether a name is the same as an input type in two schemas: the same one, or none in both. Float is
/// a type in both, or in neither.
pub fn is_same_input(
    alloc: Global,
    schema: &Schema,
    other: &Schema,
    name: &str,
) -> Result<bool, AllocError>
    ensures { IfOk result (λ is_same. IsTrue is_same → is_open schema.now ≡ is_open other.now
        → in_schema schema.now name.now ≡ in_schema other.now name.now) }
{
    match schema.get(name) {
        Some(its) => match other.get(name) {
            Some(theirs) => {
                let is_same = is_same_type(alloc, its, theirs)?;
                Ok(is_same)
            }
            None => Ok(!its.kind.is_input()),
        },
        None => match other.get(name) {
            Some(theirs) => Ok(!theirs.kind.is_input()),
            None => Ok(true),
        },
    }
}
