//! What a written type asks of an input (GraphQL specification, 2.11 and 3.4.2).
ghost use Rattle.std.specs.Prelude.{◌≡◌, option_map};
ghost use Rattle.std.specs.Option.{option_copied};
ghost use Rattle.gql_types.specs.Written.{written};
ghost use Rattle.gql_inputs.specs.InputTypes as spec;

use crate::scalar::{is_custom, scalar_named};
use gql_ast::{Text, TypeRef};
use gql_types::{HasName, Schema, SchemaType, TypeKind};

/// The name within lists and Non-Nulls.
#[tactic(auto, using(gql_types::specs::Written::written_named, gql_types::specs::Written::written_list, gql_types::specs::Written::written_non_null))]
pub fn name_in(of_type: &TypeRef) -> &Text
    ensures { result.now ≡ spec.name_in (written of_type.now) }
{
    match of_type {
        TypeRef::Named(name) => &name.text,
        TypeRef::List { item, .. } => name_in(item.get()),
        TypeRef::NonNull(item) => name_in(item.get()),
    }
}

/// The type of each item of a list that is given for a type.
#[tactic(auto, using(gql_types::specs::Written::written_named, gql_types::specs::Written::written_list, gql_types::specs::Written::written_non_null))]
pub fn item_of(of_type: &TypeRef) -> Option<&TypeRef>
    ensures { option_map written (option_copied result) ≡ spec.item_of (written of_type.now) }
{
    match of_type {
        TypeRef::Named(_) => None,
        TypeRef::List { item, .. } => Some(item.get()),
        TypeRef::NonNull(item) => item_of(item.get()),
    }
}

/// Whether a type is a list, Non-Null or not.
#[tactic(auto, using(gql_types::specs::Written::written_named, gql_types::specs::Written::written_list, gql_types::specs::Written::written_non_null))]
pub fn is_list(of_type: &TypeRef) -> bool
    ensures { result ≡ spec.is_list (written of_type.now) }
{
    match of_type {
        TypeRef::Named(_) => false,
        TypeRef::List { .. } => true,
        TypeRef::NonNull(item) => is_list(item.get()),
    }
}

#[tactic(auto, using(gql_types::specs::Written::written_named, gql_types::specs::Written::written_list, gql_types::specs::Written::written_non_null))]
pub fn is_non_null(of_type: &TypeRef) -> bool
    ensures { result ≡ spec.is_non_null (written of_type.now) }
{
    match of_type {
        TypeRef::NonNull(_) => true,
        TypeRef::Named(_) | TypeRef::List { .. } => false,
    }
}

/// The type that is expected of a value that is not a list.
#[tactic(auto, using(gql_types::specs::Written::written_named, gql_types::specs::Written::written_list, gql_types::specs::Written::written_non_null))]
pub fn one_of(of_type: &TypeRef) -> &TypeRef
    ensures { written result.now ≡ spec.one_of (written of_type.now) }
{
    match of_type {
        TypeRef::Named(_) => of_type,
        TypeRef::List { item, .. } => one_of(item.get()),
        TypeRef::NonNull(item) => match item.get() {
            TypeRef::Named(_) => of_type,
            TypeRef::List { .. } | TypeRef::NonNull(_) => one_of(item.get()),
        },
    }
}

fn is_input(kind: TypeKind) -> bool
    ensures { result ≡ spec.is_input kind }
{
    match kind {
        TypeKind::Scalar | TypeKind::Enum | TypeKind::InputObject => true,
        TypeKind::Object | TypeKind::Interface | TypeKind::Union => false,
    }
}

/// The input type of the name within a type, if it is known.
pub fn input_type<'s>(schema: &'s Schema, of_type: &TypeRef) -> Option<&'s SchemaType>
    ensures { option_copied result ≡ spec.input_type schema.now (written of_type.now) }
{
    match schema.get(name_in(of_type).as_str()) {
        Some(found) => {
            if is_input(found.kind) {
                Some(found)
            } else {
                None
            }
        }
        None => None,
    }
}

/// Whether a type is a scalar of a schema file.
pub fn is_custom_scalar(of_type: &SchemaType) -> bool
    ensures { result ≡ spec.is_custom_scalar of_type.now }
{
    match of_type.kind {
        TypeKind::Scalar => {
            let scalar = scalar_named(false, of_type.name());
            is_custom(scalar)
        }
        TypeKind::Enum
        | TypeKind::InputObject
        | TypeKind::Object
        | TypeKind::Interface
        | TypeKind::Union => false,
    }
}
