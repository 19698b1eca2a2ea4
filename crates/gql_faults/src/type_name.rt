//! The name within a type, and required arguments.
ghost use Rattle.std.specs.Prelude.{◌≡◌};
ghost use Rattle.gql_faults.specs.TypeNames as spec;
ghost use Rattle.gql_types.specs.Written.{written};

use gql_ast::{InputValueDefinition, Name, TypeRef};

/// The name within the lists and Non-Nulls of a type (GraphQL 2.11).
#[tactic(auto, using(crate::specs::TypeNames::name_in_named, crate::specs::TypeNames::name_in_list, crate::specs::TypeNames::name_in_non_null))]
pub fn named_type(of_type: &TypeRef) -> &Name
    ensures { result.now ≡ spec.name_in of_type.now }
{
    match of_type {
        TypeRef::Named(name) => name,
        TypeRef::List { item, .. } => named_type(item.get()),
        TypeRef::NonNull(item) => named_type(item.get()),
    }
}

/// Whether the type is Non-Null.
#[tactic(auto, using(gql_types::specs::Written::written_named, gql_types::specs::Written::written_list, gql_types::specs::Written::written_non_null))]
fn is_non_null(of_type: &TypeRef) -> bool
    ensures { result ≡ spec.is_non_null (written of_type.now) }
{
    match of_type {
        TypeRef::NonNull(_) => true,
        TypeRef::Named(_) | TypeRef::List { .. } => false,
    }
}

/// Whether an argument or an input field is required: its type is Non-Null, and it has no default
/// value (GraphQL 3.6.1 and 3.10).
pub fn is_required(input: &InputValueDefinition) -> bool
    ensures { result ≡ spec.is_required input.now }
{
    is_non_null(&input.of_type) && input.default.is_none()
}
