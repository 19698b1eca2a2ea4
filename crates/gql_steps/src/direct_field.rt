//! Fields whose values are written at once.
ghost use Rattle.std.specs.Prelude.{◌≡◌, false, None, IfSome};
ghost use Rattle.gql_inputs.specs.InputTypes.{is_list};
ghost use Rattle.gql_types.specs.Written.{written};
ghost use Rattle.serde_json.specs.Data as json;
ghost use Rattle.serde_json.specs.Data.{Data};
ghost use Rattle.serde_json.specs.Find.{as_array};
ghost use Rattle.serde_json.specs.View.{view};
ghost use Rattle.gql_steps.specs.Direct.{data_of};
ghost use Rattle.gql_steps.specs.DirectParts.{IsDirectField, IsDirectly};
ghost use Rattle.gql_steps.specs.Execution.{stored};
ghost use Rattle.gql_steps.specs.Objects.{object_of};
ghost use Rattle.gql_steps.specs.Resolution.{resolved};
ghost use Rattle.gql_steps.specs.declared.kinds.ValueKind.TheVariants as named;

use crate::direct::{Direct, direct_scalar};
use crate::kinds::ValueKind;
use crate::planning::{Called, FieldPlan, Source};
use gql_ast::TypeRef;
use gql_inputs::{Scalar, is_list, is_non_null};
use serde_json::Value;

/// Null, if it is a value of the type.
fn direct_null<'v>(of_type: &TypeRef) -> Option<Direct<'v>>
    ensures { IfSome result
        (λ x. (c : Scalar) → IsDirectly c (written of_type.now) json.null (data_of x)) }
{
    if is_non_null(of_type) {
        None
    } else {
        Some(Direct::Null)
    }
}

/// A value in a place of a type, if it is written as it is.
fn direct_member<'v>(scalar: Scalar, of_type: &TypeRef, value: &'v Value) -> Option<Direct<'v>>
    requires { is_list (written of_type.now) ≡ false }
    ensures is { IfSome result
        (λ x. IsDirectly scalar (written of_type.now) (view value.now) (data_of x)) }
    ensures single { IfSome result (λ x. as_array (view value.now) ≡ None) }
{
    if value.is_null() {
        direct_null(of_type)
    } else {
        direct_scalar(scalar, value)
    }
}

/// The value of a field of an object of the data, if it is written as it is.
fn stored_value<'v>(field: &FieldPlan<'_>, scalar: Scalar, object: &'v Value) -> Option<Direct<'v>>
    requires { is_list (written field.now.of_type.now) ≡ false }
    ensures { IfSome result (λ x. (arguments : Data)
        → IsDirectly scalar (written field.now.of_type.now)
        (resolved field.now.name.now (written field.now.of_type.now) arguments (view object.now))
        (data_of x)) }
{
    match object.get(field.name) {
        Some(member) => direct_member(scalar, field.of_type, member),
        None => direct_null(field.of_type),
    }
}

/// The value of a field of an object of the data that is called with arguments, if it is written as
/// it is. The values of its type are of this scalar.
fn called_value<'v>(field: &FieldPlan<'_>, scalar: Scalar, object: &'v Value) -> Option<Direct<'v>>
    requires { field.now.kind ≡ named.Scalar scalar }
    ensures { IfSome result
        (λ x. IsDirectField field.now (stored (view object.now)) (data_of x)) }
{
    if is_list(field.of_type) {
        return None;
    }
    match &field.arguments {
        Called::Given(_) => match &field.source {
            Source::Stored => stored_value(field, scalar, object),
            Source::TypeName(_) => None,
            Source::Root => None,
        },
        Called::Refused(_) => None,
    }
}

/// The value of a field, if it is one of a built-in scalar or null and is written as it is.
pub fn direct_field<'v>(field: &FieldPlan<'_>, object: &'v Value) -> Option<Direct<'v>>
    ensures { IfSome result
        (λ x. IsDirectField field.now (object_of object.entry) (data_of x)) }
{
    match field.kind {
        ValueKind::Scalar(scalar) => called_value(field, scalar, object),
        ValueKind::Enum => None,
        ValueKind::Object => None,
        ValueKind::Abstract => None,
        ValueKind::NoOutput => None,
    }
}
