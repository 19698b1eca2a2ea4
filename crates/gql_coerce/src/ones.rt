//! Lists of one: a value that is not a list, where a list is expected (GraphQL specification,
//! 3.11).
ghost use Rattle.std.specs.Prelude.{◌≡◌, IfOk, option_map};
ghost use Rattle.std.specs.Option.{option_copied};
ghost use Rattle.gql_types.specs.Written.{written};
ghost use Rattle.serde_json.specs.View.{view};
ghost use Rattle.gql_coerce.specs.Coercion as spec;
ghost use Rattle.gql_coerce.specs.Outcomes.{said};

use crate::coerced::Coerced;
use crate::coerced_parts::CoercedItems;
use crate::coerced_value::CoercedValue;
use crate::expected::expects_list;
use gql_ast::TypeRef;
use std::alloc::{AllocError, Global};

#[tactic(auto, using(gql_types::specs::Written::written_named, gql_types::specs::Written::written_list, gql_types::specs::Written::written_non_null))]
fn one_in(alloc: Global, of_type: &TypeRef, value: CoercedValue) -> Result<CoercedValue, AllocError>
    ensures { IfOk result (λ v. view v ≡ spec.one_in (written of_type.now) (view value)) }
{
    match of_type {
        TypeRef::Named(_) => Ok(value),
        TypeRef::List { item, .. } => {
            let one = one_in(alloc, item.get(), value)?;
            let mut items = CoercedItems::new(alloc);
            items.push(one)?;
            Ok(items.into_value())
        }
        TypeRef::NonNull(item) => one_in(alloc, item.get(), value),
    }
}

/// A value that is not a list, as a list of one if the type that is expected is a list, and as a
/// list of one list of one if that is a list of lists.
pub fn in_lists(
    alloc: Global,
    expected: Option<&TypeRef>,
    coerced: Coerced,
) -> Result<Coerced, AllocError>
    ensures { IfOk result (λ c. said c
        ≡ spec.once (option_map written (option_copied expected.entry)) (said coerced)) }
{
    match (expected, coerced) {
        (Some(of_type), Coerced::Given(value)) => {
            Ok(Coerced::Given(one_in(alloc, of_type, value)?))
        }
        (_, coerced) => Ok(coerced),
    }
}

/// The same as `in_lists`. Where no list is expected, it only hands the value on.
pub fn once(
    alloc: Global,
    expected: Option<&TypeRef>,
    coerced: Coerced,
) -> Result<Coerced, AllocError>
    ensures { IfOk result (λ c. said c
        ≡ spec.once (option_map written (option_copied expected.entry)) (said coerced)) }
{
    if expects_list(expected) {
        in_lists(alloc, expected, coerced)
    } else {
        Ok(coerced)
    }
}
