//! Whether the type of a variable fits a location (GraphQL specification, 5.8.5).
ghost use Rattle.std.specs.Prelude.{◌≡◌, ℕ, List};
ghost use Rattle.gql_types.specs.Written.{named, written};
ghost use Rattle.gql_types.specs.WrittenTypes.{typed};
ghost use Rattle.gql_inputs.specs.ExpectedTypes.{written_of};
ghost use Rattle.gql_vars.specs.V29AllVariableUsagesAreAllowed as spec;

use gql_ast::TypeRef;
use gql_inputs::ExpectedType;
use gql_types::Wrapper;

/// A type of a file, without its Non-Null.
#[tactic(auto, using(gql_types::specs::Written::written_named, gql_types::specs::Written::written_list, gql_types::specs::Written::written_non_null))]
fn nullable_placed(of_type: &TypeRef) -> &TypeRef
    ensures { written result.now ≡ spec.nullable (written of_type.now) }
{
    match of_type {
        TypeRef::NonNull(inner) => inner.get(),
        TypeRef::Named(_) | TypeRef::List { .. } => of_type,
    }
}

/// The steps of a type, without its Non-Null.
fn nullable_steps(steps: &[Wrapper]) -> &[Wrapper]
    ensures { (n : List ℕ) → typed result.now (named n)
        ≡ spec.nullable (typed steps.now (named n)) }
{
    match steps.split_first() {
        None => steps,
        Some((Wrapper::List, _)) => steps,
        Some((Wrapper::NonNull, inner)) => inner,
    }
}

/// A type without its Non-Null.
pub fn nullable(of_type: ExpectedType<'_>) -> ExpectedType<'_>
    ensures { written_of result ≡ spec.nullable (written_of of_type.entry) }
{
    match of_type {
        ExpectedType::Placed(of_type) => ExpectedType::Placed(nullable_placed(of_type)),
        ExpectedType::Placeless { steps, name } => ExpectedType::Placeless {
            steps: nullable_steps(steps),
            name,
        },
    }
}

/// Whether the type of a variable fits that of a location.
#[tactic(auto, using(crate::proofs::TypeFits::non_null_fits, crate::proofs::TypeFits::list_fits, crate::proofs::TypeFits::list_at_non_null, crate::proofs::TypeFits::list_at_one, crate::proofs::TypeFits::name_fits, crate::proofs::TypeFits::name_at_non_null, crate::proofs::TypeFits::name_at_list))]
pub fn fits(of_type: &TypeRef, location: ExpectedType<'_>) -> bool
    ensures { result ≡ spec.fits (written of_type.now) (written_of location.entry) }
{
    match of_type {
        TypeRef::NonNull(inner) => fits(inner.get(), nullable(location)),
        TypeRef::List { item, .. } => match location.item() {
            Some(expected) => {
                if location.is_non_null() {
                    false
                } else {
                    fits(item.get(), expected)
                }
            }
            None => false,
        },
        TypeRef::Named(name) => {
            if location.is_non_null() {
                false
            } else if location.is_list() {
                false
            } else {
                name.text == *location.name()
            }
        }
    }
}
