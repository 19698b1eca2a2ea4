//! What an input is, by its form. Inputs without parts are coerced here (GraphQL specification, 3.5
//! and 3.9).
ghost use Rattle.std.specs.Prelude.{◌≡◌, ℕ, suc, IfOk, option_map};
ghost use Rattle.std.specs.Option.{option_copied};
ghost use Rattle.gql_types.specs.Written.{written};
ghost use Rattle.gql_coerce.specs.Coercion as spec;
ghost use Rattle.gql_coerce.specs.Coercion.{coerced as levels_of};
ghost use Rattle.gql_coerce.specs.Frames.{focus_at};
ghost use Rattle.gql_coerce.specs.Outcomes.{some};
ghost use Rattle.gql_coerce.specs.Parts.{input_of};
ghost use Rattle.gql_coerce.specs.Singles.{single_of};

use crate::expected::coerce_single;
use crate::frame::Focus;
use crate::part::Part;
use crate::single::Single;
use crate::{json, literals};
use gql_ast::TypeRef;
use gql_types::Schema;
use std::alloc::{AllocError, Global};

/// A value without parts.
pub fn single_focus<'v>(
    alloc: Global,
    schema: &Schema,
    single: &Single<'_>,
    expected: Option<&TypeRef>,
) -> Result<Focus<'v>, AllocError>
    ensures { IfOk result (λ focus. (n : ℕ)
        → spec.once (option_map written (option_copied expected.entry))
        (some (spec.single_at schema.now (option_map written (option_copied expected.entry))
        (single_of single.now))) ≡ focus_at (suc n) schema.now focus) }
{
    let coerced = coerce_single(alloc, schema, single, expected)?;
    Ok(Focus::Answer(coerced))
}

/// An input, by its form.
pub fn focus_of<'v>(
    alloc: Global,
    schema: &Schema,
    part: Part<'v>,
    expected: Option<&'v TypeRef>,
) -> Result<Focus<'v>, AllocError>
    ensures { IfOk result (λ focus. (n : ℕ) → levels_of (suc n) schema.now (input_of part.entry)
        (option_map written (option_copied expected.entry)) ≡ focus_at (suc n) schema.now focus) }
{
    match part {
        Part::Literal(value, variables) => {
            literals::focus_of(alloc, value, variables, schema, expected)
        }
        Part::Json(value) => json::focus_of(alloc, value, schema, expected),
    }
}
