//! What of a value does not fit.

ghost use Rattle.std.specs.Prelude.{◌≡◌, ◌++◌, OnOk};
ghost use Rattle.gql_inputs.specs.BadValues as spec;

use gql_ast::{Rule, Text};
use gql_text::Place;
use std::alloc::AllocError;

/// What of a value does not fit: by which rule, where, and about what (GraphQL specification, 5.6).
#[derive(Drop)]
pub struct BadValue {
    /// V18, V19, V20 or V21.
    pub rule: Rule,
    /// The bad value's start; of V19 and V20 the field's name, of V21 the object's `{`.
    pub place: Place,
    /// The type that is expected there, as it is written; of V19 to V21 the name of the field.
    pub about: Text,
}

/// Adds one fault.
pub fn add_bad(
    rule: Rule,
    place: Place,
    about: Text,
    found: &mut Vec<BadValue>,
) -> Result<(), AllocError>
    ensures { OnOk result (found.new.items ≡ found.old.items ++ spec.bad rule place about) }
{
    found.push(BadValue { rule, place, about })?;
    Ok(())
}
