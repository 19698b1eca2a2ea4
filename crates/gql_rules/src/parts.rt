//! Parts of operations and fields.
ghost use Rattle.std.specs.Prelude.{◌≡◌, IfOk};
ghost use Rattle.gql_rules.specs.Parts as spec;

use gql_ast::{Field, Name, Text};
use gql_text::Place;
use std::alloc::{AllocError, Global};

/// Where a field starts: at its alias, or at its name if it has none (GraphQL specification, 2.5,
/// 2.7).
pub fn start_of(field: &Field) -> Place
    ensures { result ≡ spec.start_at field.now.alias field.now.name }
{
    match &field.alias {
        Some(alias) => alias.place,
        None => field.name.place,
    }
}

/// An operation's name, or an empty text.
pub fn name_or_empty(alloc: Global, name: &Option<Name>) -> Result<Text, AllocError>
    ensures { IfOk result (λ text. text ≡ spec.name_or_empty name.now) }
{
    match name {
        Some(name) => name.text.copy(),
        None => Text::from_str(alloc, ""),
    }
}
