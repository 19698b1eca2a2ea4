//! Types as they are written, without anything ignored between their tokens (GraphQL specification,
//! 2.11).
ghost use Rattle.std.specs.Prelude.{◌≡◌, ◌++◌, IfOk, OnOk, string_bytes};
ghost use Rattle.gql_types.specs.Written.{named, written};
ghost use Rattle.gql_types.specs.WrittenTypes.{typed};
ghost use Rattle.gql_inputs.specs.InputTypes as spec;

use crate::steps;
use gql_ast::{Text, TypeRef};
use gql_types::Wrapper;
use std::alloc::{AllocError, Global};

#[tactic(auto, using(gql_types::specs::Written::written_named, gql_types::specs::Written::written_list, gql_types::specs::Written::written_non_null))]
fn add_text(of_type: &TypeRef, text: &mut String) -> Result<(), AllocError>
    ensures { OnOk result (string_bytes text.new
        ≡ string_bytes text.old ++ spec.text_of (written of_type.now)) }
{
    match of_type {
        TypeRef::Named(name) => text.push_str(name.as_str())?,
        TypeRef::List { item, .. } => {
            text.push_str("[")?;
            add_text(item.get(), text)?;
            text.push_str("]")?;
        }
        TypeRef::NonNull(item) => {
            add_text(item.get(), text)?;
            text.push_str("!")?;
        }
    }
    Ok(())
}

/// The text of a type.
pub fn type_text(alloc: Global, of_type: &TypeRef) -> Result<Text, AllocError>
    ensures { IfOk result (λ x. x ≡ spec.text_of (written of_type.now)) }
{
    let mut text = String::new(alloc);
    add_text(of_type, &mut text)?;
    Text::from_str(alloc, text.as_str())
}

/// The text of the type with these steps and this name.
pub fn text_of_steps(alloc: Global, steps: &[Wrapper], name: &str) -> Result<Text, AllocError>
    ensures { IfOk result (λ x. x ≡ spec.text_of (typed steps.now (named name.now))) }
{
    let mut text = String::new(alloc);
    steps::add_text(steps, name, &mut text)?;
    Text::from_str(alloc, text.as_str())
}
