//! What a type asks of an input, by its steps from the outside in (GraphQL specification, 2.11 and
//! 3.12), whatever name they end in.
ghost use Rattle.std.specs.Prelude.{◌≡◌, ◌++◌, ℕ, List, OnOk, option_map, string_bytes};
ghost use Rattle.std.specs.Option.{option_copied};
ghost use Rattle.gql_types.specs.Written.{named};
ghost use Rattle.gql_types.specs.WrittenTypes.{typed};
ghost use Rattle.gql_types.specs.declared.written_type.Wrapper.{Wrapper as AStep};
ghost use Rattle.gql_inputs.specs.InputTypes as spec;

use gql_types::Wrapper;
use std::alloc::AllocError;

/// Whether the type is Non-Null.
pub fn is_non_null(steps: &[Wrapper]) -> bool
    ensures { (n : List ℕ) → result ≡ spec.is_non_null (typed steps.now (named n)) }
{
    match steps.split_first() {
        Some((Wrapper::NonNull, _)) => true,
        _ => false,
    }
}

/// Whether the type is a list, Non-Null or not.
pub fn is_list(steps: &[Wrapper]) -> bool
    ensures { (n : List ℕ) → result ≡ spec.is_list (typed steps.now (named n)) }
{
    match steps.split_first() {
        None => false,
        Some((Wrapper::List, _)) => true,
        Some((Wrapper::NonNull, inner)) => is_list(inner),
    }
}

/// The steps of the type of each item of a list that is given.
pub fn item_of(steps: &[Wrapper]) -> Option<&[Wrapper]>
    ensures { (n : List ℕ)
        → option_map (λ (ws : List AStep). typed ws (named n)) (option_copied result)
        ≡ spec.item_of (typed steps.now (named n)) }
{
    match steps.split_first() {
        None => None,
        Some((Wrapper::List, inner)) => Some(inner),
        Some((Wrapper::NonNull, inner)) => item_of(inner),
    }
}

/// The steps of the type that is expected of a value that is not a list.
pub fn one_of(steps: &[Wrapper]) -> &[Wrapper]
    ensures { (n : List ℕ) → typed result.now (named n) ≡ spec.one_of (typed steps.now (named n)) }
{
    match steps.split_first() {
        None => steps,
        Some((Wrapper::List, inner)) => one_of(inner),
        Some((Wrapper::NonNull, inner)) => match inner.split_first() {
            None => steps,
            Some((Wrapper::List, _)) => one_of(inner),
            Some((Wrapper::NonNull, _)) => one_of(inner),
        },
    }
}

/// Adds the text of the type with these steps and this name.
pub fn add_text(steps: &[Wrapper], name: &str, text: &mut String) -> Result<(), AllocError>
    ensures { OnOk result (string_bytes text.new
        ≡ string_bytes text.old ++ spec.text_of (typed steps.now (named name.now))) }
{
    match steps.split_first() {
        None => text.push_str(name)?,
        Some((Wrapper::List, inner)) => {
            text.push_str("[")?;
            add_text(inner, name, text)?;
            text.push_str("]")?;
        }
        Some((Wrapper::NonNull, inner)) => {
            add_text(inner, name, text)?;
            text.push_str("!")?;
        }
    }
    Ok(())
}
