//! The type that is expected of a value.
ghost use Rattle.std.specs.Prelude.{◌≡◌, IfOk, option_map};
ghost use Rattle.gql_types.specs.WrittenTypes.{typed_of};
ghost use Rattle.gql_inputs.specs.ExpectedTypes.{written_of};
ghost use Rattle.gql_inputs.specs.InputTypes as spec;

use crate::{steps, texts, types};
use gql_ast::{Text, TypeRef};
use gql_types::{Wrapper, WrittenType};
use std::alloc::{AllocError, Global};

/// The type that is expected of a value. It is borrowed from a file, where it has places, or from
/// a fact, which holds its steps from the outside in and its name.
#[derive(Clone, Copy)]
pub enum ExpectedType<'t> {
    /// A type in a file.
    Placed(&'t TypeRef),
    /// A type that a fact holds.
    Placeless {
        steps: &'t [Wrapper],
        name: &'t Text,
    },
}

impl<'t> ExpectedType<'t> {
    /// The type that a fact holds.
    pub fn of_fact(of_type: &'t WrittenType) -> ExpectedType<'t>
        ensures { written_of result ≡ typed_of of_type.now }
    {
        ExpectedType::Placeless {
            steps: of_type.wrappers.as_slice(),
            name: &of_type.name,
        }
    }

    /// The name within lists and Non-Nulls.
    pub fn name(&self) -> &'t Text
        ensures { result.now ≡ spec.name_in (written_of self.now) }
    {
        match self {
            ExpectedType::Placed(of_type) => types::name_in(of_type),
            ExpectedType::Placeless { name, .. } => name,
        }
    }

    /// Whether the type is Non-Null (GraphQL specification, 3.12).
    pub fn is_non_null(&self) -> bool
        ensures { result ≡ spec.is_non_null (written_of self.now) }
    {
        match self {
            ExpectedType::Placed(of_type) => types::is_non_null(of_type),
            ExpectedType::Placeless { steps, .. } => steps::is_non_null(steps),
        }
    }

    /// Whether the type is a list, Non-Null or not (3.11).
    pub fn is_list(&self) -> bool
        ensures { result ≡ spec.is_list (written_of self.now) }
    {
        match self {
            ExpectedType::Placed(of_type) => types::is_list(of_type),
            ExpectedType::Placeless { steps, .. } => steps::is_list(steps),
        }
    }

    /// The type of each item of a list that is given for this type, if it is a list.
    pub fn item(&self) -> Option<ExpectedType<'t>>
        ensures { option_map written_of result ≡ spec.item_of (written_of self.now) }
    {
        match self {
            ExpectedType::Placed(of_type) => match types::item_of(of_type) {
                Some(item) => Some(ExpectedType::Placed(item)),
                None => None,
            },
            ExpectedType::Placeless { steps, name } => match steps::item_of(steps) {
                Some(steps) => Some(ExpectedType::Placeless { steps, name }),
                None => None,
            },
        }
    }

    /// The type that is expected of a value that is not a list (3.11).
    pub fn one(&self) -> ExpectedType<'t>
        ensures { written_of result ≡ spec.one_of (written_of self.now) }
    {
        match self {
            ExpectedType::Placed(of_type) => ExpectedType::Placed(types::one_of(of_type)),
            ExpectedType::Placeless { steps, name } => ExpectedType::Placeless {
                steps: steps::one_of(steps),
                name,
            },
        }
    }

    /// The type as it is written, without anything ignored between its tokens (2.11).
    pub fn text(&self, alloc: Global) -> Result<Text, AllocError>
        ensures { IfOk result (λ text. text ≡ spec.text_of (written_of self.now)) }
    {
        match self {
            ExpectedType::Placed(of_type) => texts::type_text(alloc, of_type),
            ExpectedType::Placeless { steps, name } => {
                texts::text_of_steps(alloc, steps, name.as_str())
            }
        }
    }
}
