//! What rules need to know of input types, from a schema or anything else (GraphQL specification,
//! 3.4.2).
ghost use Rattle.std.specs.Prelude.{◌≡◌, ◌<◌, ℕ, List, Option, Some, IfOk, bytes_eq, length, option_map, slice_get};
ghost use Rattle.std.specs.List.{list_any};
ghost use Rattle.gql_inputs.specs.Lookups.{InputForm, InputLookup, field_form, field_named, fields_in, kind_of, required_in, values_in};

use crate::expected_type::ExpectedType;
use crate::scalar::Scalar;
use gql_ast::Text;
use std::alloc::{AllocError, Global};

/// The kinds of input types.
#[derive(Clone, Copy)]
pub enum InputKind {
    /// A scalar, built in or of a schema file (3.5).
    Scalar(Scalar),
    /// An enum (3.9).
    Enum,
    /// An input object (3.10).
    InputObject,
}

/// A field of an input object An input object (3.10)..
#[derive(Clone, Copy)]
pub struct InputField<'t> {
    pub name: &'t Text,
    pub of_type: ExpectedType<'t>,
    pub has_default: bool,
}

/// An input type: a scalar, an enum by the names of its values, or an input object by its fields.
///
/// An implementation states by `form` which one it is. It may borrow what it knows, or own it; what
/// it lends lives as long as it is borrowed itself.
pub trait InputType {
    /// The type, as specifications see it.
    ghost form: { Self → InputForm };

    /// The kind of the type.
    fn kind(&self) -> InputKind
        ensures { result ≡ kind_of (form self.now) };

    /// Whether it is an enum with a value of that name.
    fn has_value(&self, name: &str) -> bool
        ensures { result ≡ list_any (bytes_eq name.now) (values_in (form self.now)) };

    /// The first field of that name, if it is an input object that has one.
    fn field(&self, name: &str) -> Option<InputField<'_>>
        ensures { option_map field_form result ≡ field_named (fields_in (form self.now)) name.now };

    /// The number of its fields that are required; 0 if it is not an input object.
    fn required_count(&self) -> usize
        ensures { result ≡ length (required_in (form self.now)) };

    /// The field at an index of those that are required, in the order in which the type defines
    /// them.
    fn required_at(&self, index: usize) -> InputField<'_>
        requires { index < length (required_in (form self.now)) }
        ensures { slice_get (required_in (form self.now)) index ≡ Some (field_form result) };
}

/// What knows which input type a name is that of.
///
/// It is called again for each part of a value, and returns the same each time. To implement it,
/// state by `look` what each name is, and by `kept` what a call leaves as it was. `kept` is for
/// what the implementation has borrowed: name there what the lender has to know afterwards, such as
/// the ghost name of a `&mut` borrow. If it borrows nothing, leave `Kept` out and let `kept` be `λ
/// _. tt`.
pub trait InputTypes {
    /// What is known of an input type.
    type Answer: InputType + Drop;

    /// What each name is as an input type, or nothing if it is not a known one.
    ghost look: { Self → InputLookup };

    // What a call leaves as it was, besides the answers.
    ghost Kept: { Type 0 } = { Unit {0} };

    ghost kept: { Self → Self.Kept };

    /// The input type of that name, or `None` if it is not a known one.
    fn input_type(&mut self, alloc: Global, name: &Text) -> Result<Option<Self::Answer>, AllocError>
        ensures answer { IfOk result
            (λ answer. option_map Self.Answer.form answer ≡ look self.old name.now) }
        ensures look { look self.new ≡ look self.old }
        ensures kept { Self.kept self.new ≡ Self.kept self.old };
}
