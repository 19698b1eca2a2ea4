//! The scalars, by what they take.

ghost use Rattle.std.specs.Prelude.{◌≡◌};
ghost use Rattle.gql_inputs.specs.InputTypes as spec;

use gql_types::{Schema, is_same_name};

/// The scalars by what they take (GraphQL specification, 3.5).
#[derive(Clone, Copy)]
pub enum Scalar {
    Int,
    String,
    Boolean,
    Id,
    Float,
    /// A scalar of a schema file where Float is not a type. Of numbers it takes integers of 64 bits.
    Custom,
    /// A scalar of a schema file where Float is a type. It takes each number that has a finite
    /// nearest double.
    Open,
}

/// The scalar of a schema file, where Float is a type or is not.
pub fn custom_scalar(floats: bool) -> Scalar
    ensures { result ≡ spec.custom_scalar floats }
{
    if floats { Scalar::Open } else { Scalar::Custom }
}

/// The scalar of a name, where Float is a type or is not.
pub fn scalar_named(floats: bool, name: &str) -> Scalar
    ensures { result ≡ spec.scalar_named floats name.now }
{
    if is_same_name(name, "Int") {
        Scalar::Int
    } else if is_same_name(name, "String") {
        Scalar::String
    } else if is_same_name(name, "Boolean") {
        Scalar::Boolean
    } else if is_same_name(name, "ID") {
        Scalar::Id
    } else if is_same_name(name, "Float") {
        Scalar::Float
    } else {
        custom_scalar(floats)
    }
}

/// Whether Float is a type of a schema.
pub fn is_open(schema: &Schema) -> bool
    ensures { result ≡ spec.is_open schema.now }
{
    schema.get("Float").is_some()
}

/// The scalar of a name in a schema.
#[tactic(auto, using(crate::proofs::Customs::named_by_others))]
pub fn scalar_in(schema: &Schema, name: &str) -> Scalar
    ensures { result ≡ spec.scalar_in schema.now name.now }
{
    let scalar = scalar_named(false, name);
    if is_custom(scalar) {
        custom_scalar(is_open(schema))
    } else {
        scalar
    }
}

/// Whether a scalar is one of a schema file.
pub fn is_custom(scalar: Scalar) -> bool
    ensures { result ≡ spec.is_custom scalar }
{
    match scalar {
        Scalar::Custom | Scalar::Open => true,
        Scalar::Int | Scalar::String | Scalar::Boolean | Scalar::Id | Scalar::Float => false,
    }
}
