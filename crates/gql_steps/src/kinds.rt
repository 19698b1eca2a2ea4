//! What the values of named types are: the values of enums, and the possible types of abstract
//! types.
ghost use Rattle.std.specs.Prelude.{◌≡◌, codes, bytes_eq, map, option_map};
ghost use Rattle.gql_ast.specs.declared.type_system.EnumValueDefinition.{EnumValueDefinition as AValue};
ghost use Rattle.gql_built_in.specs.declared.sited.Sited.{Sited as ASited};
ghost use Rattle.std.specs.List.{list_any};
ghost use Rattle.serde_json.specs.Find.{get};
ghost use Rattle.serde_json.specs.View.{view};
ghost use Rattle.gql_steps.specs.Execution.{among};
ghost use Rattle.gql_steps.specs.Kinds.{kind_in};
ghost use Rattle.gql_steps.specs.Plans as plans;

use gql_ast::{EnumValueDefinition, Shared, Text};
use gql_inputs::{Scalar, scalar_named};
use gql_types::{Named, Schema, Sited, TypeKind};
use serde_json::Value;

/// What the values of a named type are.
#[derive(Clone, Copy)]
pub enum ValueKind {
    Scalar(Scalar),
    Enum,
    Object,
    /// Objects of the possible types of an interface or a union.
    Abstract,
    /// The type is an input object, or there is no type of the name.
    NoOutput,
}

/// What the values of the type of this name are.
pub fn value_kind(schema: &Schema, name: &str) -> ValueKind
    ensures { result ≡ kind_in schema.now name.now }
{
    match schema.kind(name) {
        Some(TypeKind::Scalar) => ValueKind::Scalar(scalar_named(false, name)),
        Some(TypeKind::Enum) => ValueKind::Enum,
        Some(TypeKind::Object) => ValueKind::Object,
        Some(TypeKind::Interface) => ValueKind::Abstract,
        Some(TypeKind::Union) => ValueKind::Abstract,
        Some(TypeKind::InputObject) => ValueKind::NoOutput,
        None => ValueKind::NoOutput,
    }
}

/// Whether a value of that name is among these.
#[tactic(auto, using(crate::proofs::Enums::found_any))]
fn has_value(values: &Named<Sited<Shared<EnumValueDefinition>>>, name: &str) -> bool
    ensures { result ≡ list_any (bytes_eq name.now)
        (map (λ (v : ASited AValue). v.node.name.text) values.now) }
{
    match values.get(name) {
        Some(_) => true,
        None => false,
    }
}

/// Whether an enum has a value of that name.
pub fn is_enum_value(schema: &Schema, of_type: &str, name: &str) -> bool
    ensures { result ≡ list_any (bytes_eq name.now) (plans.values_in schema.now of_type.now) }
{
    match schema.enum_of(of_type) {
        Some(values) => has_value(values, name),
        None => false,
    }
}

/// Whether a name is among these.
fn has_name(names: &[Text], name: &str) -> bool
    ensures { result ≡ list_any (bytes_eq name.now) names.now }
{
    for possible in names {
        if name == possible.as_str() {
            return true;
        }
    }
    false
}

/// Whether the type of that name is a possible type of an abstract type.
fn is_possible_name(schema: &Schema, of_type: &str, name: &str) -> bool
    ensures { result ≡ list_any (bytes_eq name.now) (plans.possible_in schema.now of_type.now) }
{
    match schema.possible(of_type) {
        Some(types) => has_name(types, name),
        None => false,
    }
}

/// The possible type of an abstract type that an object names by its `__typename`.
pub fn type_name<'v>(schema: &Schema, of_type: &str, value: &'v Value) -> Option<&'v str>
    ensures { option_map (λ n. n.now) result
        ≡ among (plans.possible_in schema.now of_type.now)
        (get (codes "__typename") (view value.now)) }
{
    let Some(member) = value.get("__typename") else {
        return None;
    };
    match member.as_str() {
        Some(name) => {
            if is_possible_name(schema, of_type, name) {
                Some(name)
            } else {
                None
            }
        }
        None => None,
    }
}
