//! The input types of a schema, borrowed from it.
ghost use Rattle.std.specs.Prelude.{◌≡◌, ◌<◌, List, Some, map, filter, length, bytes_eq, find, option_map, slice_get};
ghost use Rattle.std.specs.List.{list_any};
ghost use Rattle.std.specs.Option.{option_copied};
ghost use Rattle.gql_ast.specs.declared.type_system.EnumValueDefinition.{EnumValueDefinition as EnumValue};
ghost use Rattle.gql_ast.specs.declared.type_system.InputValueDefinition.{InputValueDefinition as InputValue};
ghost use Rattle.gql_built_in.specs.declared.sited.Sited.{Sited as ASited};
ghost use Rattle.gql_inputs.specs.InputTypes.{is_open};
ghost use Rattle.gql_inputs.specs.Lookups as spec;

use crate::expected_type::ExpectedType;
use crate::input_types::{InputField, InputKind, InputType, InputTypes};
use crate::scalar::{Scalar, scalar_in};
use gql_ast::{EnumValueDefinition, InputValueDefinition, Shared, Text};
use gql_types::{DefinedInputs, HasName, Named, Schema, SchemaType, Sited, TypeKind};
use std::alloc::{AllocError, Global};

/// An input type of a schema.
#[derive(Drop)]
pub enum SchemaInputType<'s> {
    Scalar(Scalar),
    Enum(&'s Named<Sited<Shared<EnumValueDefinition>>>),
    InputObject(&'s DefinedInputs<Sited<Shared<InputValueDefinition>>>),
}

fn has_value(values: &Named<Sited<Shared<EnumValueDefinition>>>, name: &str) -> bool
    ensures { result ≡ list_any (bytes_eq name.now) (spec.value_names values.now) }
{
    values.get(name).is_some()
}

fn input_field(definition: &Sited<Shared<InputValueDefinition>>) -> InputField<'_>
    ensures { spec.field_form result ≡ spec.field_of definition.now }
{
    let definition = definition.node.get();
    InputField {
        name: &definition.name.text,
        of_type: ExpectedType::Placed(&definition.of_type),
        has_default: definition.default.is_some(),
    }
}

fn field_named<'s>(
    fields: &'s DefinedInputs<Sited<Shared<InputValueDefinition>>>,
    name: &str,
) -> Option<InputField<'s>>
    ensures { option_map spec.field_form result
        ≡ spec.field_named (map spec.field_of fields.now) name.now }
{
    match fields.get(name) {
        Some(definition) => Some(input_field(definition)),
        None => None,
    }
}

fn required_count(fields: &DefinedInputs<Sited<Shared<InputValueDefinition>>>) -> usize
    ensures { result ≡ length (filter spec.is_required (map spec.field_of fields.now)) }
{
    fields.required_count()
}

fn required_at(
    fields: &DefinedInputs<Sited<Shared<InputValueDefinition>>>,
    index: usize,
) -> InputField<'_>
    requires { index < length (filter spec.is_required (map spec.field_of fields.now)) }
    ensures { slice_get (filter spec.is_required (map spec.field_of fields.now)) index
        ≡ Some (spec.field_form result) }
{
    input_field(fields.required_at(index))
}

impl<'s> InputType for SchemaInputType<'s> {
    ghost form = { λ t. spec.schema_form t };

    fn kind(&self) -> InputKind {
        match self {
            SchemaInputType::Scalar(scalar) => InputKind::Scalar(*scalar),
            SchemaInputType::Enum(_) => InputKind::Enum,
            SchemaInputType::InputObject(_) => InputKind::InputObject,
        }
    }

    fn has_value(&self, name: &str) -> bool {
        match self {
            SchemaInputType::Enum(values) => has_value(values, name),
            SchemaInputType::Scalar(_) | SchemaInputType::InputObject(_) => false,
        }
    }

    fn field(&self, name: &str) -> Option<InputField<'_>> {
        match self {
            SchemaInputType::InputObject(fields) => field_named(fields, name),
            SchemaInputType::Scalar(_) | SchemaInputType::Enum(_) => None,
        }
    }

    fn required_count(&self) -> usize {
        match self {
            SchemaInputType::InputObject(fields) => required_count(fields),
            SchemaInputType::Scalar(_) | SchemaInputType::Enum(_) => 0,
        }
    }

    fn required_at(&self, index: usize) -> InputField<'_> {
        match self {
            SchemaInputType::InputObject(fields) => required_at(fields, index),
            SchemaInputType::Scalar(_) | SchemaInputType::Enum(_) => unreachable!(),
        }
    }
}

/// A schema, as something that knows input types.
#[derive(Clone, Copy)]
pub struct OfSchema<'s> {
    pub schema: &'s Schema,
}

/// A type of a schema as an input type.
fn as_input<'s>(schema: &Schema, of_type: &'s SchemaType) -> Option<SchemaInputType<'s>>
    ensures { option_map spec.schema_form result ≡ spec.form_of (is_open schema.now) of_type.now }
{
    match of_type.kind {
        TypeKind::Scalar => Some(SchemaInputType::Scalar(scalar_in(schema, of_type.name()))),
        TypeKind::Enum => Some(SchemaInputType::Enum(&of_type.values)),
        TypeKind::InputObject => Some(SchemaInputType::InputObject(&of_type.input_fields)),
        TypeKind::Object | TypeKind::Interface | TypeKind::Union => None,
    }
}

impl<'s> InputTypes for OfSchema<'s> {
    type Answer = SchemaInputType<'s>;

    ghost look = { λ a. spec.in_schema a.schema.now };

    ghost kept = { λ _. tt };

    fn input_type(
        &mut self,
        alloc: Global,
        name: &Text,
    ) -> Result<Option<SchemaInputType<'s>>, AllocError> {
        match self.schema.get(name.as_str()) {
            Some(of_type) => Ok(as_input(self.schema, of_type)),
            None => Ok(None),
        }
    }
}
