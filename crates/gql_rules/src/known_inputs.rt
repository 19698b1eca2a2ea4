//! The input types that a world knows.
ghost use Rattle.std.specs.Prelude.{◌≡◌, ◌<◌, ℕ, List, Some, IfOk, option_map, bytes_eq, map, filter, length, slice_get};
ghost use Rattle.std.specs.List.{list_any};
ghost use Rattle.gql_facts.specs.Floats.{is_open_in};
ghost use Rattle.gql_facts.specs.Worlds.{Facts};
ghost use Rattle.gql_inputs.specs.InputTypes.{scalar_named as the_scalar_named};
ghost use Rattle.gql_inputs.specs.Lookups as lookups;
ghost use Rattle.gql_rules.specs.KnownInputs as spec;

use crate::asking::kind_of;
use gql_ast::{Shared, Text};
use gql_facts::{Fact, InputFact, Key, World, is_open};
use gql_inputs::{
    ExpectedType, InputField, InputKind, InputType, InputTypes, Scalar, custom_scalar, scalar_named,
};
use gql_types::{DefinedInputs, Named, TypeKind};
use std::alloc::{AllocError, Global};

/// An input type, by the answers for its name. It shares the lists in them.
#[derive(Drop)]
pub enum KnownInputType {
    Scalar(Scalar),
    /// The names of the values of an enum.
    Enum(Shared<Named<Text>>),
    /// The fields of an input object.
    InputObject(Shared<DefinedInputs<InputFact>>),
}

fn has_value(values: &Named<Text>, name: &str) -> bool
    ensures { result ≡ list_any (bytes_eq name.now) values.now }
{
    values.get(name).is_some()
}

fn input_field(input: &InputFact) -> InputField<'_>
    ensures { lookups.field_form result ≡ spec.field_of input.now }
{
    InputField {
        name: &input.name,
        of_type: ExpectedType::of_fact(&input.of_type),
        has_default: input.has_default,
    }
}

fn field_named<'f>(fields: &'f DefinedInputs<InputFact>, name: &str) -> Option<InputField<'f>>
    ensures { option_map lookups.field_form result
        ≡ lookups.field_named (map spec.field_of fields.now) name.now }
{
    match fields.get(name) {
        Some(input) => Some(input_field(input)),
        None => None,
    }
}

fn required_count(fields: &DefinedInputs<InputFact>) -> usize
    ensures { result ≡ length (filter lookups.is_required (map spec.field_of fields.now)) }
{
    fields.required_count()
}

fn required_at(fields: &DefinedInputs<InputFact>, index: usize) -> InputField<'_>
    requires { index < length (filter lookups.is_required (map spec.field_of fields.now)) }
    ensures { slice_get (filter lookups.is_required (map spec.field_of fields.now)) index
        ≡ Some (lookups.field_form result) }
{
    input_field(fields.required_at(index))
}

impl InputType for KnownInputType {
    ghost form = { λ t. spec.form_of t };

    fn kind(&self) -> InputKind {
        match self {
            KnownInputType::Scalar(scalar) => InputKind::Scalar(*scalar),
            KnownInputType::Enum(_) => InputKind::Enum,
            KnownInputType::InputObject(_) => InputKind::InputObject,
        }
    }

    fn has_value(&self, name: &str) -> bool {
        match self {
            KnownInputType::Enum(values) => has_value(values.get(), name),
            KnownInputType::Scalar(_) | KnownInputType::InputObject(_) => false,
        }
    }

    fn field(&self, name: &str) -> Option<InputField<'_>> {
        match self {
            KnownInputType::InputObject(fields) => field_named(fields.get(), name),
            KnownInputType::Scalar(_) | KnownInputType::Enum(_) => None,
        }
    }

    fn required_count(&self) -> usize {
        match self {
            KnownInputType::InputObject(fields) => required_count(fields.get()),
            KnownInputType::Scalar(_) | KnownInputType::Enum(_) => 0,
        }
    }

    fn required_at(&self, index: usize) -> InputField<'_> {
        match self {
            KnownInputType::InputObject(fields) => required_at(fields.get(), index),
            KnownInputType::Scalar(_) | KnownInputType::Enum(_) => unreachable!(),
        }
    }
}

/// The values of an enum, by the answer for its name.
fn enum_in(fact: &Fact) -> Result<Option<KnownInputType>, AllocError>
    ensures { IfOk result (λ t. option_map spec.form_of t
        ≡ option_map lookups.enumeration (spec.values_in fact.now)) }
{
    match fact {
        Fact::Enum(values) => Ok(Some(KnownInputType::Enum(values.clone()?))),
        _ => Ok(None),
    }
}

/// The fields of an input object, by the answer for its name.
fn object_in(fact: &Fact) -> Result<Option<KnownInputType>, AllocError>
    ensures { IfOk result (λ t. option_map spec.form_of t
        ≡ option_map spec.object_of (spec.fields_in fact.now)) }
{
    match fact {
        Fact::Input(fields) => Ok(Some(KnownInputType::InputObject(fields.clone()?))),
        _ => Ok(None),
    }
}

/// The scalar of a name. Whether Float is a type is asked for a custom one only.
#[tactic(auto, using(gql_inputs::proofs::Customs::named_by_others))]
fn known_scalar<W: World>(alloc: Global, world: &mut W, name: &Text) -> Result<Scalar, AllocError>
    ensures facts { W.facts world.new ≡ W.facts world.old }
    ensures names { W.names world.new ≡ W.names world.old }
    ensures lent { W.lent world.new ≡ W.lent world.old }
    ensures answer { IfOk result (λ s. s
        ≡ the_scalar_named (is_open_in (W.facts world.old)) name.now) }
{
    match scalar_named(false, name.as_str()) {
        Scalar::Custom | Scalar::Open => Ok(custom_scalar(is_open(alloc, world)?)),
        built_in => Ok(built_in),
    }
}

/// The input type of a name.
fn known_input<W: World>(
    alloc: Global,
    world: &mut W,
    name: &Text,
) -> Result<Option<KnownInputType>, AllocError>
    ensures facts { W.facts world.new ≡ W.facts world.old }
    ensures names { W.names world.new ≡ W.names world.old }
    ensures lent { W.lent world.new ≡ W.lent world.old }
    ensures answer { IfOk result (λ t. option_map spec.form_of t
        ≡ spec.known_inputs (W.facts world.old) name.now) }
{
    let found = match kind_of(alloc, world, name)? {
        Some(TypeKind::Scalar) => Some(KnownInputType::Scalar(known_scalar(alloc, world, name)?)),
        Some(TypeKind::Enum) => enum_in(&world.fact(alloc, &Key::EnumOf(name.copy()?))?)?,
        Some(TypeKind::InputObject) => object_in(&world.fact(alloc, &Key::InputOf(name.copy()?))?)?,
        Some(TypeKind::Object | TypeKind::Interface | TypeKind::Union) | None => None,
    };
    Ok(found)
}

/// A world, as something that knows input types.
#[derive(Drop)]
pub struct OfWorld<'w, W: World> {
    pub world: &'w mut W,
}

impl<'w, W: World> InputTypes for OfWorld<'w, W> {
    type Answer = KnownInputType;

    ghost look = { λ a. spec.known_inputs (W.facts a.world.now) };

    ghost Kept = { Facts × (List (List ℕ) × ((ℕ × ℕ) × ℕ)) };

    ghost kept = { λ a. (
      W.facts a.world.now,
      (
        W.names a.world.now,
        (W.lent a.world.now, a.world.ghost_name),
      ),
    ) };

    fn input_type(
        &mut self,
        alloc: Global,
        name: &Text,
    ) -> Result<Option<KnownInputType>, AllocError> {
        known_input(alloc, self.world, name)
    }
}
