//! The input fields of a schema, each with a number.
ghost use Rattle.std.specs.Prelude.{◌≡◌, ◌++◌, ◌∷◌, [], map, length, option_map, IfOk, OnOk};
ghost use Rattle.std.specs.Option.{option_copied};
ghost use Rattle.gql_inputs.specs.InputTypes.{name_in as name_within};
ghost use Rattle.gql_iface_rules.specs.S19DefaultValueCycles as spec;
ghost use Rattle.gql_iface_rules.specs.S19Inputs.{numbered, object};
ghost use Rattle.gql_types.specs.Written.{written};

use gql_ast::{InputValueDefinition, Shared, TypeRef};
use gql_built_in::Sited;
use gql_cycles::Range;
use gql_inputs::name_in;
use gql_types::{HasName, Named, Schema, SchemaType, TypeKind};
use std::alloc::{AllocError, Global};

/// An input field of a schema.
pub type Input = Sited<Shared<InputValueDefinition>>;

/// An input field, and how many are before it.
#[derive(Drop)]
pub struct NumberedInput<'s> {
    pub number: usize,
    pub field: &'s Input,
}

impl HasName for NumberedInput<'_> {
    ghost name = { λ i. i.field.now.node.name.text };

    fn name(&self) -> &str {
        self.field.name()
    }
}

/// An input object, and its fields with their numbers.
#[derive(Drop)]
pub struct InputObject<'s> {
    pub of_type: &'s SchemaType,
    pub numbers: Range,
    pub inputs: Named<NumberedInput<'s>>,
}

impl HasName for InputObject<'_> {
    ghost name = { λ o. o.of_type.now.definition.node.name.text };

    fn name(&self) -> &str {
        self.of_type.name()
    }
}

/// All input fields, each at its number, and all input objects.
#[derive(Drop)]
pub struct AllInputs<'s> {
    pub fields: Vec<&'s Input>,
    pub objects: Named<InputObject<'s>>,
}

/// Adds the fields of a type to all fields, and returns them with their numbers.
fn numbered_inputs<'s>(
    alloc: Global,
    of_type: &'s SchemaType,
    all: &mut Vec<&'s Input>,
) -> Result<Vec<NumberedInput<'s>>, AllocError>
    ensures all { OnOk result (map (λ f. f.now) all.new.items ≡ map (λ f. f.now) all.old.items
        ++ of_type.now.input_fields) }
    ensures numbers { IfOk result
        (λ inputs. map numbered inputs.items
        ≡ spec.numbered_from (length all.old.items) of_type.now.input_fields) }
{
    let mut inputs = Vec::with_capacity(alloc, of_type.input_fields.as_slice().len())?;
    for field in of_type.input_fields.as_slice() {
        let number = all.len();
        all.push(field)?;
        inputs.push(NumberedInput { number, field })?;
    }
    Ok(inputs)
}

#[tactic(auto, using(crate::proofs::S19Steps::an_object, crate::proofs::S19Steps::no_object))]
fn add_object<'s>(
    alloc: Global,
    of_type: &'s SchemaType,
    all: &mut Vec<&'s Input>,
    objects: &mut Vec<InputObject<'s>>,
) -> Result<(), AllocError>
    ensures all { OnOk result (map (λ f. f.now) all.new.items
        ≡ map (λ f. f.now) all.old.items
        ++ spec.fields_of (spec.input_objects (of_type.now ∷ []))) }
    ensures objects { OnOk result (map object objects.new.items
        ≡ map object objects.old.items
        ++ spec.objects_from (length all.old.items) (spec.input_objects (of_type.now ∷ []))) }
{
    if of_type.kind.is(TypeKind::InputObject) {
        let start = all.len();
        let fields = numbered_inputs(alloc, of_type, all)?;
        let inputs = Named::new(alloc, fields)?;
        let numbers = Range {
            start,
            end: all.len(),
        };
        objects.push(InputObject {
            of_type,
            numbers,
            inputs,
        })?;
    }
    Ok(())
}

/// The input fields and the input objects of a schema.
pub fn all_inputs(alloc: Global, schema: &Schema) -> Result<AllInputs<'_>, AllocError>
    ensures fields { IfOk result
        (λ all. map (λ f. f.now) all.fields.items ≡ spec.all_inputs schema.now) }
    ensures objects { IfOk result (λ all. map object all.objects ≡ spec.objects schema.now) }
{
    let mut fields = Vec::new(alloc);
    let mut objects = Vec::new(alloc);
    for of_type in schema.types() {
        add_object(alloc, of_type.get(), &mut fields, &mut objects)?;
    }
    let objects = Named::new(alloc, objects)?;
    Ok(AllInputs { fields, objects })
}

/// The input object of the name within a type.
pub fn object_of<'o, 's>(
    objects: &'o Named<InputObject<'s>>,
    of_type: &TypeRef,
) -> Option<&'o InputObject<'s>>
    ensures { option_map object (option_copied result)
        ≡ spec.object_named (map object objects.now) (name_within (written of_type.now)) }
{
    objects.get(name_in(of_type).as_str())
}
