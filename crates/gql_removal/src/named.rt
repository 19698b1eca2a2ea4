//! Names, and things that have other names.
ghost use Rattle.std.specs.Prelude.{◌≡◌, ◌++◌, IfOk, OnOk, bytes_eq};
ghost use Rattle.std.specs.List.{list_any};
ghost use Rattle.gql_removal.specs.Removals as spec;

use gql_ast::{DirectiveLocation, Items, Text};
use gql_facts::{InputFact, Key};
use gql_types::{DefinedInputs, Named, Wrapper, WrittenType};
use std::alloc::{AllocError, Global};

/// Whether a name is one of these.
pub fn is_among(name: &Text, names: &[Text]) -> bool
    ensures { result ≡ list_any (bytes_eq name.now) names.now }
{
    for other in names {
        if name.as_str() == other.as_str() {
            return true;
        }
    }
    false
}

/// Whether a key is about the type of this name, or about a field that it has.
pub fn is_about(name: &Text, key: &Key) -> bool
    ensures { result ≡ spec.is_about name.now key.now }
{
    match key {
        Key::KindOf(of_type) => name.as_str() == of_type.as_str(),
        Key::FieldOf { of_type, field: _ } => name.as_str() == of_type.as_str(),
        Key::PossibleOf(of_type) => name.as_str() == of_type.as_str(),
        Key::InputOf(of_type) => name.as_str() == of_type.as_str(),
        Key::EnumOf(of_type) => name.as_str() == of_type.as_str(),
        Key::DirectiveOf(_) | Key::RootOf(_) | Key::FragmentOf(_) => false,
    }
}

/// Whether a key is about the field of this name of one of these types.
pub fn is_field_of(types: &[Text], name: &Text, key: &Key) -> bool
    ensures { result ≡ spec.is_field_of types.now name.now key.now }
{
    match key {
        Key::FieldOf { of_type, field } => {
            name.as_str() == field.as_str() && is_among(of_type, types)
        }
        _ => false,
    }
}

/// Adds a name, unless it is this one.
fn add_other(name: &Text, other: &Text, left: &mut Vec<Text>) -> Result<(), AllocError>
    ensures { OnOk result (left.new.items ≡ left.old.items ++ spec.other_name name.now other.now) }
{
    if name.as_str() == other.as_str() {
        return Ok(());
    }
    left.push(other.copy()?)?;
    Ok(())
}

/// The names but this one.
pub fn names_but(alloc: Global, name: &Text, names: &[Text]) -> Result<Named<Text>, AllocError>
    ensures { IfOk result (λ left. left ≡ spec.names_but name.now names.now) }
{
    let mut left = Vec::new(alloc);
    for other in names {
        add_other(name, other, &mut left)?;
    }
    Named::new(alloc, left)
}

/// The wrappers of a type, copied.
fn copied_wrappers(alloc: Global, wrappers: &[Wrapper]) -> Result<Items<Wrapper>, AllocError>
    ensures { IfOk result (λ copies. copies ≡ wrappers.now) }
{
    let mut copies = Items::new(alloc);
    for wrapper in wrappers {
        copies.push(*wrapper)?;
    }
    Ok(copies)
}

/// The same type.
pub fn copied_type(alloc: Global, of_type: &WrittenType) -> Result<WrittenType, AllocError>
    ensures { IfOk result (λ copy. copy ≡ of_type.now) }
{
    let wrappers = copied_wrappers(alloc, of_type.wrappers.as_slice())?;
    let name = of_type.name.copy()?;
    Ok(WrittenType { wrappers, name })
}

/// The same locations.
pub fn copied_locations(
    alloc: Global,
    locations: &[DirectiveLocation],
) -> Result<Items<DirectiveLocation>, AllocError>
    ensures { IfOk result (λ copies. copies ≡ locations.now) }
{
    let mut copies = Items::new(alloc);
    for location in locations {
        copies.push(*location)?;
    }
    Ok(copies)
}

/// The same input.
fn copied_input(alloc: Global, input: &InputFact) -> Result<InputFact, AllocError>
    ensures { IfOk result (λ copy. copy ≡ input.now) }
{
    Ok(InputFact {
        name: input.name.copy()?,
        of_type: copied_type(alloc, &input.of_type)?,
        has_default: input.has_default,
    })
}

/// Adds an input, unless it has this name.
fn add_input(
    alloc: Global,
    name: &Text,
    input: &InputFact,
    left: &mut Vec<InputFact>,
) -> Result<(), AllocError>
    ensures { OnOk result (left.new.items ≡ left.old.items ++ spec.other_input name.now input.now) }
{
    if name.as_str() == input.name.as_str() {
        return Ok(());
    }
    left.push(copied_input(alloc, input)?)?;
    Ok(())
}

/// The inputs but that of this name.
pub fn inputs_but(
    alloc: Global,
    name: &Text,
    inputs: &[InputFact],
) -> Result<DefinedInputs<InputFact>, AllocError>
    ensures { IfOk result (λ left. left ≡ spec.inputs_but name.now inputs.now) }
{
    let mut left = Vec::new(alloc);
    for input in inputs {
        add_input(alloc, name, input, &mut left)?;
    }
    DefinedInputs::new(alloc, left)
}

/// Adds an input, unless it is of this type.
fn add_input_of_other(
    alloc: Global,
    of_type: &Text,
    input: &InputFact,
    left: &mut Vec<InputFact>,
) -> Result<(), AllocError>
    ensures { OnOk result (left.new.items
        ≡ left.old.items ++ spec.input_of_other of_type.now input.now) }
{
    if of_type.as_str() == input.of_type.name.as_str() {
        return Ok(());
    }
    left.push(copied_input(alloc, input)?)?;
    Ok(())
}

/// The inputs that are of other types than this one.
pub fn inputs_of_others(
    alloc: Global,
    of_type: &Text,
    inputs: &[InputFact],
) -> Result<DefinedInputs<InputFact>, AllocError>
    ensures { IfOk result (λ left. left ≡ spec.inputs_of_others of_type.now inputs.now) }
{
    let mut left = Vec::new(alloc);
    for input in inputs {
        add_input_of_other(alloc, of_type, input, &mut left)?;
    }
    DefinedInputs::new(alloc, left)
}
