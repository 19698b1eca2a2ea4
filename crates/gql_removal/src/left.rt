//! What is left of an answer once a part of the schema is removed.
ghost use Rattle.std.specs.Prelude.{◌≡◌, IfOk};
ghost use Rattle.gql_removal.specs.Removals as spec;
ghost use Rattle.gql_facts.specs.declared.fact.Fact.TheVariants as told;
ghost use Rattle.gql_facts.specs.Keys.{is_key};
ghost use Rattle.gql_facts.specs.declared.key.Key.TheVariants as asked;

use crate::named::{
    copied_locations, copied_type, inputs_but, inputs_of_others, is_about, is_field_of, names_but,
};
use crate::removal::Removal;
use gql_ast::{Shared, Text};
use gql_facts::{DirectiveFact, Fact, FieldFact, InputFact, Key};
use gql_types::DefinedInputs;
use std::alloc::{AllocError, Global};

/// A field with these arguments in place of its own.
fn field_with(
    alloc: Global,
    field: &FieldFact,
    arguments: DefinedInputs<InputFact>,
) -> Result<Fact, AllocError>
    ensures { IfOk result (λ f. f ≡ told.Field (spec.field_with field.now arguments)) }
{
    let of_type = copied_type(alloc, &field.of_type)?;
    let field = Shared::new(alloc, FieldFact { of_type, arguments })?;
    Ok(Fact::Field(field))
}

/// A directive with these arguments in place of its own.
fn directive_with(
    alloc: Global,
    directive: &DirectiveFact,
    arguments: DefinedInputs<InputFact>,
) -> Result<Fact, AllocError>
    ensures { IfOk result (λ f. f ≡ told.Directive (spec.directive_with directive.now arguments)) }
{
    let locations = copied_locations(alloc, directive.locations.as_slice())?;
    let is_repeatable = directive.is_repeatable;
    let directive = DirectiveFact {
        locations,
        is_repeatable,
        arguments,
    };
    let directive = Shared::new(alloc, directive)?;
    Ok(Fact::Directive(directive))
}

/// What is left of a field: nothing if it is of this type, else it without its arguments of the type.
fn field_left(alloc: Global, name: &Text, field: &FieldFact) -> Result<Fact, AllocError>
    ensures { IfOk result (λ f. f ≡ spec.field_left name.now field.now) }
{
    if name.as_str() == field.of_type.name.as_str() {
        return Ok(Fact::Absent);
    }
    let arguments = inputs_of_others(alloc, name, field.arguments.as_slice())?;
    field_with(alloc, field, arguments)
}

/// What is left of the name of a root operation type.
fn root_left(name: &Text, root: &Shared<Text>) -> Result<Fact, AllocError>
    ensures { IfOk result (λ f. f ≡ spec.root_left name.now root.now) }
{
    if name.as_str() == root.get().as_str() {
        return Ok(Fact::Absent);
    }
    Ok(Fact::Root(root.clone()?))
}

/// What is left of an answer that is not about the type of this name, once the type is removed.
fn without_type(alloc: Global, name: &Text, fact: &Fact) -> Result<Fact, AllocError>
    ensures { IfOk result (λ f. f ≡ spec.without_type name.now fact.now) }
{
    match fact {
        Fact::Field(field) => field_left(alloc, name, field.get()),
        Fact::Possible(names) => {
            let left = names_but(alloc, name, names.get().as_slice())?;
            Ok(Fact::Possible(Shared::new(alloc, left)?))
        }
        Fact::Input(fields) => {
            let left = inputs_of_others(alloc, name, fields.get().as_slice())?;
            Ok(Fact::Input(Shared::new(alloc, left)?))
        }
        Fact::Directive(directive) => {
            let arguments = directive.get().arguments.as_slice();
            let left = inputs_of_others(alloc, name, arguments)?;
            directive_with(alloc, directive.get(), left)
        }
        Fact::Root(root) => root_left(name, root),
        Fact::Absent | Fact::Kind(_) | Fact::Enum(_) | Fact::Fragment(_) => fact.copy(),
    }
}

/// What is left of an answer once its argument or input field of this name is removed.
fn without_input(alloc: Global, name: &Text, fact: &Fact) -> Result<Fact, AllocError>
    ensures { IfOk result (λ f. f ≡ spec.without_input name.now fact.now) }
{
    match fact {
        Fact::Field(field) => {
            let left = inputs_but(alloc, name, field.get().arguments.as_slice())?;
            field_with(alloc, field.get(), left)
        }
        Fact::Input(fields) => {
            let left = inputs_but(alloc, name, fields.get().as_slice())?;
            Ok(Fact::Input(Shared::new(alloc, left)?))
        }
        Fact::Directive(directive) => {
            let left = inputs_but(alloc, name, directive.get().arguments.as_slice())?;
            directive_with(alloc, directive.get(), left)
        }
        _ => fact.copy(),
    }
}

/// What is left of an answer once its enum value of this name is removed.
fn without_value(alloc: Global, name: &Text, fact: &Fact) -> Result<Fact, AllocError>
    ensures { IfOk result (λ f. f ≡ spec.without_value name.now fact.now) }
{
    match fact {
        Fact::Enum(values) => {
            let left = names_but(alloc, name, values.get().as_slice())?;
            Ok(Fact::Enum(Shared::new(alloc, left)?))
        }
        _ => fact.copy(),
    }
}

/// Whether a key is about the fields of this input object.
pub fn is_input_of(of_type: &Text, key: &Key) -> bool
    ensures { result ≡ spec.is_input_of of_type.now key.now }
{
    match key {
        Key::InputOf(name) => of_type.as_str() == name.as_str(),
        _ => false,
    }
}

/// Whether a key is about the values of this enum.
pub fn is_enum_of(of_type: &Text, key: &Key) -> bool
    ensures { result ≡ spec.is_enum_of of_type.now key.now }
{
    match key {
        Key::EnumOf(name) => of_type.as_str() == name.as_str(),
        _ => false,
    }
}

/// Whether a key is about this directive.
pub fn is_directive(directive: &Text, key: &Key) -> bool
    ensures { result ≡ spec.is_directive directive.now key.now }
{
    match key {
        Key::DirectiveOf(name) => directive.as_str() == name.as_str(),
        _ => false,
    }
}

/// What is left of the answer to a key once a part of the schema is removed.
pub fn left_of(alloc: Global, removal: &Removal, key: &Key, fact: Fact) -> Result<Fact, AllocError>
    ensures { IfOk result (λ f. f ≡ spec.left removal.now key.now fact) }
{
    match removal {
        Removal::Type(name) => {
            if is_about(name, key) {
                Ok(Fact::Absent)
            } else {
                without_type(alloc, name, &fact)
            }
        }
        Removal::Field { types, name } => {
            if is_field_of(types.as_slice(), name, key) {
                Ok(Fact::Absent)
            } else {
                Ok(fact)
            }
        }
        Removal::Argument { types, field, name } => {
            if is_field_of(types.as_slice(), field, key) {
                without_input(alloc, name, &fact)
            } else {
                Ok(fact)
            }
        }
        Removal::InputField { of_type, name } => {
            if is_input_of(of_type, key) {
                without_input(alloc, name, &fact)
            } else {
                Ok(fact)
            }
        }
        Removal::EnumValue { of_type, name } => {
            if is_enum_of(of_type, key) {
                without_value(alloc, name, &fact)
            } else {
                Ok(fact)
            }
        }
        Removal::Directive(name) => {
            if is_directive(name, key) {
                Ok(Fact::Absent)
            } else {
                Ok(fact)
            }
        }
        Removal::DirectiveArgument { directive, name } => {
            if is_directive(directive, key) {
                without_input(alloc, name, &fact)
            } else {
                Ok(fact)
            }
        }
    }
}
