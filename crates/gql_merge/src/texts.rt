//! What a field calls, as a text: its name and its arguments.
ghost use Rattle.std.specs.Prelude.{◌≡◌, ◌++◌, IfOk, OnOk, map, string_bytes};
ghost use Rattle.gql_merge.specs.Calls as spec;

use crate::orders::{add_each_once, add_in_order};
use gql_ast::{Argument, Literal, ObjectField, Text};
use itoa::Buffer;
use std::alloc::{AllocError, Global};

/// Adds a string, with its length in front.
fn add_string(value: &str, out: &mut String) -> Result<(), AllocError>
    ensures { OnOk result (string_bytes out.new
        ≡ string_bytes out.old ++ spec.string_text value.now) }
{
    let mut digits = Buffer::new();
    out.push_str(digits.format(value.len()))?;
    out.push_str("\"")?;
    out.push_str(value)?;
    Ok(())
}

fn boolean_text(value: bool) -> &'static str
    ensures { result.now ≡ spec.boolean_text value }
{
    if value { "true" } else { "false" }
}

#[cycle(values)]
fn add_items(alloc: Global, items: &[Literal], out: &mut String) -> Result<(), AllocError>
    ensures { OnOk result (string_bytes out.new
        ≡ string_bytes out.old ++ spec.with_commas (map spec.value_text items.now)) }
{
    for item in items {
        add_value(alloc, item, out)?;
        out.push_str(",")?;
    }
    Ok(())
}

#[cycle(values)]
fn object_field_text(alloc: Global, field: &ObjectField) -> Result<Text, AllocError>
    ensures { IfOk result (λ t. t ≡ spec.object_field_text field.now) }
{
    let mut out = String::from_str(alloc, field.name.as_str())?;
    out.push_str(":")?;
    add_value(alloc, &field.value, &mut out)?;
    Text::from_str(alloc, out.as_str())
}

#[cycle(values)]
fn object_field_texts(alloc: Global, fields: &[ObjectField]) -> Result<Vec<Text>, AllocError>
    ensures { IfOk result (λ texts. texts.items ≡ map spec.object_field_text fields.now) }
{
    let mut texts = Vec::new(alloc);
    for field in fields {
        texts.push(object_field_text(alloc, field)?)?;
    }
    Ok(texts)
}

/// Adds the text of a value.
#[cycle(values)]
#[tactic(auto, using(crate::specs::Calls::text_variable, crate::specs::Calls::text_int, crate::specs::Calls::text_float, crate::specs::Calls::text_string, crate::specs::Calls::text_boolean, crate::specs::Calls::text_null, crate::specs::Calls::text_enum, crate::specs::Calls::text_list, crate::specs::Calls::text_object))]
fn add_value(alloc: Global, value: &Literal, out: &mut String) -> Result<(), AllocError>
    ensures { OnOk result (string_bytes out.new
        ≡ string_bytes out.old ++ spec.value_text value.now) }
{
    match value {
        Literal::Variable { name, .. } => {
            out.push_str("$")?;
            out.push_str(name.as_str())?;
        }
        Literal::Int { text, .. } => out.push_str(text.as_str())?,
        Literal::Float { text, .. } => out.push_str(text.as_str())?,
        Literal::String { value, .. } => add_string(value.as_str(), out)?,
        Literal::Boolean { value, .. } => out.push_str(boolean_text(*value))?,
        Literal::Null { .. } => out.push_str("null")?,
        Literal::Enum { name, .. } => out.push_str(name.as_str())?,
        Literal::List { items, .. } => {
            out.push_str("[")?;
            add_items(alloc, items.as_slice(), out)?;
            out.push_str("]")?;
        }
        Literal::Object { fields, .. } => {
            out.push_str("{")?;
            let texts = object_field_texts(alloc, fields.as_slice())?;
            add_in_order(alloc, texts.as_slice(), out)?;
            out.push_str("}")?;
        }
    }
    Ok(())
}

fn argument_text(alloc: Global, argument: &Argument) -> Result<Text, AllocError>
    ensures { IfOk result (λ t. t ≡ spec.argument_text argument.now) }
{
    let mut out = String::from_str(alloc, argument.name.as_str())?;
    out.push_str(":")?;
    add_value(alloc, &argument.value, &mut out)?;
    Text::from_str(alloc, out.as_str())
}

fn argument_texts(alloc: Global, arguments: &[Argument]) -> Result<Vec<Text>, AllocError>
    ensures { IfOk result (λ texts. texts.items ≡ map spec.argument_text arguments.now) }
{
    let mut texts = Vec::new(alloc);
    for argument in arguments {
        texts.push(argument_text(alloc, argument)?)?;
    }
    Ok(texts)
}

/// The text of a field of this name with these arguments.
pub fn call_text(alloc: Global, name: &Text, arguments: &[Argument]) -> Result<Text, AllocError>
    ensures { IfOk result (λ t. t ≡ spec.call_text name.now arguments.now) }
{
    let mut out = String::from_str(alloc, name.as_str())?;
    out.push_str("(")?;
    let texts = argument_texts(alloc, arguments)?;
    add_each_once(alloc, texts.as_slice(), &mut out)?;
    Text::from_str(alloc, out.as_str())
}
