//! Literals, arguments and directives, as the tables write them.

use crate::trees::{
    Written, write_blank_between, write_enclosed, write_named, write_optional, write_placed,
    write_quoted,
};
use gql_ast::{Argument, Directive, Literal, ObjectField, TypeRef};
use std::alloc::AllocError;

impl Written for Literal {
    #[cycle(written)]
    fn write_to(&self, text: &mut String) -> Result<(), AllocError> {
        match self {
            Literal::Variable { place, name } => {
                text.push_str("$")?;
                write_placed(text, name.as_str(), place)
            }
            Literal::Int {
                place,
                text: number,
            } => write_placed(text, number.as_str(), place),
            Literal::Float {
                place,
                text: number,
            } => write_placed(text, number.as_str(), place),
            Literal::String { place, value } => {
                write_quoted(text, value.as_str())?;
                place.write_to(text)
            }
            Literal::Boolean { place, value } => {
                write_placed(text, if *value { "true" } else { "false" }, place)
            }
            Literal::Null { place } => write_placed(text, "null", place),
            Literal::Enum { place, name } => write_placed(text, name.as_str(), place),
            Literal::List { place, items } => {
                write_literals(text, items.as_slice())?;
                write_placed(text, "]", place)
            }
            Literal::Object { place, fields } => {
                write_fields(text, fields.as_slice())?;
                write_placed(text, "}", place)
            }
        }
    }
}

/// Adds a bracket and the items after it.
#[cycle(written)]
fn write_literals(text: &mut String, items: &[Literal]) -> Result<(), AllocError> {
    text.push_str("[")?;
    let mut is_first = true;
    for item in items {
        write_blank_between(text, is_first)?;
        item.write_to(text)?;
        is_first = false;
    }
    Ok(())
}

impl Written for ObjectField {
    #[cycle(written)]
    fn write_to(&self, text: &mut String) -> Result<(), AllocError> {
        self.name.write_to(text)?;
        text.push_str(": ")?;
        self.value.write_to(text)
    }
}

/// Adds a brace and the fields after it.
#[cycle(written)]
fn write_fields(text: &mut String, fields: &[ObjectField]) -> Result<(), AllocError> {
    text.push_str("{")?;
    let mut is_first = true;
    for field in fields {
        write_blank_between(text, is_first)?;
        field.write_to(text)?;
        is_first = false;
    }
    Ok(())
}

impl Written for Argument {
    fn write_to(&self, text: &mut String) -> Result<(), AllocError> {
        self.name.write_to(text)?;
        text.push_str(": ")?;
        self.value.write_to(text)
    }
}

impl Written for Directive {
    fn write_to(&self, text: &mut String) -> Result<(), AllocError> {
        write_named(text, "@", &self.place, " ", &self.name)?;
        write_enclosed(text, "(", &self.arguments, ")")
    }
}

/// Adds the type of a variable or an input value, and its default value.
pub fn write_type_and_default(
    text: &mut String,
    of_type: &TypeRef,
    default: &Option<Literal>,
) -> Result<(), AllocError> {
    text.push_str(": ")?;
    of_type.write_to(text)?;
    write_optional(text, " = ", default, "")
}
