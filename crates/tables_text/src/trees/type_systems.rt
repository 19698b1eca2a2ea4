//! Definitions of schema files. The place after the first word of a definition is the
//! definition's, which starts at its description.
use crate::trees::executables::word_of;
use crate::trees::literals::write_type_and_default;
use crate::trees::{
    Written, write_directives, write_enclosed, write_named, write_optional, write_placed,
};
use gql_ast::{
    DirectiveDefinition, DirectiveLocation, EnumValueDefinition, FieldDefinition,
    InputValueDefinition, RootOperation, SchemaDefinition, SchemaExtension, Shared, TypeDefinition,
    TypeExtension, TypeParts,
};
use std::alloc::AllocError;

impl<T: Written> Written for Shared<T> {
    fn write_to(&self, text: &mut String) -> Result<(), AllocError> {
        self.get().write_to(text)
    }
}

impl Written for InputValueDefinition {
    fn write_to(&self, text: &mut String) -> Result<(), AllocError> {
        write_optional(text, "", &self.description, " ")?;
        self.name.write_to(text)?;
        write_type_and_default(text, &self.of_type, &self.default)?;
        write_directives(text, &self.directives)
    }
}

impl Written for FieldDefinition {
    fn write_to(&self, text: &mut String) -> Result<(), AllocError> {
        write_optional(text, "", &self.description, " ")?;
        self.name.write_to(text)?;
        write_enclosed(text, "(", &self.arguments, ")")?;
        text.push_str(": ")?;
        self.of_type.write_to(text)?;
        write_directives(text, &self.directives)
    }
}

impl Written for EnumValueDefinition {
    fn write_to(&self, text: &mut String) -> Result<(), AllocError> {
        write_optional(text, "", &self.description, " ")?;
        self.name.write_to(text)?;
        write_directives(text, &self.directives)
    }
}

/// The word of a kind of type.
fn word_of_type(parts: &TypeParts) -> &'static str {
    match parts {
        TypeParts::Scalar => "scalar",
        TypeParts::Object { .. } => "type",
        TypeParts::Interface { .. } => "interface",
        TypeParts::Union { .. } => "union",
        TypeParts::Enum { .. } => "enum",
        TypeParts::InputObject { .. } => "input",
    }
}

/// Adds the interfaces that a type implements.
fn write_interfaces(text: &mut String, parts: &TypeParts) -> Result<(), AllocError> {
    match parts {
        TypeParts::Object { interfaces, .. } | TypeParts::Interface { interfaces, .. } => {
            write_enclosed(text, " implements ", interfaces, "")
        }
        _ => Ok(()),
    }
}

/// Adds the members of a type, which come after its directives.
fn write_members(text: &mut String, parts: &TypeParts) -> Result<(), AllocError> {
    match parts {
        TypeParts::Scalar => Ok(()),
        TypeParts::Object { fields, .. } => write_enclosed(text, " {", fields, "}"),
        TypeParts::Interface { fields, .. } => write_enclosed(text, " {", fields, "}"),
        TypeParts::Union { members } => write_enclosed(text, " = ", members, ""),
        TypeParts::Enum { values } => write_enclosed(text, " {", values, "}"),
        TypeParts::InputObject { fields } => write_enclosed(text, " {", fields, "}"),
    }
}

impl Written for TypeDefinition {
    fn write_to(&self, text: &mut String) -> Result<(), AllocError> {
        write_optional(text, "", &self.description, " ")?;
        write_named(
            text,
            word_of_type(&self.parts),
            &self.place,
            " ",
            &self.name,
        )?;
        write_interfaces(text, &self.parts)?;
        write_directives(text, &self.directives)?;
        write_members(text, &self.parts)
    }
}

impl Written for TypeExtension {
    fn write_to(&self, text: &mut String) -> Result<(), AllocError> {
        write_placed(text, "extend", &self.place)?;
        text.push_str(" ")?;
        text.push_str(word_of_type(&self.parts))?;
        text.push_str(" ")?;
        self.name.write_to(text)?;
        write_interfaces(text, &self.parts)?;
        write_directives(text, &self.directives)?;
        write_members(text, &self.parts)
    }
}

impl Written for RootOperation {
    fn write_to(&self, text: &mut String) -> Result<(), AllocError> {
        write_named(text, word_of(self.kind), &self.place, ": ", &self.name)
    }
}

/// A schema definition; its second place is that of the word `schema`.
impl Written for SchemaDefinition {
    fn write_to(&self, text: &mut String) -> Result<(), AllocError> {
        write_optional(text, "", &self.description, " ")?;
        write_placed(text, "schema", &self.place)?;
        write_placed(text, " at", &self.keyword)?;
        write_directives(text, &self.directives)?;
        write_enclosed(text, " {", &self.roots, "}")
    }
}

impl Written for SchemaExtension {
    fn write_to(&self, text: &mut String) -> Result<(), AllocError> {
        write_placed(text, "extend", &self.place)?;
        text.push_str(" schema")?;
        write_directives(text, &self.directives)?;
        write_enclosed(text, " {", &self.roots, "}")
    }
}

impl Written for DirectiveLocation {
    fn write_to(&self, text: &mut String) -> Result<(), AllocError> {
        let location = *self;
        write!(text, "{location:?}")
    }
}

impl Written for DirectiveDefinition {
    fn write_to(&self, text: &mut String) -> Result<(), AllocError> {
        write_optional(text, "", &self.description, " ")?;
        write_named(text, "directive", &self.place, " @", &self.name)?;
        write_enclosed(text, "(", &self.arguments, ")")?;
        text.push_str(if self.is_repeatable {
            " repeatable"
        } else {
            ""
        })?;
        write_enclosed(text, " on ", &self.locations, "")
    }
}
