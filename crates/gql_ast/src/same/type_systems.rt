//! Comparison of the definitions and extensions of a schema.

ghost use Rattle.std.specs.Prelude.{◌≡◌, ◌↔◌, IsTrue};

use crate::same::{Same, same_items, same_option};
use crate::type_system::{
    DirectiveDefinition, EnumValueDefinition, FieldDefinition, InputValueDefinition, RootOperation,
    SchemaDefinition, SchemaExtension, TypeDefinition, TypeExtension, TypeParts,
};

impl Same for InputValueDefinition {
    fn same(&self, other: &InputValueDefinition) -> bool {
        same_option(&self.description, &other.description)
            && self.name.same(&other.name)
            && self.of_type.same(&other.of_type)
            && same_option(&self.default, &other.default)
            && same_items(self.directives.as_slice(), other.directives.as_slice())
    }
}

impl Same for FieldDefinition {
    fn same(&self, other: &FieldDefinition) -> bool {
        same_option(&self.description, &other.description)
            && self.name.same(&other.name)
            && same_items(self.arguments.as_slice(), other.arguments.as_slice())
            && self.of_type.same(&other.of_type)
            && same_items(self.directives.as_slice(), other.directives.as_slice())
    }
}

impl Same for EnumValueDefinition {
    fn same(&self, other: &EnumValueDefinition) -> bool {
        same_option(&self.description, &other.description)
            && self.name.same(&other.name)
            && same_items(self.directives.as_slice(), other.directives.as_slice())
    }
}

impl Same for TypeParts {
    fn same(&self, other: &TypeParts) -> bool {
        match self {
            TypeParts::Scalar => match other {
                TypeParts::Scalar => true,
                _ => false,
            },
            TypeParts::Object { interfaces, fields } => match other {
                TypeParts::Object {
                    interfaces: names,
                    fields: theirs,
                } => {
                    same_items(interfaces.as_slice(), names.as_slice())
                        && same_items(fields.as_slice(), theirs.as_slice())
                }
                _ => false,
            },
            TypeParts::Interface { interfaces, fields } => match other {
                TypeParts::Interface {
                    interfaces: names,
                    fields: theirs,
                } => {
                    same_items(interfaces.as_slice(), names.as_slice())
                        && same_items(fields.as_slice(), theirs.as_slice())
                }
                _ => false,
            },
            TypeParts::Union { members } => match other {
                TypeParts::Union { members: theirs } => {
                    same_items(members.as_slice(), theirs.as_slice())
                }
                _ => false,
            },
            TypeParts::Enum { values } => match other {
                TypeParts::Enum { values: theirs } => {
                    same_items(values.as_slice(), theirs.as_slice())
                }
                _ => false,
            },
            TypeParts::InputObject { fields } => match other {
                TypeParts::InputObject { fields: theirs } => {
                    same_items(fields.as_slice(), theirs.as_slice())
                }
                _ => false,
            },
        }
    }
}

impl Same for TypeDefinition {
    fn same(&self, other: &TypeDefinition) -> bool {
        self.place.same(&other.place)
            && same_option(&self.description, &other.description)
            && self.name.same(&other.name)
            && same_items(self.directives.as_slice(), other.directives.as_slice())
            && self.parts.same(&other.parts)
    }
}

impl Same for TypeExtension {
    fn same(&self, other: &TypeExtension) -> bool {
        self.place.same(&other.place)
            && self.name.same(&other.name)
            && same_items(self.directives.as_slice(), other.directives.as_slice())
            && self.parts.same(&other.parts)
    }
}

impl Same for RootOperation {
    fn same(&self, other: &RootOperation) -> bool {
        self.place.same(&other.place) && self.kind.same(&other.kind) && self.name.same(&other.name)
    }
}

impl Same for SchemaDefinition {
    fn same(&self, other: &SchemaDefinition) -> bool {
        self.place.same(&other.place)
            && same_option(&self.description, &other.description)
            && self.keyword.same(&other.keyword)
            && same_items(self.directives.as_slice(), other.directives.as_slice())
            && same_items(self.roots.as_slice(), other.roots.as_slice())
    }
}

impl Same for SchemaExtension {
    fn same(&self, other: &SchemaExtension) -> bool {
        self.place.same(&other.place)
            && same_items(self.directives.as_slice(), other.directives.as_slice())
            && same_items(self.roots.as_slice(), other.roots.as_slice())
    }
}

impl Same for DirectiveDefinition {
    fn same(&self, other: &DirectiveDefinition) -> bool {
        self.place.same(&other.place)
            && same_option(&self.description, &other.description)
            && self.name.same(&other.name)
            && same_items(self.arguments.as_slice(), other.arguments.as_slice())
            && self.is_repeatable == other.is_repeatable
            && same_items(self.locations.as_slice(), other.locations.as_slice())
    }
}
