//! Parts of a schema that are removed.

use gql_ast::{Items, Text};

/// A part of a schema that is removed, with what cannot stay without it.
pub enum Removal {
    /// The type of this name, with its extensions and its places among the members of unions and among
    /// the objects of interfaces. The fields, the arguments and the input fields of this type go with
    /// it, and so does its role as a root operation type.
    Type(Text),
    /// The field of this name of each of these types: of one type, and of the interfaces that demand
    /// the field of it.
    Field {
        types: Items<Text>,
        name: Text,
    },
    /// The argument of this name of that field of each of these types: of one type, and of the
    /// interfaces that demand the argument of it.
    Argument {
        types: Items<Text>,
        field: Text,
        name: Text,
    },
    /// The field of this name of an input object.
    InputField {
        of_type: Text,
        name: Text,
    },
    /// The value of this name of an enum.
    EnumValue {
        of_type: Text,
        name: Text,
    },
    /// The directive of this name.
    Directive(Text),
    /// The argument of this name of a directive.
    DirectiveArgument {
        directive: Text,
        name: Text,
    },
}

impl Drop for Removal {
    fn drop(self) {
        match self {
            Removal::Type(_) => {}
            Removal::Field { types: _, name: _ } => {}
            Removal::Argument {
                types: _,
                field: _,
                name: _,
            } => {}
            Removal::InputField {
                of_type: _,
                name: _,
            } => {}
            Removal::EnumValue {
                of_type: _,
                name: _,
            } => {}
            Removal::Directive(_) => {}
            Removal::DirectiveArgument {
                directive: _,
                name: _,
            } => {}
        }
    }
}
