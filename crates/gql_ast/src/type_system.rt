//! The trees of the definitions of a schema, and of its extensions.

use crate::executable::OperationKind;
use crate::literal::{Directive, Literal};
use crate::shared::Shared;
use crate::text::{Name, Text};
use crate::type_ref::TypeRef;
use gql_text::Place;
use sqlite_items::Items;

/// An argument of a field or of a directive definition, or a field of an input object (GraphQL
/// specification, 3.6.1 and 3.10).
pub struct InputValueDefinition {
    pub description: Option<Text>,
    pub name: Name,
    pub of_type: TypeRef,
    pub default: Option<Literal>,
    pub directives: Items<Directive>,
}

impl Drop for InputValueDefinition {
    fn drop(self) {
        let InputValueDefinition {
            description: _,
            name: _,
            of_type: _,
            default: _,
            directives: _,
        } = self;
    }
}

/// A field of an object or of an interface (GraphQL specification, 3.6).
pub struct FieldDefinition {
    pub description: Option<Text>,
    pub name: Name,
    pub arguments: Items<Shared<InputValueDefinition>>,
    pub of_type: TypeRef,
    pub directives: Items<Directive>,
}

impl Drop for FieldDefinition {
    fn drop(self) {
        let FieldDefinition {
            description: _,
            name: _,
            arguments: _,
            of_type: _,
            directives: _,
        } = self;
    }
}

/// A value of an enum (GraphQL specification, 3.9).
pub struct EnumValueDefinition {
    pub description: Option<Text>,
    pub name: Name,
    pub directives: Items<Directive>,
}

impl Drop for EnumValueDefinition {
    fn drop(self) {
        let EnumValueDefinition {
            description: _,
            name: _,
            directives: _,
        } = self;
    }
}

/// What kind of type is defined or extended, and with which parts (GraphQL specification, 3.4). A
/// list is empty where it isn't written. Fields and values are shared, so that a schema can hold
/// them without a copy.
pub enum TypeParts {
    /// A scalar (3.5).
    Scalar,
    /// An object (3.6).
    Object {
        interfaces: Items<Name>,
        fields: Items<Shared<FieldDefinition>>,
    },
    /// An interface (3.7).
    Interface {
        interfaces: Items<Name>,
        fields: Items<Shared<FieldDefinition>>,
    },
    /// A union (3.8).
    Union {
        members: Items<Name>,
    },
    /// An enum (3.9).
    Enum {
        values: Items<Shared<EnumValueDefinition>>,
    },
    /// An input object (3.10).
    InputObject {
        fields: Items<Shared<InputValueDefinition>>,
    },
}

impl Drop for TypeParts {
    fn drop(self) {
        match self {
            TypeParts::Scalar => {}
            TypeParts::Object {
                interfaces: _,
                fields: _,
            } => {}
            TypeParts::Interface {
                interfaces: _,
                fields: _,
            } => {}
            TypeParts::Union { members: _ } => {}
            TypeParts::Enum { values: _ } => {}
            TypeParts::InputObject { fields: _ } => {}
        }
    }
}

/// The definition of a type (GraphQL specification, 3.4). Its place is that of its description, or
/// else of its first word.
pub struct TypeDefinition {
    pub place: Place,
    pub description: Option<Text>,
    pub name: Name,
    pub directives: Items<Directive>,
    pub parts: TypeParts,
}

impl Drop for TypeDefinition {
    fn drop(self) {
        let TypeDefinition {
            place: _,
            description: _,
            name: _,
            directives: _,
            parts: _,
        } = self;
    }
}

/// The extension of a type (GraphQL specification, 3.4.3). Its place is that of `extend`.
pub struct TypeExtension {
    pub place: Place,
    pub name: Name,
    pub directives: Items<Directive>,
    pub parts: TypeParts,
}

impl Drop for TypeExtension {
    fn drop(self) {
        let TypeExtension {
            place: _,
            name: _,
            directives: _,
            parts: _,
        } = self;
    }
}

/// A root operation type: the type of the operations of a kind (GraphQL specification, 3.3.1). Its
/// place is that of the kind.
pub struct RootOperation {
    pub place: Place,
    pub kind: OperationKind,
    pub name: Name,
}

impl Drop for RootOperation {
    fn drop(self) {
        let RootOperation {
            place: _,
            kind: _,
            name: _,
        } = self;
    }
}

/// The definition of a schema (GraphQL specification, 3.3). Its place is that of its description,
/// or else of the word `schema`, whose place is kept too.
pub struct SchemaDefinition {
    pub place: Place,
    pub description: Option<Text>,
    pub keyword: Place,
    pub directives: Items<Directive>,
    pub roots: Items<RootOperation>,
}

impl Drop for SchemaDefinition {
    fn drop(self) {
        let SchemaDefinition {
            place: _,
            description: _,
            keyword: _,
            directives: _,
            roots: _,
        } = self;
    }
}

/// The extension of a schema (GraphQL specification, 3.3.2). Its place is that of `extend`.
pub struct SchemaExtension {
    pub place: Place,
    pub directives: Items<Directive>,
    pub roots: Items<RootOperation>,
}

impl Drop for SchemaExtension {
    fn drop(self) {
        let SchemaExtension {
            place: _,
            directives: _,
            roots: _,
        } = self;
    }
}

/// Where a directive may be applied (GraphQL specification, 3.13).
#[derive(Clone, Copy, Debug, PartialEq, Eq)]
pub enum DirectiveLocation {
    Query,
    Mutation,
    Subscription,
    Field,
    FragmentDefinition,
    FragmentSpread,
    InlineFragment,
    VariableDefinition,
    Schema,
    Scalar,
    Object,
    FieldDefinition,
    ArgumentDefinition,
    Interface,
    Union,
    Enum,
    EnumValue,
    InputObject,
    InputFieldDefinition,
}

/// The definition of a directive (GraphQL specification, 3.13). Its place is that of its
/// description, or else of the word `directive`.
pub struct DirectiveDefinition {
    pub place: Place,
    pub description: Option<Text>,
    pub name: Name,
    pub arguments: Items<Shared<InputValueDefinition>>,
    pub is_repeatable: bool,
    pub locations: Items<DirectiveLocation>,
}

impl Drop for DirectiveDefinition {
    fn drop(self) {
        let DirectiveDefinition {
            place: _,
            description: _,
            name: _,
            arguments: _,
            is_repeatable: _,
            locations: _,
        } = self;
    }
}
