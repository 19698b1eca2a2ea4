//! The kinds of types.

ghost use Rattle.std.specs.Prelude.{◌≡◌};
ghost use Rattle.gql_types.specs.Parts.{kind_of};
ghost use Rattle.gql_types.specs.Kinds as spec;
ghost use Rattle.gql_types.specs.Kinds.{same_kind, same_operation};

use gql_ast::{OperationKind, TypeParts};

/// The kinds of types (GraphQL specification, 3.4).
#[derive(Clone, Copy, Debug, PartialEq, Eq)]
pub enum TypeKind {
    /// A scalar (3.5).
    Scalar,
    /// An object (3.6).
    Object,
    /// An interface (3.7).
    Interface,
    /// A union (3.8).
    Union,
    /// An enum (3.9).
    Enum,
    /// An input object (3.10).
    InputObject,
}

impl TypeKind {
    /// The kind of a type with these parts.
    pub fn of(parts: &TypeParts) -> TypeKind
        ensures { result ≡ kind_of parts.now }
    {
        match parts {
            TypeParts::Scalar => TypeKind::Scalar,
            TypeParts::Object { .. } => TypeKind::Object,
            TypeParts::Interface { .. } => TypeKind::Interface,
            TypeParts::Union { .. } => TypeKind::Union,
            TypeParts::Enum { .. } => TypeKind::Enum,
            TypeParts::InputObject { .. } => TypeKind::InputObject,
        }
    }

    /// Whether this is that kind.
    #[tactic(auto, unfolding(crate::specs::Kinds::same_kind))]
    pub fn is(self, other: TypeKind) -> bool
        ensures { result ≡ same_kind self other }
    {
        self == other
    }

    /// Whether arguments, input fields and variables may have types of this kind (3.4.2).
    pub fn is_input(self) -> bool
        ensures { result ≡ spec.is_input self }
    {
        match self {
            TypeKind::Scalar | TypeKind::Enum | TypeKind::InputObject => true,
            TypeKind::Object | TypeKind::Interface | TypeKind::Union => false,
        }
    }

    /// Whether fields may have types of this kind (3.4.2).
    pub fn is_output(self) -> bool
        ensures { result ≡ spec.is_output self }
    {
        match self {
            TypeKind::InputObject => false,
            _ => true,
        }
    }

    /// Whether a selection set selects from types of this kind.
    pub fn is_composite(self) -> bool
        ensures { result ≡ spec.is_composite self }
    {
        match self {
            TypeKind::Object | TypeKind::Interface | TypeKind::Union => true,
            TypeKind::Scalar | TypeKind::Enum | TypeKind::InputObject => false,
        }
    }

    /// Whether types of this kind have other types as their possible types.
    pub fn is_abstract(self) -> bool
        ensures { result ≡ spec.is_abstract self }
    {
        match self {
            TypeKind::Interface | TypeKind::Union => true,
            _ => false,
        }
    }

    /// Whether nothing is selected from types of this kind.
    pub fn is_leaf(self) -> bool
        ensures { result ≡ spec.is_leaf self }
    {
        match self {
            TypeKind::Scalar | TypeKind::Enum => true,
            _ => false,
        }
    }
}

/// Whether two kinds of operations are the same.
#[tactic(auto, unfolding(crate::specs::Kinds::same_operation))]
pub fn is_operation(kind: OperationKind, other: OperationKind) -> bool
    ensures { result ≡ same_operation kind other }
{
    kind == other
}
