//! What part a type plays in possible types (GraphQL specification, 3.7 and 3.8).
ghost use Rattle.std.specs.Prelude.{◌≡◌};
ghost use Rattle.gql_types.specs.Roles.{role_of};

use crate::kind::TypeKind;
use crate::schema_type::SchemaType;

/// What part a type plays in possible types. It is held beside the type, so that the types that play
/// none need not be looked at.
#[derive(Clone, Copy)]
pub enum Role {
    /// An interface or a union, which has possible types.
    Abstract,
    /// An object that declares interfaces, of which it is a possible type.
    Declaring,
    /// Any other type.
    Other,
}

impl Role {
    /// The role of a type.
    pub fn of(of_type: &SchemaType) -> Role
        ensures { result ≡ role_of of_type.now }
    {
        match of_type.kind {
            TypeKind::Interface | TypeKind::Union => Role::Abstract,
            TypeKind::Object => match of_type.interfaces.as_slice() {
                [] => Role::Other,
                _ => Role::Declaring,
            },
            TypeKind::Scalar | TypeKind::Enum | TypeKind::InputObject => Role::Other,
        }
    }
}
