//! Covariance: whether a field of one type may implement a field of another (GraphQL specification,
//! 3.6).
ghost use Rattle.std.specs.Prelude.{◌≡◌};
ghost use Rattle.gql_types.specs.Covariance as spec;
ghost use Rattle.gql_types.specs.Written.{written};

use crate::kind::TypeKind;
use crate::named::HasName;
use crate::schema::Schema;
use crate::schema_type::SchemaType;
use gql_ast::{Name, TypeRef};
use gql_built_in::Sited;

fn is_among(name: &str, names: &[Sited<Name>]) -> bool
    ensures { result ≡ spec.is_among name.now names.now }
{
    names.iter().any(|one| name == one.node.as_str())
}

fn is_object(kind: TypeKind) -> bool
    ensures { result ≡ spec.is_object kind }
{
    match kind {
        TypeKind::Object => true,
        TypeKind::Scalar
        | TypeKind::Interface
        | TypeKind::Union
        | TypeKind::Enum
        | TypeKind::InputObject => false,
    }
}

fn stands_by(of_type: &SchemaType, base: &SchemaType) -> bool
    ensures { result ≡ spec.stands_by base.now.kind of_type.now base.now }
{
    match base.kind {
        TypeKind::Interface => is_among(base.name(), of_type.interfaces.as_slice()),
        TypeKind::Union => {
            is_object(of_type.kind) && is_among(of_type.name(), base.members.as_slice())
        }
        TypeKind::Scalar | TypeKind::Object | TypeKind::Enum | TypeKind::InputObject => false,
    }
}

fn stands_for(schema: &Schema, name: &str, base: &str) -> Option<bool>
    ensures { result ≡ spec.stands_for schema.now name.now base.now }
{
    if name == base {
        return Some(true);
    }
    match schema.get(name) {
        Some(of_type) => match schema.get(base) {
            Some(base) => Some(stands_by(of_type, base)),
            None => None,
        },
        None => None,
    }
}

#[tactic(auto, using(crate::specs::Written::written_named, crate::specs::Written::written_list, crate::specs::Written::written_non_null))]
fn nullable(of_type: &TypeRef) -> &TypeRef
    ensures { written result.now ≡ spec.nullable (written of_type.now) }
{
    match of_type {
        TypeRef::NonNull(of_type) => of_type.get(),
        TypeRef::Named(_) | TypeRef::List { .. } => of_type,
    }
}

#[tactic(auto, using(crate::specs::Written::written_named, crate::specs::Written::written_list, crate::specs::Written::written_non_null))]
fn covariant(of_type: &TypeRef, base: &TypeRef, schema: &Schema) -> Option<bool>
    ensures { result ≡ spec.covariant schema.now (written of_type.now) (written base.now) }
{
    match of_type {
        TypeRef::NonNull(of_type) => covariant(of_type.get(), nullable(base), schema),
        TypeRef::List { item, .. } => match base {
            TypeRef::List { item: base, .. } => covariant(item.get(), base.get(), schema),
            TypeRef::Named(_) | TypeRef::NonNull(_) => Some(false),
        },
        TypeRef::Named(name) => match base {
            TypeRef::Named(base) => stands_for(schema, name.as_str(), base.as_str()),
            TypeRef::List { .. } | TypeRef::NonNull(_) => Some(false),
        },
    }
}

impl Schema {
    /// Whether a field of that type may implement a field of the type `base`: the same type; an
    /// object that is a member of the union `base`; an object or an interface that declares the
    /// interface `base`; lists by their items; and Non-Null types for nullable ones. `Some(false)`:
    /// it may not. `None`: it depends on a name that no type has.
    pub fn is_covariant(&self, of_type: &TypeRef, base: &TypeRef) -> Option<bool>
        ensures { result ≡ spec.covariant self.now (written of_type.now) (written base.now) }
    {
        covariant(of_type, base, self)
    }
}
