//! The trees of types, as they are written.

use crate::text::Name;
use gql_text::Place;
use sqlite_items::Boxed;

/// A type as it is written (GraphQL specification, 2.11).
#[derive(Drop)]
pub enum TypeRef {
    /// The type of that name.
    Named(Name),
    /// A list; the place is that of its `[`.
    List { place: Place, item: Boxed<TypeRef> },
    /// The type with `!` after it. That type is not a Non-Null type itself.
    NonNull(Boxed<TypeRef>),
}
