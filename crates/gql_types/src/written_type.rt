//! Types as they are written, without places (GraphQL specification, 2.11).
ghost use Rattle.std.specs.Prelude.{◌≡◌, ◌++◌, ◌↔◌, IsTrue, IfOk};
ghost use Rattle.gql_types.specs.Written.{written, written_named, written_list, written_non_null};
ghost use Rattle.gql_types.specs.RequiredInputs as required;
ghost use Rattle.gql_types.specs.WrittenTypes.{type_of, typed_of, wrapped};

use gql_ast::{Items, Same, Text, TypeRef, same_items};
use std::alloc::{AllocError, Global};

/// A wrapper of a type.
#[derive(Clone, Copy, Debug, PartialEq, Eq)]
pub enum Wrapper {
    /// A list of the type.
    List,
    /// The type with `!` after it.
    NonNull,
}

/// A type as it is written: its wrappers from the outside in, and the name within them. `[Int!]`
/// has the wrappers List and NonNull.
pub struct WrittenType {
    pub wrappers: Items<Wrapper>,
    pub name: Text,
}

impl Drop for WrittenType {
    fn drop(self) {
        let WrittenType {
            wrappers: _,
            name: _,
        } = self;
    }
}

impl Same for Wrapper {
    fn same(&self, other: &Wrapper) -> bool {
        *self == *other
    }
}

impl Same for WrittenType {
    fn same(&self, other: &WrittenType) -> bool {
        self.name.same(&other.name)
            && same_items(self.wrappers.as_slice(), other.wrappers.as_slice())
    }
}

#[tactic(auto, using(crate::specs::WrittenTypes::wrapped_named, crate::specs::WrittenTypes::wrapped_list, crate::specs::WrittenTypes::wrapped_non_null))]
fn unwrapped(of_type: &TypeRef, wrappers: &mut Items<Wrapper>) -> Result<Text, AllocError>
    ensures { IfOk result (λ name. record { wrappers = wrappers.new; name = name }
        ≡ wrapped wrappers.old (written of_type.now)) }
{
    match of_type {
        TypeRef::Named(name) => name.text.copy(),
        TypeRef::List { place: _, item } => {
            wrappers.push(Wrapper::List)?;
            unwrapped(item.get(), wrappers)
        }
        TypeRef::NonNull(of_type) => {
            wrappers.push(Wrapper::NonNull)?;
            unwrapped(of_type.get(), wrappers)
        }
    }
}

/// Whether a type is Non-Null (GraphQL specification, 3.12).
#[tactic(auto, using(crate::specs::Written::written_named, crate::specs::Written::written_list, crate::specs::Written::written_non_null))]
pub fn is_non_null(of_type: &TypeRef) -> bool
    ensures { result ≡ required.is_non_null (written of_type.now) }
{
    match of_type {
        TypeRef::NonNull(_) => true,
        TypeRef::Named(_) | TypeRef::List { .. } => false,
    }
}

impl WrittenType {
    /// Whether the type is Non-Null (3.12).
    pub fn is_non_null(&self) -> bool
        ensures { result ≡ required.is_non_null (typed_of self.now) }
    {
        match self.wrappers.as_slice().first() {
            Some(Wrapper::NonNull) => true,
            Some(Wrapper::List) | None => false,
        }
    }

    /// The type without its places.
    pub fn of(alloc: Global, of_type: &TypeRef) -> Result<WrittenType, AllocError>
        ensures { IfOk result (λ t. t ≡ type_of (written of_type.now)) }
    {
        let mut wrappers = Items::new(alloc);
        let name = unwrapped(of_type, &mut wrappers)?;
        Ok(WrittenType { wrappers, name })
    }
}
