//! Comparison of types, as they are written.

ghost use Rattle.std.specs.Prelude.{◌≡◌, ◌↔◌, IsTrue};

use crate::same::Same;
use crate::type_ref::TypeRef;

impl Same for TypeRef {
    fn same(&self, other: &TypeRef) -> bool {
        match self {
            TypeRef::Named(name) => match other {
                TypeRef::Named(theirs) => name.same(theirs),
                _ => false,
            },
            TypeRef::List { place, item } => match other {
                TypeRef::List {
                    place: their_place,
                    item: theirs,
                } => place.same(their_place) && item.get().same(theirs.get()),
                _ => false,
            },
            TypeRef::NonNull(of) => match other {
                TypeRef::NonNull(theirs) => of.get().same(theirs.get()),
                _ => false,
            },
        }
    }
}
