//! Whether two trees are the same tree with the same places.
ghost use Rattle.std.specs.Prelude.{◌≡◌, ◌↔◌, IsTrue};

mod executables;
mod literals;
mod type_refs;
mod type_systems;

use crate::definition::{Definition, Document, Tree};
use crate::executable::OperationKind;
use crate::file_name::FileName;
use crate::shared::Shared;
use crate::text::{Name, Text};
use crate::type_system::DirectiveLocation;
use gql_text::Place;

/// A value that can be compared with another as a whole, places included.
pub trait Same {
    /// Whether the two are equal.
    fn same(&self, other: &Self) -> bool
        ensures { IsTrue result ↔ (self.now ≡ other.now) };
}

/// Whether two lists are equal.
pub fn same_items<T: Same>(items: &[T], others: &[T]) -> bool
    ensures { IsTrue result ↔ (items.now ≡ others.now) }
{
    if items.len() != others.len() {
        return false;
    }
    for i in 0..items.len() {
        if !items[i].same(&others[i]) {
            return false;
        }
    }
    true
}

/// Whether both are absent, or both are there and equal.
pub fn same_option<T: Same>(item: &Option<T>, other: &Option<T>) -> bool
    ensures { IsTrue result ↔ (item.now ≡ other.now) }
{
    match item {
        None => other.is_none(),
        Some(item) => match other {
            None => false,
            Some(other) => item.same(other),
        },
    }
}

impl Same for Place {
    fn same(&self, other: &Place) -> bool {
        self.line == other.line && self.column == other.column && self.offset == other.offset
    }
}

impl Same for Text {
    fn same(&self, other: &Text) -> bool {
        self.as_str() == other.as_str()
    }
}

impl Same for Name {
    fn same(&self, other: &Name) -> bool {
        self.place.same(&other.place) && self.text.same(&other.text)
    }
}

impl Same for FileName {
    fn same(&self, other: &FileName) -> bool {
        self.as_str() == other.as_str()
    }
}

impl Same for OperationKind {
    fn same(&self, other: &OperationKind) -> bool {
        *self == *other
    }
}

impl Same for DirectiveLocation {
    fn same(&self, other: &DirectiveLocation) -> bool {
        *self == *other
    }
}

impl<T: Same> Same for Shared<T> {
    fn same(&self, other: &Shared<T>) -> bool {
        self.get().same(other.get())
    }
}

impl Same for Tree {
    fn same(&self, other: &Tree) -> bool {
        match self {
            Tree::Operation(its) => match other {
                Tree::Operation(theirs) => its.same(theirs),
                _ => false,
            },
            Tree::Fragment(its) => match other {
                Tree::Fragment(theirs) => its.same(theirs),
                _ => false,
            },
            Tree::Schema(its) => match other {
                Tree::Schema(theirs) => its.same(theirs),
                _ => false,
            },
            Tree::Type(its) => match other {
                Tree::Type(theirs) => its.same(theirs),
                _ => false,
            },
            Tree::Directive(its) => match other {
                Tree::Directive(theirs) => its.same(theirs),
                _ => false,
            },
            Tree::SchemaExtension(its) => match other {
                Tree::SchemaExtension(theirs) => its.same(theirs),
                _ => false,
            },
            Tree::TypeExtension(its) => match other {
                Tree::TypeExtension(theirs) => its.same(theirs),
                _ => false,
            },
        }
    }
}

impl Same for Definition {
    fn same(&self, other: &Definition) -> bool {
        self.file.same(&other.file) && self.tree.same(&other.tree)
    }
}

impl Same for Document {
    fn same(&self, other: &Document) -> bool {
        same_items(self.definitions.as_slice(), other.definitions.as_slice())
    }
}
