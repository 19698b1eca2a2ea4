//! Comparison of literals, arguments and directives.

ghost use Rattle.std.specs.Prelude.{◌≡◌, ◌↔◌, IsTrue};

use crate::literal::{Argument, Directive, Literal, ObjectField};
use crate::same::{Same, same_items};

impl Same for Literal {
    #[cycle(same)]
    fn same(&self, other: &Literal) -> bool {
        match self {
            Literal::Variable { place, name } => match other {
                Literal::Variable {
                    place: their_place,
                    name: theirs,
                } => place.same(their_place) && name.same(theirs),
                _ => false,
            },
            Literal::Int { place, text } => match other {
                Literal::Int {
                    place: their_place,
                    text: theirs,
                } => place.same(their_place) && text.same(theirs),
                _ => false,
            },
            Literal::Float { place, text } => match other {
                Literal::Float {
                    place: their_place,
                    text: theirs,
                } => place.same(their_place) && text.same(theirs),
                _ => false,
            },
            Literal::String { place, value } => match other {
                Literal::String {
                    place: their_place,
                    value: theirs,
                } => place.same(their_place) && value.same(theirs),
                _ => false,
            },
            Literal::Boolean { place, value } => match other {
                Literal::Boolean {
                    place: their_place,
                    value: theirs,
                } => place.same(their_place) && *value == *theirs,
                _ => false,
            },
            Literal::Null { place } => match other {
                Literal::Null { place: their_place } => place.same(their_place),
                _ => false,
            },
            Literal::Enum { place, name } => match other {
                Literal::Enum {
                    place: their_place,
                    name: theirs,
                } => place.same(their_place) && name.same(theirs),
                _ => false,
            },
            Literal::List { place, items } => match other {
                Literal::List {
                    place: their_place,
                    items: theirs,
                } => place.same(their_place) && same_literals(items.as_slice(), theirs.as_slice()),
                _ => false,
            },
            Literal::Object { place, fields } => match other {
                Literal::Object {
                    place: their_place,
                    fields: theirs,
                } => place.same(their_place) && same_fields(fields.as_slice(), theirs.as_slice()),
                _ => false,
            },
        }
    }
}

#[cycle(same)]
fn same_literals(items: &[Literal], others: &[Literal]) -> bool
    ensures { IsTrue result ↔ (items.now ≡ others.now) }
{
    if items.len() != others.len() {
        return false;
    }
    for i in 0..items.len() {
        if !items[i].same(&others[i]) {
            return false;
        }
    }
    true
}

impl Same for ObjectField {
    #[cycle(same)]
    fn same(&self, other: &ObjectField) -> bool {
        self.name.same(&other.name) && self.value.same(&other.value)
    }
}

#[cycle(same)]
fn same_fields(items: &[ObjectField], others: &[ObjectField]) -> bool
    ensures { IsTrue result ↔ (items.now ≡ others.now) }
{
    if items.len() != others.len() {
        return false;
    }
    for i in 0..items.len() {
        if !items[i].same(&others[i]) {
            return false;
        }
    }
    true
}

impl Same for Argument {
    fn same(&self, other: &Argument) -> bool {
        self.name.same(&other.name) && self.value.same(&other.value)
    }
}

impl Same for Directive {
    fn same(&self, other: &Directive) -> bool {
        self.place.same(&other.place)
            && self.name.same(&other.name)
            && same_items(self.arguments.as_slice(), other.arguments.as_slice())
    }
}
