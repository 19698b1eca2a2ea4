//! The trees of literals, arguments and directives.

use crate::text::{Name, Text};
use gql_text::Place;
use sqlite_items::Items;

/// A value as it is written (GraphQL specification, 2.9). Its place is that of its first token.
#[cycle(literal)]
#[derive(Drop)]
pub enum Literal {
    /// A variable; the place is that of its `$` (2.10).
    Variable {
        place: Place,
        name: Text,
    },
    /// A whole number, as it is written (2.9.1).
    Int {
        place: Place,
        text: Text,
    },
    /// A number with a fraction or an exponent, as it is written (2.9.2).
    Float {
        place: Place,
        text: Text,
    },
    /// The value of a string or of a block string (2.9.4).
    String {
        place: Place,
        value: Text,
    },
    /// `true` or `false` (2.9.3).
    Boolean {
        place: Place,
        value: bool,
    },
    /// `null` (2.9.5).
    Null {
        place: Place,
    },
    /// A name other than `true`, `false` and `null` (2.9.6).
    Enum {
        place: Place,
        name: Text,
    },
    /// A list (2.9.7).
    List {
        place: Place,
        items: Items<Literal>,
    },
    /// An input object (2.9.8).
    Object {
        place: Place,
        fields: Items<ObjectField>,
    },
}

/// A field of an object literal (GraphQL specification, 2.9.8).
#[cycle(literal)]
#[derive(Drop)]
pub struct ObjectField {
    pub name: Name,
    pub value: Literal,
}

/// An argument of a field or of a directive (GraphQL specification, 2.6).
pub struct Argument {
    pub name: Name,
    pub value: Literal,
}

impl Drop for Argument {
    fn drop(self) {
        let Argument { name: _, value: _ } = self;
    }
}

/// A directive that is applied to a node (GraphQL specification, 2.12). Its place is that of its
/// `@`.
pub struct Directive {
    pub place: Place,
    pub name: Name,
    pub arguments: Items<Argument>,
}

impl Drop for Directive {
    fn drop(self) {
        let Directive {
            place: _,
            name: _,
            arguments: _,
        } = self;
    }
}
