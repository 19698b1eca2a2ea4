//! A part of a list.
ghost use Rattle.std.specs.Prelude.{◌≡◌};

use gql_ast::Shared;
use std::marker::Model;

/// Items that follow one another in a list. Contracts see the list of these items.
pub struct Chunk<T> {
    items: Vec<Shared<T>>,
}

impl<T: Drop> Drop for Chunk<T> {
    fn drop(self) {
        let Chunk { items: _ } = self;
    }
}

impl<T> Model for Chunk<T> {
    ghost use Rattle.std.specs.Prelude.{List};
    ghost use Rattle.std.specs.Coded.{coded_list};

    ghost Value = { List T };

    ghost coded = { coded_list T.code };

    ghost view = { λ c. c.items.items };
}

impl<T> Chunk<T> {
    /// A chunk of these items.
    pub fn new(items: Vec<Shared<T>>) -> Chunk<T>
        ensures { result ≡ items.items }
    {
        Chunk { items }
    }

    /// The items.
    pub fn as_slice(&self) -> &[Shared<T>]
        ensures { result.now ≡ self.now }
    {
        self.items.as_slice()
    }
}
