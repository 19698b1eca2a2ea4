//! Entries of the index.
ghost use Rattle.std.specs.Prelude.{◌≡◌};
ghost use Rattle.gql_readers.specs.Orders as orders;

use crate::orders::{OrderedKey, Sought};
use crate::reader_list::ReaderList;
use gql_ast::Shared;
use gql_facts::Key;
use gql_reads::Answer;
use std::cmp::Ordering;
use std::marker::Model;

/// A key, the answer that it had, with the types that this leads to, and the definitions whose
/// nodes read it, in file order.
pub struct Entry {
    pub(crate) key: OrderedKey,
    pub(crate) answer: Shared<Answer>,
    pub(crate) readers: ReaderList,
}

impl Drop for Entry {
    fn drop(self) {
        let Entry {
            key: _,
            answer: _,
            readers: _,
        } = self;
    }
}

impl Model for Entry {
    ghost use Rattle.std.specs.Coded.{codes};
    ghost use Rattle.gql_ast.specs.contracts.definition.DefinitionId as of_id;
    ghost use Rattle.gql_facts.specs.contracts.key.Key as of_key;
    ghost use Rattle.gql_reads.specs.contracts.observation.Answer as of_answer;
    ghost use Rattle.gql_readers.specs.Indexes.{Reading};

    ghost Value = { Reading };

    ghost coded = { Prim.hlevel (
      codes,
      of_id.the_row.coded,
      of_key.the_row.coded,
      of_answer.the_row.coded,
    ) };

    ghost view = { λ e. record { key = e.key; answer = e.answer; readers = e.readers } };
}

impl Entry {
    /// The key.
    pub fn key(&self) -> &Key
        ensures { result.now ≡ self.now.key }
    {
        self.key.key()
    }

    /// The order of the key and of one that is looked for.
    pub(crate) fn order_to(&self, sought: &Sought<'_>) -> Ordering
        ensures { result ≡ orders.key_order self.now.key sought.now }
    {
        self.key.order_to(sought)
    }

    /// The answer that the key had, with the types that it leads to.
    pub fn answer(&self) -> &Shared<Answer>
        ensures { result.now ≡ self.now.answer }
    {
        &self.answer
    }

    /// The definitions that read the key.
    pub fn readers(&self) -> &ReaderList
        ensures { result.now ≡ self.now.readers }
    {
        &self.readers
    }
}
