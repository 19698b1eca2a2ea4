//! What was observed of a world.
use gql_ast::{Items, Same, Shared, Text, same_items};
use gql_facts::{Fact, Key};

/// A key, and the answer that it had; an absence is an answer, too.
pub struct Observation {
    pub key: Key,
    pub fact: Fact,
}

impl Drop for Observation {
    fn drop(self) {
        let Observation { key: _, fact: _ } = self;
    }
}

/// What was observed of a type: the answers to the four keys about its name.
pub struct TypeAnswers {
    pub name: Text,
    pub kind: Fact,
    pub possible: Fact,
    pub input: Fact,
    pub values: Fact,
}

impl Drop for TypeAnswers {
    fn drop(self) {
        let TypeAnswers {
            name: _,
            kind: _,
            possible: _,
            input: _,
            values: _,
        } = self;
    }
}

/// What was observed of a key that a definition reads by itself, and of each type that its answer
/// leads to: those that the answer names, and those that the fields of input objects among them name,
/// again and again. Definitions that read the key share it.
pub struct Answer {
    pub observation: Observation,
    pub types: Items<Shared<TypeAnswers>>,
}

impl Drop for Answer {
    fn drop(self) {
        let Answer {
            observation: _,
            types: _,
        } = self;
    }
}

impl Same for Observation {
    fn same(&self, other: &Observation) -> bool {
        self.key.same(&other.key) && self.fact.same(&other.fact)
    }
}

impl Same for TypeAnswers {
    fn same(&self, other: &TypeAnswers) -> bool {
        self.name.same(&other.name)
            && self.kind.same(&other.kind)
            && self.possible.same(&other.possible)
            && self.input.same(&other.input)
            && self.values.same(&other.values)
    }
}

impl Same for Answer {
    fn same(&self, other: &Answer) -> bool {
        self.observation.same(&other.observation)
            && same_items(self.types.as_slice(), other.types.as_slice())
    }
}
