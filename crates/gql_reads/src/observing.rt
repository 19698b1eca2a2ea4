//! Whether answers observed a key: by themselves, or by a type that they lead to.
ghost use Rattle.std.specs.Prelude.{◌↔◌, IsTrue, Contains};
ghost use Rattle.gql_facts.specs.Reads.{type_reads};
ghost use Rattle.gql_reads.specs.Observations.{about_all, keys_of, observed, observed_in};

use crate::observation::{Answer, TypeAnswers};
use gql_ast::{Same, Shared, Text};
use gql_facts::Key;

/// Whether this is a key about the type of a name.
fn is_about(key: &Key, name: &Text) -> bool
    ensures { IsTrue result ↔ Contains (type_reads name.now) key.now }
{
    match key {
        Key::KindOf(its) => its.same(name),
        Key::PossibleOf(its) => its.same(name),
        Key::InputOf(its) => its.same(name),
        Key::EnumOf(its) => its.same(name),
        _ => false,
    }
}

/// Whether what was observed of one of these types is of this key.
fn is_about_one(key: &Key, types: &[Shared<TypeAnswers>]) -> bool
    ensures { IsTrue result ↔ Contains (keys_of (about_all types.now)) key.now }
{
    for of_type in types {
        if is_about(key, &of_type.get().name) {
            return true;
        }
    }
    false
}

/// Whether an answer, or what was observed of a type that it leads to, is of this key.
pub fn observes(answer: &Answer, key: &Key) -> bool
    ensures { IsTrue result ↔ Contains (keys_of (observed answer.now)) key.now }
{
    if answer.observation.key.same(key) {
        return true;
    }
    is_about_one(key, answer.types.as_slice())
}

/// Whether one of these answers, or what was observed of a type that it leads to, is of this key.
pub fn one_observes(answers: &[Shared<Answer>], key: &Key) -> bool
    ensures { IsTrue result ↔ Contains (keys_of (observed_in answers.now)) key.now }
{
    for answer in answers {
        if observes(answer.get(), key) {
            return true;
        }
    }
    false
}
