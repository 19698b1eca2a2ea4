//! Which answers may have changed since something was observed.
ghost use Rattle.std.specs.Prelude.{◌≡◌, ◌||◌, Contains, bytes_eq, codes, false, find, is_some, true};
ghost use Rattle.gql_facts.specs.declared.key.Key.{Key as AKey};
ghost use Rattle.gql_facts.specs.declared.key.Key.TheVariants as key;
ghost use Rattle.gql_pairs.specs.Doubts as spec;
ghost use Rattle.gql_pairs.specs.declared.doubt.Doubt.TheVariants as doubted;
ghost use Rattle.gql_reads.specs.Observations.{about_all, observed, observed_in};
ghost use Rattle.gql_reads.specs.declared.observation.Observation.{Observation as AnObservation};

use gql_ast::{Shared, Text};
use gql_facts::Key;
use gql_reads::{Answer, TypeAnswers};
use gql_types::Named;

/// Which answers may have changed: all, only those for the fragments of these names, or only those
/// that an edit of a schema file may change. That is what is known of the types of these names, and
/// every directive and every root operation type.
pub enum Doubt {
    All,
    Fragments(Named<Text>),
    Types(Named<Text>),
}

impl Drop for Doubt {
    fn drop(self) {
        match self {
            Doubt::All => {}
            Doubt::Fragments(_) => {}
            Doubt::Types(_) => {}
        }
    }
}

impl Doubt {
    /// Whether no answer may have changed. It may also be false then.
    pub fn is_none(&self) -> bool
        ensures { result ≡ true → (k : AKey) → spec.in_doubt self.now k ≡ false }
    {
        match self {
            Doubt::All => false,
            Doubt::Fragments(names) => names.as_slice().is_empty(),
            Doubt::Types(_) => false,
        }
    }

    /// Whether the answer for the fragment of a name may have changed.
    pub fn is_of_fragment(&self, name: &str) -> bool
        ensures { result ≡ spec.in_doubt self.now (key.FragmentOf name.now) }
    {
        match self {
            Doubt::All => true,
            Doubt::Fragments(names) => is_one(name, names),
            Doubt::Types(_) => false,
        }
    }

    /// Whether the answer to a key may have changed.
    fn is_of(&self, key: &Key) -> bool
        ensures { result ≡ spec.in_doubt self.now key.now }
    {
        match self {
            Doubt::All => true,
            Doubt::Fragments(names) => is_of_one(key, names),
            Doubt::Types(names) => is_of_type(key, names),
        }
    }

    /// Whether it is seen at once that none of these answers may have changed: only fragments are in
    /// doubt, and none of the answers is of one of these.
    pub fn is_of_none(&self, answers: &[Shared<Answer>]) -> bool
        ensures { result ≡ true → (o : AnObservation) → Contains (observed_in answers.now) o
            → spec.in_doubt self.now o.key ≡ false }
    {
        match self {
            Doubt::All => false,
            Doubt::Fragments(names) => !has_one(answers, names),
            Doubt::Types(_) => false,
        }
    }

    /// Whether an answer may have changed, or one about the types that it leads to.
    pub fn is_of_answer(&self, answer: &Answer) -> bool
        ensures { result ≡ false → (o : AnObservation) → Contains (observed answer.now) o
            → spec.in_doubt self.now o.key ≡ false }
    {
        if self.is_of(&answer.observation.key) {
            return true;
        }
        match self {
            Doubt::All => true,
            // What was observed of a type is of no fragment.
            Doubt::Fragments(_) => false,
            Doubt::Types(names) => have_one(answer.types.as_slice(), names),
        }
    }
}

/// Whether this is one of these names.
fn is_one(name: &str, names: &Named<Text>) -> bool
    ensures { result ≡ is_some (find (bytes_eq name.now) names.now) }
{
    let Some(_found) = names.get(name) else {
        return false;
    };
    true
}

/// Whether a key is that of a fragment of one of these names.
fn is_of_one(key: &Key, names: &Named<Text>) -> bool
    ensures { result ≡ spec.in_doubt (doubted.Fragments names.now) key.now }
{
    match key {
        Key::FragmentOf(name) => is_one(name.as_str(), names),
        _ => false,
    }
}

/// Whether one of these answers is of a fragment of one of these names. What they observed of types is
/// of none.
fn has_one(answers: &[Shared<Answer>], names: &Named<Text>) -> bool
    ensures { result ≡ false → (o : AnObservation) → Contains (observed_in answers.now) o
        → spec.in_doubt (doubted.Fragments names.now) o.key ≡ false }
{
    for answer in answers {
        if is_of_one(&answer.get().observation.key, names) {
            return true;
        }
    }
    false
}

/// Whether a field of this name may be one that only the query root has.
fn is_root_field(name: &str) -> bool
    ensures { result ≡ spec.is_root_field name.now }
{
    name == "__schema" || name == "__type"
}

/// Whether an edit of a schema file that changes types of these names may change the answer to a
/// key.
fn is_of_type(key: &Key, names: &Named<Text>) -> bool
    ensures { result ≡ spec.in_doubt (doubted.Types names.now) key.now }
{
    match key {
        Key::KindOf(name) => is_one(name.as_str(), names),
        Key::FieldOf { of_type, field } => {
            is_one(of_type.as_str(), names) || is_root_field(field.as_str())
        }
        Key::PossibleOf(name) => is_one(name.as_str(), names),
        Key::InputOf(name) => is_one(name.as_str(), names),
        Key::EnumOf(name) => is_one(name.as_str(), names),
        Key::DirectiveOf(_) => true,
        Key::RootOf(_) => true,
        Key::FragmentOf(_) => false,
    }
}

/// Whether one of these types has one of these names.
fn have_one(types: &[Shared<TypeAnswers>], names: &Named<Text>) -> bool
    ensures { result ≡ false → (o : AnObservation) → Contains (about_all types.now) o
        → spec.in_doubt (doubted.Types names.now) o.key ≡ false }
{
    for of_type in types {
        if is_one(of_type.get().name.as_str(), names) {
            return true;
        }
    }
    false
}
