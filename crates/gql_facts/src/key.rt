//! The questions that rules ask about a schema and fragments.
ghost use Rattle.std.specs.Prelude.{◌≡◌, ◌↔◌, ◌++◌, IsTrue, IfOk};
ghost use Rattle.std.proofs.Common.{ap};
ghost use Rattle.std.specs.Hash as fed;
ghost use Rattle.std.specs.Cmp.{decided, partial_equiv_from_equiv};
ghost use Rattle.gql_facts.specs.Keys.{number_of, first_name, second_name, is_key, is_key_decides};

use gql_ast::{OperationKind, Same, Text};
use std::alloc::AllocError;
use std::hash::{Hash, Hasher};

/// A question that has one answer, a `Fact`. Names are compared by their bytes.
pub enum Key {
    /// The kind of the type of this name (GraphQL specification, 3.4).
    KindOf(Text),
    /// The type and the arguments of a field of an object or an interface (3.6, 3.7).
    FieldOf { of_type: Text, field: Text },
    /// The possible types of a composite type (3.7, 3.8).
    PossibleOf(Text),
    /// The fields of an input object (3.10).
    InputOf(Text),
    /// The values of an enum (3.9).
    EnumOf(Text),
    /// Where a directive may be applied, and its arguments (3.13).
    DirectiveOf(Text),
    /// The name of the root operation type of a kind (3.3.1).
    RootOf(OperationKind),
    /// The fragment of this name (2.8).
    FragmentOf(Text),
}

impl Drop for Key {
    fn drop(self) {
        match self {
            Key::KindOf(_) => {}
            Key::FieldOf {
                of_type: _,
                field: _,
            } => {}
            Key::PossibleOf(_) => {}
            Key::InputOf(_) => {}
            Key::EnumOf(_) => {}
            Key::DirectiveOf(_) => {}
            Key::RootOf(_) => {}
            Key::FragmentOf(_) => {}
        }
    }
}

impl Key {
    /// An equal key.
    pub fn copy(&self) -> Result<Key, AllocError>
        ensures { IfOk result (λ key. key ≡ self.now) }
    {
        Ok(match self {
            Key::KindOf(name) => Key::KindOf(name.copy()?),
            Key::FieldOf { of_type, field } => Key::FieldOf {
                of_type: of_type.copy()?,
                field: field.copy()?,
            },
            Key::PossibleOf(name) => Key::PossibleOf(name.copy()?),
            Key::InputOf(name) => Key::InputOf(name.copy()?),
            Key::EnumOf(name) => Key::EnumOf(name.copy()?),
            Key::DirectiveOf(name) => Key::DirectiveOf(name.copy()?),
            Key::RootOf(kind) => Key::RootOf(*kind),
            Key::FragmentOf(name) => Key::FragmentOf(name.copy()?),
        })
    }

    /// The number of the question.
    fn number(&self) -> u8
        ensures { result ≡ number_of self.now }
    {
        match self {
            Key::KindOf(_) => 0,
            Key::FieldOf { .. } => 1,
            Key::PossibleOf(_) => 2,
            Key::InputOf(_) => 3,
            Key::EnumOf(_) => 4,
            Key::DirectiveOf(_) => 5,
            Key::FragmentOf(_) => 6,
            Key::RootOf(OperationKind::Query) => 7,
            Key::RootOf(OperationKind::Mutation) => 8,
            Key::RootOf(OperationKind::Subscription) => 9,
        }
    }

    /// The name of what it asks about, or an empty text.
    fn first_name(&self) -> &str
        ensures { result.now ≡ first_name self.now }
    {
        match self {
            Key::KindOf(name) => name.as_str(),
            Key::FieldOf { of_type, .. } => of_type.as_str(),
            Key::PossibleOf(name) => name.as_str(),
            Key::InputOf(name) => name.as_str(),
            Key::EnumOf(name) => name.as_str(),
            Key::DirectiveOf(name) => name.as_str(),
            Key::FragmentOf(name) => name.as_str(),
            Key::RootOf(_) => "",
        }
    }

    /// The name of the field that it asks about, or an empty text.
    fn second_name(&self) -> &str
        ensures { result.now ≡ second_name self.now }
    {
        match self {
            Key::FieldOf { field, .. } => field.as_str(),
            _ => "",
        }
    }
}

impl PartialEq for Key {
    ghost eq = { is_key };

    ghost laws = { partial_equiv_from_equiv (decided is_key is_key_decides) };

    fn eq(&self, other: &Key) -> bool {
        self.number() == other.number()
            && self.first_name() == other.first_name()
            && self.second_name() == other.second_name()
    }
}

impl Eq for Key {
    ghost laws = { decided is_key is_key_decides };
}

impl Hash for Key {
    ghost hash_input = { λ k. fed.u8 (number_of k)
        ++ (fed.str (first_name k) ++ fed.str (second_name k)) };

    ghost respects_eq = { λ a b same. ap (λ k. fed.u8 (number_of k)
        ++ (fed.str (first_name k) ++ fed.str (second_name k))) ((is_key_decides a b).0 same) };

    fn hash<H: Hasher>(&self, state: &mut H) {
        state.write_u8(self.number());
        self.first_name().hash(state);
        self.second_name().hash(state);
    }
}

impl Same for Key {
    #[tactic(auto, using(crate::specs::Keys::is_key_decides))]
    fn same(&self, other: &Key) -> bool {
        *self == *other
    }
}
