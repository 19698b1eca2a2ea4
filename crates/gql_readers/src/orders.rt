//! The order of keys, and that of definitions.
ghost use Rattle.std.specs.Prelude.{◌≡◌, IfOk, Some, refl};
ghost use Rattle.std.specs.Ordering.{eq_by_cmp};
ghost use Rattle.std.specs.Cmp.{partial_equiv_from_equiv, eq_by_cmp_equiv, partial_order_from_total};
ghost use Rattle.gql_facts.specs.Keys as keys;
ghost use Rattle.gql_readers.specs.Orders as spec;
ghost use Rattle.gql_readers.specs.OrderLaws.{key_total};

use crate::prints::print_of;
use gql_ast::{DefinitionId, OperationKind, Same, Shared};
use gql_facts::Key;
use gql_reads::Answer;
use std::alloc::AllocError;
use std::cmp::Ordering;
use std::marker::Model;

/// The number of the question.
fn number(key: &Key) -> u8
    ensures { result ≡ keys.number_of key.now }
{
    match key {
        Key::KindOf(_) => 0,
        Key::FieldOf { .. } => 1,
        Key::PossibleOf(_) => 2,
        Key::InputOf(_) => 3,
        Key::EnumOf(_) => 4,
        Key::DirectiveOf(_) => 5,
        Key::FragmentOf(_) => 6,
        Key::RootOf(OperationKind::Query) => 7,
        Key::RootOf(OperationKind::Mutation) => 8,
        Key::RootOf(OperationKind::Subscription) => 9,
    }
}

/// The name of what it asks about, or an empty text.
fn first_name(key: &Key) -> &str
    ensures { result.now ≡ keys.first_name key.now }
{
    match key {
        Key::KindOf(name) => name.as_str(),
        Key::FieldOf { of_type, .. } => of_type.as_str(),
        Key::PossibleOf(name) => name.as_str(),
        Key::InputOf(name) => name.as_str(),
        Key::EnumOf(name) => name.as_str(),
        Key::DirectiveOf(name) => name.as_str(),
        Key::FragmentOf(name) => name.as_str(),
        Key::RootOf(_) => "",
    }
}

/// The name of the field that it asks about, or an empty text.
fn second_name(key: &Key) -> &str
    ensures { result.now ≡ keys.second_name key.now }
{
    match key {
        Key::FieldOf { field, .. } => field.as_str(),
        _ => "",
    }
}

/// The order of two keys by the questions and the texts of the names.
fn text_order(key: &Key, other: &Key) -> Ordering
    ensures { result ≡ spec.text_order key.now other.now }
{
    let by_question = number(key).cmp(&number(other));
    if by_question.is_ne() {
        return by_question;
    }
    let by_name = first_name(key).cmp(first_name(other));
    by_name.then_with(|| second_name(key).cmp(second_name(other)))
}

/// The print of the name that a key asks about.
#[tactic(auto, unfolding(crate::specs::Orders::key_print))]
fn key_print(key: &Key) -> u64
    ensures { result ≡ spec.key_print key.now }
{
    print_of(first_name(key))
}

/// The order of two definitions: by the names of their files, then by their places.
pub fn id_order(id: &DefinitionId, other: &DefinitionId) -> Ordering
    ensures { result ≡ spec.id_order id.now other.now }
{
    let by_file = id.file.cmp(&other.file);
    by_file.then(id.offset.cmp(&other.offset))
}

/// A key that is looked for, with its print. Contracts see the key.
#[derive(Drop)]
pub struct Sought<'k> {
    key: &'k Key,
    print: u64,
}

impl<'k> Model for Sought<'k> {
    ghost use Rattle.std.specs.Coded.{codes};
    ghost use Rattle.std.specs.Prelude.{◌≡◌};
    ghost use Rattle.gql_facts.specs.contracts.key.Key as contracts;
    ghost use Rattle.gql_facts.specs.declared.key.Key.{Key};
    ghost use Rattle.gql_readers.specs.Orders.{key_print};

    ghost Value = { Key };

    ghost coded = { Prim.hlevel (codes, contracts.the_row.coded) };

    ghost view = { λ s. s.key.now };

    ghost invariant = { λ s. s.print ≡ key_print s.key.now };
}

impl<'k> Sought<'k> {
    /// This key, to be looked for.
    pub fn of(key: &'k Key) -> Sought<'k>
        ensures { result ≡ key.now }
    {
        let print = key_print(key);
        Sought { key, print }
    }
}

/// The key of an answer, with its print, ordered. It shares the answer. Contracts see the key.
#[derive(Drop)]
pub struct OrderedKey {
    answer: Shared<Answer>,
    print: u64,
}

impl Model for OrderedKey {
    ghost use Rattle.std.specs.Coded.{codes};
    ghost use Rattle.std.specs.Prelude.{◌≡◌};
    ghost use Rattle.gql_facts.specs.contracts.key.Key as contracts;
    ghost use Rattle.gql_facts.specs.declared.key.Key.{Key};
    ghost use Rattle.gql_readers.specs.Orders.{key_print};

    ghost Value = { Key };

    ghost coded = { Prim.hlevel (codes, contracts.the_row.coded) };

    ghost view = { λ k. k.answer.observation.key };

    ghost invariant = { λ k. k.print ≡ key_print k.answer.observation.key };
}

impl OrderedKey {
    /// The key of an answer.
    pub fn of(answer: &Shared<Answer>) -> Result<OrderedKey, AllocError>
        ensures { IfOk result (λ key. key ≡ answer.now.observation.key) }
    {
        let print = key_print(&answer.get().observation.key);
        let answer = answer.clone()?;
        Ok(OrderedKey { answer, print })
    }

    /// The key.
    pub fn key(&self) -> &Key
        ensures { result.now ≡ self.now }
    {
        &self.answer.get().observation.key
    }

    /// The same key. It shares this answer, if that is to the key, so that none of before is kept.
    pub fn shared_with(self, answer: &Shared<Answer>) -> Result<OrderedKey, AllocError>
        ensures { IfOk result (λ key. key ≡ self) }
    {
        if !answer.get().observation.key.same(self.key()) {
            return Ok(self);
        }
        let answer = answer.clone()?;
        Ok(OrderedKey {
            answer,
            print: self.print,
        })
    }

    /// The key, to be looked for.
    pub fn sought(&self) -> Sought<'_>
        ensures { result ≡ self.now }
    {
        Sought {
            key: self.key(),
            print: self.print,
        }
    }

    /// The order of the key and of one that is looked for. Most keys are told apart by their
    /// prints.
    pub fn order_to(&self, sought: &Sought<'_>) -> Ordering
        ensures { result ≡ spec.key_order self.now sought.now }
    {
        let by_print = self.print.cmp(&sought.print);
        if by_print.is_ne() {
            return by_print;
        }
        text_order(self.key(), sought.key)
    }
}

impl PartialEq for OrderedKey {
    ghost eq = { eq_by_cmp spec.key_order };

    ghost laws = { partial_equiv_from_equiv (eq_by_cmp_equiv key_total) };

    fn eq(&self, other: &OrderedKey) -> bool {
        self.cmp(other).is_eq()
    }
}

impl Eq for OrderedKey {
    ghost laws = { eq_by_cmp_equiv key_total };
}

impl PartialOrd for OrderedKey {
    ghost partial_cmp = { λ a b. Some (spec.key_order a b) };

    ghost laws = { partial_order_from_total key_total };

    fn partial_cmp(&self, other: &OrderedKey) -> Option<Ordering> {
        Some(self.cmp(other))
    }
}

impl Ord for OrderedKey {
    ghost cmp = { spec.key_order };

    ghost total = { key_total };

    ghost matches_partial_cmp = { λ a b. refl };

    ghost matches_eq = { λ a b. refl };

    fn cmp(&self, other: &OrderedKey) -> Ordering {
        self.order_to(&other.sought())
    }
}
