//! Values of JSON that are the same. The lists and objects around the parts that are being compared
//! are on a stack of its own, so that only memory limits how deep they nest.
ghost use Rattle.std.specs.Prelude.{◌≡◌, IfOk};
ghost use Rattle.serde_json.specs.View.{items_view, members_view, number_view, view};
ghost use Rattle.gql_steps.specs.PairFrames.{same_rests, same_step, same_values};
ghost use Rattle.gql_steps.specs.Resolution as spec;

use crate::prints::real_of;
use serde_json::{Number, Value};
use std::alloc::{AllocError, Global};
use std::collections::btree_map::Iter;

/// The rests of two lists or of two objects, parts of which are being compared.
#[derive(Drop)]
pub enum PairFrame<'v> {
    /// The items after those parts.
    Items(&'v [Value], &'v [Value]),
    /// The members after those parts.
    Members(Iter<'v, String, Value>, Iter<'v, String, Value>),
}

/// What two values have come to.
#[derive(Drop)]
pub enum Compared<'v> {
    /// It is known whether they are the same.
    Done(bool),
    /// They are the same if these lists or objects are.
    Inner(PairFrame<'v>),
}

/// What two lists or two objects have come to.
#[derive(Drop)]
pub enum PairStep<'v> {
    /// It is known whether they are the same.
    Done(bool),
    /// They are the same if the second ones, which are within them, and the first ones, their
    /// rests, are.
    Within(PairFrame<'v>, PairFrame<'v>),
}

/// Whether two numbers are the same: integers as integers, others by the doubles nearest to them.
fn is_same_number(number: &Number, other: &Number) -> bool
    ensures { result ≡ spec.same_number (number_view number.now) (number_view other.now) }
{
    match number.as_i64() {
        Some(whole) => match other.as_i64() {
            Some(other) => whole == other,
            None => real_of(number) == real_of(other),
        },
        None => real_of(number) == real_of(other),
    }
}

/// Compares two values, up to lists and objects.
#[tactic(auto, using(crate::proofs::Alike::same_null, crate::proofs::Alike::same_truth, crate::proofs::Alike::same_number, crate::proofs::Alike::same_text, crate::proofs::Alike::same_array, crate::proofs::Alike::same_object))]
fn compare<'v>(value: &'v Value, other: &'v Value) -> Compared<'v>
    ensures { same_values result ≡ spec.same_data (view value.now) (view other.now) }
{
    let is_same = match value {
        Value::Null => other.is_null(),
        Value::Bool(truth) => match other.as_bool() {
            Some(other) => *truth == other,
            None => false,
        },
        Value::Number(number) => match other.as_number() {
            Some(other) => is_same_number(number, other),
            None => false,
        },
        Value::String(text) => match other.as_str() {
            Some(other) => text.as_str() == other,
            None => false,
        },
        Value::Array(items) => match other.as_array() {
            Some(others) => {
                return Compared::Inner(PairFrame::Items(items.as_slice(), others.as_slice()));
            }
            None => false,
        },
        Value::Object(members) => match other.as_object() {
            Some(others) => {
                return Compared::Inner(PairFrame::Members(members.iter(), others.iter()));
            }
            None => false,
        },
    };
    Compared::Done(is_same)
}

/// Compares the items of two lists, up to lists and objects within them.
fn compare_items<'v>(items: &'v [Value], others: &'v [Value]) -> PairStep<'v>
    ensures { same_step result ≡ spec.same_items (items_view items.now) (items_view others.now) }
{
    if items.len() != others.len() {
        return PairStep::Done(false);
    }
    let mut rest = items;
    let mut other_rest = others;
    while let Some((item, after)) = rest.split_first() {
        let Some((other, other_after)) = other_rest.split_first() else {
            return PairStep::Done(false);
        };
        rest = after;
        other_rest = other_after;
        match compare(item, other) {
            Compared::Done(true) => {}
            Compared::Done(false) => return PairStep::Done(false),
            Compared::Inner(inner) => {
                return PairStep::Within(PairFrame::Items(rest, other_rest), inner);
            }
        }
    }
    PairStep::Done(other_rest.split_first().is_none())
}

/// Compares the members of two objects, up to lists and objects within them.
fn compare_members<'v>(
    members: Iter<'v, String, Value>,
    others: Iter<'v, String, Value>,
) -> PairStep<'v>
    ensures { same_step result
        ≡ spec.same_members (members_view members.entry) (members_view others.entry) }
{
    let mut rest = members;
    let mut other_rest = others;
    while let Some((key, member)) = rest.next() {
        let Some((other_key, other)) = other_rest.next() else {
            return PairStep::Done(false);
        };
        if key.as_str() != other_key.as_str() {
            return PairStep::Done(false);
        }
        match compare(member, other) {
            Compared::Done(true) => {}
            Compared::Done(false) => return PairStep::Done(false),
            Compared::Inner(inner) => {
                return PairStep::Within(PairFrame::Members(rest, other_rest), inner);
            }
        }
    }
    PairStep::Done(other_rest.next().is_none())
}

/// Goes on with two lists or two objects.
fn compare_rests<'v>(frame: PairFrame<'v>) -> PairStep<'v>
    ensures { same_step result ≡ same_rests frame.entry }
{
    match frame {
        PairFrame::Items(items, others) => compare_items(items, others),
        PairFrame::Members(members, others) => compare_members(members, others),
    }
}

/// Whether these lists or objects are the same. It gives up after 2^64 - 1 steps, which no run
/// reaches.
#[inline(never)]
fn are_same_rests(alloc: Global, frame: PairFrame<'_>) -> Result<bool, AllocError>
    ensures { IfOk result (λ same. same ≡ same_rests frame.entry) }
{
    let mut step = compare_rests(frame);
    let mut stack = Vec::new(alloc);
    'steps: for _ in 0..u64::MAX {
        step = match step {
            PairStep::Within(outer, inner) => {
                stack.push(outer)?;
                compare_rests(inner)
            }
            PairStep::Done(false) => return Ok(false),
            PairStep::Done(true) => match stack.pop() {
                Some(frame) => compare_rests(frame),
                None => return Ok(true),
            },
        };
    }
    Err(AllocError)
}

/// Whether two values are the same.
#[inline(never)]
pub fn is_same(alloc: Global, value: &Value, other: &Value) -> Result<bool, AllocError>
    ensures { IfOk result (λ same. same ≡ spec.same_data (view value.now) (view other.now)) }
{
    match compare(value, other) {
        Compared::Done(same) => Ok(same),
        Compared::Inner(frame) => are_same_rests(alloc, frame),
    }
}
