//! Copies of values. The lists and objects around the part that is being copied are on a stack of
//! its own, so that only memory limits how deep they nest.
ghost use Rattle.std.specs.Prelude.{◌≡◌, ◌++◌, IfOk, IfSome};
ghost use Rattle.serde_json.specs.Data.{array, object};
ghost use Rattle.serde_json.specs.View.{view, items_view, members_view};
ghost use Rattle.gql_coerce.specs.Copies.{frame_with, put_each, copied_by};

use crate::coerced_parts::{CoercedItems, CoercedMembers};
use crate::coerced_value::CoercedValue;
use serde_json::Value;
use std::alloc::{AllocError, Global};
use std::collections::btree_map::Iter;

/// A list or an object, a part of which is being copied.
#[derive(Drop)]
pub enum CopyFrame<'v> {
    /// A list: the items after that part, and the copies of those before it.
    Items(&'v [Value], CoercedItems),
    /// An object: the name of that part, the members after it, and the copies of those before it.
    Members(&'v String, Iter<'v, String, Value>, CoercedMembers),
}

/// What is to be done next.
#[derive(Drop)]
pub enum CopyStep<'v> {
    /// Copy this part of the list or object.
    Within(CopyFrame<'v>, &'v Value),
    /// This copy is complete.
    Copied(CoercedValue),
}

/// A copy of a value that is neither a list nor an object.
fn leaf_copy(value: &Value) -> Result<Option<Value>, AllocError>
    ensures { IfOk result (λ leaf. IfSome leaf (λ copy. view copy ≡ view value.now)) }
{
    Ok(match value {
        Value::Null => Some(Value::Null),
        Value::Bool(truth) => Some(Value::Bool(*truth)),
        Value::Number(number) => Some(Value::Number(*number)),
        Value::String(text) => Some(Value::String(text.clone()?)),
        Value::Array(_) => None,
        Value::Object(_) => None,
    })
}

/// The next list or object among the items of a list, with copies of the items before it; or the
/// whole list.
fn next_item<'v>(items: &'v [Value], copies: CoercedItems) -> Result<CopyStep<'v>, AllocError>
    ensures { IfOk result (λ step. array (items_view (copies ++ items.now)) ≡ copied_by step) }
{
    let mut copies = copies;
    let mut rest = items;
    while let Some((item, after)) = rest.split_first() {
        let Some(leaf) = leaf_copy(item)? else {
            return Ok(CopyStep::Within(CopyFrame::Items(after, copies), item));
        };
        copies.push(CoercedValue::new(leaf))?;
        rest = after;
    }
    Ok(CopyStep::Copied(copies.into_value()))
}

/// The next member of an object, or the whole object.
fn next_member<'v>(members: Iter<'v, String, Value>, copies: CoercedMembers) -> CopyStep<'v>
    ensures { object (put_each members.entry (members_view copies)) ≡ copied_by result }
{
    let mut members = members;
    match members.next() {
        Some((name, member)) => {
            CopyStep::Within(CopyFrame::Members(name, members, copies), member)
        }
        None => CopyStep::Copied(copies.into_value()),
    }
}

/// A value, by its form.
fn enter<'v>(alloc: Global, value: &'v Value) -> Result<CopyStep<'v>, AllocError>
    ensures { IfOk result (λ step. view value.now ≡ copied_by step) }
{
    let leaf = match value {
        Value::Null => Value::Null,
        Value::Bool(truth) => Value::Bool(*truth),
        Value::Number(number) => Value::Number(*number),
        Value::String(text) => Value::String(text.clone()?),
        Value::Array(items) => return next_item(items.as_slice(), CoercedItems::new(alloc)),
        Value::Object(members) => {
            return Ok(next_member(members.iter(), CoercedMembers::new(alloc)));
        }
    };
    Ok(CopyStep::Copied(CoercedValue::new(leaf)))
}

/// A list or an object, with the copy of its part.
fn resume<'v>(frame: CopyFrame<'v>, copy: CoercedValue) -> Result<CopyStep<'v>, AllocError>
    ensures { IfOk result (λ step. frame_with frame.entry (view copy) ≡ copied_by step) }
{
    match frame {
        CopyFrame::Items(rest, copies) => {
            let mut copies = copies;
            copies.push(copy)?;
            next_item(rest, copies)
        }
        CopyFrame::Members(name, rest, copies) => {
            let mut copies = copies;
            copies.insert(name.clone()?, copy)?;
            Ok(next_member(rest, copies))
        }
    }
}

/// A copy of a value. It gives up after 2^64 - 1 steps, which no run reaches.
pub fn copy_of(alloc: Global, value: &Value) -> Result<CoercedValue, AllocError>
    ensures { IfOk result (λ copy. view copy ≡ view value.now) }
{
    let mut stack = Vec::new(alloc);
    let mut step = enter(alloc, value)?;
    'steps: for _ in 0..u64::MAX {
        step = match step {
            CopyStep::Within(frame, part) => {
                stack.push(frame)?;
                enter(alloc, part)?
            }
            CopyStep::Copied(copy) => match stack.pop() {
                Some(frame) => resume(frame, copy)?,
                None => return Ok(copy),
            },
        };
    }
    Err(AllocError)
}
