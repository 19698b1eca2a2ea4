//! Drops values part by part. There is no recursion, so the stack does not limit how deep they nest,
//! and no allocation, so this cannot fail. A value of few levels is dropped with recursion, which is
//! faster.
ghost use Rattle.std.specs.Prelude.{◌≡◌, false};
ghost use Rattle.serde_json.specs.View.{view};
ghost use Rattle.gql_coerce.specs.Nesting as spec;
ghost use Rattle.gql_coerce.specs.Nesting.{NestsWithin};

use serde_json::Value;
use std::mem;

/// How many levels of lists and objects are dropped with recursion at most.
const FEW_LEVELS: usize = 64;

/// Whether a value is a list or an object that has a part.
fn has_part(value: &Value) -> bool
    ensures { result ≡ spec.has_part (view value.now) }
{
    match value {
        Value::Array(items) => !items.is_empty(),
        Value::Object(members) => !members.is_empty(),
        Value::Null | Value::Bool(_) | Value::Number(_) | Value::String(_) => false,
    }
}

/// Removes a part of a list or an object.
fn remove_part(whole: &mut Value) -> Option<Value> {
    match whole {
        Value::Array(items) => items.pop(),
        Value::Object(members) => match members.pop_first() {
            Some((_, member)) => Some(member),
            None => None,
        },
        Value::Null | Value::Bool(_) | Value::Number(_) | Value::String(_) => None,
    }
}

/// Exchanges a value for the part of a list or an object that `remove_part` removes last.
fn exchange_last(whole: &mut Value, other: &mut Value) {
    match whole {
        Value::Array(items) => {
            if let Some(item) = items.first_mut() {
                mem::swap(item, other);
            }
        }
        Value::Object(members) => {
            if let Some(mut entry) = members.last_entry() {
                mem::swap(entry.get_mut(), other);
            }
        }
        Value::Null | Value::Bool(_) | Value::Number(_) | Value::String(_) => {}
    }
}

/// Drops a value. It enters a list or an object, drops its parts, and goes back to the one around
/// it. `around` is the one that was entered last. That one holds the one that was entered before it
/// as the part that is removed last, so that no memory is needed to find the way back.
/// There is no clause: the value is gone, and a contract cannot see in which order it was dropped.
pub fn take_apart(value: Value) {
    let mut around = Value::Null;
    let mut value = value;
    for _ in 0..u64::MAX {
        if has_part(&value) {
            exchange_last(&mut value, &mut around);
            mem::swap(&mut value, &mut around);
        } else {
            match remove_part(&mut around) {
                Some(part) => {
                    if has_part(&around) {
                        value = part;
                    } else {
                        around = part;
                        value = Value::Null;
                    }
                }
                None => return,
            }
        }
    }
}

/// How many levels of lists and objects a value has at most: one if it has no part, else the
/// largest number, which stands for any number of levels.
pub fn levels_of(value: &Value) -> usize
    ensures levels { NestsWithin (view value.now) result }
    ensures few { spec.has_part (view value.now) ≡ false → result ≡ 1 }
{
    if has_part(value) { usize::MAX } else { 1 }
}

/// Drops a value that has at most this many levels of lists and objects: with recursion, if these
/// are few, so that the recursion goes no deeper than them. There is no `ensures`: the value is
/// gone.
pub fn drop_of_levels(value: Value, levels: usize)
    requires { NestsWithin (view value) levels }
{
    if levels > FEW_LEVELS {
        take_apart(value);
    } else {
        let _of_few_levels = value;
    }
}
