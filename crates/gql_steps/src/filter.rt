//! The items of a list that a field takes by its arguments.
ghost use Rattle.std.specs.Prelude.{◌≡◌, ◌≢◌, ◌<◌, List, ℕ, length, map, filter, find, option_map, slice_index_or, false, IfOk};
ghost use Rattle.serde_json.specs.Data as json;
ghost use Rattle.serde_json.specs.Data.{Data, Members};
ghost use Rattle.serde_json.specs.View.{members_view, view};
ghost use Rattle.gql_steps.specs.Asked.{asked_members, text_member};
ghost use Rattle.gql_steps.specs.Columns.{AreTestsOf};
ghost use Rattle.gql_steps.specs.Resolution as spec;

use crate::asked::{Asked, AskedText, has_members, has_text, only_text, taken_apart};
use gql_ast::Shared;
use gql_coerce::CoercedValue;
use serde_json::{Map, Value};
use std::alloc::{AllocError, Global};

/// A column of the prints that items have, and the print that an item needs there to meet an argument.
#[derive(Clone, Copy)]
pub struct Test<'c> {
    pub prints: &'c [u64],
    pub print: u64,
}

/// Whether an item is an object that has each argument as a member.
#[inline(always)]
fn meets(alloc: Global, asked: &[Asked<'_>], item: &Value) -> Result<bool, AllocError>
    ensures { IfOk result (λ meets. meets
        ≡ spec.meets (asked_members asked.now) (view item.now)) }
{
    match item {
        Value::Object(_) => has_members(alloc, asked, item),
        Value::Null => Ok(false),
        Value::Bool(_) => Ok(false),
        Value::Number(_) => Ok(false),
        Value::String(_) => Ok(false),
        Value::Array(_) => Ok(false),
    }
}

/// Whether the print of the item of this number is not another one than that of the test.
fn may_pass(test: &Test<'_>, i: usize) -> bool
    ensures { result ≡ false → (i < length test.now.prints.now)
        × (slice_index_or test.now.prints.now i 0 ≢ test.now.print) }
{
    match test.prints.get(i) {
        Some(print) => *print == test.print,
        None => true,
    }
}

/// Whether the item of this number may meet the arguments of these tests.
fn may_meet(tests: &[Test<'_>], i: usize) -> bool
    ensures { (arguments : Members) (items : List Data) → AreTestsOf arguments items tests.now
        → result ≡ false → spec.meets arguments (slice_index_or items i json.null) ≡ false }
{
    for test in tests {
        if !may_pass(test, i) {
            return false;
        }
    }
    true
}

/// Whether the item of this number meets the arguments, which these tests are of.
#[inline(always)]
fn meets_at(
    alloc: Global,
    asked: &[Asked<'_>],
    tests: &[Test<'_>],
    i: usize,
    item: &Value,
) -> Result<bool, AllocError>
    ensures { IfOk result (λ meets. (items : List Data)
        → AreTestsOf (asked_members asked.now) items tests.now
        → slice_index_or items i json.null ≡ view item.now
        → meets ≡ spec.meets (asked_members asked.now) (view item.now)) }
{
    if may_meet(tests, i) {
        meets(alloc, asked, item)
    } else {
        Ok(false)
    }
}

/// The items that meet these arguments, which these tests are of.
fn kept_by_all<'v>(
    alloc: Global,
    asked: &[Asked<'_>],
    tests: &[Test<'_>],
    items: &'v [Value],
) -> Result<Vec<&'v Value>, AllocError>
    requires { AreTestsOf (asked_members asked.now) (map view items.now) tests.now }
    ensures { IfOk result (λ found. map (λ v. view v.now) found.items
        ≡ filter (spec.meets (asked_members asked.now)) (map view items.now)) }
{
    let mut found = Vec::new(alloc);
    for i in 0..items.len() {
        let item = &items[i];
        if meets_at(alloc, asked, tests, i, item)? {
            found.push(item)?;
        }
    }
    Ok(found)
}

/// The items that have this argument as a member.
fn kept_by_text<'v>(
    alloc: Global,
    argument: &AskedText<'_>,
    items: &'v [Value],
) -> Result<Vec<&'v Value>, AllocError>
    ensures { IfOk result (λ found. map (λ v. view v.now) found.items
        ≡ filter (spec.meets (text_member argument.now)) (map view items.now)) }
{
    let mut found = Vec::new(alloc);
    for i in 0..items.len() {
        let item = &items[i];
        if has_text(argument, item) {
            found.push(item)?;
        }
    }
    Ok(found)
}

/// The items that meet the arguments, which these tests are of. One argument that is a text, with no
/// tests, has a shorter walk.
pub fn kept<'v>(
    alloc: Global,
    arguments: &Map<String, Shared<CoercedValue>>,
    tests: &[Test<'_>],
    items: &'v [Value],
) -> Result<Vec<&'v Value>, AllocError>
    requires { AreTestsOf (members_view arguments.now.entries) (map view items.now) tests.now }
    ensures { IfOk result (λ found. map (λ v. view v.now) found.items
        ≡ filter (spec.meets (members_view arguments.now.entries)) (map view items.now)) }
{
    let asked = taken_apart(alloc, arguments)?;
    if tests.is_empty() {
        if let Some(argument) = only_text(asked.as_slice()) {
            return kept_by_text(alloc, &argument, items);
        }
    }
    kept_by_all(alloc, asked.as_slice(), tests, items)
}

/// The first item that meets these arguments, which these tests are of, if there is one.
fn first_by_all<'v>(
    alloc: Global,
    asked: &[Asked<'_>],
    tests: &[Test<'_>],
    items: &'v [Value],
) -> Result<Option<&'v Value>, AllocError>
    requires { AreTestsOf (asked_members asked.now) (map view items.now) tests.now }
    ensures { IfOk result (λ found. option_map (λ v. view v.now) found
        ≡ find (spec.meets (asked_members asked.now)) (map view items.now)) }
{
    for i in 0..items.len() {
        let item = &items[i];
        if meets_at(alloc, asked, tests, i, item)? {
            return Ok(Some(item));
        }
    }
    Ok(None)
}

/// The first item that has this argument as a member, if there is one.
fn first_by_text<'v>(argument: &AskedText<'_>, items: &'v [Value]) -> Option<&'v Value>
    ensures { option_map (λ v. view v.now) result
        ≡ find (spec.meets (text_member argument.now)) (map view items.now) }
{
    for i in 0..items.len() {
        let item = &items[i];
        if has_text(argument, item) {
            return Some(item);
        }
    }
    None
}

/// The first item that meets the arguments, which these tests are of, if there is one. One argument
/// that is a text, with no tests, has a shorter walk.
pub fn first_kept<'v>(
    alloc: Global,
    arguments: &Map<String, Shared<CoercedValue>>,
    tests: &[Test<'_>],
    items: &'v [Value],
) -> Result<Option<&'v Value>, AllocError>
    requires { AreTestsOf (members_view arguments.now.entries) (map view items.now) tests.now }
    ensures { IfOk result (λ found. option_map (λ v. view v.now) found
        ≡ find (spec.meets (members_view arguments.now.entries)) (map view items.now)) }
{
    let asked = taken_apart(alloc, arguments)?;
    if tests.is_empty() {
        if let Some(argument) = only_text(asked.as_slice()) {
            return Ok(first_by_text(&argument, items));
        }
    }
    first_by_all(alloc, asked.as_slice(), tests, items)
}
