//! Changes to a list in the data. They take no memory.
ghost use Rattle.std.specs.Prelude.{codes, IfSome};
ghost use Rattle.std.specs.BTreeMap.{get_by_text};
ghost use Rattle.serde_json.specs.declared.value.Value.{Array};
ghost use Rattle.gql_stored.specs.Changes.{IsReady, IsChanged, IfMember, IfList, AreChangedAt, IsChangedAt};

use crate::items::{with_end, within};
use gql_coerce::CoercedValue;
use serde_json::{Map, Value};
use std::mem;

/// A change to a list.
#[derive(Drop)]
pub enum Change {
    /// Its items move into this buffer, if it is larger than theirs.
    Move(Vec<Value>),
    /// This value is added at the end.
    Add(CoercedValue),
}

/// The items of a list with a change.
fn items_with(items: Vec<Value>, change: Change) -> Vec<Value>
    requires { IsReady change (Array items) }
    ensures { IsChanged change (Array items) (Array result) }
{
    match change {
        Change::Move(buffer) => within(items, buffer),
        Change::Add(value) => with_end(items, value),
    }
}

/// A list with a change. Any other value stays as it is.
fn with_change(list: Value, change: Change) -> Value
    requires { IsReady change list }
    ensures { IsChanged change list result }
{
    match list {
        Value::Array(items) => Value::Array(items_with(items, change)),
        other => other,
    }
}

/// Members, with a change to the list of this name.
fn members_with(members: Map<String, Value>, to: &str, change: Change) -> Map<String, Value>
    requires { IfSome (get_by_text members to.now) (IsReady change) }
    ensures { AreChangedAt to.now (IsChanged change) members result }
{
    let mut members = members;
    if let Some(member) = members.get_mut(to) {
        let before = mem::replace(member, Value::Null);
        *member = with_change(before, change);
        return members;
    }
    members
}

/// An object, with a change to the list of this name.
fn object_with(object: Value, to: &str, change: Change) -> Value
    requires { IfMember to.now (IsReady change) object }
    ensures { IsChangedAt to.now (IsChanged change) object result }
{
    match object {
        Value::Object(members) => Value::Object(members_with(members, to, change)),
        other => other,
    }
}

/// The members of the data, with a change to the list of this name.
fn data_members_with(members: Map<String, Value>, to: &str, change: Change) -> Map<String, Value>
    requires { IfSome (get_by_text members (codes "query")) (IfMember to.now (IsReady change)) }
    ensures { AreChangedAt (codes "query") (IsChangedAt to.now (IsChanged change)) members result }
{
    let mut members = members;
    if let Some(member) = members.get_mut("query") {
        let before = mem::replace(member, Value::Null);
        *member = object_with(before, to, change);
        return members;
    }
    members
}

/// Data with a change to the list of this name.
pub fn data_with(stored: Value, to: &str, change: Change) -> Value
    requires { IfList to.now (IsReady change) stored }
    ensures { IsChangedAt (codes "query") (IsChangedAt to.now (IsChanged change)) stored result }
{
    match stored {
        Value::Object(members) => Value::Object(data_members_with(members, to, change)),
        other => other,
    }
}
