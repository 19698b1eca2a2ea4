//! How deep a value nests.
ghost use Rattle.std.specs.Prelude.{◌≡◌, nat_le};
ghost use Rattle.serde_json.specs.Data.{depth, items_depth, members_depth};
ghost use Rattle.serde_json.specs.View.{items_view, members_view, view};

use serde_json::{Map, Value};

/// Whether each of these items nests at most so many levels deep.
#[cycle(depth)]
#[tactic(auto, using(crate::proofs::Depths::both_within))]
fn items_nest_within(items: &[Value], levels: usize) -> bool
    ensures { result ≡ nat_le (items_depth (items_view items.now)) levels }
{
    for item in items {
        if !nests_within(item, levels) {
            return false;
        }
    }
    true
}

/// Whether each of these members nests at most so many levels deep.
#[cycle(depth)]
#[tactic(auto, using(crate::proofs::Depths::both_within))]
fn members_nest_within(members: &Map<String, Value>, levels: usize) -> bool
    ensures { result ≡ nat_le (members_depth (members_view members.now.entries)) levels }
{
    for (_key, member) in members.iter() {
        if !nests_within(member, levels) {
            return false;
        }
    }
    true
}

/// Whether arrays and objects nest at most so many levels deep in a value.
#[cycle(depth)]
#[tactic(auto, using(crate::proofs::Depths::both_within))]
pub(crate) fn nests_within(value: &Value, levels: usize) -> bool
    ensures { result ≡ nat_le (depth (view value.now)) levels }
{
    match value {
        Value::Null => true,
        Value::Bool(_) => true,
        Value::Number(_) => true,
        Value::String(_) => true,
        Value::Array(items) => levels > 0 && items_nest_within(items.as_slice(), levels - 1),
        Value::Object(members) => levels > 0 && members_nest_within(members, levels - 1),
    }
}
