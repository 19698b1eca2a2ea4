//! Values whose numbers are integers.
ghost use Rattle.std.specs.Prelude.{◌≡◌};
ghost use Rattle.serde_json.specs.View.{items_view, members_view, view};
ghost use Rattle.gql_registry.specs.DataBodies as spec;

use serde_json::{Map, Value};

/// Whether every number in these items is an integer of 64 bits with a sign.
#[cycle(integers)]
fn items_have_integers(items: &[Value]) -> bool
    ensures { result ≡ spec.items_have_integers (items_view items.now) }
{
    for item in items {
        if !has_integers(item) {
            return false;
        }
    }
    true
}

/// Whether every number in these members is an integer of 64 bits with a sign.
#[cycle(integers)]
fn members_have_integers(members: &Map<String, Value>) -> bool
    ensures { result ≡ spec.members_have_integers (members_view members.now.entries) }
{
    for (_key, member) in members.iter() {
        if !has_integers(member) {
            return false;
        }
    }
    true
}

/// Whether every number in a value is an integer of 64 bits with a sign.
#[cycle(integers)]
pub fn has_integers(value: &Value) -> bool
    ensures { result ≡ spec.has_integers (view value.now) }
{
    match value {
        Value::Null => true,
        Value::Bool(_) => true,
        Value::Number(number) => number.is_i64(),
        Value::String(_) => true,
        Value::Array(items) => items_have_integers(items.as_slice()),
        Value::Object(members) => members_have_integers(members),
    }
}
