//! Lists in the data.
ghost use Rattle.std.specs.Prelude.{◌≡◌, option_map, is_some};
ghost use Rattle.serde_json.specs.View.{view};
ghost use Rattle.gql_stored.specs.Changes.{member_of, list_of};
ghost use Rattle.gql_stored.specs.Effects.{list_named};

use serde_json::Value;

/// The member of this name, if a value is an object that has one.
fn member<'v>(value: &'v Value, name: &str) -> Option<&'v Value>
    ensures { option_map (λ v. v.now) result ≡ member_of name.now value.now }
{
    match value {
        Value::Object(members) => members.get(name),
        _ => None,
    }
}

/// The list of this name, if the data have one.
pub fn list<'v>(stored: &'v Value, name: &str) -> Option<&'v Vec<Value>>
    ensures { option_map (λ v. v.now) result ≡ list_of name.now stored.now }
{
    let query = member(stored, "query")?;
    match member(query, name)? {
        Value::Array(items) => Some(items),
        _ => None,
    }
}

/// Whether the data have a list of this name.
#[tactic(auto, using(crate::proofs::Looking::list_is_there))]
pub fn has_list(stored: &Value, name: &str) -> bool
    ensures { result ≡ is_some (list_named name.now (view stored.now)) }
{
    list(stored, name).is_some()
}
