//! Changes to the items of a list. They take no memory.
ghost use Rattle.std.specs.Prelude.{◌≡◌, ◌+◌, ◌<◌, ◌≤◌, ◌++◌, ◌∷◌, [], vec_len, vec_capacity};

use gql_coerce::CoercedValue;
use serde_json::Value;

/// The items, and a value after them.
pub fn with_end(items: Vec<Value>, value: CoercedValue) -> Vec<Value>
    requires { vec_len items < vec_capacity items }
    ensures items { result.items ≡ items.items ++ value ∷ [] }
    ensures len { vec_len result ≡ vec_len items + 1 }
    ensures capacity { vec_capacity result ≡ vec_capacity items }
{
    let mut items = items;
    items.push_reserved(value.into_value());
    items
}

/// The items, in this buffer if it is larger than theirs.
pub fn within(items: Vec<Value>, buffer: Vec<Value>) -> Vec<Value>
    requires { buffer.items ≡ [] }
    ensures items { result.items ≡ items.items }
    ensures len { vec_len result ≡ vec_len items }
    ensures own { vec_capacity items ≤ vec_capacity result }
    ensures other { vec_capacity buffer ≤ vec_capacity result }
{
    if buffer.capacity() <= items.capacity() {
        return items;
    }
    let mut items = items;
    let mut buffer = buffer;
    match buffer.append(&mut items) {
        Ok(()) => buffer,
        // there is room
        Err(_) => items,
    }
}
