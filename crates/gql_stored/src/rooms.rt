//! Memory for the lists that effects go to.
ghost use Rattle.std.specs.Prelude.{◌≡◌, ◌+◌, ◌≤◌, ℕ, List, [], IfOk, OnOk, bytes_eq, unwrap_or, vec_len, vec_capacity};
ghost use Rattle.std.specs.HashMap as hash;
ghost use Rattle.std.specs.List.{AllByRecursion};
ghost use Rattle.gql_stored.specs.Rooms.{IsEmptyRoom, IsCovered, count_to};

use crate::additions::Room;
use crate::counts::counts_of;
use crate::effect::Effect;
use crate::lists::list;
use serde_json::Value;
use std::alloc::{AllocError, Global};
use std::collections::HashMap;

/// A buffer for these items and so many more, and for as many again as there are items. So the items
/// move seldom, if one is added at a time.
fn buffer_for(alloc: Global, items: &Vec<Value>, count: usize) -> Result<Vec<Value>, AllocError>
    ensures is_empty { IfOk result (λ buffer. buffer.items ≡ []) }
    ensures has_room { IfOk result (λ buffer. vec_len items.now + count ≤ vec_capacity buffer) }
{
    let Some(least) = items.len().checked_add(count) else {
        return Err(AllocError);
    };
    Vec::with_capacity(alloc, least.saturating_add(items.len()))
}

/// Adds a room for the list of this name, if it does not take so many more items as it is.
fn add_room(
    alloc: Global,
    stored: &Value,
    to: &str,
    count: usize,
    rooms: &mut Vec<Room>,
) -> Result<(), AllocError>
    ensures are_empty { OnOk result (AllByRecursion IsEmptyRoom rooms.old.items
        → AllByRecursion IsEmptyRoom rooms.new.items) }
    ensures is_covered { OnOk result (IsCovered stored.now rooms.new.items to.now count) }
    ensures stay_covered { OnOk result ((q : List ℕ) (n : ℕ)
        → IsCovered stored.now rooms.old.items q n → IsCovered stored.now rooms.new.items q n) }
{
    let Some(items) = list(stored, to) else {
        return Ok(());
    };
    if count <= items.capacity() - items.len() {
        return Ok(());
    }
    let buffer = buffer_for(alloc, items, count)?;
    let to = String::from_str(alloc, to)?;
    rooms.push(Room { to, buffer })?;
    Ok(())
}

/// Rooms for so many more items in the list of each name.
fn rooms_by(
    alloc: Global,
    stored: &Value,
    counts: &HashMap<&str, usize>,
) -> Result<Vec<Room>, AllocError>
    ensures are_empty { IfOk result (λ rooms. AllByRecursion IsEmptyRoom rooms.items) }
    ensures are_covered { IfOk result (λ rooms. (to : List ℕ) → IsCovered stored.now rooms.items to
        (unwrap_or (hash.get_by (λ k. bytes_eq to k.now) counts.now) 0)) }
{
    let mut rooms = Vec::new(alloc);
    for (to, count) in counts {
        add_room(alloc, stored, *to, *count, &mut rooms)?;
    }
    Ok(rooms)
}

/// Rooms for these effects.
pub fn rooms_for(alloc: Global, stored: &Value, effects: &[Effect]) -> Result<Vec<Room>, AllocError>
    ensures are_empty { IfOk result (λ rooms. AllByRecursion IsEmptyRoom rooms.items) }
    ensures are_covered { IfOk result (λ rooms. (to : List ℕ)
        → IsCovered stored.now rooms.items to (count_to to effects.now)) }
{
    let counts = counts_of(alloc, effects)?;
    let rooms = rooms_by(alloc, stored, &counts)?;
    Ok(rooms)
}
