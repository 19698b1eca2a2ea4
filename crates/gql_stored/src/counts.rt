//! How many effects go to each list.
ghost use Rattle.std.specs.Prelude.{◌≡◌, ℕ, List, IfOk, bytes_eq, unwrap_or};
ghost use Rattle.std.specs.HashMap as hash;
ghost use Rattle.gql_stored.specs.Rooms.{count_to};

use crate::effect::Effect;
use std::alloc::{AllocError, Global};
use std::collections::HashMap;

/// How many of these effects go to the list of each name.
pub fn counts_of<'t>(
    alloc: Global,
    effects: &'t [Effect],
) -> Result<HashMap<&'t str, usize>, AllocError>
    ensures { IfOk result (λ counts. (to : List ℕ) →
        unwrap_or (hash.get_by (λ k. bytes_eq to k.now) counts) 0 ≡ count_to to effects.now) }
{
    let mut counts = HashMap::new(alloc);
    for effect in effects {
        let to = effect.to.as_str();
        let seen = counts.get(to).copied().unwrap_or(0);
        counts.insert(to, seen + 1)?;
    }
    Ok(counts)
}
