//! All things of each name.

ghost use Rattle.std.specs.Prelude.{◌≡◌, ℕ, List, [], IfOk, map, filter, bytes_eq};
ghost use Rattle.std.specs.Option.{option_map_or};
ghost use Rattle.std.specs.HashMap as hash;

use crate::named::HasName;
use std::alloc::{AllocError, Global};
use std::collections::HashMap;

/// Things by their names, those of a name in their order.
pub type ByName<'s, T> = HashMap<String, Vec<&'s T>>;

/// All things by their names.
pub fn by_name<'s, T: HasName>(alloc: Global, things: &'s [T]) -> Result<ByName<'s, T>, AllocError>
    ensures { IfOk result (λ groups.
        (q : List ℕ)
        → option_map_or (λ group. map (λ x. x.now) group.items) (hash.get_by_text groups q) []
        ≡ filter (λ x. bytes_eq q (T.name x)) things.now) }
{
    let mut groups: ByName<'s, T> = HashMap::new(alloc);
    for thing in things {
        let name = String::from_str(alloc, thing.name())?;
        groups.entry(name)?.or_default().push(thing)?;
    }
    Ok(groups)
}
