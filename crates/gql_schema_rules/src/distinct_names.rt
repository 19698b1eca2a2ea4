//! Whether names are distinct, as those of a schema mostly are.
ghost use Rattle.std.specs.Prelude.{◌≤◌, ℕ, List, IfOk, IsTrue, map};
ghost use Rattle.gql_faults.specs.Names.{count_of};
ghost use Rattle.gql_faults.specs.Places.{named};

use gql_faults::NamePlace;
use std::alloc::{AllocError, Global};
use std::collections::HashMap;

/// Whether no text occurs more than once among these names.
pub fn are_distinct(alloc: Global, names: &[NamePlace<'_>]) -> Result<bool, AllocError>
    ensures { IfOk result (λ are_distinct. IsTrue are_distinct → (q : List ℕ)
        → count_of q (map named names.now) ≤ 1) }
{
    let mut seen = HashMap::with_capacity(alloc, names.len())?;
    for name in names {
        if seen.insert(name.name.as_str(), ())?.is_some() {
            return Ok(false);
        }
    }
    Ok(true)
}
