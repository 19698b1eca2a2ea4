//! Equal keys of two lists, paired.

ghost use Rattle.std.specs.Prelude.{◌≡◌, ℕ, ◌-◌, ◌++◌, ◌∷◌, [], if◌then◌else◌, count_by, nat_lt, unwrap_or, IfOk, OnOk};
ghost use Rattle.std.specs.HashMap.{get};
ghost use Rattle.gql_findings.specs.Comparing.{unpaired};
ghost use Rattle.gql_findings.specs.Keys.{marks_of, same_key};
ghost use Rattle.gql_findings.specs.declared.marks.Key.{Key as TheKey};

use crate::marks::Key;
use std::alloc::{AllocError, Global};
use std::collections::HashMap;

/// How often each key is in the list.
fn counts<'a>(alloc: Global, keys: &[Key<'a>]) -> Result<HashMap<Key<'a>, usize>, AllocError>
    ensures { IfOk result (λ m. (q : TheKey) → unwrap_or (get same_key m q) 0
        ≡ count_by (same_key q) keys.now) }
{
    let mut counts = HashMap::new(alloc);
    for key in keys {
        let count = counts.get(key).copied().unwrap_or(0);
        counts.insert(*key, count + 1)?;
    }
    Ok(counts)
}

/// Takes one of the key's count, and says whether there was one.
fn take_one<'a>(left: &mut HashMap<Key<'a>, usize>, key: &Key<'a>) -> Result<bool, AllocError>
    ensures was { IfOk result (λ was. was
        ≡ nat_lt 0 (unwrap_or (get same_key left.old key.now) 0)) }
    ensures left { OnOk result ((q : TheKey) → unwrap_or (get same_key left.new q) 0
        ≡ unwrap_or (get same_key left.old q) 0 - (if same_key key.now q then 1 else 0)) }
{
    let count = left.get(key).copied().unwrap_or(0);
    if count == 0 {
        return Ok(false);
    }
    left.insert(*key, count - 1)?;
    Ok(true)
}

/// Adds a place, if it is wanted.
pub fn push_if(places: &mut Vec<usize>, place: usize, wanted: bool) -> Result<(), AllocError>
    ensures { OnOk result (places.new.items
        ≡ places.old.items ++ (if wanted then place ∷ [] else [])) }
{
    if wanted {
        places.push(place)?;
    }
    Ok(())
}

/// The places of the keys that have no partner among the others.
pub fn unpaired<'a>(
    alloc: Global,
    keys: &[Key<'a>],
    others: &[Key<'a>],
) -> Result<Vec<usize>, AllocError>
    ensures { IfOk result (λ places. places.items
        ≡ unpaired (marks_of keys.now) (marks_of others.now)) }
{
    let mut left = counts(alloc, others)?;
    let mut places = Vec::new(alloc);
    for (place, key) in keys.iter().enumerate() {
        let is_paired = take_one(&mut left, key)?;
        push_if(&mut places, place, !is_paired)?;
    }
    Ok(places)
}
