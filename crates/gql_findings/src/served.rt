//! Operations that are affected in one check, and served in another.

ghost use Rattle.std.specs.Prelude.{◌≡◌, ◌&&◌, not, IfOk};
ghost use Rattle.std.specs.HashSet.{contains};
ghost use Rattle.std.specs.List.{list_any};
ghost use Rattle.gql_findings.specs.Comparing as spec;
ghost use Rattle.gql_findings.specs.Keys.{marks_of, same_key};
ghost use Rattle.gql_findings.specs.Marks.{same_mark};
ghost use Rattle.gql_findings.specs.declared.marks.Key.{Key as TheKey};

use crate::finding::Findings;
use crate::marks::{Key, affected_keys, operation_keys};
use crate::pairing::push_if;
use std::alloc::{AllocError, Global};
use std::collections::HashSet;

/// The set of these keys.
fn set_of<'a>(alloc: Global, keys: &[Key<'a>]) -> Result<HashSet<Key<'a>>, AllocError>
    ensures { IfOk result (λ set. (q : TheKey)
        → contains same_key set q ≡ list_any (same_key q) keys.now) }
{
    let mut set = HashSet::new(alloc);
    for key in keys {
        set.insert(*key)?;
    }
    Ok(set)
}

/// Whether a key is among the operations, and not among the affected ones.
fn is_served<'a>(key: &Key<'a>, operations: &HashSet<Key<'a>>, affected: &HashSet<Key<'a>>) -> bool
    ensures { result ≡ contains same_key operations.now key.now
        && not (contains same_key affected.now key.now) }
{
    operations.contains(key) && !affected.contains(key)
}

/// The places of those of the keys that are among the operations, and not among the affected ones.
fn served<'a>(
    alloc: Global,
    keys: &[Key<'a>],
    operations: &[Key<'a>],
    affected: &[Key<'a>],
) -> Result<Vec<usize>, AllocError>
    ensures { IfOk result (λ places. places.items ≡ spec.places_from 0
        (λ i mark. list_any (same_mark mark) (marks_of operations.now)
        && not (list_any (same_mark mark) (marks_of affected.now))) (marks_of keys.now)) }
{
    let operation_set = set_of(alloc, operations)?;
    let affected_set = set_of(alloc, affected)?;
    let mut places = Vec::new(alloc);
    for (place, key) in keys.iter().enumerate() {
        let is_wanted = is_served(key, &operation_set, &affected_set);
        push_if(&mut places, place, is_wanted)?;
    }
    Ok(places)
}

/// The places of the operations that are affected here and served there.
pub fn newly_affected<'f>(
    alloc: Global,
    here: &'f Findings,
    there: &'f Findings,
) -> Result<Vec<usize>, AllocError>
    ensures { IfOk result (λ places. places.items ≡ spec.newly_affected here.now there.now) }
{
    if here.schema_is_faulty || there.schema_is_faulty {
        return Ok(Vec::new(alloc));
    }
    let keys = affected_keys(alloc, here)?;
    let operations = operation_keys(alloc, there)?;
    let affected = affected_keys(alloc, there)?;
    served(
        alloc,
        keys.as_slice(),
        operations.as_slice(),
        affected.as_slice(),
    )
}
