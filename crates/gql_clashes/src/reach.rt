//! The bodies that one body spreads, again and again.
ghost use Rattle.std.specs.Prelude.{◌≡◌, ◌<◌, ℕ, length, Contains, IfOk};
ghost use Rattle.gql_clashes.specs.Numbered.{IsWhole, Lists};
ghost use Rattle.gql_clashes.specs.Reach.{IsClosed, IsReach, IsSpreadBy};
ghost use Rattle.gql_clashes.specs.Seen.{rows_of};

use crate::compare::spreads_of;
use crate::search::starts_of;
use crate::seen::{Seen, mark, nothing_seen};
use crate::sets::Sets;
use std::alloc::{AllocError, Global};

/// A body and those that it spreads, in any number of steps, but for those that were seen. What
/// was seen spreads nothing else. Afterwards all of them are seen.
pub fn reach(
    alloc: Global,
    sets: &Sets,
    body: usize,
    seen: &mut Seen,
) -> Result<Vec<usize>, AllocError>
    requires whole { IsWhole sets.now }
    requires body { body < length sets.now.bodies.items }
    requires count { seen.old.count ≡ length sets.now.bodies.items }
    requires closed { IsClosed sets.now (rows_of seen.old) }
    ensures count { seen.new.count ≡ length sets.now.bodies.items }
    ensures reach { IfOk result
        (λ found. IsReach sets.now body (rows_of seen.old) (rows_of seen.new) found.items) }
{
    let mut first = Vec::new(alloc);
    first.push(body)?;
    let starts = starts_of(alloc, &first)?;
    let mut todo = Vec::new(alloc);
    mark(&starts, seen, &mut todo)?;
    let mut found = Vec::new(alloc);
    while let Some(item) = todo.pop() {
        found.push(item.left)?;
        let asked = starts_of(alloc, spreads_of(sets, item.left))?;
        mark(&asked, seen, &mut todo)?;
    }
    Ok(found)
}

/// The bodies that these bodies spread, in any number of steps, themselves among them.
pub fn spread_bodies(alloc: Global, sets: &Sets, bodies: &[usize]) -> Result<Vec<usize>, AllocError>
    requires whole { IsWhole sets.now }
    requires bodies { (s : ℕ) → Contains bodies.now s → s < length sets.now.bodies.items }
    ensures { IfOk result (λ found. Lists found.items (IsSpreadBy sets.now bodies.now)) }
{
    let mut seen = nothing_seen(alloc, sets.bodies.len());
    let mut found = Vec::new(alloc);
    for body in bodies {
        let mut new = reach(alloc, sets, *body, &mut seen)?;
        found.append(&mut new)?;
    }
    Ok(found)
}
