//! A segment tree over numbers, and the segments that cover a range.
//!
//! Over `count` numbers, the segment of the number n is `count + n`. Below a segment v that is less
//! than `count` are the segments `2 * v` and `2 * v + 1`.
ghost use Rattle.std.specs.Prelude.{◌≡◌, ◌<◌, ◌*◌, ◌^◌, ◌++◌, ◌↔◌, ◌⊎◌, ℕ, IfOk, OnOk, Contains};
ghost use Rattle.gql_cycles.specs.Cover.{IsAbove, IsWithin, IsWithinAny, if_odd};

use std::alloc::{AllocError, Global};

/// The numbers from `start` to before `end`.
#[derive(Clone, Copy)]
pub struct Range {
    pub start: usize,
    pub end: usize,
}

/// Adds a segment if the number is odd.
fn add_if_odd(number: usize, segment: usize, segments: &mut Vec<usize>) -> Result<(), AllocError>
    ensures { OnOk result (segments.new.items ≡ segments.old.items ++ if_odd number segment) }
{
    if number % 2 == 1 {
        segments.push(segment)?;
    }
    Ok(())
}

/// Adds the segments that cover a range of the numbers.
fn add_cover(count: usize, range: &Range, segments: &mut Vec<usize>) -> Result<(), AllocError>
    requires { 2 * count < 2 ^ 64 }
    ensures within { OnOk result ((v : ℕ) → Contains segments.new.items v
        → Contains segments.old.items v ⊎ (v < 2 * count)) }
    ensures above { OnOk result ((p : ℕ) → IsAbove count segments.new.items p
        ↔ (IsAbove count segments.old.items p ⊎ ((p < count) × IsWithin range.now p))) }
{
    let mut left = count + range.start.min(count);
    let mut right = count + range.end.min(count);
    'levels: while left < right {
        add_if_odd(left, left, segments)?;
        add_if_odd(right, right - 1, segments)?;
        left = (left + 1) / 2;
        right /= 2;
    }
    Ok(())
}

/// The segments that cover these ranges of the numbers.
pub fn cover(alloc: Global, count: usize, ranges: &[Range]) -> Result<Vec<usize>, AllocError>
    requires { 2 * count < 2 ^ 64 }
    ensures within { IfOk result (λ segments. (v : ℕ) → Contains segments.items v → v < 2 * count) }
    ensures above { IfOk result
        (λ segments. (p : ℕ) → IsAbove count segments.items p
        ↔ ((p < count) × IsWithinAny ranges.now p)) }
{
    let mut segments = Vec::new(alloc);
    for range in ranges {
        add_cover(count, range, &mut segments)?;
    }
    Ok(segments)
}
