//! The place after a whole text, without a walk from place to place.

ghost use Rattle.std.specs.Prelude.{◌≡◌, ◌≤◌, ◌==◌, length, reverse};
ghost use Rattle.std.specs.List.{count_by};
ghost use Rattle.gql_text.specs.Place.{place_after, line_behind, column_behind};

use crate::place::{Place, START, past};

/// How many bytes are counted at a time, in a number of 8 bits.
const STRETCH: usize = 192;

/// How often a byte occurs in a stretch of a text.
fn count_in(stretch: &[u8], wanted: u8) -> u8
    requires { length stretch.now ≤ 192 }
    ensures { result ≡ count_by (λ b. b == wanted) stretch.now }
{
    let mut count: u8 = 0;
    for byte in stretch {
        if *byte == wanted {
            count += 1;
        }
    }
    count
}

/// How often a byte occurs in a text.
fn count_of(source: &[u8], wanted: u8) -> usize
    requires { length source.now ≤ 16777216 }
    ensures { result ≡ count_by (λ b. b == wanted) source.now }
{
    let mut total = 0;
    let mut start = 0;
    'stretches: while start + STRETCH < source.len() {
        total += usize::from(count_in(&source[start..start + STRETCH], wanted));
        start += STRETCH;
    }
    total + usize::from(count_in(&source[start..], wanted))
}

/// The column after a whole text: the characters since the last line end, plus one.
fn last_column(source: &[u8]) -> usize
    requires { length source.now ≤ 16777216 }
    ensures { result ≡ column_behind (reverse source.now) }
{
    let mut column = 1;
    let mut left = source.len();
    'bytes: while left > 0 {
        let byte = source[left - 1];
        if byte == b'\n' || byte == b'\r' {
            return column;
        }
        if byte < 128 || byte >= 192 {
            column += 1;
        }
        left -= 1;
    }
    column
}

/// The place after a whole text. Where LF alone ends lines they are counted.
pub fn place_at_end(source: &[u8]) -> Place
    requires { length source.now ≤ 16777216 }
    ensures { result ≡ place_after source.now }
{
    if count_of(source, b'\r') > 0 {
        return past(source, START, source.len());
    }
    Place {
        line: 1 + count_of(source, b'\n'),
        column: last_column(source),
        offset: source.len(),
    }
}
