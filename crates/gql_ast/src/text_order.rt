//! The order of texts by their bytes.
ghost use Rattle.std.specs.Prelude.{◌≡◌};
ghost use Rattle.std.specs.Ordering.{nat_cmp};
ghost use Rattle.std.specs.Cmp.Lexicographic.{slice_cmp};

use std::cmp::Ordering;

/// The order of two texts by their bytes. Most names that are compared differ in one of the first
/// few.
pub fn order(text: &[u8], other: &[u8]) -> Ordering
    ensures { result ≡ slice_cmp nat_cmp text.now other.now }
{
    let both = text.len().min(other.len());
    let mut place = 0;
    'bytes: while place < both {
        if text[place] != other[place] {
            return text[place].cmp(&other[place]);
        }
        place += 1;
    }
    text.len().cmp(&other.len())
}
