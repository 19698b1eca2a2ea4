//! The first digits of a number, rounded.
ghost use Rattle.std.specs.Prelude.{◌≡◌, ◌+◌, ◌*◌, ◌<◌, ◌≤◌, ◌^◌, length, if◌then◌else◌};
ghost use Rattle.std.specs.Int.Digits.{AllBelowBase};
ghost use Rattle.gql_numbers.specs.Decimals.{AreDigitsOf, value};
ghost use Rattle.gql_numbers.specs.Doubles as spec;

use crate::digits::{is_zero, number_of};

/// Whether a number is rounded up, if these digits below it are cut off: of two numbers that are
/// equally near, the even one is taken.
fn rounds_up(cut: &[u8], number: u64) -> bool
    requires below { AllBelowBase 10 cut.now }
    ensures { number + (if result then 1 else 0)
        ≡ spec.rounded_by number (2 * value cut.now) (10 ^ length cut.now) }
{
    match cut {
        [] => false,
        [lower @ .., highest] => {
            if *highest == 5 {
                !is_zero(lower) || number % 2 == 1
            } else {
                *highest > 5
            }
        }
    }
}

/// The first digits of a number, so many, rounded.
pub fn leading(digits: &[u8], count: usize) -> u64
    requires digits { AreDigitsOf (value digits.now) digits.now }
    requires count { count ≤ 17 }
    ensures { result ≡ spec.leading count (value digits.now) }
{
    let cut = digits.len().saturating_sub(count);
    let number = number_of(&digits[cut..]);
    if rounds_up(&digits[..cut], number) {
        number + 1
    } else {
        number
    }
}
