//! The digits of a double, all of them.
ghost use Rattle.std.specs.Prelude.{◌≡◌, ◌*◌, ◌<◌, ◌≤◌, ◌^◌, IfOk};
ghost use Rattle.gql_numbers.specs.Decimals.{AreDigitsOf, value};

use crate::digits::{digits_of, times_power};
use crate::parts::Parts;
use std::alloc::{AllocError, Global};

/// The digits of a number times a power of ten.
fn with_zeros(alloc: Global, count: usize, digits: &[u8]) -> Result<Vec<u8>, AllocError>
    requires digits { AreDigitsOf (value digits.now) digits.now }
    ensures { IfOk result (λ more. AreDigitsOf (value digits.now * 10 ^ count) more.items) }
{
    let mut more = Vec::new(alloc);
    for _ in 0..count {
        more.push(0)?;
    }
    more.extend_from_slice(digits)?;
    Ok(more)
}

/// The digits of a number times a power of five, 17 of them at once.
fn times_fives(alloc: Global, digits: Vec<u8>, power: usize) -> Result<Vec<u8>, AllocError>
    requires digits { AreDigitsOf (value digits.items) digits.items }
    ensures { IfOk result (λ product.
        AreDigitsOf (value digits.items * 5 ^ power) product.items) }
{
    let product = times_power(alloc, digits, 762_939_453_125, power / 17)?;
    times_power(alloc, product, 5, power % 17)
}

/// The digits of a number times a power of two, 40 of them at once.
fn times_twos(alloc: Global, digits: Vec<u8>, power: usize) -> Result<Vec<u8>, AllocError>
    requires digits { AreDigitsOf (value digits.items) digits.items }
    ensures { IfOk result (λ product.
        AreDigitsOf (value digits.items * 2 ^ power) product.items) }
{
    let product = times_power(alloc, digits, 1_099_511_627_776, power / 40)?;
    times_power(alloc, product, 2, power % 40)
}

/// The digits of a double times 10 ^ 1074, which is a whole number. The double is not 0.
pub fn exact_digits(alloc: Global, parts: Parts) -> Result<Vec<u8>, AllocError>
    requires { 0 < parts.significand }
    ensures { IfOk result (λ digits.
        AreDigitsOf (parts.significand * 2 ^ parts.shift * 5 ^ 1074) digits.items) }
{
    let digits = digits_of(alloc, parts.significand)?;
    if parts.shift < 1074 {
        let digits = times_fives(alloc, digits, 1074 - parts.shift)?;
        return with_zeros(alloc, parts.shift, digits.as_slice());
    }
    let digits = times_twos(alloc, digits, parts.shift - 1074)?;
    with_zeros(alloc, 1074, digits.as_slice())
}
