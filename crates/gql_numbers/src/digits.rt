//! Whole numbers of any size as lists of digits, the lowest first.
ghost use Rattle.std.specs.Prelude.{◌≡◌, ◌+◌, ◌*◌, ◌<◌, ◌≤◌, ◌^◌, IfOk, IsFalse, IsTrue, OnOk, length};
ghost use Rattle.std.specs.Int.Digits.{AllBelowBase};
ghost use Rattle.gql_numbers.specs.Decimals.{AreDigitsOf, value};

use std::alloc::{AllocError, Global};

/// Adds the digits of a number above these.
fn add_digits(number: u64, digits: &mut Vec<u8>) -> Result<(), AllocError>
    requires below { AllBelowBase 10 digits.old.items }
    ensures value { OnOk result (value digits.new.items
        ≡ value digits.old.items + 10 ^ length digits.old.items * number) }
    ensures below { OnOk result (AllBelowBase 10 digits.new.items) }
    ensures highest { OnOk result (0 < number
        → 10 ^ length digits.new.items ≤ 10 * (10 ^ length digits.old.items * number)) }
    ensures none { OnOk result (number ≡ 0 → digits.new.items ≡ digits.old.items) }
{
    let mut rest = number;
    while rest > 0 {
        digits.push((rest % 10) as u8)?;
        rest /= 10;
    }
    Ok(())
}

/// The digits of a number times a small one.
fn times(alloc: Global, digits: &[u8], factor: u64) -> Result<Vec<u8>, AllocError>
    requires digits { AreDigitsOf (value digits.now) digits.now }
    requires factor { (0 < factor) × (factor ≤ 2 ^ 40) }
    ensures { IfOk result (λ product. AreDigitsOf (value digits.now * factor) product.items) }
{
    let mut product = Vec::new(alloc);
    let mut carry = 0;
    for i in 0..digits.len() {
        let sum = digits[i] as u64 * factor + carry;
        product.push((sum % 10) as u8)?;
        carry = sum / 10;
    }
    add_digits(carry, &mut product)?;
    Ok(product)
}

/// The digits of a number times a power of a small one.
pub fn times_power(
    alloc: Global,
    digits: Vec<u8>,
    factor: u64,
    power: usize,
) -> Result<Vec<u8>, AllocError>
    requires digits { AreDigitsOf (value digits.items) digits.items }
    requires factor { (0 < factor) × (factor ≤ 2 ^ 40) }
    ensures { IfOk result (λ product.
        AreDigitsOf (value digits.items * factor ^ power) product.items) }
{
    let mut product = digits;
    for _ in 0..power {
        product = times(alloc, product.as_slice(), factor)?;
    }
    Ok(product)
}

/// The digits of a number that is not 0.
pub fn digits_of(alloc: Global, number: u64) -> Result<Vec<u8>, AllocError>
    requires { 0 < number }
    ensures { IfOk result (λ digits. AreDigitsOf number digits.items) }
{
    let mut digits = Vec::new(alloc);
    add_digits(number, &mut digits)?;
    Ok(digits)
}

/// The number that a few digits write.
pub fn number_of(digits: &[u8]) -> u64
    requires below { AllBelowBase 10 digits.now }
    requires few { length digits.now ≤ 17 }
    ensures { result ≡ value digits.now }
{
    match digits {
        [] => 0,
        [lowest, others @ ..] => number_of(others) * 10 + *lowest as u64,
    }
}

/// Whether digits write 0.
pub fn is_zero(digits: &[u8]) -> bool
    ensures none { IsTrue result → value digits.now ≡ 0 }
    ensures some { IsFalse result → 0 < value digits.now }
{
    for i in 0..digits.len() {
        if digits[i] != 0 {
            return false;
        }
    }
    true
}
