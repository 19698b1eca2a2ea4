//! The text of a double.
ghost use Rattle.std.specs.Prelude.{◌≡◌, ◌||◌, ◌++◌, ◌≤◌, ◌^◌, IfOk, IsTrue, OnOk, nat_eq};
ghost use Rattle.std.specs.Float.{float_is_finite};
ghost use Rattle.std.specs.Fmt.{sign_text};
ghost use Rattle.gql_numbers.specs.Decimals.{AreDigitsOf, value};
ghost use Rattle.gql_numbers.specs.Doubles as spec;

use crate::exact::exact_digits;
use crate::parts::parts_of;
use crate::reading::is_read_as;
use crate::rounding::leading;
use crate::writing::write_placed;
use std::alloc::{AllocError, Global};

/// 10 ^ count.
fn power_of_ten(count: usize) -> u64
    requires { count ≤ 17 }
    ensures { result ≡ 10 ^ count }
{
    let mut power = 1;
    for _ in 0..count {
        power *= 10;
    }
    power
}

/// Writes a minus if a number is negative.
fn write_sign(negative: bool, out: &mut Vec<u8>) -> Result<(), AllocError>
    ensures { OnOk result (out.new.items ≡ out.old.items ++ sign_text negative) }
{
    if negative {
        out.push(b'-')?;
    }
    Ok(())
}

/// The text of a double with so many digits. These are all its digits, times 10 ^ 1074.
fn text_with(
    alloc: Global,
    negative: bool,
    digits: &[u8],
    count: usize,
) -> Result<Vec<u8>, AllocError>
    requires digits { AreDigitsOf (value digits.now) digits.now }
    requires count { count ≤ 17 }
    ensures { IfOk result (λ text. text.items ≡ spec.text_with negative (value digits.now) count) }
{
    let mut text = Vec::new(alloc);
    write_sign(negative, &mut text)?;
    let number = leading(digits, count);
    write_placed(number, power_of_ten(count), digits.len(), &mut text)?;
    Ok(text)
}

/// Whether no more digits are tried: this text is read as the double, or has 17.
fn is_enough(text: &[u8], x: f64, count: usize) -> bool
    ensures { result ≡ (nat_eq count 17 || spec.reads_as x text.now) }
{
    count == 17 || is_read_as(text, x)
}

/// The text with the fewest digits, up to 17, that is read as the double.
fn shortest(alloc: Global, x: f64, negative: bool, digits: &[u8]) -> Result<Vec<u8>, AllocError>
    requires digits { AreDigitsOf (value digits.now) digits.now }
    ensures { IfOk result (λ text. text.items ≡ spec.fewest x negative (value digits.now)) }
{
    let mut count = 1;
    let mut text = text_with(alloc, negative, digits, count)?;
    'more: while !is_enough(text.as_slice(), x, count) {
        count += 1;
        text = text_with(alloc, negative, digits, count)?;
    }
    Ok(text)
}

/// Writes a finite double: with the fewest digits that are read back as it, and without an exponent
/// from 0.00001 up to below 10 ^ 16. `out` may hold a part of the text if the call fails.
pub fn write_double(alloc: Global, x: f64, out: &mut Vec<u8>) -> Result<(), AllocError>
    requires { IsTrue (float_is_finite x) }
    ensures { OnOk result (out.new.items ≡ out.old.items ++ spec.double_text x) }
{
    let parts = parts_of(x);
    if parts.significand == 0 {
        write_sign(parts.negative, out)?;
        out.extend_from_slice(b"0.0")?;
        return Ok(());
    }
    let digits = exact_digits(alloc, parts)?;
    let text = shortest(alloc, x, parts.negative, digits.as_slice())?;
    out.extend_from_slice(text.as_slice())?;
    Ok(())
}
