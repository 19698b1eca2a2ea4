//! The layout of digits.
ghost use Rattle.std.specs.Prelude.{ℕ, ◌≡◌, ◌++◌, ◌<◌, ◌-◌, ◌^◌, OnOk, replicate};
ghost use Rattle.gql_numbers.specs.Doubles as spec;

use itoa::Buffer;
use std::alloc::AllocError;

/// Writes zeros.
fn write_zeros(count: usize, out: &mut Vec<u8>) -> Result<(), AllocError>
    ensures { OnOk result (out.new.items ≡ out.old.items ++ replicate count 48) }
{
    for _ in 0..count {
        out.push(b'0')?;
    }
    Ok(())
}

/// Writes digits without an exponent.
fn write_plain(digits: &[u8], power: usize, out: &mut Vec<u8>) -> Result<(), AllocError>
    ensures { OnOk result (out.new.items ≡ out.old.items ++ spec.plain digits.now power) }
{
    if power < 1074 {
        out.extend_from_slice(b"0.")?;
        write_zeros(1073 - power, out)?;
        out.extend_from_slice(digits)?;
        return Ok(());
    }
    let whole = power - 1073;
    if whole < digits.len() {
        out.extend_from_slice(&digits[..whole])?;
        out.extend_from_slice(b".")?;
        out.extend_from_slice(&digits[whole..])?;
        return Ok(());
    }
    out.extend_from_slice(digits)?;
    write_zeros(whole - digits.len(), out)?;
    out.extend_from_slice(b".0")?;
    Ok(())
}

/// Writes one digit, and the others after a point, if there are any.
fn write_with_point(digits: &[u8], out: &mut Vec<u8>) -> Result<(), AllocError>
    ensures { OnOk result (out.new.items ≡ out.old.items ++ spec.with_point digits.now) }
{
    match digits {
        [] => Ok(()),
        [digit] => {
            out.push(*digit)?;
            Ok(())
        }
        [digit, others @ ..] => {
            out.push(*digit)?;
            out.extend_from_slice(b".")?;
            out.extend_from_slice(others)?;
            Ok(())
        }
    }
}

/// Writes digits with an exponent.
fn write_scientific(digits: &[u8], power: usize, out: &mut Vec<u8>) -> Result<(), AllocError>
    ensures { OnOk result (out.new.items ≡ out.old.items ++ spec.scientific digits.now power) }
{
    write_with_point(digits, out)?;
    let mut buffer = Buffer::new();
    if power < 1074 {
        out.extend_from_slice(b"e-")?;
        out.extend_from_slice(buffer.format(1074 - power).as_bytes())?;
    } else {
        out.extend_from_slice(b"e+")?;
        out.extend_from_slice(buffer.format(power - 1074).as_bytes())?;
    }
    Ok(())
}

/// Writes digits of which the first is worth 10 ^ (power - 1074).
pub fn write_laid_out(digits: &[u8], power: usize, out: &mut Vec<u8>) -> Result<(), AllocError>
    ensures { OnOk result (out.new.items ≡ out.old.items ++ spec.laid_out digits.now power) }
{
    if 1069 <= power && power < 1090 {
        write_plain(digits, power, out)
    } else {
        write_scientific(digits, power, out)
    }
}

/// Writes a number of `count` digits, or 10 ^ count, as the first digits of a number of so many.
pub fn write_placed(
    number: u64,
    one_more: u64,
    size: usize,
    out: &mut Vec<u8>,
) -> Result<(), AllocError>
    requires { 0 < size }
    ensures { (n : ℕ) → one_more ≡ 10 ^ n
        → OnOk result (out.new.items ≡ out.old.items ++ spec.placed number n (size - 1)) }
{
    if number == one_more {
        return write_laid_out(b"1", size, out);
    }
    let mut buffer = Buffer::new();
    write_laid_out(buffer.format(number).as_bytes(), size - 1, out)
}
