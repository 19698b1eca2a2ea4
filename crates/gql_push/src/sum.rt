//! The sum of a file, by which a change is seen.
ghost use Rattle.std.specs.Prelude.{◌≡◌, ◌<◌, ◌++◌, [], ◌∷◌, IfOk, OnOk, string_bytes};
ghost use Rattle.gql_push.specs.Sums as sums;

use sha2::{Digest, Sha256};
use std::alloc::{AllocError, Global};

/// The digit of a number below 16.
fn digit_of(number: u8) -> char
    requires { number < 16 }
    ensures { result ≡ sums.digit_of number }
{
    if number < 10 {
        char::from(b'0' + number)
    } else {
        char::from(b'a' + (number - 10))
    }
}

/// Adds the two digits of a byte.
fn add_digits(sum: &mut String, byte: u8) -> Result<(), AllocError>
    ensures { OnOk result (string_bytes sum.new ≡ string_bytes sum.old ++ sums.hex_of (byte ∷ [])) }
{
    sum.push(digit_of(byte / 16))?;
    sum.push(digit_of(byte % 16))
}

/// The SHA-256 of these bytes, in hexadecimal digits.
pub fn sum_of(alloc: Global, bytes: &[u8]) -> Result<String, AllocError>
    ensures { IfOk result (λ sum. string_bytes sum ≡ sums.sum_at bytes.now) }
{
    let mut hasher = Sha256::new();
    hasher.update(bytes);
    let digest = hasher.finalize();
    let mut sum = String::new(alloc);
    for byte in digest {
        add_digits(&mut sum, byte)?;
    }
    Ok(sum)
}
