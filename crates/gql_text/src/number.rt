//! The numbers at the front of a text (GraphQL specification, 2.9.1 and 2.9.2).

ghost use Rattle.std.specs.Prelude.{◌≡◌, ◌+◌, ◌<◌, ◌≤◌, length};
ghost use Rattle.std.specs.List.{prefix_len};
ghost use Rattle.std.specs.Char.{is_ascii_digit};
ghost use Rattle.gql_text.specs.Number.{number_end, exponent_digits, exponent_part, fraction_digits, fraction_part, number_part, sign_len};

use crate::front::{Part, continues_name};
use crate::token::{Kind, LexRefusal};

fn digits_len(bytes: &[u8]) -> usize
    ensures value { result ≡ prefix_len is_ascii_digit bytes.now }
    ensures short { result ≤ length bytes.now }
{
    bytes
        .iter()
        .take_while(|byte| byte.is_ascii_digit())
        .count()
}

/// The length of the sign of an exponent: 0 or 1.
fn sign_length(bytes: &[u8]) -> usize
    ensures value { result ≡ sign_len bytes.now }
    ensures short { result ≤ length bytes.now }
{
    match bytes {
        [b'+' | b'-', ..] => 1,
        _ => 0,
    }
}

/// A number of that length, unless what follows would continue it.
fn end(kind: Kind, len: usize, rest: &[u8]) -> Part
    ensures { result ≡ number_end kind len rest.now }
{
    match rest {
        [next, ..] if *next == b'.' || continues_name(*next) => {
            Part::Refused(LexRefusal::BadNumber, 0)
        }
        _ => Part::Taken(kind, len),
    }
}

/// The digits of an exponent, with this many bytes of the number before them.
#[tactic(auto, unfolding(crate::specs::Number::exponent_digits))]
fn exponent_end(len: usize, bytes: &[u8]) -> Part
    requires { len + length bytes.now ≤ 16777217 }
    ensures { result ≡ exponent_digits len bytes.now }
{
    let digits = digits_len(bytes);
    if digits == 0 {
        Part::Refused(LexRefusal::BadNumber, 0)
    } else {
        end(Kind::FloatValue, len + digits, &bytes[digits..])
    }
}

/// The exponent that may follow a number, with this many bytes of the number before it.
#[tactic(auto, unfolding(crate::specs::Number::exponent_part))]
fn exponent(kind: Kind, len: usize, bytes: &[u8]) -> Part
    requires { len + length bytes.now ≤ 16777217 }
    ensures { result ≡ exponent_part kind len bytes.now }
{
    let Some((first, behind)) = bytes.split_first() else {
        return end(kind, len, bytes);
    };
    if *first == b'e' || *first == b'E' {
        let sign = sign_length(behind);
        exponent_end(len + 1 + sign, &behind[sign..])
    } else {
        end(kind, len, bytes)
    }
}

/// The digits of a fraction, with this many bytes of the number before them.
#[tactic(auto, unfolding(crate::specs::Number::fraction_digits))]
fn fraction_end(len: usize, bytes: &[u8]) -> Part
    requires { len + length bytes.now ≤ 16777217 }
    ensures { result ≡ fraction_digits len bytes.now }
{
    let digits = digits_len(bytes);
    if digits == 0 {
        Part::Refused(LexRefusal::BadNumber, 0)
    } else {
        exponent(Kind::FloatValue, len + digits, &bytes[digits..])
    }
}

/// The fraction or exponent that may follow an integer part of this many bytes.
#[tactic(auto, unfolding(crate::specs::Number::fraction_part))]
fn fraction(len: usize, bytes: &[u8]) -> Part
    requires { len + length bytes.now ≤ 16777217 }
    ensures { result ≡ fraction_part len bytes.now }
{
    let Some((first, behind)) = bytes.split_first() else {
        return exponent(Kind::IntValue, len, bytes);
    };
    if *first == b'.' {
        fraction_end(len + 1, behind)
    } else {
        exponent(Kind::IntValue, len, bytes)
    }
}

/// The number whose digits these are, with this many bytes of it before them.
#[tactic(auto, unfolding(crate::specs::Number::number_part))]
pub fn number(len: usize, bytes: &[u8]) -> Part
    requires { len + length bytes.now ≤ 16777217 }
    ensures { result ≡ number_part len bytes.now }
{
    let Some((first, behind)) = bytes.split_first() else {
        return Part::Refused(LexRefusal::BadNumber, 0);
    };
    if *first == b'0' {
        fraction(len + 1, behind)
    } else if first.is_ascii_digit() {
        let more = digits_len(behind);
        fraction(len + 1 + more, &behind[more..])
    } else {
        Part::Refused(LexRefusal::BadNumber, 0)
    }
}
