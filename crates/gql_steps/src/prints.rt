//! Prints of values: numbers by which most values that differ are told apart. Values that are the
//! same have the same print.
ghost use Rattle.std.specs.Prelude.{◌≡◌};
ghost use Rattle.serde_json.specs.Find.{to_float};
ghost use Rattle.serde_json.specs.View.{number_view, view};
ghost use Rattle.gql_steps.specs.Columns as spec;
ghost use Rattle.gql_steps.specs.Resolution.{member_or_null};

use serde_json::{Number, Value};
use std::num::f64_to_bits_with_nan;

/// An odd number, by which prints are multiplied.
const FACTOR: u64 = 1_099_511_628_211;

/// These prints are no finite double's.
const NULL_PRINT: u64 = u64::MAX;

const TRUE_PRINT: u64 = u64::MAX - 1;

const FALSE_PRINT: u64 = u64::MAX - 2;

/// The print of lists and objects.
const OTHER_PRINT: u64 = u64::MAX - 3;

/// A print, with one more byte in it.
#[tactic(auto, unfolding(crate::specs::Columns::mixed))]
pub fn mixed(print: u64, byte: u8) -> u64
    ensures { result ≡ spec.mixed print byte }
{
    print.wrapping_mul(FACTOR).wrapping_add(u64::from(byte))
}

/// The print of a text.
fn print_of_text(text: &str) -> u64
    ensures { result ≡ spec.print_of_text text.now }
{
    let mut print = text.len() as u64;
    for byte in text.as_bytes() {
        print = mixed(print, *byte);
    }
    print
}

/// The double nearest to a number.
pub fn real_of(number: &Number) -> f64
    ensures { result ≡ to_float (number_view number.now) }
{
    match number.as_f64() {
        Some(x) => x,
        None => 0.0,
    }
}

/// The print of a double: its bits, and those of 0 for -0.
fn print_of_real(x: f64) -> u64
    ensures { result ≡ spec.print_of_real x }
{
    let bits = f64_to_bits_with_nan(x);
    if bits == 0x8000_0000_0000_0000 {
        0
    } else {
        bits
    }
}

/// The print of a value.
pub fn print_of(value: &Value) -> u64
    ensures { result ≡ spec.print_of (view value.now) }
{
    match value {
        Value::Null => NULL_PRINT,
        Value::Bool(truth) => { if *truth { TRUE_PRINT } else { FALSE_PRINT } }
        Value::Number(number) => print_of_real(real_of(number)),
        Value::String(text) => print_of_text(text.as_str()),
        Value::Array(_) => OTHER_PRINT,
        Value::Object(_) => OTHER_PRINT,
    }
}

/// The print of a member; that of null, if it is missing.
pub fn print_of_member(object: &Value, name: &str) -> u64
    ensures { result ≡ spec.print_of (member_or_null name.now (view object.now)) }
{
    match object.get(name) {
        Some(member) => print_of(member),
        None => NULL_PRINT,
    }
}
