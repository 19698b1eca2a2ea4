//! Numbers in range (GraphQL specification, 3.5.1 and 3.5.2).
ghost use Rattle.std.specs.Prelude.{◌≡◌, is_some};
ghost use Rattle.gql_inputs.specs.Numbers as spec;

/// Whether a whole number, as it is written, has at most 32 bits.
pub fn is_int(text: &str) -> bool
    ensures { result ≡ spec.is_whole 31 text.now }
{
    text.parse::<i32>().is_ok()
}

/// Whether a whole number, as it is written, has at most 64 bits.
pub fn is_long(text: &str) -> bool
    ensures { result ≡ spec.is_whole 63 text.now }
{
    text.parse::<i64>().is_ok()
}

/// The whole number that is written, if it has at most 64 bits.
pub fn whole_number(text: &str) -> Option<i64>
    ensures { result ≡ spec.whole_number text.now }
{
    text.parse::<i64>().ok()
}

/// The double nearest to the number that is written, if that is finite.
pub fn real_of(text: &str) -> Option<f64>
    ensures { result ≡ spec.real_of text.now }
{
    match text.parse::<f64>() {
        Ok(x) => if x.is_finite() { Some(x) } else { None },
        Err(_) => None,
    }
}

/// Whether a number has a finite nearest double.
pub fn is_real(text: &str) -> bool
    ensures { result ≡ is_some (spec.real_of text.now) }
{
    real_of(text).is_some()
}

/// Whether a number is a whole number of at most 64 bits, or has a finite nearest double.
pub fn is_number(text: &str) -> bool
    ensures { result ≡ spec.is_number text.now }
{
    is_long(text) || is_real(text)
}
