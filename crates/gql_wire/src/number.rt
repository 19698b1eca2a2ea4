//! Decimal numbers in bytes.
ghost use Rattle.std.specs.Prelude.{◌≡◌};
ghost use Rattle.std.specs.List.{list_all};
ghost use Rattle.std.specs.Char.{is_ascii_digit};
ghost use Rattle.gql_wire.specs.Number.{number_in};

/// The most digits of a number. Each number of so many digits fits its type.
const MAX_DIGITS: usize = 18;

/// Whether all bytes are decimal digits.
fn are_digits(value: &[u8]) -> bool
    ensures { result ≡ list_all is_ascii_digit value.now }
{
    value.iter().all(|byte| byte.is_ascii_digit())
}

/// The number of 1 to 18 decimal digits. `None`: the bytes are something else.
pub fn number_in(value: &[u8]) -> Option<usize>
    ensures { result ≡ number_in value.now }
{
    if value.is_empty() || value.len() > MAX_DIGITS || !are_digits(value) {
        return None;
    }
    let mut number = 0;
    for byte in value {
        number = 10 * number + usize::from(byte.wrapping_sub(b'0'));
    }
    Some(number)
}
