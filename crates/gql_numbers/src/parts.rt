//! The parts of a double.
ghost use Rattle.std.specs.Prelude.{◌≡◌, ◌<◌, ◌^◌, IsTrue, from_bits};
ghost use Rattle.std.specs.Float.{NotNan, binary64, float_is_finite};
ghost use Rattle.gql_numbers.specs.Decimals.{ArePartsOf};

/// A double: the significand times 2 ^ (shift - 1074), negative or not.
#[derive(Clone, Copy)]
pub struct Parts {
    pub negative: bool,
    pub significand: u64,
    pub shift: usize,
}

/// The bits of a double that is a number.
fn bits_of(x: f64) -> u64
    requires { NotNan x }
    ensures same { from_bits binary64 result ≡ x }
{
    x.to_bits()
}

/// The parts of a finite double.
pub fn parts_of(x: f64) -> Parts
    requires { IsTrue (float_is_finite x) }
    ensures { ArePartsOf x result }
{
    let bits = bits_of(x);
    let negative = bits >= 0x8000_0000_0000_0000;
    let field = bits % 0x8000_0000_0000_0000 / 0x10_0000_0000_0000;
    let fraction = bits % 0x10_0000_0000_0000;
    if field == 0 {
        return Parts {
            negative,
            significand: fraction,
            shift: 0,
        };
    }
    Parts {
        negative,
        significand: 0x10_0000_0000_0000 + fraction,
        shift: (field - 1) as usize,
    }
}
