//! Prints of names: numbers by which most names that differ are told apart.
ghost use Rattle.std.specs.Prelude.{◌≡◌};
ghost use Rattle.gql_types.specs.Prints as spec;

/// An odd number, by which prints are multiplied.
const FACTOR: u64 = 1_099_511_628_211;

/// A print, with one more byte in it.
#[tactic(auto, unfolding(gql_types::specs::Prints::mixed))]
fn mixed(print: u64, byte: u8) -> u64
    ensures { result ≡ spec.mixed print byte }
{
    print.wrapping_mul(FACTOR).wrapping_add(u64::from(byte))
}

/// The print of a name.
pub fn print_of(name: &str) -> u64
    ensures { result ≡ spec.print_of name.now }
{
    let mut print = name.len() as u64;
    for byte in name.as_bytes() {
        print = mixed(print, *byte);
    }
    print
}
