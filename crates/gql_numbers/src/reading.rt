//! Numbers of texts.
ghost use Rattle.std.specs.Prelude.{◌≡◌};
ghost use Rattle.gql_numbers.specs.Doubles as spec;

/// The double nearest to the number that a text writes, as an IntValue or a FloatValue of GraphQL
/// does. `None`: it writes no number, or there is no finite double.
pub fn read_double(text: &str) -> Option<f64>
    ensures { result ≡ spec.double_of text.now }
{
    let x: f64 = fast_float::parse(text.as_bytes()).ok()?;
    if x.is_finite() { Some(x) } else { None }
}

/// Whether a text is read as this double.
pub fn is_read_as(text: &[u8], x: f64) -> bool
    ensures { result ≡ spec.reads_as x text.now }
{
    match fast_float::parse::<f64, &[u8]>(text) {
        Ok(y) => y == x,
        Err(_) => false,
    }
}
