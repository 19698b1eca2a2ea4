//! Rows: a number as a text, and the text of the double that it is read as. What is expected has the
//! digits that Python writes.
use crate::{read_double, write_double};
use std::alloc::AllocError;

#[test]
fn doubles_are_written(rt: HostRuntime) -> Result<(), AllocError> {
    let rows = [
        ("0.1", "0.1"),
        ("1", "1.0"),
        ("-0.0", "-0.0"),
        ("100", "100.0"),
        ("3.14", "3.14"),
        ("4.35", "4.35"),
        ("123456.789", "123456.789"),
        ("0.3333333333333333", "0.3333333333333333"),
        ("0.00001", "0.00001"),
        ("0.000001", "1e-6"),
        ("-2.5e-8", "-2.5e-8"),
        ("1e15", "1000000000000000.0"),
        ("1e16", "1e+16"),
        ("9007199254740993", "9007199254740992.0"),
        ("1e21", "1e+21"),
        ("1e22", "1e+22"),
        ("8.5e22", "8.5e+22"),
        ("1e23", "1e+23"),
        ("123456789012345678901234567890", "1.2345678901234568e+29"),
        ("1.7976931348623157e308", "1.7976931348623157e+308"),
        ("2.2250738585072014e-308", "2.2250738585072014e-308"),
        ("5e-324", "5e-324"),
        ("1e-400", "0.0"),
    ];
    for (given, expected) in rows {
        let mut text = Vec::new(rt.alloc());
        if let Some(x) = read_double(given) {
            write_double(rt.alloc(), x, &mut text)?;
        }
        assert_eq!(rt; text.as_slice(), expected.as_bytes());
    }
    Ok(())
}

#[test]
fn what_is_not_finite_is_refused(rt: HostRuntime) {
    for given in ["1e309", "-1e400", "1.7976931348623159e308", "", "x"] {
        assert_eq!(rt; read_double(given), None);
    }
}
