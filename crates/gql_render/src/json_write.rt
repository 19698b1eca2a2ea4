//! Parts of JSON, written to the end of a vector.
ghost use Rattle.std.specs.Prelude.{◌≡◌, ◌++◌, OnOk, decimal};
ghost use Rattle.json.specs.Print.{quoted};

use json::Writer;
use std::alloc::{AllocError, Global};
use std::mem;

/// Writes bytes as they are.
pub fn write_bytes(out: &mut Vec<u8>, bytes: &[u8]) -> Result<(), AllocError>
    ensures { OnOk result (out.new.items ≡ out.old.items ++ bytes.now) }
{
    out.extend_from_slice(bytes)
}

/// Writes a string in quotes, with the escapes of JSON.
#[tactic(auto, unfolding(json::specs::Print::print_from))]
pub fn write_string(alloc: Global, out: &mut Vec<u8>, text: &str) -> Result<(), AllocError>
    ensures { OnOk result (out.new.items ≡ out.old.items ++ quoted text.now) }
{
    let mut writer = Writer::new(mem::replace(out, Vec::new(alloc)));
    match writer.string(text) {
        Ok(()) => {
            *out = writer.into_inner();
            Ok(())
        }
        Err(error) => {
            *out = writer.into_inner();
            Err(error)
        }
    }
}

/// Writes bytes, and then a string in quotes.
pub fn write_string_after(
    alloc: Global,
    out: &mut Vec<u8>,
    bytes: &[u8],
    text: &str,
) -> Result<(), AllocError>
    ensures { OnOk result (out.new.items ≡ out.old.items ++ bytes.now ++ quoted text.now) }
{
    write_bytes(out, bytes)?;
    write_string(alloc, out, text)
}

/// Writes bytes, and then a whole number.
pub fn write_number_after(out: &mut Vec<u8>, bytes: &[u8], number: usize) -> Result<(), AllocError>
    ensures { OnOk result (out.new.items ≡ out.old.items ++ bytes.now ++ decimal number) }
{
    write_bytes(out, bytes)?;
    write_number(out, number)
}

/// Writes a whole number.
pub fn write_number(out: &mut Vec<u8>, number: usize) -> Result<(), AllocError>
    ensures { OnOk result (out.new.items ≡ out.old.items ++ decimal number) }
{
    let mut digits = itoa::Buffer::new();
    out.extend_from_slice(digits.format(number).as_bytes())
}
