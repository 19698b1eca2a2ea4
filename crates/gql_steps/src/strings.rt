//! Strings of JSON, written to the end of a vector: a text without escapes at once, another one
//! byte by byte.
ghost use Rattle.std.specs.Prelude.{◌≡◌, ◌<◌, ◌++◌, ◌∷◌, [], OnOk, IsTrue};
ghost use Rattle.std.specs.Char.{digit_char};
ghost use Rattle.json.specs.Print.{escape, escape_byte, quoted};

use std::alloc::AllocError;

/// Whether a byte is in a string as it is.
#[tactic(auto, using(crate::proofs::Escapes::plain_byte))]
fn is_plain_byte(byte: u8) -> bool
    ensures { IsTrue result → escape_byte byte ≡ byte ∷ [] }
{
    byte >= 32 && byte != b'"' && byte != b'\\'
}

/// Whether all of these are.
#[tactic(auto, using(crate::proofs::Escapes::escape_more))]
fn is_plain(bytes: &[u8]) -> bool
    ensures { IsTrue result → escape bytes.now ≡ bytes.now }
{
    for byte in bytes {
        if !is_plain_byte(*byte) {
            return false;
        }
    }
    true
}

const fn digit(n: u8) -> u8
    requires { n < 16 }
    ensures { result ≡ digit_char n }
{
    if n < 10 { b'0' + n } else { b'a' + (n - 10) }
}

/// Writes what is in a string for a byte.
#[tactic(auto, unfolding(json::specs::Print::escape_byte))]
fn write_byte(out: &mut Vec<u8>, byte: u8) -> Result<(), AllocError>
    ensures { OnOk result (out.new.items ≡ out.old.items ++ escape_byte byte) }
{
    match byte {
        34 | 92 => out.extend_from_slice(&[92, byte]),
        8 => out.extend_from_slice(b"\\b"),
        9 => out.extend_from_slice(b"\\t"),
        10 => out.extend_from_slice(b"\\n"),
        12 => out.extend_from_slice(b"\\f"),
        13 => out.extend_from_slice(b"\\r"),
        0..=31 => out.extend_from_slice(&[92, 117, 48, 48, digit(byte / 16), digit(byte % 16)]),
        _ => {
            out.push(byte)?;
            Ok(())
        }
    }
}

fn write_escaped(out: &mut Vec<u8>, bytes: &[u8]) -> Result<(), AllocError>
    ensures { OnOk result (out.new.items ≡ out.old.items ++ escape bytes.now) }
{
    for byte in bytes {
        write_byte(out, *byte)?;
    }
    Ok(())
}

/// Writes what is between the quotes.
fn write_inner(out: &mut Vec<u8>, bytes: &[u8]) -> Result<(), AllocError>
    ensures { OnOk result (out.new.items ≡ out.old.items ++ escape bytes.now) }
{
    if is_plain(bytes) {
        out.extend_from_slice(bytes)
    } else {
        write_escaped(out, bytes)
    }
}

/// Writes bytes in quotes, with their escapes.
#[tactic(auto, using(crate::proofs::Escapes::quotes))]
pub fn write_quoted(bytes: &[u8], out: &mut Vec<u8>) -> Result<(), AllocError>
    ensures { OnOk result (out.new.items ≡ out.old.items ++ quoted bytes.now) }
{
    out.push(b'"')?;
    write_inner(out, bytes)?;
    out.push(b'"')?;
    Ok(())
}

/// Writes a string in quotes, with its escapes.
pub fn write_string(text: &str, out: &mut Vec<u8>) -> Result<(), AllocError>
    ensures { OnOk result (out.new.items ≡ out.old.items ++ quoted text.now) }
{
    write_quoted(text.as_bytes(), out)
}
