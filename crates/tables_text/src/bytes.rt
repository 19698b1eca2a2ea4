//! Bytes as the table writes them: each is one character, `\u00ff` the byte 255.
use std::alloc::{AllocError, Global};
use table_rows::quoted;

/// The bytes that the characters of a text are, if none of them is beyond U+00FF.
pub fn bytes_in(alloc: Global, text: &str) -> Option<Vec<u8>> {
    let mut bytes = Vec::new(alloc);
    for character in text.chars() {
        bytes.push(u8::try_from(character).ok()?).ok()?;
    }
    Some(bytes)
}

/// Adds a character for each of the bytes.
pub fn write_characters(text: &mut String, bytes: &[u8]) -> Result<(), AllocError> {
    for byte in bytes {
        text.push(char::from(*byte))?;
    }
    Ok(())
}

/// Bytes as a string of JSON.
pub fn quoted_bytes(alloc: Global, bytes: &[u8]) -> Result<String, AllocError> {
    let mut text = String::new(alloc);
    write_characters(&mut text, bytes)?;
    quoted(alloc, text.as_str())
}
