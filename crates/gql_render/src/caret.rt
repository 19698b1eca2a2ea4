//! The column of a place under its line, on a terminal.

use crate::write::write_text;
use std::alloc::AllocError;
use unicode_width::UnicodeWidthChar;

/// Writes blanks as wide as a character; a tab stays a tab.
fn write_blank(out: &mut String, character: char) -> Result<(), AllocError> {
    if character == '\t' {
        return write_text(out, "\t");
    }
    for _column in 0..character.width().unwrap_or(0) {
        write_text(out, " ")?;
    }
    Ok(())
}

/// Writes blanks as wide as the characters of a line before a column.
pub fn write_padding(out: &mut String, line: &str, column: usize) -> Result<(), AllocError> {
    for character in line.chars().take(column.saturating_sub(1)) {
        write_blank(out, character)?;
    }
    Ok(())
}
