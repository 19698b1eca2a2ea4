//! What measurements share: a document, times, and how many tokens a text has.
use gql_text::lex;
use std::alloc::{AllocError, Global};
use std::time::Duration;

const LINE: &str =
    "query Find($id: ID!) { user(id: $id) { name, friends(first: 10) { id name } } } # one\n";

/// The most bytes of the name of a file.
pub const LONGEST_NAME: usize = 64;

/// A document of nearly 64 KiB.
pub fn document(alloc: Global) -> Result<String, AllocError> {
    let mut text = String::new(alloc);
    for _line in 0..760 {
        text.push_str(LINE)?;
    }
    Ok(text)
}

/// How many tokens a text has, or 0 if it is refused.
#[inline(never)]
pub fn token_count(alloc: Global, text: &str) -> u64 {
    match lex(alloc, text) {
        Ok(tokens) => tokens.len() as u64,
        Err(_) => 0,
    }
}

/// Microseconds.
pub fn micros(taken: Duration) -> u64 {
    taken
        .as_secs()
        .wrapping_mul(1_000_000)
        .wrapping_add(u64::from(taken.subsec_micros()))
}

/// Millions of bytes in a second.
pub fn speed(bytes: u64, taken: Duration) -> u64 {
    let micros = micros(taken);
    if micros == 0 { 0 } else { bytes / micros }
}

/// Nanoseconds for each of that many, or 0 if there are none.
pub fn nanos_each(taken: Duration, count: u64) -> u64 {
    let nanos = micros(taken).wrapping_mul(1_000);
    if count == 0 { 0 } else { nanos / count }
}
