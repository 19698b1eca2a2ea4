//! How fast a document of 64 KiB is split into tokens, and how fast a plain loop reads the same
//! bytes.
use crate::speed::{document, speed, token_count};
use anyhow::Result;
use std::time::Instant;

const ROUNDS: u64 = 400;

/// A count, and one more for each byte that is a letter: a plain scan. Each round counts on from
/// the one before, so that a compiler cannot merge the rounds.
#[inline(never)]
fn letters(bytes: &[u8], before: u64) -> u64 {
    let mut count = before;
    for byte in bytes {
        if byte.is_ascii_alphabetic() {
            count = count.wrapping_add(1);
        }
    }
    count
}

fn measure_scan(rt: &HostRuntime, text: &str) -> Result<()> {
    let mut found: u64 = 0;
    let start = Instant::now(rt)?;
    for _round in 0..ROUNDS {
        found = letters(text.as_bytes(), found);
    }
    let scanned = speed((text.len() as u64).wrapping_mul(ROUNDS), start.elapsed(rt)?);
    println!(rt; "scan: {scanned} MB/s ({found} letters)")?;
    Ok(())
}

/// Prints both speeds.
pub fn measure(rt: &HostRuntime) -> Result<()> {
    let text = document(rt.alloc())?;
    measure_scan(rt, text.as_str())?;
    let mut found: u64 = 0;
    let start = Instant::now(rt)?;
    for _round in 0..ROUNDS {
        found = found.wrapping_add(token_count(rt.alloc(), text.as_str()));
    }
    let lexed = speed((text.len() as u64).wrapping_mul(ROUNDS), start.elapsed(rt)?);
    println!(rt; "lex: {lexed} MB/s ({found} tokens)")?;
    Ok(())
}
