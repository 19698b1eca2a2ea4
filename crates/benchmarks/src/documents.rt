//! How fast an executable document of 64 KiB is parsed.
use crate::speed::{LONGEST_NAME, document, speed};
use anyhow::Result;
use gql_ast::FileName;
use gql_parse::parse;
use std::alloc::Global;
use std::time::Instant;

const ROUNDS: u64 = 100;

/// How many definitions a text has, or 0 if it is refused.
#[inline(never)]
fn definition_count(alloc: Global, text: &str) -> u64 {
    let Ok(Some(file)) = FileName::read(alloc, "bench", LONGEST_NAME) else {
        return 0;
    };
    match parse(alloc, file, text) {
        Ok(document) => document.definitions.len() as u64,
        Err(_) => 0,
    }
}

/// Prints the speed.
pub fn measure(rt: &HostRuntime) -> Result<()> {
    let text = document(rt.alloc())?;
    let mut found: u64 = 0;
    let start = Instant::now(rt)?;
    for _round in 0..ROUNDS {
        found = found.wrapping_add(definition_count(rt.alloc(), text.as_str()));
    }
    let parsed = speed((text.len() as u64).wrapping_mul(ROUNDS), start.elapsed(rt)?);
    println!(rt; "parse: {parsed} MB/s ({found} definitions)")?;
    Ok(())
}
