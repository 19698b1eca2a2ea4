//! Measures what no request to the service shows alone: the lexer, the parsers, and schemas that are
//! put together. With the argument `run` it prints a line for each figure; with no argument it prints
//! nothing.
#![tactic(auto)]

use anyhow::Result;
use std::env;

mod documents;
mod lexer;
mod schemas;
mod speed;

fn is_wanted(rt: &HostRuntime) -> Result<bool> {
    let mut is_wanted = false;
    for argument in env::args(rt)? {
        if argument.as_str() == "run" {
            is_wanted = true;
        }
    }
    Ok(is_wanted)
}

fn main(rt: HostRuntime) -> Result<()> {
    if is_wanted(&rt)? {
        lexer::measure(&rt)?;
        documents::measure(&rt)?;
        schemas::measure(&rt)?;
    }
    Ok(())
}
