//! Compares what the lexer, the parsers, the framer of requests, the command line, and the searches
//! for cycles and for clashes of numbered fields answer with what tables expect. An argument is the file of a table, which says at its head how it is written;
//! or `FILE:LINE,LINE..`, to compare only the answers to the questions at these lines. Answers that
//! differ are printed, each with its file and line.
#![tactic(auto)]

mod bytes;
mod clashing_fields;
mod commands;
mod cursors;
mod cycles;
mod documents;
mod file_maps;
mod file_names;
mod levels;
mod numbered_sets;
mod parsers;
mod peers;
mod questions;
mod steps;
mod streams;
mod tokens;
mod trees;

use anyhow::{Result, bail};
use questions::TextRow;
use std::env;
use table_rows::Table;

fn main(rt: HostRuntime) -> Result<()> {
    let mut table: Table<TextRow> = Table::new(rt.alloc());
    for word in env::args(&rt)?.skip(1) {
        table.read_file(&rt, word.as_str())?;
    }
    eprintln!(rt; "{} answers", table.tally.answers)?;
    if !table.tally.is_as_expected() {
        println!(rt; "{}", table.tally.differences)?;
        bail!("some lines of the tables are not as they should be");
    }
    println!(rt; "all answers as expected")?;
    Ok(())
}
