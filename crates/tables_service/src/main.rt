//! Compares what the registry and the service answer with what tables expect. An argument is the
//! file of a table, which says at its head how it is written; or `FILE:LINE,LINE..`, to compare only
//! the answers to the questions at these lines. Answers that differ are printed, each with its file
//! and line.
#![tactic(auto)]

mod bytes;
mod clashes;
mod cut_streams;
mod editing;
mod faults;
mod heads;
mod interleaved;
mod moves;
mod networks;
mod pipes;
mod profiles;
mod questions;
mod row_files;
mod running;
mod servers;
mod transcripts;
mod written_answers;

use anyhow::{Result, bail};
use questions::ServiceRow;
use std::env;
use table_rows::Table;

fn main(rt: HostRuntime) -> Result<()> {
    let mut table: Table<ServiceRow> = Table::new(rt.alloc());
    for word in env::args(&rt)?.skip(1) {
        table.read_file(&rt, word.as_str())?;
    }
    eprintln!(rt; "{} answers", table.tally.answers)?;
    if !table.tally.is_as_expected() {
        println!(rt; "{}", table.tally.differences)?;
        bail!("some lines of the tables are not as they should be");
    }
    println!(rt; "all answers as expected")?;
    Ok(())
}
