//! Compares what schemas, facts, values and the rules on schemas and on operations answer with what
//! tables expect. An argument is the file of a table, which says at its head how it is written; or
//! `FILE:LINE,LINE..`, to compare only the answers to the questions at these lines. Answers that
//! differ are printed, each with its file and line.
#![tactic(auto)]

mod built_in_names;
mod coerced;
mod document_files;
mod fact_words;
mod facts;
mod faults;
mod inputs;
mod look_ups;
mod questions;
mod reports;
mod root_fields;
mod rule_groups;
mod values;

use anyhow::{Result, bail};
use questions::SchemaRow;
use std::env;
use table_rows::Table;

fn main(rt: HostRuntime) -> Result<()> {
    let mut table: Table<SchemaRow> = Table::new(rt.alloc());
    for word in env::args(&rt)?.skip(1) {
        table.read_file(&rt, word.as_str())?;
    }
    eprintln!(rt; "{} answers", table.tally.answers)?;
    if !table.tally.is_as_expected() {
        println!(rt; "{}", table.tally.differences)?;
        bail!("some lines of the tables are not as they should be");
    }
    println!(rt; "all answers as expected")?;
    Ok(())
}
