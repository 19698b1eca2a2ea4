//! Two tests of what happens where memory is refused. `each_growth_refused` makes the steps of files
//! with each growth of memory refused in turn: after a refusal all is as before, and the same step
//! made again gives what it gives without any refusal. `no_hidden_work` counts growths: those of an
//! edit do not follow the operations that the edit has nothing to do with.
//!
//! Growths are refused and counted by the tool of tests/refused_growths.sh, which lies below the
//! program. Without it none is: the steps then only have to give what the files say.
#![tactic(auto)]

mod each_growth;
mod faults;
mod feeding;
mod hidden_work;
mod rows;
mod state;
mod step;
mod tally;
mod tool;

use anyhow::{Result, bail};
use hidden_work::no_hidden_work;
use rows::Rows;
use std::{env, fs};

fn main(rt: HostRuntime) -> Result<()> {
    let mut rows = Rows::new(rt.alloc());
    for path in env::args(&rt)?.skip(1) {
        let text = fs::read_to_string(&rt, path.as_str())?;
        for line in text.as_str().lines() {
            if rows.add(line).is_none() {
                bail!("out of memory");
            }
        }
    }
    let mut tally = rows.tally;
    let growths = tally.growths;
    println!(rt; "each_growth_refused: {growths} growths refused")?;
    match no_hidden_work(rt.alloc(), &mut tally) {
        Some(counts) => println!(rt; "no_hidden_work: growths of {}", counts.as_str())?,
        None => bail!("no_hidden_work was not made"),
    }
    let differences = tally.differences;
    println!(rt;
        "{}{growths} growths refused, {differences} differences",
        tally.lines
    )?;
    if differences > 0 {
        bail!("some steps are not as they should be");
    }
    Ok(())
}
