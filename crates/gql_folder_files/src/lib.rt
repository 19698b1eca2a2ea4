//! The files that a command on a folder is given, why it ends early, and how far it has come.
#![tactic(auto)]

mod failure;
mod given;
mod progress;

pub use failure::{Failure, report, unwritten};
pub use given::{Given, given_files, tell_made};
pub use progress::{Counter, tell_long_check};
