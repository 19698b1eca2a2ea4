//! The command line of `gqlreg`: what its words ask for.
#![tactic(auto)]

mod command;
mod grammar;
mod profile;
mod serve;

pub use command::{Command, CommandFault, ProfiledCommand, read_command, read_profiled_command};
pub use profile::{PROFILES, profile_named};
