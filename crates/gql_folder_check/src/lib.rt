//! What a check of a folder finds, and who reads a part of its schema, written in a format.
//! Registries stay below this crate.
#![tactic(auto)]

mod check;
mod status;
mod usage;

pub use check::{checked, run_check};
pub use status::{Answered, Checked, check_status, usage_status};
pub use usage::run_usage;
