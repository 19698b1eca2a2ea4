//! Faults in the order of a report, each once.
#![tactic(auto)]

pub mod laws;
mod order;
mod ranked;
mod report;
mod rough;

pub use order::place_cmp;
pub use report::in_order;
