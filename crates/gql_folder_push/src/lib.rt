//! Puts the files of a folder into a registry, over a connection to its server.
#![tactic(auto)]

mod checked;
mod connection;
mod making;
mod outcome;
mod plan;
mod push;
mod state;
mod summary;

pub use outcome::{PushEnd, end_push};
pub use push::push_files;
