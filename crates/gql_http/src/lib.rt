//! The registry over HTTP: the answers to a stream of requests.
#![tactic(auto)]

mod answer;
mod batch;
mod editing;
mod hub;
pub mod laws;
mod parts;
mod piping;
mod places;
mod query;
mod refusal_answer;
mod refusal_body;
mod report_body;
mod route;
mod run_body;
mod serve;
mod service;
mod twice;
mod write;
mod write_answer;

pub use hub::{CONNECTIONS, Fed, Hub, OpenRefusal};
pub use parts::part_length;
pub use piping::{PipeEnd, PipeFault, pipe, status_of};
