//! Checks the files of a folder, all at once: what a registry reports after they were put into it
//! one by one.
#![tactic(auto)]

mod check;
mod fault;
mod loading;
mod refusals;
mod sources;
mod words;

pub use check::check_files;
pub use fault::{CheckFault, FileFault};
pub use loading::load_files;
pub use words::{refusal_annotation, refusal_text};
