//! What is found in the files of a registry: its faults at their places in given texts, its
//! operations, and those that are not served. And what an edit would do, by what is found before it
//! and what would be found after it.
#![tactic(auto)]

mod affected;
mod edit_check;
mod finding;
mod home;
mod operations;
mod owners;
mod registry_files;
mod reported;
mod sources;

pub use edit_check::{EditCheck, ShownOperation, check_edit};
pub use registry_files::{FileText, registry_sources};
pub use reported::{Reported, report_of, reported_in};
pub use sources::Sources;
