//! The files of a folder on disk.
#![tactic(auto)]

mod fault;
mod find;

pub use fault::DiskFault;
pub use find::{find_files, read_manifest};
