//! Manifests of persisted operations: the operations and fragments of a client, as its build wrote
//! them, made into the files of a folder. Each operation is a file of its own, or if there are many
//! they are put together by their names; a fragment that several operations bring with them is kept
//! once.
#![tactic(auto)]

mod bucket;
mod entries;
mod fault;
mod files;
mod fragments;
mod gathered;
mod joined;
mod origin;
mod packing;
mod pieces;
mod texts;
mod words;

pub use fault::{ManifestFault, fault_text};
pub use files::{FromManifests, GivenManifest, MadeFile, files_of};
pub use joined::add_files;
pub use origin::Origin;
pub use words::made_text;
