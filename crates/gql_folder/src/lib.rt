//! The files of a folder, as the files of a registry: which path below the folder is which file.
#![tactic(auto)]

mod folder;
mod number;
mod role;

pub use folder::{Folder, FolderFault, GivenFile, NamedFile, read_folder};
pub use number::with_commas;
pub use role::{Role, role_of};
