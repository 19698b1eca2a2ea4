//! Why the files of a folder are not read.

use std::alloc::{AllocError, AllocFailed, Global};
use std::io;
use thiserror::Error;

/// Why the files of a folder are not read.
#[derive(Debug, Drop, Error)]
pub enum DiskFault {
    /// A file or a folder cannot be read; its path, and why.
    #[error("{0}")]
    Refused(String),
    /// An allocation failed.
    #[error("out of memory")]
    Memory,
}

impl From<AllocError> for DiskFault {
    fn from(_: AllocError) -> DiskFault {
        DiskFault::Memory
    }
}

impl<T: Drop> From<AllocFailed<T>> for DiskFault {
    fn from(_: AllocFailed<T>) -> DiskFault {
        DiskFault::Memory
    }
}

/// The fault of a path, for this reason.
pub fn refused(alloc: Global, path: &str, reason: &str) -> DiskFault {
    match format!(in alloc; "{path} {reason}") {
        Ok(text) => DiskFault::Refused(text),
        Err(_) => DiskFault::Memory,
    }
}

/// The fault of a path that the system does not let be read.
pub fn unread(alloc: Global, path: &str, error: &io::Error) -> DiskFault {
    match error.kind() {
        io::ErrorKind::OutOfMemory => DiskFault::Memory,
        io::ErrorKind::NotFound => refused(alloc, path, "is missing"),
        io::ErrorKind::PermissionDenied => refused(
            alloc,
            path,
            "cannot be read: permission denied",
        ),
        io::ErrorKind::InvalidFilename => refused(alloc, path, "has a name that is not UTF-8"),
        _ => refused(alloc, path, "cannot be read"),
    }
}
