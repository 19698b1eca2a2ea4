//! Why a command on a folder ends early, and its status then.

ghost use Rattle.std.specs.Prelude.{◌≡◌};
ghost use Rattle.gql_folder_files.specs.Statuses.{status_of};

use gql_disk::DiskFault;
use std::alloc::{AllocError, AllocFailed};

/// Why a command on a folder ends early.
#[derive(Drop)]
pub enum Failure {
    /// A folder or a file is refused; why, in words.
    Refused(String),
    /// Somebody else has edited the registry; what is to be said of it.
    Edited(String),
    /// The server cannot be reached, or answers as no registry does.
    NoServer,
    /// Standard output takes no more.
    Closed,
    /// An allocation failed.
    Memory,
}

impl Failure {
    ghost use Rattle.std.specs.Prelude.{◌≡◌};
    ghost use Rattle.gql_folder_files.specs.Statuses.{status_of};

    /// The exit status of a command that ends so.
    pub fn status(&self) -> u8
        ensures { result ≡ status_of self.now }
    {
        match self {
            Failure::Refused(_) => 2,
            Failure::Edited(_) => 3,
            Failure::NoServer => 5,
            Failure::Closed => 1,
            Failure::Memory => 4,
        }
    }
}

impl From<AllocError> for Failure {
    fn from(_: AllocError) -> Failure {
        Failure::Memory
    }
}

impl<T: Drop> From<AllocFailed<T>> for Failure {
    fn from(_: AllocFailed<T>) -> Failure {
        Failure::Memory
    }
}

impl From<DiskFault> for Failure {
    fn from(fault: DiskFault) -> Failure {
        match fault {
            DiskFault::Memory => Failure::Memory,
            DiskFault::Refused(text) => Failure::Refused(text),
        }
    }
}

/// The failure of a file that cannot be written.
pub fn unwritten(rt: &HostRuntime, path: &str) -> Failure {
    match format!(in rt.alloc(); "{path} cannot be written") {
        Ok(text) => Failure::Refused(text),
        Err(_) => Failure::Memory,
    }
}

/// Reports a failure on standard error, if something is to be said of it, and returns the status.
pub fn report(rt: &HostRuntime, failure: Failure) -> u8
    ensures { result ≡ status_of failure }
{
    let status = failure.status();
    match failure {
        Failure::Refused(text) | Failure::Edited(text) => {
            let _ = rt.eprintln(text);
        }
        Failure::NoServer => {
            let _ = rt.eprintln("no answer from the server, or not one of a registry");
        }
        Failure::Closed | Failure::Memory => {}
    }
    status
}
