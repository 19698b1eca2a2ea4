//! Why a question about the use of a schema has no answer.

use gql_check::CheckFault;
use std::alloc::{AllocError, AllocFailed};
use thiserror::Error;

/// Why a question about the use of a schema has no answer.
#[derive(Debug, Drop, Error)]
pub enum UsageFault {
    /// The files are not those of a registry.
    #[error("a file is refused")]
    Files(CheckFault),
    /// The schema has this number of faults.
    #[error("the schema has faults")]
    FaultySchema { faults: usize },
    /// The schema has no such part; which one, in words.
    #[error("{0}")]
    NoSuchPart(String),
    /// An allocation failed.
    #[error("out of memory")]
    Memory,
}

impl From<AllocError> for UsageFault {
    fn from(_: AllocError) -> UsageFault {
        UsageFault::Memory
    }
}

impl<T: Drop> From<AllocFailed<T>> for UsageFault {
    fn from(_: AllocFailed<T>) -> UsageFault {
        UsageFault::Memory
    }
}

impl From<CheckFault> for UsageFault {
    fn from(fault: CheckFault) -> UsageFault {
        match fault {
            CheckFault::Memory => UsageFault::Memory,
            fault => UsageFault::Files(fault),
        }
    }
}
