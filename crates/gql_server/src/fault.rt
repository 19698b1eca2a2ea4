//! Why a server ends early.
use thiserror::Error;

/// Why serving ended early, or did not begin.
#[derive(Clone, Copy, Debug, PartialEq, Eq, Error)]
pub enum ServeFault {
    /// 341: a connection was not accepted.
    #[error("accepting failed")]
    AcceptFailed,
    /// 342: the system does not tell which connections are ready, or what time it is.
    #[error("waiting failed")]
    WaitFailed,
    /// 343: an allocation failed before the first connection was accepted.
    #[error("out of memory")]
    Memory,
    /// 344: the system does not let the program listen to the port.
    #[error("listening failed")]
    ListenFailed,
    /// 345: it was not reported that connections are accepted.
    #[error("reporting failed")]
    ReportFailed,
}
