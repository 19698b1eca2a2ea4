//! A network: it hands out the sockets of connections, and reports which of them are ready.
ghost use Rattle.std.specs.Prelude.{◌≡◌, ◌<◌, Option, MatchOption, MatchResult};
ghost use Rattle.gql_server.specs.Traffic.{Grows, Traffic, accepts, reports_one, returns};

use crate::report::Report;
use crate::socket::Socket;
use std::time::{Duration, Instant};
use thiserror::Error;

/// Why no connection is accepted.
#[derive(Clone, Copy, Debug, PartialEq, Eq, Error)]
pub enum AcceptFault {
    /// The connection is gone, or a signal came. The next call may accept one.
    #[error("a connection is gone")]
    Passing,
    /// The listener failed.
    #[error("accepting failed")]
    Failed,
}

/// The network does not watch a socket, or report which sockets are ready, or what time it is.
#[derive(Clone, Copy, Debug, PartialEq, Eq, Error)]
#[error("waiting failed")]
pub struct WaitFailed;

/// Accepts connections, hands out their sockets, and takes each back once its connection is over.
/// No call waits but `wait`.
pub trait Network<S: Socket> {
    /// What it did so far, if it reports that.
    ghost traffic: { Self → Option Traffic };

    /// What time it is.
    fn now(&self) -> Result<Instant, WaitFailed>;

    /// The socket of the next connection, or none if no connection waits.
    fn accept(&mut self) -> Result<Option<S>, AcceptFault>
        ensures { MatchResult result
            (λ found. MatchOption found
            (traffic self.new ≡ traffic self.old)
            (λ socket. Grows (traffic self.old) (traffic self.new) (accepts (S.line socket))))
            (λ _. traffic self.new ≡ traffic self.old) };

    /// Watches a socket: from now on waits report it under this number.
    fn watch(&mut self, socket: &mut S, number: u8) -> Result<(), WaitFailed>
        requires { number < 16 }
        ensures kept { traffic self.new ≡ traffic self.old }
        ensures socket { S.line socket.new ≡ S.line socket.old };

    /// Waits until a socket is ready that is watched, or a connection waits, or the time is up.
    fn wait(&mut self, most: Option<Duration>) -> Result<Report, WaitFailed>
        ensures { MatchResult result
            (λ report. Grows (traffic self.old) (traffic self.new) (reports_one report))
            (λ _. traffic self.new ≡ traffic self.old) };

    /// Takes a socket back whose connection is over.
    fn take_back(&mut self, socket: S)
        ensures { Grows (traffic self.old) (traffic self.new) (returns (S.line socket)) };
}
