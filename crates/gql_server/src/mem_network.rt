//! A network in memory, for tests and for programs that have no network.
ghost use Rattle.std.specs.Prelude.{◌≡◌, Some};
ghost use Rattle.gql_server.specs.MemNetwork.{line_in, new_line, traffic_of};
ghost use Rattle.gql_server.specs.Traffic.{Grows, accepts, no_traffic, reports_one, returns};

use crate::mem_socket::{MemSocket, Script};
use crate::network::{AcceptFault, Network, WaitFailed};
use crate::report::Report;
use std::alloc::Global;
use std::io;
use std::time::{Clock, Duration, Instant};

/// What one call of `accept` finds.
#[derive(Debug, Drop)]
pub enum Arrival {
    /// A connection.
    Connection(Script),
    /// No connection waits.
    Nothing,
    /// A connection that is gone.
    Passing,
    /// The listener fails.
    Failure,
}

/// One wait: how long it takes, and what it reports.
#[derive(Clone, Copy)]
pub struct Wait {
    pub milliseconds: u64,
    pub report: Report,
}

/// A network in memory. The calls of `accept` find what the arrivals say, and the waits report what
/// they say, each in order; then no connection waits, and a wait fails. Its clock stands still but in a
/// wait. It reports all that it did, unless an allocation fails.
#[derive(Drop)]
pub struct MemNetwork<'a> {
    alloc: Global,
    arrivals: &'a [Arrival],
    /// How many of the arrivals were found.
    found: usize,
    waits: &'a [Wait],
    /// How many of the waits were made.
    waited: usize,
    /// The time on its clock.
    time: Duration,
    /// The places of the connections that were accepted among the arrivals, in order.
    accepted: Vec<usize>,
    /// The sockets that were taken back, in order.
    pub returned: Vec<MemSocket<'a>>,
    /// What the waits reported, in order.
    reports: Vec<Report>,
    /// Whether all that it did is in these three.
    is_whole: bool,
}

/// A clock that stands still.
#[derive(Drop)]
struct Still(Duration);

impl Clock for Still {
    fn monotonic(&self) -> io::Result<Duration> {
        Ok(self.0)
    }

    fn since_1970(&self) -> io::Result<Duration> {
        Ok(self.0)
    }
}

impl<'a> MemNetwork<'a> {
    /// A network that has done nothing yet.
    pub fn new(alloc: Global, arrivals: &'a [Arrival], waits: &'a [Wait]) -> MemNetwork<'a>
        ensures { traffic_of result ≡ Some no_traffic }
    {
        MemNetwork {
            alloc,
            arrivals,
            found: 0,
            waits,
            waited: 0,
            time: Duration::ZERO,
            accepted: Vec::new(alloc),
            returned: Vec::new(alloc),
            reports: Vec::new(alloc),
            is_whole: true,
        }
    }

    /// Notes that the connection at this place is accepted.
    fn note_accepted(&mut self, place: usize)
        ensures { Grows (traffic_of self.old) (traffic_of self.new) (accepts new_line) }
    {
        let Ok(()) = self.accepted.push(place) else {
            self.is_whole = false;
            return;
        };
    }

    /// Notes what a wait reports.
    fn note_report(&mut self, report: Report)
        ensures { Grows (traffic_of self.old) (traffic_of self.new) (reports_one report) }
    {
        let Ok(()) = self.reports.push(report) else {
            self.is_whole = false;
            return;
        };
    }

    /// Notes that a socket is taken back.
    fn note_returned(&mut self, socket: MemSocket<'a>)
        ensures { Grows (traffic_of self.old) (traffic_of self.new) (returns (line_in socket.entry)) }
    {
        let Ok(()) = self.returned.push(socket) else {
            self.is_whole = false;
            return;
        };
    }
}

impl<'a> Network<MemSocket<'a>> for MemNetwork<'a> {
    ghost traffic = { traffic_of };

    fn now(&self) -> Result<Instant, WaitFailed> {
        match Instant::now(&Still(self.time)) {
            Ok(now) => Ok(now),
            Err(_) => Err(WaitFailed),
        }
    }

    fn accept(&mut self) -> Result<Option<MemSocket<'a>>, AcceptFault> {
        let place = self.found;
        let arrivals = self.arrivals;
        let Some(arrival) = arrivals.get(place) else {
            return Ok(None);
        };
        self.found = place.saturating_add(1);
        match arrival {
            Arrival::Connection(script) => {
                self.note_accepted(place);
                Ok(Some(MemSocket::new(self.alloc, script)))
            }
            Arrival::Nothing => Ok(None),
            Arrival::Passing => Err(AcceptFault::Passing),
            Arrival::Failure => Err(AcceptFault::Failed),
        }
    }

    fn watch(&mut self, _socket: &mut MemSocket<'a>, _number: u8) -> Result<(), WaitFailed> {
        Ok(())
    }

    fn wait(&mut self, _most: Option<Duration>) -> Result<Report, WaitFailed> {
        let waits = self.waits;
        let Some(wait) = waits.get(self.waited) else {
            return Err(WaitFailed);
        };
        self.waited = self.waited.saturating_add(1);
        self.time = self
            .time
            .saturating_add(Duration::from_millis(wait.milliseconds));
        self.note_report(wait.report);
        Ok(wait.report)
    }

    fn take_back(&mut self, socket: MemSocket<'a>) {
        self.note_returned(socket);
    }
}
