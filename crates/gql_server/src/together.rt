//! Many connections at one time, served by one thread.
ghost use Rattle.std.specs.Prelude.{◌≡◌, ◌<◌, ◌≤◌, ◌+◌, [], None, Option, MatchOption, MatchResult, IsTrue, length, ◌⊎◌, true, false};
ghost use Rattle.std.specs.Duration.{as_nanos};
ghost use Rattle.std.specs.declared.time.Duration.{Duration};
ghost use Rattle.gql_http.specs.Hubs.{rests_of};
ghost use Rattle.gql_server.specs.Rooms.{AreOver, Moves, Runs, RunsThrough, talk_in, talks_of};
ghost use Rattle.gql_server.specs.Rounds.{Admits, AreFree, AreNoted, IsFresh, IsRound, IsServed, Serves};
ghost use Rattle.gql_server.specs.Seats.{HaveTheirTurns};
ghost use Rattle.gql_server.specs.Together.{AreClosed, Goes};
ghost use Rattle.gql_server.specs.Traffic.{Grows, Traffic, accepts, joined, returns};
ghost use Rattle.gql_server.specs.Turns.{begun};
ghost use Rattle.gql_server.specs.Waits as limits;

use crate::fault::ServeFault;
use crate::listener::AcceptFailed;
use crate::network::{AcceptFault, Network};
use crate::place::{Place, new_piece};
use crate::report::Report;
use crate::room::{
    Seat, Seats, free_seats, leave, next_place, note_seat, open, shorter, turn_of, wait_time,
};
use crate::socket::Socket;
use gql_http::Hub;
use std::alloc::Global;
use std::time::{Duration, Instant};

/// A connection that was quiet for this many milliseconds yields its place to one that waits.
const YIELD_MILLISECONDS: u64 = 50;

/// Once a connection has waited for this many milliseconds, any idle one yields its place.
const PATIENCE_MILLISECONDS: u64 = 1000;

/// The connections that are still to be accepted.
#[derive(Clone, Copy)]
struct Queue {
    /// How many are left.
    left: u32,
    /// Whether one may wait at the listener.
    is_awaited: bool,
    /// Since when, if one does.
    since: Instant,
}

impl Queue {
    /// How long a connection has to have been quiet to yield its place.
    fn least_quiet(&self, now: Instant) -> Duration {
        if now.duration_since(self.since) >= Duration::from_millis(PATIENCE_MILLISECONDS) {
            Duration::ZERO
        } else {
            Duration::from_millis(YIELD_MILLISECONDS)
        }
    }

    /// Notes that a connection may wait.
    fn note(&mut self, now: Instant)
        ensures { self.new.left ≡ self.old.left }
    {
        if !self.is_awaited {
            self.since = now;
        }
        self.is_awaited = true;
    }

    /// How long to wait for the next event, by what the connections ask for.
    fn wait_time<S: Socket + Drop>(&self, seats: &Seats<S>, now: Instant) -> Option<Duration>
        ensures awaited { self.now.is_awaited ≡ true → 0 < self.now.left
            → (wait : Option Duration) × (most : Duration)
            × limits.IsLeast now (length seats.now) seats.now wait × (as_nanos most ≡ 50_000_000)
            × (result ≡ limits.shorter wait most) }
        ensures alone { (self.now.is_awaited ≡ false) ⊎ (self.now.left ≡ 0)
            → limits.IsLeast now (length seats.now) seats.now result }
    {
        let wait = wait_time(seats, now);
        if self.is_awaited && self.left > 0 {
            shorter(wait, Duration::from_millis(YIELD_MILLISECONDS))
        } else {
            wait
        }
    }
}

/// The seat of a connection that was accepted, whose socket is watched from now on. None if the
/// network refuses that, or an allocation fails: the socket is taken back then.
fn seat_of<S: Socket + Drop, N: Network<S>>(
    alloc: Global,
    network: &mut N,
    number: u8,
    socket: S,
    now: Instant,
) -> Option<Seat<S>>
    requires { number < 16 }
    ensures { MatchOption result
        (Grows (N.traffic network.old) (N.traffic network.new) (returns (S.line socket)))
        (λ seat. (seat.talk ≡ begun (S.line socket)) × (seat.is_ready ≡ true)
        × (N.traffic network.new ≡ N.traffic network.old)) }
{
    let mut socket = socket;
    let Ok(()) = network.watch(&mut socket, number) else {
        network.take_back(socket);
        return None;
    };
    let Ok(piece) = new_piece(alloc) else {
        network.take_back(socket);
        return None;
    };
    match Place::new(alloc, socket, piece) {
        Ok(place) => Some(Seat::new(place, now)),
        Err(socket) => {
            network.take_back(socket);
            None
        }
    }
}

/// Gives a place to a connection that was accepted. The connection that has it is closed.
fn seat<S: Socket + Drop, N: Network<S>>(
    alloc: Global,
    network: &mut N,
    hub: &mut Hub,
    at_once: u8,
    number: u8,
    slot: &mut Option<Seat<S>>,
    socket: S,
    now: Instant,
)
    requires number { number < at_once }
    requires most { at_once ≤ 16 }
    ensures moves { (t : Traffic) × Grows (N.traffic network.old) (N.traffic network.new) t
        × Moves at_once number hub.old (talk_in slot.old) (joined (accepts (S.line socket)) t)
        hub.new (talk_in slot.new) × (t.accepted ≡ []) }
    ensures fresh { IsFresh slot.new }
{
    leave(network, hub, number, slot);
    let Some(seat) = seat_of(alloc, network, number, socket, now) else {
        return;
    };
    open(hub, number);
    *slot = Some(seat);
}

/// Accepts a connection if one waits and there is a place. Returns whether another may follow.
fn admit_one<S: Socket + Drop, N: Network<S>>(
    alloc: Global,
    network: &mut N,
    hub: &mut Hub,
    at_once: u8,
    seats: &mut Seats<S>,
    queue: &mut Queue,
    now: Instant,
) -> Result<bool, AcceptFailed>
    requires { at_once ≤ 16 }
    ensures { (t : Traffic) × Grows (N.traffic network.old) (N.traffic network.new) t
        × Admits at_once hub.old seats.old t hub.new seats.new
        × (length t.accepted + queue.new.left ≡ queue.old.left) }
{
    if !queue.is_awaited || queue.left == 0 {
        return Ok(false);
    }
    let least = queue.least_quiet(now);
    let Some(number) = next_place(hub, at_once, seats, now, least) else {
        return Ok(false);
    };
    match network.accept() {
        Ok(Some(socket)) => {
            queue.left -= 1;
            queue.since = now;
            let slot = &mut seats[usize::from(number)];
            seat(alloc, network, hub, at_once, number, slot, socket, now);
            Ok(true)
        }
        Ok(None) => {
            queue.is_awaited = false;
            Ok(false)
        }
        Err(AcceptFault::Passing) => Ok(true),
        Err(AcceptFault::Failed) => Err(AcceptFailed),
    }
}

/// Accepts the connections that wait, as long as there are places.
fn admit<S: Socket + Drop, N: Network<S>>(
    alloc: Global,
    network: &mut N,
    hub: &mut Hub,
    at_once: u8,
    seats: &mut Seats<S>,
    queue: &mut Queue,
    now: Instant,
) -> Result<(), AcceptFailed>
    requires { at_once ≤ 16 }
    ensures { (t : Traffic) × Grows (N.traffic network.old) (N.traffic network.new) t
        × Admits at_once hub.old seats.old t hub.new seats.new
        × (length t.accepted + queue.new.left ≡ queue.old.left) }
{
    for _place in 0..at_once {
        if !admit_one(alloc, network, hub, at_once, seats, queue, now)? {
            break;
        }
    }
    Ok(())
}

/// Notes which connections may be ready, and whether one waits.
fn note<S: Socket + Drop>(report: &Report, seats: &mut Seats<S>, queue: &mut Queue, now: Instant)
    ensures noted { AreNoted report.now seats.old seats.new }
    ensures left { queue.new.left ≡ queue.old.left }
{
    if report.has_connection {
        queue.note(now);
    }
    for number in 0..seats.len() {
        note_seat(&mut seats[number], report.sockets[number]);
    }
}

/// Gives each connection that is ready a turn.
fn turns<S: Socket + Drop, N: Network<S>>(
    network: &mut N,
    hub: &mut Hub,
    at_once: u8,
    seats: &mut Seats<S>,
    now: Instant,
)
    requires { at_once ≤ 16 }
    ensures runs { (t : Traffic) × Grows (N.traffic network.old) (N.traffic network.new) t
        × Runs at_once hub.old (talks_of seats.old) t hub.new (talks_of seats.new)
        × (t.accepted ≡ []) }
    ensures turns { HaveTheirTurns at_once seats.old seats.new }
{
    for number in 0..at_once {
        turn_of(
            network,
            hub,
            at_once,
            number,
            &mut seats[usize::from(number)],
            now,
        );
    }
}

/// Accepts what waits, and gives each connection that is ready a turn.
fn round<S: Socket + Drop, N: Network<S>>(
    alloc: Global,
    network: &mut N,
    hub: &mut Hub,
    at_once: u8,
    seats: &mut Seats<S>,
    queue: &mut Queue,
    now: Instant,
) -> Result<(), AcceptFailed>
    requires { at_once ≤ 16 }
    ensures { (t : Traffic) × Grows (N.traffic network.old) (N.traffic network.new) t
        × MatchResult result
        (λ _. IsRound at_once hub.old seats.old t hub.new seats.new)
        (λ _. Admits at_once hub.old seats.old t hub.new seats.new)
        × (length t.accepted + queue.new.left ≡ queue.old.left) }
{
    admit(alloc, network, hub, at_once, seats, queue, now)?;
    turns(network, hub, at_once, seats, now);
    Ok(())
}

/// Whether nobody has a seat.
fn are_free<S: Socket + Drop>(seats: &Seats<S>) -> bool
    ensures { IsTrue result → AreFree seats.now }
{
    for slot in seats {
        if slot.is_some() {
            return false;
        }
    }
    true
}

/// Serves until every connection that is to be accepted is over.
fn serve_all<S: Socket + Drop, N: Network<S>>(
    alloc: Global,
    network: &mut N,
    hub: &mut Hub,
    seats: &mut Seats<S>,
    connections: u32,
    at_once: u8,
) -> Result<(), ServeFault>
    requires most { at_once ≤ 16 }
    requires free { AreFree seats.old }
    ensures { (t : Traffic) × Grows (N.traffic network.old) (N.traffic network.new) t
        × Serves at_once connections hub.old result t hub.new seats.new }
{
    let Ok(begun) = network.now() else {
        return Err(ServeFault::WaitFailed);
    };
    let mut queue = Queue {
        left: connections,
        is_awaited: true,
        since: begun,
    };
    for _round in 0..u64::MAX {
        let Ok(now) = network.now() else {
            return Err(ServeFault::WaitFailed);
        };
        let Ok(()) = round(alloc, network, hub, at_once, seats, &mut queue, now) else {
            return Err(ServeFault::AcceptFailed);
        };
        if queue.left == 0 && are_free(seats) {
            return Ok(());
        }
        let Ok(report) = network.wait(queue.wait_time(seats, now)) else {
            return Err(ServeFault::WaitFailed);
        };
        note(&report, seats, &mut queue, now);
    }
    Err(ServeFault::WaitFailed)
}

/// Closes the connections with these numbers, and takes their sockets back.
fn leave_all<S: Socket + Drop, N: Network<S>>(
    network: &mut N,
    hub: &mut Hub,
    at_once: u8,
    seats: &mut Seats<S>,
)
    requires { at_once ≤ 16 }
    ensures runs { (t : Traffic) × Grows (N.traffic network.old) (N.traffic network.new) t
        × Runs at_once hub.old (talks_of seats.old) t hub.new (talks_of seats.new)
        × (t.accepted ≡ []) }
    ensures over { AreOver at_once (talks_of seats.new) }
    ensures closed { AreClosed at_once hub.new }
{
    for number in 0..at_once {
        leave(network, hub, number, &mut seats[usize::from(number)]);
    }
}

/// Serves this many connections of a network, up to `at_once` at one time. In its turn, a
/// connection writes what is left of its answers; if nothing is left, it reads a piece of at most
/// 4,096 bytes, and feeds it to the hub under the connection's number.
///
/// A connection is over once its peer has closed it, or a request, and its answers are written; if a
/// read or a write fails; if an allocation fails; after 1,048,576 reads; after 60 seconds in which no
/// byte came or went; and once another waits, no number is free, and it is the one that has been
/// quiet longest, for 50 milliseconds at least, or for a second if it has not sent a byte yet, with no
/// unfinished request and nothing to write. After a second of waiting, any that is idle will do.
///
/// A connection has its number from the time when it is accepted until it is closed: what its socket
/// brings is fed under that number, and what is answered there is written to that socket. What the
/// connections did to the hub are events one after the other. In each round every connection that is
/// ready has its turn. In the end all these connections of the hub are closed again, their sockets
/// are taken back, and all other connections are as they were.
pub fn serve_together<S: Socket + Drop, N: Network<S>>(
    alloc: Global,
    network: &mut N,
    hub: &mut Hub,
    connections: u32,
    at_once: u8,
) -> Result<(), ServeFault>
    requires most { at_once ≤ 16 }
    requires closed { AreClosed at_once hub.old }
    ensures serves { (t : Traffic) × Grows (N.traffic network.old) (N.traffic network.new) t
        × IsServed at_once connections hub.old result t hub.new
        × RunsThrough at_once hub.old t hub.new }
    ensures goes { Goes at_once hub.old hub.new }
    ensures connections { rests_of hub.new ≡ rests_of hub.old }
{
    let mut seats = free_seats();
    let served = serve_all(alloc, network, hub, &mut seats, connections, at_once);
    leave_all(network, hub, at_once, &mut seats);
    served
}
