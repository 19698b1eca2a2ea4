//! The connections that are served at one time.
ghost use Rattle.std.specs.Prelude.{◌≡◌, ◌<◌, ◌≤◌, ◌+◌, ◌-◌, [], length, IfSome, IsTrue, ℕ, None, Some, true, false, get_or};
ghost use Rattle.std.specs.Duration.{as_nanos};
ghost use Rattle.std.specs.Time.{instant_nanos};
ghost use Rattle.gql_http.specs.Events.{Does, closes, opens};
ghost use Rattle.gql_http.specs.Hubs.{rests_of, service_of};
ghost use Rattle.gql_server.specs.Rooms.{Moves, TurnsOrStays, taken_back, talk_in};
ghost use Rattle.gql_server.specs.Rounds.{IsIdle, IsNoted};
ghost use Rattle.gql_server.specs.Seats.{Advances, HasItsTurn};
ghost use Rattle.gql_server.specs.Traffic.{Grows, Traffic};
ghost use Rattle.gql_server.specs.Turns.{line_of};
ghost use Rattle.gql_server.specs.Waits.{IsLeast, most_quiet};
ghost use Rattle.gql_server.specs.Waits as limits;

use crate::network::Network;
use crate::place::{Next, Place};
use crate::socket::Socket;
use gql_http::Hub;
use std::marker::Model;
use std::time::{Duration, Instant};

/// A connection that sends no byte and takes none for this many seconds is given up.
const QUIET_SECONDS: u64 = 60;

/// A connection that has not sent a byte yet is left its place for this many milliseconds.
const FIRST_MILLISECONDS: u64 = 1000;

/// A connection that is served. Contracts see the connection, whether it is ready, and when bytes came
/// or went last.
#[derive(Drop)]
pub struct Seat<S: Socket + Drop> {
    place: Place<S>,
    /// Whether it has a turn before the next wait.
    is_ready: bool,
    /// Whether no byte has come yet.
    is_new: bool,
    /// When bytes came or went last.
    since: Instant,
}

impl<S: Socket + Drop> Model for Seat<S> {
    ghost use Rattle.std.specs.Time.{instant_nanos};
    ghost use Rattle.gql_server.specs.Seated.{Seated};

    ghost Value = { Seated };

    ghost view = { λ s. record {
      talk = s.place;
      is_ready = s.is_ready;
      since = instant_nanos s.since;
    } };
}

impl<S: Socket + Drop> Seat<S> {
    /// The seat of a connection that has just been accepted. It has a turn before the next wait.
    pub fn new(place: Place<S>, now: Instant) -> Seat<S>
        ensures { result ≡ record { talk = place; is_ready = true; since = instant_nanos now } }
    {
        Seat {
            place,
            is_ready: true,
            is_new: true,
            since: now,
        }
    }

    /// The socket of a connection that is over.
    fn into_socket(self) -> S
        ensures { S.line result ≡ line_of self.talk }
    {
        let Seat { place, .. } = self;
        place.into_socket()
    }

    /// Notes that the socket may be ready.
    fn mark_ready(&mut self)
        ensures { self.new ≡ record self.old { is_ready = true } }
    {
        self.is_ready = true;
    }

    /// Gives the connection a turn. Returns whether it is over.
    fn turn(&mut self, hub: &mut Hub, number: u8, now: Instant) -> bool
        ensures { Advances number hub.old self.old hub.new self.new result }
    {
        let next = self.place.turn(hub, number);
        if self.place.take_moved() {
            self.since = now;
            self.is_new = false;
        }
        match next {
            Next::Ready => {
                self.is_ready = true;
                false
            }
            Next::Waits => {
                self.is_ready = false;
                false
            }
            Next::Over(_) => {
                self.is_ready = false;
                true
            }
        }
    }

    /// Whether no byte came or went for too long.
    fn is_given_up(&self, now: Instant) -> bool {
        now.duration_since(self.since).as_secs() >= QUIET_SECONDS
    }

    /// Gives the connection a turn if it is ready. Returns whether it is over, or was quiet for too
    /// long.
    fn advance(&mut self, hub: &mut Hub, number: u8, now: Instant) -> bool
        ensures moves { TurnsOrStays number hub.old self.old.talk hub.new self.new.talk }
        ensures ready { self.old.is_ready ≡ true
            → Advances number hub.old self.old hub.new self.new result }
        ensures quiet { self.old.is_ready ≡ false
            → (hub.new ≡ hub.old) × (self.new ≡ self.old) }
    {
        if self.is_ready {
            self.turn(hub, number, now)
        } else {
            self.is_given_up(now)
        }
    }

    /// Whether nothing is left to read, to answer or to write, as far as is known, and no byte came
    /// or went for so long. The first byte may take longer.
    fn is_idle(&self, now: Instant, least: Duration) -> bool
        ensures { IsTrue result → (self.now.is_ready ≡ false)
            × (self.now.talk.unfed ≡ []) × (self.now.talk.unsent ≡ []) }
    {
        let quiet = now.duration_since(self.since);
        let is_late = !self.is_new || quiet >= Duration::from_millis(FIRST_MILLISECONDS);
        !self.is_ready && self.place.is_quiet() && quiet >= least && is_late
    }

    /// How long the connection may still be quiet.
    fn time_left(&self, now: Instant) -> Duration
        ensures { as_nanos result ≡ most_quiet - (instant_nanos now - self.now.since) }
    {
        Duration::from_secs(QUIET_SECONDS).saturating_sub(now.duration_since(self.since))
    }
}

/// Closes a connection, if it is open.
pub fn close(hub: &mut Hub, number: u8)
    ensures does { Does (service_of hub.old) (rests_of hub.old) (closes number) []
        (service_of hub.new) (rests_of hub.new) }
    ensures closed { rests_of hub.new number ≡ None }
    ensures others { (c : ℕ) → rests_of hub.old c ≡ None → rests_of hub.new c ≡ None }
{
    hub.close(number);
}

/// Opens a connection, if it is closed.
pub fn open(hub: &mut Hub, number: u8)
    ensures { Does (service_of hub.old) (rests_of hub.old) (opens number) []
        (service_of hub.new) (rests_of hub.new) }
{
    let _ = hub.open(number);
}

/// Closes the number of a connection and takes its socket back, if somebody has the seat. Nobody has
/// it then.
pub fn leave<S: Socket + Drop, N: Network<S>>(
    network: &mut N,
    hub: &mut Hub,
    number: u8,
    slot: &mut Option<Seat<S>>,
)
    ensures does { Does (service_of hub.old) (rests_of hub.old) (closes number) []
        (service_of hub.new) (rests_of hub.new) }
    ensures closed { rests_of hub.new number ≡ None }
    ensures others { (c : ℕ) → rests_of hub.old c ≡ None → rests_of hub.new c ≡ None }
    ensures returned { Grows (N.traffic network.old) (N.traffic network.new)
        (taken_back (talk_in slot.old)) }
    ensures free { slot.new ≡ None }
{
    close(hub, number);
    if let Some(seat) = slot.take() {
        network.take_back(seat.into_socket());
    }
}

/// Gives a connection a turn if it is ready. If it is over, or was quiet for too long, it is closed.
pub fn turn_of<S: Socket + Drop, N: Network<S>>(
    network: &mut N,
    hub: &mut Hub,
    at_once: u8,
    number: u8,
    slot: &mut Option<Seat<S>>,
    now: Instant,
)
    requires { number < at_once }
    ensures moves { (t : Traffic) × Grows (N.traffic network.old) (N.traffic network.new) t
        × Moves at_once number hub.old (talk_in slot.old) t hub.new (talk_in slot.new)
        × (t.accepted ≡ []) }
    ensures turn { HasItsTurn number slot.old slot.new }
{
    let Some(seat) = slot else {
        return;
    };
    let is_over = seat.advance(hub, number, now);
    if is_over {
        leave(network, hub, number, slot);
    }
}

/// The connections that are served, each under its number at the hub.
pub type Seats<S> = [Option<Seat<S>>; 16];

/// Seats that nobody has.
pub fn free_seats<S: Socket + Drop>() -> Seats<S>
    ensures { (c : ℕ) → get_or result c None ≡ None }
{
    [
        None, None, None, None, None, None, None, None, None, None, None, None, None, None, None,
        None,
    ]
}

/// Notes that the connection of a seat may be ready, if its socket is reported and somebody has the
/// seat.
pub fn note_seat<S: Socket + Drop>(slot: &mut Option<Seat<S>>, is_reported: bool)
    ensures { IsNoted is_reported slot.old slot.new }
{
    if !is_reported {
        return;
    }
    if let Some(seat) = slot {
        seat.mark_ready();
    }
}

/// A place for the next connection: a free one, or that of the connection which has been quiet
/// longest, and for so long at least, if it is not ready, has no unfinished request and nothing is
/// left to write to it.
pub fn next_place<S: Socket + Drop>(
    hub: &Hub,
    at_once: u8,
    seats: &Seats<S>,
    now: Instant,
    least: Duration,
) -> Option<u8>
    requires { at_once ≤ 16 }
    ensures { IfSome result (λ number.
        (number < at_once) × IsIdle (get_or seats.now number None)) }
{
    let mut longest: Option<(u8, Instant)> = None;
    for number in 0..at_once {
        let Some(seat) = &seats[usize::from(number)] else {
            return Some(number);
        };
        if seat.is_idle(now, least) && !hub.has_rest(number) && is_before(seat.since, &longest) {
            longest = Some((number, seat.since));
        }
    }
    match longest {
        Some((number, _)) => Some(number),
        None => None,
    }
}

/// Whether a time is before the one found so far, if there is one.
fn is_before(since: Instant, found: &Option<(u8, Instant)>) -> bool {
    match found {
        Some((_, earlier)) => since < *earlier,
        None => true,
    }
}

/// The shorter of two waits; none is a wait without end.
pub fn shorter(one: Option<Duration>, other: Duration) -> Option<Duration>
    ensures { result ≡ limits.shorter one other }
{
    match one {
        Some(one) => {
            if one.as_nanos() < other.as_nanos() {
                Some(one)
            } else {
                Some(other)
            }
        }
        None => Some(other),
    }
}

/// How long to wait for the next event: not at all if a connection is ready for another turn, and
/// otherwise until the first one was quiet for too long; without end if nobody has a seat.
pub fn wait_time<S: Socket + Drop>(seats: &Seats<S>, now: Instant) -> Option<Duration>
    ensures { IsLeast now (length seats.now) seats.now result }
{
    let mut wait = None;
    for slot in seats.iter() {
        if let Some(seat) = slot {
            if seat.is_ready {
                return Some(Duration::ZERO);
            }
            wait = shorter(wait, seat.time_left(now));
        }
    }
    wait
}
