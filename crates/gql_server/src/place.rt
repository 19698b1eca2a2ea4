//! A connection that is served: its socket, what was read and is not fed yet, and the answers that
//! are not written yet.
ghost use Rattle.std.specs.Prelude.{◌≡◌, ◌<◌, ◌≤◌, ◌+◌, [], ◌∷◌, ◌++◌, List, ℕ, Option, Some, None, length, take, drop, IfOk, OnOk, OnErr, IsTrue, IsSome, MatchResult, Bool, true, false};
ghost use Rattle.gql_wire.specs.Peer.{Passage, Adds, received, received_in, sent_in};
ghost use Rattle.gql_http.specs.Hubs.{rests_of, service_of};
ghost use Rattle.gql_server.specs.Steps as steps;
ghost use Rattle.gql_server.specs.Turns as spec;

use crate::socket::{Socket, SocketFailed};
use gql_http::{Hub, part_length};
use std::alloc::{AllocError, Global};
use std::marker::Model;
use std::mem::swap;

/// The greatest number of bytes that a read brings.
const PIECE_BYTES: usize = 4096;

/// The greatest number of reads that a connection is served.
pub const MAX_READS: u64 = 1_048_576;

/// Why a connection is over.
#[derive(Clone, Copy, Debug, PartialEq, Eq)]
pub enum End {
    /// A request closed it, or a failed allocation, and its answers are written.
    Answered,
    /// Its input is at its end, and its answers are written.
    Ended,
    /// A read or a write failed.
    Failed,
    /// It has had all its reads, and its answers are written.
    Spent,
}

/// What a connection needs next.
#[derive(Clone, Copy, Debug, PartialEq, Eq)]
pub enum Next {
    /// Another turn.
    Ready,
    /// Another turn once its socket has bytes, or room for some.
    Waits,
    /// It is over.
    Over(End),
}

/// A connection that is served. Contracts see what passed on its socket, the bytes that are still to
/// be fed, those that are still to be written, and how often the socket could move nothing.
#[derive(Drop)]
pub struct Place<S: Socket + Drop> {
    socket: Box<S>,
    /// A read fills it; the bytes from `from` up to `to` are not fed yet.
    piece: Vec<u8>,
    from: usize,
    to: usize,
    /// The answers to the last piece; those from `at` on are not written yet.
    unsent: Vec<u8>,
    at: usize,
    reads: u64,
    /// Whether bytes came or went since `take_moved`.
    has_moved: bool,
}

impl<S: Socket + Drop> Model for Place<S> {
    ghost use Rattle.std.specs.Prelude.{◌≡◌, ◌≤◌, ◌<◌, ◌-◌, length, take, drop};
    ghost use Rattle.gql_server.specs.Turns.{Talk, most_reads};

    ghost Value = { Talk };

    ghost view = { λ p. record {
      transcript = (S.line p.socket.value).transcript;
      unfed = take (p.to - p.from) (drop p.from p.piece.items);
      unsent = drop p.at p.unsent.items;
      reads = p.reads;
      has_failed = (S.line p.socket.value).has_failed;
      ended = (S.line p.socket.value).ended;
      waits = (S.line p.socket.value).waits;
    } };

    ghost invariant = { λ p. (p.from ≤ p.to) × (p.to ≤ length p.piece.items)
        × (p.at ≤ length p.unsent.items) × (0 < length p.piece.items) × (p.reads ≤ most_reads) };
}

/// What the reads of a connection fill.
pub fn new_piece(alloc: Global) -> Result<Vec<u8>, AllocError>
    ensures { IfOk result (λ piece. 0 < length piece.items) }
{
    Vec::from_elem(alloc, 0, PIECE_BYTES)
}

/// How far the answers are written.
#[derive(Clone, Copy, Debug, PartialEq, Eq)]
enum Sending {
    /// All of them are.
    Done,
    /// Some are left, and the socket may take more.
    Part,
    /// Some are left, and the socket takes none now.
    Waits,
}

impl<S: Socket + Drop> Place<S> {
    /// A connection of which nothing was read. Its reads fill the piece. If an allocation fails, the
    /// socket is given back.
    pub fn new(alloc: Global, socket: S, piece: Vec<u8>) -> Result<Place<S>, S>
        requires { 0 < length piece.items }
        ensures { MatchResult result (λ place. place ≡ spec.begun (S.line socket))
            (λ back. back ≡ socket) }
    {
        let socket = match Box::new(alloc, socket) {
            Ok(socket) => socket,
            Err(failed) => return Err(failed.value),
        };
        Ok(Place {
            socket,
            piece,
            from: 0,
            to: 0,
            unsent: Vec::new(alloc),
            at: 0,
            reads: 0,
            has_moved: false,
        })
    }

    /// The socket of a connection that is over.
    pub fn into_socket(self) -> S
        ensures { S.line result ≡ spec.line_of self }
    {
        let Place { socket, .. } = self;
        Box::into_inner(socket)
    }

    /// Whether every byte that was read is fed, and every answer is written.
    pub fn is_quiet(&self) -> bool
        ensures { IsTrue result → (self.now.unfed ≡ []) × (self.now.unsent ≡ []) }
    {
        self.from == self.to && self.at == self.unsent.len()
    }

    /// Whether bytes came or went since the last call.
    pub fn take_moved(&mut self) -> bool
        ensures { self.new ≡ self.old }
    {
        let has_moved = self.has_moved;
        self.has_moved = false;
        has_moved
    }

    /// Writes what is left of the answers, as far as the socket takes it in one write.
    fn send(&mut self) -> Result<Sending, SocketFailed>
        ensures writes { steps.Writes self.old self.new }
        ensures result { steps.IsSending self.old result self.new }
    {
        if self.at == self.unsent.len() {
            return Ok(Sending::Done);
        }
        let left = &self.unsent[self.at..];
        let Some(count) = self.socket.write(left)? else {
            return Ok(Sending::Waits);
        };
        self.at += count;
        self.has_moved = true;
        if self.at == self.unsent.len() {
            Ok(Sending::Done)
        } else {
            Ok(Sending::Part)
        }
    }

    /// Feeds the next part of what was read, and keeps the answers to be written.
    fn feed(&mut self, hub: &mut Hub, connection: u8)
        requires some { 0 < length self.old.unfed }
        requires sent { self.old.unsent ≡ [] }
        requires open { IsSome (rests_of hub.old connection) }
        ensures fed { steps.IsFed connection hub.old self.old hub.new self.new }
    {
        let length = part_length(&self.piece[self.from..self.to]);
        let end = self.from + length;
        let mut fed = hub.feed(connection, &self.piece[self.from..end]);
        self.from = end;
        swap(&mut self.unsent, &mut fed.out);
        self.at = 0;
    }

    /// Reads a piece.
    fn read(&mut self) -> Result<Option<usize>, SocketFailed>
        requires fed { self.old.unfed ≡ [] }
        requires reads { self.old.reads < spec.most_reads }
        ensures reads { steps.Reads self.old self.new }
        ensures result { steps.IsReading self.old result self.new }
    {
        self.reads += 1;
        self.from = 0;
        self.to = 0;
        let Some(count) = self.socket.read(self.piece.as_mut_slice())? else {
            return Ok(None);
        };
        self.to = count;
        self.has_moved = count > 0;
        Ok(Some(count))
    }

    /// Feeds the next part of what was read, and writes its answers.
    #[tactic(auto, using(crate::proofs::Turning::fed_failed, crate::proofs::Turning::fed_waits, crate::proofs::Turning::fed_ready))]
    fn serve(&mut self, hub: &mut Hub, connection: u8) -> Next
        requires some { 0 < length self.old.unfed }
        requires sent { self.old.unsent ≡ [] }
        requires open { IsSome (rests_of hub.old connection) }
        ensures { spec.IsTurn connection hub.old self.old result hub.new self.new }
    {
        self.feed(hub, connection);
        match self.send() {
            Err(_) => Next::Over(End::Failed),
            Ok(Sending::Waits) => Next::Waits,
            Ok(Sending::Part) => Next::Ready,
            Ok(Sending::Done) => Next::Ready,
        }
    }

    /// Reads a piece, feeds its first part, and writes the answers to that.
    #[tactic(auto, using(crate::proofs::Turning::read_failed, crate::proofs::Turning::read_waits, crate::proofs::Turning::read_ended, crate::proofs::Turning::after_reads))]
    fn read_and_serve(&mut self, hub: &mut Hub, connection: u8) -> Next
        requires fed { self.old.unfed ≡ [] }
        requires reads { self.old.reads < spec.most_reads }
        requires sent { self.old.unsent ≡ [] }
        requires open { IsSome (rests_of hub.old connection) }
        ensures { spec.IsTurn connection hub.old self.old result hub.new self.new }
    {
        match self.read() {
            Err(_) => Next::Over(End::Failed),
            Ok(None) => Next::Waits,
            Ok(Some(0)) => Next::Over(End::Ended),
            Ok(Some(_)) => self.serve(hub, connection),
        }
    }

    /// Feeds the next part of what was read, or of what is read now, and writes the answers.
    #[tactic(auto, using(crate::proofs::Turning::nothing_answered, crate::proofs::Turning::nothing_spent))]
    fn go_on(&mut self, hub: &mut Hub, connection: u8) -> Next
        requires sent { self.old.unsent ≡ [] }
        ensures { spec.IsTurn connection hub.old self.old result hub.new self.new }
    {
        if !hub.is_open(connection) {
            return Next::Over(End::Answered);
        }
        if self.from < self.to {
            return self.serve(hub, connection);
        }
        if self.reads == MAX_READS {
            return Next::Over(End::Spent);
        }
        self.read_and_serve(hub, connection)
    }

    /// Gives the connection its turn: writes what is left of its answers; if nothing is left, feeds
    /// the next part of what it sent, and writes the answers to that.
    ///
    /// It asks for another turn only if a byte was read, fed or written, and waits only if its socket
    /// could give or take nothing.
    #[tactic(auto, using(crate::proofs::Turning::write_failed, crate::proofs::Turning::write_waits, crate::proofs::Turning::write_part, crate::proofs::Turning::after_writes))]
    pub fn turn(&mut self, hub: &mut Hub, connection: u8) -> Next
        ensures { spec.IsTurn connection hub.old self.old result hub.new self.new }
    {
        match self.send() {
            Err(_) => Next::Over(End::Failed),
            Ok(Sending::Waits) => Next::Waits,
            Ok(Sending::Part) => Next::Ready,
            Ok(Sending::Done) => self.go_on(hub, connection),
        }
    }
}
