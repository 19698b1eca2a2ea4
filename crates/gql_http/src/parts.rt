//! The parts of a piece that was read. Each is fed, and its answers are written, before the next.
ghost use Rattle.std.specs.Prelude.{◌≡◌, ◌≢◌, ◌+◌, ◌-◌, ◌^◌, ◌<◌, ◌≤◌, ◌++◌, ℕ, List, Some, length};
ghost use Rattle.gql_http.specs.Hubs.{service_of, rests_of};
ghost use Rattle.gql_http.specs.Parts.{Holds, Made, IsServed, unwritten};

use crate::hub::Hub;
use gql_wire::laws::{closed_drops, more_bytes, one_split, rest_is_unfinished, some_split};
use gql_wire::{Peer, write_all};

/// How the head of a request ends: with an empty line.
const HEAD_END: &[u8] = b"\r\n\r\n";

/// How a piece was served.
#[derive(Clone, Copy, Debug, PartialEq, Eq)]
pub enum Served {
    /// All answers are written, and the connection is open.
    Open,
    /// A request closed the connection, and all answers are written.
    Closed,
    /// A write failed. All requests are made all the same.
    WriteFailed,
    /// An allocation failed. The answers to all requests that were made are written.
    Memory,
}

/// The length of the next part of the bytes that is fed: up to the end of a head, so that a part
/// completes few requests, and their answers are written before the next part is fed.
pub fn part_length(bytes: &[u8]) -> usize
    requires { 0 < length bytes.now }
    ensures { (0 < result) × (result ≤ length bytes.now) }
{
    let end = bytes
        .windows(HEAD_END.len())
        .position(|window| *window == *HEAD_END);
    match end {
        Some(at) => at + HEAD_END.len(),
        None => bytes.len(),
    }
}

/// Feeds bytes to connection 0 in parts, up to a request that closes it, and drops the answers.
fn feed_rest(hub: &mut Hub, bytes: &[u8])
    requires held { (held : List ℕ) × Holds (service_of hub.old) (rests_of hub.old 0) held }
    ensures made { (held out : List ℕ) × Holds (service_of hub.old) (rests_of hub.old 0) held
        × Made (service_of hub.old) (held ++ bytes.now) out (service_of hub.new) }
    ensures others { (c : ℕ) → c ≢ 0 → rests_of hub.new c ≡ rests_of hub.old c }
{
    // The laws by which the parts of a stream are joined.
    some_split();
    one_split();
    more_bytes();
    closed_drops();
    let mut rest = bytes;
    'parts: while !rest.is_empty() {
        let (part, later) = rest.split_at(part_length(rest));
        let fed = hub.feed(0, part);
        if fed.closed {
            return;
        }
        rest = later;
    }
}

/// Feeds a piece to connection 0 in parts, up to a request that closes it, and writes the answers
/// to each part before the next is fed. After a write that fails, the other requests are made
/// without an answer.
pub fn serve_piece<P: Peer>(hub: &mut Hub, peer: &mut P, piece: &[u8]) -> Served
    requires held { (held : List ℕ) × Holds (service_of hub.old) (rests_of hub.old 0) held }
    requires writable { P.write_failures peer.old < 2 ^ 64 - 1 }
    ensures served { (held : List ℕ) × Holds (service_of hub.old) (rests_of hub.old 0) held
        × IsServed result (P.transcript peer.old) (P.transcript peer.new) (service_of hub.old)
        (held ++ piece.now) (service_of hub.new) (rests_of hub.new 0) }
    ensures others { (c : ℕ) → c ≢ 0 → rests_of hub.new c ≡ rests_of hub.old c }
    ensures failed { P.write_failures peer.new ≡ P.write_failures peer.old + unwritten result }
    ensures peer { (P.reads peer.new ≡ P.reads peer.old)
        × (P.read_failures peer.new ≡ P.read_failures peer.old)
        × (P.ended peer.new ≡ P.ended peer.old) }
{
    // The laws by which the parts of a stream are joined.
    some_split();
    one_split();
    more_bytes();
    closed_drops();
    rest_is_unfinished();
    let mut rest = piece;
    'parts: while !rest.is_empty() {
        let (part, later) = rest.split_at(part_length(rest));
        let fed = hub.feed(0, part);
        let Ok(()) = write_all(peer, fed.out.as_slice()) else {
            if fed.closed {
                return Served::WriteFailed;
            }
            feed_rest(hub, later);
            return Served::WriteFailed;
        };
        if fed.memory {
            return Served::Memory;
        }
        if fed.closed {
            return Served::Closed;
        }
        rest = later;
    }
    Served::Open
}
