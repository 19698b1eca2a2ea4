//! A pipe: the requests of a peer, answered on one connection.
ghost use Rattle.std.specs.Prelude.{◌≡◌, ◌≢◌, ◌+◌, ◌-◌, ◌^◌, ◌<◌, ℕ, List, [], Some, None, IsErrOf, min, if◌then◌else◌};
ghost use Rattle.gql_wire.specs.Peer.{Passage, Adds};
ghost use Rattle.gql_http.specs.Hubs.{service_of, rests_of, is_unfinished};
ghost use Rattle.gql_http.specs.Pipes.{IsExchange, failed_reads, failed_writes, most_reads};
ghost use Rattle.gql_http.specs.Statuses.{status};

use crate::hub::Hub;
use crate::parts::{Served, serve_piece};
use gql_wire::Peer;
use gql_wire::laws::{
    more_bytes, nothing_is_unfinished, one_split, rest_is_unfinished, some_split,
};
use thiserror::Error;

/// The greatest number of bytes that a read brings.
const PIECE_BYTES: usize = 4096;

/// The greatest number of reads that a pipe makes.
const MAX_READS: u64 = 1_048_576;

/// How a pipe ended if nothing failed.
#[derive(Clone, Copy, Debug, PartialEq, Eq)]
pub enum PipeEnd {
    /// Every request was answered, or one closed the connection.
    Whole,
    /// The input ended within a request.
    Rest,
}

/// Why a pipe ended early. The connection is closed.
#[derive(Clone, Copy, Debug, PartialEq, Eq, Error)]
pub enum PipeFault {
    /// 331: a read failed. The answers to all requests that were complete are written.
    #[error("reading failed")]
    ReadFailed,
    /// 332: a write failed. The first bytes of the answers are written.
    #[error("writing failed")]
    WriteFailed,
    /// 333: 1,048,576 reads were made. The answers to all requests that were complete are written.
    #[error("too many reads")]
    TooManyReads,
    /// 334: an allocation failed. The answers to all requests that were made are written.
    #[error("out of memory")]
    Memory,
}

/// The exit status of a program that runs a pipe: 0 if every request was answered or one closed the
/// connection, 3 if the input ended within a request, 4 if an allocation failed, 1 for another
/// fault.
pub fn status_of(ended: &Result<PipeEnd, PipeFault>) -> u8
    ensures { result ≡ status ended.now }
{
    match ended {
        Ok(PipeEnd::Whole) => 0,
        Ok(PipeEnd::Rest) => 3,
        Err(PipeFault::Memory) => 4,
        Err(_) => 1,
    }
}

/// How the input ends on connection 0.
fn end_of(hub: &Hub) -> PipeEnd
    ensures { result ≡ (if is_unfinished (rests_of hub.now 0) then PipeEnd.Rest
        else PipeEnd.Whole) }
{
    if hub.has_rest(0) {
        PipeEnd::Rest
    } else {
        PipeEnd::Whole
    }
}

/// Reads pieces, feeds them to connection 0 and writes the answers to each before the next is read.
fn exchange<P: Peer>(hub: &mut Hub, peer: &mut P) -> Result<PipeEnd, PipeFault>
    requires open { rests_of hub.old 0 ≡ Some [] }
    requires readable { P.read_failures peer.old < 2 ^ 64 - 1 }
    requires writable { P.write_failures peer.old < 2 ^ 64 - 1 }
    ensures exchange { (passed : List Passage)
        × Adds (P.transcript peer.old) (P.transcript peer.new) passed
        × IsExchange (record { before = service_of hub.old; after = service_of hub.new; passed = passed; ended = P.ended peer.new; result = result }) }
    ensures others { (c : ℕ) → c ≢ 0 → rests_of hub.new c ≡ rests_of hub.old c }
    ensures read_failures { P.read_failures peer.new
        ≡ P.read_failures peer.old + failed_reads result }
    ensures write_failures { P.write_failures peer.new
        ≡ P.write_failures peer.old + failed_writes result }
    ensures too_many { IsErrOf result PipeFault.TooManyReads
        → P.reads peer.new ≡ min (P.reads peer.old + most_reads) (2 ^ 64 - 1) }
{
    // The laws by which pieces of a stream are joined.
    nothing_is_unfinished();
    rest_is_unfinished();
    some_split();
    one_split();
    more_bytes();
    let mut piece = [0; PIECE_BYTES];
    for _turn in 0..MAX_READS {
        let Ok(count) = peer.read(&mut piece) else {
            return Err(PipeFault::ReadFailed);
        };
        if count == 0 {
            return Ok(end_of(hub));
        }
        match serve_piece(hub, peer, &piece[..count]) {
            Served::Open => {}
            Served::Closed => return Ok(PipeEnd::Whole),
            Served::WriteFailed => return Err(PipeFault::WriteFailed),
            Served::Memory => return Err(PipeFault::Memory),
        }
    }
    Err(PipeFault::TooManyReads)
}

/// Reads pieces of at most 4,096 bytes from the peer and feeds them to connection 0, up to the end
/// of the input or to a request that closes the connection. A piece is fed in parts, each up to the
/// end of a head, and the answers to a part are written before the next part is fed or a piece is
/// read. Connection 0 is closed before and after, on every way out, and every other connection is
/// as it was.
pub fn pipe<P: Peer>(hub: &mut Hub, peer: &mut P) -> Result<PipeEnd, PipeFault>
    requires closed { rests_of hub.old 0 ≡ None }
    requires readable { P.read_failures peer.old < 2 ^ 64 - 1 }
    requires writable { P.write_failures peer.old < 2 ^ 64 - 1 }
    ensures exchange { (passed : List Passage)
        × Adds (P.transcript peer.old) (P.transcript peer.new) passed
        × IsExchange (record { before = service_of hub.old; after = service_of hub.new; passed = passed; ended = P.ended peer.new; result = result }) }
    ensures connections { rests_of hub.new ≡ rests_of hub.old }
    ensures read_failures { P.read_failures peer.new
        ≡ P.read_failures peer.old + failed_reads result }
    ensures write_failures { P.write_failures peer.new
        ≡ P.write_failures peer.old + failed_writes result }
    ensures too_many { IsErrOf result PipeFault.TooManyReads
        → P.reads peer.new ≡ min (P.reads peer.old + most_reads) (2 ^ 64 - 1) }
{
    let Ok(()) = hub.open(0) else {
        unreachable!();
    };
    let ended = exchange(hub, peer);
    hub.close(0);
    ended
}
