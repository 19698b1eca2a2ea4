//! Peers, which move some bytes in each call.
use crate::bytes::{bytes_in, quoted_bytes};
use gql_wire::{DevicePeer, MemPeer, Moves, Peer, write_all};
use std::alloc::Global;
use table_rows::join;

/// How many bytes a read asks for.
const PIECE_BYTES: usize = 4;

/// How many reads are made at most.
const MOST_READS: u64 = 1_000;

/// What `MOST` or `MOST fails after COUNT` says; `None` if MOST is 0.
pub fn moves_in(text: &str) -> Option<Moves> {
    let (most, failing) = match text.split_once(" fails after ") {
        Some((most, count)) => (most, Some(count.parse::<u64>().ok()?)),
        None => (text, None),
    };
    let most = most.parse::<usize>().ok()?;
    if most == 0 {
        return None;
    }
    Some(Moves { most, failing })
}

/// Adds what a read brings. Returns whether more bytes may follow; `None` if too many reads were
/// made.
fn read_once(peer: &mut MemPeer<'_>, written: &mut String) -> Option<bool> {
    if peer.reads > MOST_READS || peer.read_failures > MOST_READS {
        return None;
    }
    let mut piece = [0; PIECE_BYTES];
    let end = match peer.read(&mut piece) {
        Ok(0) => "end",
        Ok(count) => {
            let brought = quoted_bytes(*written.allocator(), &piece[..count]).ok()?;
            join(written, ", ", brought.as_str()).ok()?;
            return Some(true);
        }
        Err(_) => "failed",
    };
    join(written, ", ", end).ok()?;
    Some(false)
}

/// Adds what reads bring, up to the end or to a read that fails.
fn read_all(peer: &mut MemPeer<'_>, written: &mut String) -> Option<()> {
    for _ in 0..MOST_READS {
        if !read_once(peer, written)? {
            break;
        }
    }
    Some(())
}

/// What reads from a peer in memory bring, up to its end or to a read that fails, and how many
/// reads and failures there were: `MOVES`.
fn peer_reads(alloc: Global, bytes: &[u8], moves: &str) -> Option<String> {
    let mut peer = MemPeer::new(alloc, bytes, moves_in(moves)?, moves_in("1")?);
    let mut written = String::new(alloc);
    read_all(&mut peer, &mut written)?;
    let reads = peer.reads;
    let failures = peer.read_failures;
    write!(written, "; reads: {reads}, failures: {failures}").ok()?;
    Some(written)
}

/// What a peer in memory holds after all bytes are written to it, or after a write that fails:
/// `MOVES`.
fn peer_writes(alloc: Global, bytes: &[u8], moves: &str) -> Option<String> {
    let mut peer = MemPeer::new(alloc, &[], moves_in("1")?, moves_in(moves)?);
    let end = match write_all(&mut peer, bytes) {
        Ok(()) => "written",
        Err(_) => "failed",
    };
    let failures = peer.write_failures;
    let held = peer.sent_bytes(alloc).ok()?;
    let mut written = quoted_bytes(alloc, held.as_slice()).ok()?;
    write!(written, " {end}; failures: {failures}").ok()?;
    Some(written)
}

/// The answer to a question about a peer in memory: `reads MOVES` or `writes MOVES`.
pub fn peer_answer(alloc: Global, text: &str, question: &str) -> Option<String> {
    let bytes = bytes_in(alloc, text)?;
    match question.split_once(" ")? {
        ("reads", moves) => peer_reads(alloc, bytes.as_slice(), moves),
        ("writes", moves) => peer_writes(alloc, bytes.as_slice(), moves),
        _ => None,
    }
}

/// What a read brings from a peer over a reader of std, and how many reads were made.
fn device_reads(alloc: Global, bytes: &[u8]) -> Option<String> {
    let mut peer = DevicePeer::new(bytes, Vec::new(alloc));
    let mut piece = [0; PIECE_BYTES];
    let count = peer.read(&mut piece).ok()?;
    let reads = peer.reads;
    let mut brought = quoted_bytes(alloc, &piece[..count]).ok()?;
    write!(brought, "; reads: {reads}").ok()?;
    Some(brought)
}

/// What a writer of std holds after bytes are written to a peer over it.
fn device_writes(alloc: Global, bytes: &[u8]) -> Option<String> {
    let mut peer = DevicePeer::new(bytes, Vec::new(alloc));
    write_all(&mut peer, bytes).ok()?;
    quoted_bytes(alloc, peer.writer.as_slice()).ok()
}

/// The answer to a question about a peer over a reader and a writer of std: `reads` or `writes`.
pub fn device_answer(alloc: Global, text: &str, question: &str) -> Option<String> {
    let bytes = bytes_in(alloc, text)?;
    match question {
        "reads" => device_reads(alloc, bytes.as_slice()),
        "writes" => device_writes(alloc, bytes.as_slice()),
        _ => None,
    }
}
