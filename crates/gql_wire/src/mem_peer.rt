//! A peer in memory, for tests and for programs that have no connection.
ghost use Rattle.std.specs.Prelude.{◌≡◌, ◌+◌, ◌-◌, ◌^◌, ◌<◌, ◌≤◌, ◌↔◌, ◌≢◌, [], ◌∷◌, ◌++◌, Some, length, take, drop, map, min, IfOk, OnOk, OnErr, MatchResult, IsTrue, IsErr, true, nat_le};
ghost use Rattle.gql_wire.specs.Peer.{received, sent, sent_in, Adds};
ghost use Rattle.gql_wire.specs.MemPeer.{passage, next_failing};

use crate::peer::{Peer, ReadFailed, WriteFailed};
use std::alloc::{AllocError, Global};

/// One read or write that did not fail, with its bytes.
#[derive(Debug, Drop, PartialEq, Eq)]
pub enum Passed {
    /// The peer's bytes were read.
    Received(Vec<u8>),
    /// Bytes were written to the peer.
    Sent(Vec<u8>),
}

/// How the calls of one direction go.
#[derive(Clone, Copy, Debug, PartialEq, Eq)]
pub struct Moves {
    /// The most bytes that a call moves.
    pub most: usize,
    /// How many calls succeed before one fails, if one does.
    pub failing: Option<u64>,
    ghost some: { 0 < most },
}

/// The other end of a connection, in memory.
#[derive(Drop)]
pub struct MemPeer<'a> {
    /// All bytes that it sends.
    pub input: &'a [u8],
    /// How many of them were read.
    pub at: usize,
    /// How the reads go.
    pub reading: Moves,
    /// How the writes go.
    pub writing: Moves,
    /// What passed so far, in order.
    pub passages: Vec<Passed>,
    /// How many reads were made, those that failed included, up to 2^64 - 1.
    pub reads: u64,
    /// How many reads failed.
    pub read_failures: u64,
    /// How many writes failed.
    pub write_failures: u64,
    ghost within: { at ≤ length input.now },
}

/// Whether this call succeeds.
fn succeeds(failing: &mut Option<u64>) -> bool
    ensures now { IsTrue result ↔ (failing.old ≢ Some 0) }
    ensures next { failing.new ≡ next_failing failing.old }
{
    match *failing {
        None => true,
        Some(0) => {
            *failing = None;
            false
        }
        Some(count) => {
            *failing = Some(count - 1);
            true
        }
    }
}

/// Notes that these bytes were read.
fn note_received(passages: &mut Vec<Passed>, bytes: &[u8]) -> Result<(), AllocError>
    ensures ok { OnOk result (map passage passages.new.items
        ≡ map passage passages.old.items ++ received bytes.now ∷ []) }
    ensures err { OnErr result (passages.new.items ≡ passages.old.items) }
{
    let bytes = Vec::from_slice(*passages.allocator(), bytes)?;
    passages.push(Passed::Received(bytes))?;
    Ok(())
}

/// Notes that these bytes were written.
fn note_sent(passages: &mut Vec<Passed>, bytes: &[u8]) -> Result<(), AllocError>
    ensures ok { OnOk result (map passage passages.new.items
        ≡ map passage passages.old.items ++ sent bytes.now ∷ []) }
    ensures err { OnErr result (passages.new.items ≡ passages.old.items) }
{
    let bytes = Vec::from_slice(*passages.allocator(), bytes)?;
    passages.push(Passed::Sent(bytes))?;
    Ok(())
}

impl<'a> MemPeer<'a> {
    /// A peer that sends these bytes, to which nothing was written yet.
    pub fn new(alloc: Global, input: &'a [u8], reading: Moves, writing: Moves) -> MemPeer<'a>
        ensures input { result.input.now ≡ input.now }
        ensures at { result.at ≡ 0 }
        ensures moves { (result.reading ≡ reading) × (result.writing ≡ writing) }
        ensures passages { result.passages.items ≡ [] }
        ensures reads { result.reads ≡ 0 }
        ensures failures { (result.read_failures ≡ 0) × (result.write_failures ≡ 0) }
    {
        MemPeer {
            input,
            at: 0,
            reading,
            writing,
            passages: Vec::new(alloc),
            reads: 0,
            read_failures: 0,
            write_failures: 0,
        }
    }

    /// A copy of all bytes that were written, in their order.
    pub fn sent_bytes(&self, alloc: Global) -> Result<Vec<u8>, AllocError>
        ensures { IfOk result (λ v. v.items ≡ sent_in (map passage self.now.passages.items)) }
    {
        let mut all = Vec::new(alloc);
        for passed in &self.passages {
            if let Passed::Sent(bytes) = passed {
                all.extend_from_slice(bytes.as_slice())?;
            }
        }
        Ok(all)
    }
}

impl<'a> Peer for MemPeer<'a> {
    ghost transcript = { λ s. Some (map passage s.passages.items) };

    ghost reads = { λ s. s.reads };

    ghost read_failures = { λ s. s.read_failures };

    ghost write_failures = { λ s. s.write_failures };

    ghost ended = { λ s. nat_le (length s.input.now) s.at };

    fn read(&mut self, piece: &mut [u8]) -> Result<usize, ReadFailed>
        requires countable { self.old.read_failures < 2 ^ 64 - 1 }

        // What each peer ensures.
        ensures within { IfOk result (λ n. n ≤ length piece.new) }
        ensures received { IfOk result (λ n. Adds (Some (map passage self.old.passages.items))
            (Some (map passage self.new.passages.items)) (received (take n piece.new) ∷ [])) }
        ensures none { OnErr result (Adds (Some (map passage self.old.passages.items))
            (Some (map passage self.new.passages.items)) []) }
        ensures counted { self.new.reads ≡ min (self.old.reads + 1) (2 ^ 64 - 1) }
        ensures failed { MatchResult result
            (λ _. self.new.read_failures ≡ self.old.read_failures)
            (λ _. self.new.read_failures ≡ self.old.read_failures + 1) }
        ensures others { self.new.write_failures ≡ self.old.write_failures }
        ensures ends { IfOk result (λ n. n ≡ 0 → 0 < length piece.old
            → nat_le (length self.new.input.now) self.new.at ≡ true) }

        // It fails at its call or out of memory, and else moves as many bytes as it may.
        ensures fails { self.old.reading.failing ≡ Some 0 → IsErr result }
        ensures next { self.new.reading.failing ≡ next_failing self.old.reading.failing }
        ensures count { IfOk result (λ n. n ≡ min (min (length self.old.input.now - self.old.at)
            (length piece.old)) self.old.reading.most) }
        ensures moved { IfOk result (λ n. self.new.at ≡ self.old.at + n) }
        ensures bytes { IfOk result (λ n.
            take n piece.new ≡ take n (drop self.old.at self.old.input.now)) }
        ensures still { OnErr result ((self.new.at ≡ self.old.at) × (piece.new ≡ piece.old)) }
        ensures kept { (self.new.input.now ≡ self.old.input.now)
            × (self.new.reading.most ≡ self.old.reading.most)
            × (self.new.writing ≡ self.old.writing) }
    {
        self.reads = self.reads.saturating_add(1);
        if !succeeds(&mut self.reading.failing) {
            self.read_failures += 1;
            return Err(ReadFailed);
        }
        let rest = &self.input[self.at..];
        let count = rest.len().min(piece.len()).min(self.reading.most);
        let Ok(()) = note_received(&mut self.passages, &rest[..count]) else {
            self.read_failures += 1;
            return Err(ReadFailed);
        };
        piece[..count].copy_from_slice(&rest[..count]);
        self.at += count;
        Ok(count)
    }

    fn write(&mut self, bytes: &[u8]) -> Result<usize, WriteFailed>
        requires countable { self.old.write_failures < 2 ^ 64 - 1 }
        requires some { 0 < length bytes.now }

        // What each peer ensures.
        ensures within { IfOk result (λ n. n ≤ length bytes.now) }
        ensures moved { IfOk result (λ n. 0 < n) }
        ensures sent { IfOk result (λ n. Adds (Some (map passage self.old.passages.items))
            (Some (map passage self.new.passages.items)) (sent (take n bytes.now) ∷ [])) }
        ensures none { OnErr result (Adds (Some (map passage self.old.passages.items))
            (Some (map passage self.new.passages.items)) []) }
        ensures failed { MatchResult result
            (λ _. self.new.write_failures ≡ self.old.write_failures)
            (λ _. self.new.write_failures ≡ self.old.write_failures + 1) }
        ensures others { (self.new.reads ≡ self.old.reads)
            × (self.new.read_failures ≡ self.old.read_failures)
            × (nat_le (length self.new.input.now) self.new.at
            ≡ nat_le (length self.old.input.now) self.old.at) }

        // It fails at its call or out of memory, and else takes as many bytes as it may.
        ensures fails { self.old.writing.failing ≡ Some 0 → IsErr result }
        ensures next { self.new.writing.failing ≡ next_failing self.old.writing.failing }
        ensures count { IfOk result (λ n. n ≡ min (length bytes.now) self.old.writing.most) }
        ensures kept { (self.new.input.now ≡ self.old.input.now) × (self.new.at ≡ self.old.at)
            × (self.new.writing.most ≡ self.old.writing.most)
            × (self.new.reading ≡ self.old.reading) }
    {
        if !succeeds(&mut self.writing.failing) {
            self.write_failures += 1;
            return Err(WriteFailed);
        }
        let count = bytes.len().min(self.writing.most);
        let Ok(()) = note_sent(&mut self.passages, &bytes[..count]) else {
            self.write_failures += 1;
            return Err(WriteFailed);
        };
        Ok(count)
    }
}
