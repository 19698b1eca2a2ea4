//! A socket in memory, for tests and for programs that have no network.
ghost use Rattle.std.specs.Prelude.{◌≡◌, ◌+◌, [], ◌∷◌, ◌++◌, Some, None, map, IfOk, OnOk, OnErr, MatchResult, true};
ghost use Rattle.gql_wire.specs.Peer.{received, sent, sent_in};
ghost use Rattle.gql_wire.specs.MemPeer.{passage};
ghost use Rattle.gql_server.specs.MemNetwork.{line_in, new_line};

use crate::socket::{Socket, SocketFailed};
use gql_wire::Passed;
use std::alloc::{AllocError, Global};

/// What reads of a socket in memory bring.
#[derive(Debug, Drop)]
pub enum MemRead {
    /// These bytes, in as many reads as the pieces need that they fill; if there are none, the input is
    /// at its end.
    Bytes(Vec<u8>),
    /// One read finds nothing.
    Nothing,
    /// One read fails.
    Failure,
}

/// How one write of a socket in memory goes.
#[derive(Clone, Copy, Debug)]
pub enum MemWrite {
    /// It takes so many bytes at most, and none if that is 0.
    Bytes(usize),
    /// It fails.
    Failure,
}

/// The reads and the writes of a socket in memory, each in order. After them the input is at its end,
/// and a write takes all bytes.
#[derive(Debug, Drop)]
pub struct Script {
    pub reads: Vec<MemRead>,
    pub writes: Vec<MemWrite>,
}

/// A socket in memory, which reports all that passed.
#[derive(Drop)]
pub struct MemSocket<'a> {
    script: &'a Script,
    /// How many of the script's reads are made.
    reads: usize,
    /// How many bytes of the next one are read.
    at: usize,
    /// How many of its writes are made.
    writes: usize,
    /// What passed so far, in order.
    pub passages: Vec<Passed>,
    /// Whether a call has failed.
    pub has_failed: bool,
    /// Whether a read found the end of the input.
    pub ended: bool,
    /// How many calls found that nothing can be read or written now.
    pub waits: u64,
}

/// Notes that these bytes were read.
fn note_received(passages: &mut Vec<Passed>, bytes: &[u8]) -> Result<(), AllocError>
    ensures ok { OnOk result (map passage passages.new.items
        ≡ map passage passages.old.items ++ received bytes.now ∷ []) }
    ensures err { OnErr result (passages.new.items ≡ passages.old.items) }
{
    let bytes = Vec::from_slice(*passages.allocator(), bytes)?;
    passages.push(Passed::Received(bytes))?;
    Ok(())
}

/// Notes that these bytes were written.
fn note_sent(passages: &mut Vec<Passed>, bytes: &[u8]) -> Result<(), AllocError>
    ensures ok { OnOk result (map passage passages.new.items
        ≡ map passage passages.old.items ++ sent bytes.now ∷ []) }
    ensures err { OnErr result (passages.new.items ≡ passages.old.items) }
{
    let bytes = Vec::from_slice(*passages.allocator(), bytes)?;
    passages.push(Passed::Sent(bytes))?;
    Ok(())
}

impl<'a> MemSocket<'a> {
    /// A socket of which nothing was read.
    pub fn new(alloc: Global, script: &'a Script) -> MemSocket<'a>
        ensures { line_in result ≡ new_line }
    {
        MemSocket {
            script,
            reads: 0,
            at: 0,
            writes: 0,
            passages: Vec::new(alloc),
            has_failed: false,
            ended: false,
            waits: 0,
        }
    }

    /// A copy of all bytes that were written, in their order.
    pub fn sent_bytes(&self, alloc: Global) -> Result<Vec<u8>, AllocError>
        ensures { IfOk result (λ v. v.items ≡ sent_in (map passage self.now.passages.items)) }
    {
        let mut all = Vec::new(alloc);
        for passed in &self.passages {
            if let Passed::Sent(bytes) = passed {
                all.extend_from_slice(bytes.as_slice())?;
            }
        }
        Ok(all)
    }

    /// Notes that nothing can be read or written now. A socket that has found that 2^64 - 1 times
    /// fails.
    fn wait(&mut self) -> Result<Option<usize>, SocketFailed>
        ensures waits { MatchResult result
            (λ found. (found ≡ None) × (self.new.waits ≡ self.old.waits + 1)
            × (self.new.has_failed ≡ self.old.has_failed))
            (λ _. (self.new.waits ≡ self.old.waits) × (self.new.has_failed ≡ true)) }
        ensures passages { self.new.passages.items ≡ self.old.passages.items }
    {
        if self.waits == u64::MAX {
            self.has_failed = true;
            return Err(SocketFailed);
        }
        self.waits += 1;
        Ok(None)
    }
}

impl<'a> Socket for MemSocket<'a> {
    ghost line = { λ s. record {
      transcript = Some (map passage s.passages.items);
      has_failed = s.has_failed;
      ended = s.ended;
      waits = s.waits;
    } };

    fn read(&mut self, piece: &mut [u8]) -> Result<Option<usize>, SocketFailed> {
        let script = self.script;
        let bytes: &[u8] = match script.reads.get(self.reads) {
            Some(MemRead::Bytes(bytes)) => bytes.as_slice(),
            Some(MemRead::Nothing) => {
                self.reads = self.reads.saturating_add(1);
                return self.wait();
            }
            Some(MemRead::Failure) => {
                self.has_failed = true;
                return Err(SocketFailed);
            }
            None => &[],
        };
        let from = self.at.min(bytes.len());
        let rest = &bytes[from..];
        let count = rest.len().min(piece.len());
        let Ok(()) = note_received(&mut self.passages, &rest[..count]) else {
            self.has_failed = true;
            return Err(SocketFailed);
        };
        piece[..count].copy_from_slice(&rest[..count]);
        if count == 0 {
            self.ended = true;
        }
        if count == rest.len() {
            self.reads = self.reads.saturating_add(1);
            self.at = 0;
        } else {
            self.at = from + count;
        }
        Ok(Some(count))
    }

    fn write(&mut self, bytes: &[u8]) -> Result<Option<usize>, SocketFailed> {
        let script = self.script;
        let most = match script.writes.get(self.writes) {
            Some(MemWrite::Bytes(most)) => *most,
            Some(MemWrite::Failure) => {
                self.has_failed = true;
                return Err(SocketFailed);
            }
            None => bytes.len(),
        };
        self.writes = self.writes.saturating_add(1);
        let count = bytes.len().min(most);
        if count == 0 {
            return self.wait();
        }
        let Ok(()) = note_sent(&mut self.passages, &bytes[..count]) else {
            self.has_failed = true;
            return Err(SocketFailed);
        };
        Ok(Some(count))
    }
}
