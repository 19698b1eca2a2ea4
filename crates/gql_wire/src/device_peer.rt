//! A peer over a reader and a writer of std.
ghost use Rattle.std.specs.Prelude.{◌≡◌, ◌+◌, ◌-◌, ◌^◌, ◌<◌, ◌≤◌, [], ◌∷◌, None, length, take, min, IfOk, OnErr, MatchResult, true, false, not, nat_eq, ◌||◌, ◌&&◌};
ghost use Rattle.std.specs.Io.KnownBytes.{ReadConsumes, WriteAppends};
ghost use Rattle.gql_wire.specs.Peer.{received, sent, Adds};

use crate::peer::{Peer, ReadFailed, WriteFailed};
use std::io::{Read, Write};

/// The other end of a connection, over a reader and a writer. It reports no bytes.
#[derive(Drop)]
pub struct DevicePeer<R: Read, W: Write> {
    /// Bytes come from it.
    pub reader: R,
    /// Bytes go to it.
    pub writer: W,
    /// How many reads were made, those that failed included, up to 2^64 - 1.
    pub reads: u64,
    /// How many reads failed.
    pub read_failures: u64,
    /// How many writes failed.
    pub write_failures: u64,
    /// Whether a read found the end of the input.
    pub ended: bool,
}

impl<R: Read, W: Write> DevicePeer<R, W> {
    /// A peer over this reader and this writer, before any read or write.
    pub fn new(reader: R, writer: W) -> DevicePeer<R, W>
        ensures reader { result.reader ≡ reader }
        ensures writer { result.writer ≡ writer }
        ensures reads { result.reads ≡ 0 }
        ensures failures { (result.read_failures ≡ 0) × (result.write_failures ≡ 0) }
        ensures ended { result.ended ≡ false }
    {
        DevicePeer {
            reader,
            writer,
            reads: 0,
            read_failures: 0,
            write_failures: 0,
            ended: false,
        }
    }
}

impl<R: Read, W: Write> Peer for DevicePeer<R, W> {
    ghost transcript = { λ _. None };

    ghost reads = { λ s. s.reads };

    ghost read_failures = { λ s. s.read_failures };

    ghost write_failures = { λ s. s.write_failures };

    ghost ended = { λ s. s.ended };

    fn read(&mut self, piece: &mut [u8]) -> Result<usize, ReadFailed>
        requires countable { self.old.read_failures < 2 ^ 64 - 1 }

        // What each peer that reports no bytes ensures.
        ensures within { IfOk result (λ n. n ≤ length piece.new) }
        ensures received { IfOk result (λ n. Adds None None (received (take n piece.new) ∷ [])) }
        ensures none { OnErr result (Adds None None []) }
        ensures counted { self.new.reads ≡ min (self.old.reads + 1) (2 ^ 64 - 1) }
        ensures failed { MatchResult result
            (λ _. self.new.read_failures ≡ self.old.read_failures)
            (λ _. self.new.read_failures ≡ self.old.read_failures + 1) }
        ensures others { self.new.write_failures ≡ self.old.write_failures }
        ensures ends { IfOk result (λ n.
            n ≡ 0 → 0 < length piece.old → self.new.ended ≡ true) }

        // The input is at its end where a read found it there, and a read that brings bytes does
        // not find that.
        ensures finds { MatchResult result
            (λ n. self.new.ended
            ≡ (self.old.ended || (nat_eq n 0 && not (nat_eq (length piece.old) 0))))
            (λ _. self.new.ended ≡ self.old.ended) }

        // Where the reader's own type reports what is left of it, that is what is read.
        ensures through { ReadConsumes (R.remaining self.old.reader) (R.remaining self.new.reader)
            result piece.new }
        ensures kept { self.new.writer ≡ self.old.writer }
    {
        self.reads = self.reads.saturating_add(1);
        let is_empty = piece.is_empty();
        let Ok(count) = self.reader.read(piece) else {
            self.read_failures += 1;
            return Err(ReadFailed);
        };
        if count == 0 && !is_empty {
            self.ended = true;
        }
        Ok(count)
    }

    fn write(&mut self, bytes: &[u8]) -> Result<usize, WriteFailed>
        requires countable { self.old.write_failures < 2 ^ 64 - 1 }
        requires some { 0 < length bytes.now }

        // What each peer that reports no bytes ensures.
        ensures within { IfOk result (λ n. n ≤ length bytes.now) }
        ensures moved { IfOk result (λ n. 0 < n) }
        ensures sent { IfOk result (λ n. Adds None None (sent (take n bytes.now) ∷ [])) }
        ensures none { OnErr result (Adds None None []) }
        ensures failed { MatchResult result
            (λ _. self.new.write_failures ≡ self.old.write_failures)
            (λ _. self.new.write_failures ≡ self.old.write_failures + 1) }
        ensures others { (self.new.reads ≡ self.old.reads)
            × (self.new.read_failures ≡ self.old.read_failures)
            × (self.new.ended ≡ self.old.ended) }

        // Where the writer's own type reports what it holds, that is where the bytes go.
        ensures through { WriteAppends (W.contents self.old.writer) (W.contents self.new.writer)
            result bytes.now }
        ensures kept { self.new.reader ≡ self.old.reader }
    {
        match self.writer.write(bytes) {
            Ok(count) if count > 0 => Ok(count),
            _ => {
                self.write_failures += 1;
                Err(WriteFailed)
            }
        }
    }
}
