//! The other end of a connection.
ghost use Rattle.std.specs.Prelude.{◌≡◌, ◌+◌, ◌-◌, ◌^◌, ◌<◌, ◌≤◌, [], ◌∷◌, List, ℕ, Option, length, take, min, IfOk, OnOk, OnErr, MatchResult, Bool, true};
ghost use Rattle.gql_wire.specs.Peer.{Passage, received, sent, Adds, SendsAll, SendsFront};

use thiserror::Error;

/// A read failed.
#[derive(Clone, Copy, Debug, PartialEq, Eq, Error)]
#[error("a read failed")]
pub struct ReadFailed;

/// A write failed, or took nothing.
#[derive(Clone, Copy, Debug, PartialEq, Eq, Error)]
#[error("a write failed")]
pub struct WriteFailed;

/// The other end of a connection: bytes come from it and go to it.
pub trait Peer {
    /// What passed so far, in order, if the peer reports it.
    ghost transcript: { Self → Option (List Passage) };

    /// How many reads were made, those that failed included, up to 2^64 - 1.
    ghost reads: { Self → ℕ };

    /// How many reads failed.
    ghost read_failures: { Self → ℕ };

    /// How many writes failed.
    ghost write_failures: { Self → ℕ };

    /// Whether the input is at its end.
    ghost ended: { Self → Bool };

    /// Fills the front of the piece, and returns how many bytes came. If the piece is not empty
    /// and 0 bytes came, the input is at its end.
    fn read(&mut self, piece: &mut [u8]) -> Result<usize, ReadFailed>
        requires countable { read_failures self.old < 2 ^ 64 - 1 }
        ensures within { IfOk result (λ n. n ≤ length piece.new) }
        ensures received { IfOk result (λ n.
            Adds (transcript self.old) (transcript self.new) (received (take n piece.new) ∷ [])) }
        ensures none { OnErr result (Adds (transcript self.old) (transcript self.new) []) }
        ensures counted { reads self.new ≡ min (reads self.old + 1) (2 ^ 64 - 1) }
        ensures failed { MatchResult result
            (λ _. read_failures self.new ≡ read_failures self.old)
            (λ _. read_failures self.new ≡ read_failures self.old + 1) }
        ensures others { write_failures self.new ≡ write_failures self.old }
        ensures ends { IfOk result (λ n. n ≡ 0 → 0 < length piece.old → ended self.new ≡ true) };

    /// Takes bytes from the front, at least one, and returns how many.
    fn write(&mut self, bytes: &[u8]) -> Result<usize, WriteFailed>
        requires countable { write_failures self.old < 2 ^ 64 - 1 }
        requires some { 0 < length bytes.now }
        ensures within { IfOk result (λ n. n ≤ length bytes.now) }
        ensures moved { IfOk result (λ n. 0 < n) }
        ensures sent { IfOk result (λ n.
            Adds (transcript self.old) (transcript self.new) (sent (take n bytes.now) ∷ [])) }
        ensures none { OnErr result (Adds (transcript self.old) (transcript self.new) []) }
        ensures failed { MatchResult result
            (λ _. write_failures self.new ≡ write_failures self.old)
            (λ _. write_failures self.new ≡ write_failures self.old + 1) }
        ensures others { (reads self.new ≡ reads self.old)
            × (read_failures self.new ≡ read_failures self.old)
            × (ended self.new ≡ ended self.old) };
}

/// Writes all of the bytes, in as many writes as that takes. If a write fails, the bytes of the
/// writes before it are written.
pub fn write_all<P: Peer>(peer: &mut P, bytes: &[u8]) -> Result<(), WriteFailed>
    requires { P.write_failures peer.old < 2 ^ 64 - 1 }
    ensures ok { OnOk result (SendsAll (P.transcript peer.old) (P.transcript peer.new) bytes.now) }
    ensures err { OnErr result
        (SendsFront (P.transcript peer.old) (P.transcript peer.new) bytes.now) }
    ensures failed { MatchResult result
        (λ _. P.write_failures peer.new ≡ P.write_failures peer.old)
        (λ _. P.write_failures peer.new ≡ P.write_failures peer.old + 1) }
    ensures others { (P.reads peer.new ≡ P.reads peer.old)
        × (P.read_failures peer.new ≡ P.read_failures peer.old)
        × (P.ended peer.new ≡ P.ended peer.old) }
{
    let mut done = 0;
    'writes: while done < bytes.len() {
        let Ok(count) = peer.write(&bytes[done..]) else {
            return Err(WriteFailed);
        };
        done += count;
    }
    Ok(())
}
