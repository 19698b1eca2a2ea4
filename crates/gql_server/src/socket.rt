//! The other end of a connection that never waits.
ghost use Rattle.std.specs.Prelude.{◌≡◌, ◌+◌, ◌<◌, ◌≤◌, [], ◌∷◌, length, take, IfOk, IfSome, true, MatchOption, MatchResult};
ghost use Rattle.gql_wire.specs.Peer.{received, sent, Adds};
ghost use Rattle.gql_server.specs.Traffic.{Line};

use thiserror::Error;

/// A read or a write failed.
#[derive(Clone, Copy, Debug, PartialEq, Eq, Error)]
#[error("the socket failed")]
pub struct SocketFailed;

/// The other end of a connection. A call moves what it can at once, and never waits.
pub trait Socket {
    /// What is known of it: what passed so far, if it reports that, whether a call has failed, whether
    /// the input is at its end, and how many calls could give or take nothing at that time.
    ghost line: { Self → Line };

    /// Fills the front of the piece, and returns how many bytes came, or none if none has come yet.
    /// If the piece is not empty and 0 bytes came, the input is at its end.
    fn read(&mut self, piece: &mut [u8]) -> Result<Option<usize>, SocketFailed>
        ensures length { length piece.new ≡ length piece.old }
        ensures moved { MatchResult result
            (λ found. MatchOption found
            (Adds (line self.old).transcript (line self.new).transcript [])
            (λ n. (n ≤ length piece.new)
            × Adds (line self.old).transcript (line self.new).transcript (received (take n piece.new) ∷ [])))
            (λ _. Adds (line self.old).transcript (line self.new).transcript []) }
        ensures failed { MatchResult result
            (λ _. (line self.new).has_failed ≡ (line self.old).has_failed)
            (λ _. (line self.new).has_failed ≡ true) }
        ensures ends { IfOk result (λ found. IfSome found (λ n.
            n ≡ 0 → 0 < length piece.old → (line self.new).ended ≡ true)) }
        ensures waited { MatchResult result
            (λ found. MatchOption found
            ((line self.new).waits ≡ (line self.old).waits + 1)
            (λ _. (line self.new).waits ≡ (line self.old).waits))
            (λ _. (line self.new).waits ≡ (line self.old).waits) };

    /// Takes bytes from the front, at least one, and returns how many, or none if it can take none
    /// yet.
    fn write(&mut self, bytes: &[u8]) -> Result<Option<usize>, SocketFailed>
        requires some { 0 < length bytes.now }
        ensures moved { MatchResult result
            (λ found. MatchOption found
            (Adds (line self.old).transcript (line self.new).transcript [])
            (λ n. (0 < n) × (n ≤ length bytes.now)
            × Adds (line self.old).transcript (line self.new).transcript (sent (take n bytes.now) ∷ [])))
            (λ _. Adds (line self.old).transcript (line self.new).transcript []) }
        ensures failed { MatchResult result
            (λ _. (line self.new).has_failed ≡ (line self.old).has_failed)
            (λ _. (line self.new).has_failed ≡ true) }
        ensures waited { MatchResult result
            (λ found. MatchOption found
            ((line self.new).waits ≡ (line self.old).waits + 1)
            (λ _. (line self.new).waits ≡ (line self.old).waits))
            (λ _. (line self.new).waits ≡ (line self.old).waits) };
}
