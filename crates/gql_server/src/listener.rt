//! What hands out connections, one after the other.
ghost use Rattle.std.specs.Prelude.{◌≡◌, [], ◌∷◌, List, Option, Bool, true, false, IfOk, MatchResult};
ghost use Rattle.gql_server.specs.OneByOne.{AddsKnown, Known};

use gql_wire::Peer;
use thiserror::Error;

/// A connection was not accepted.
#[derive(Clone, Copy, Debug, PartialEq, Eq, Error)]
#[error("accepting failed")]
pub struct AcceptFailed;

/// Hands out the other ends of connections, one at a time, and takes each back once it was served.
pub trait Listener<P: Peer> {
    /// What was known of each peer when it was handed out, in order, if the listener reports that.
    ghost firsts: { Self → Option (List Known) };

    /// What was known of each peer when it was taken back, in order, if the listener reports that.
    ghost lasts: { Self → Option (List Known) };

    /// Whether a peer is out.
    ghost is_out: { Self → Bool };

    /// Whether a peer could not be handed out.
    ghost has_failed: { Self → Bool };

    /// The next peer. No read or write of it has failed.
    fn accept(&mut self) -> Result<P, AcceptFailed>
        requires { is_out self.old ≡ false }
        ensures handed { MatchResult result
            (λ peer. AddsKnown (firsts self.old) (firsts self.new) (record { transcript = P.transcript peer; read_failures = P.read_failures peer; write_failures = P.write_failures peer; ended = P.ended peer } ∷ []))
            (λ _. AddsKnown (firsts self.old) (firsts self.new) []) }
        ensures fresh { IfOk result (λ peer.
            (P.read_failures peer ≡ 0) × (P.write_failures peer ≡ 0)) }
        ensures kept { lasts self.new ≡ lasts self.old }
        ensures out { MatchResult result
            (λ _. is_out self.new ≡ true)
            (λ _. is_out self.new ≡ false) }
        ensures failed { MatchResult result
            (λ _. has_failed self.new ≡ has_failed self.old)
            (λ _. has_failed self.new ≡ true) };

    /// Takes the peer back that is out.
    fn take_back(&mut self, peer: P)
        requires { is_out self.old ≡ true }
        ensures taken { AddsKnown (lasts self.old) (lasts self.new)
            (record { transcript = P.transcript peer; read_failures = P.read_failures peer; write_failures = P.write_failures peer; ended = P.ended peer } ∷ []) }
        ensures kept { (firsts self.new ≡ firsts self.old)
            × (has_failed self.new ≡ has_failed self.old) }
        ensures out { is_out self.new ≡ false };
}
