//! The requests that a piece of bytes completes, answered in their order.
ghost use Rattle.std.specs.Prelude.{◌≡◌, ◌++◌, ◌≤◌, ℕ, length, drop, IfOk, OnErr, [], if◌then◌else◌, Some, None};
ghost use Rattle.gql_registry.specs.State.{profile_of, state_of};
ghost use Rattle.gql_wire.specs.Stream.{closes, req};
ghost use Rattle.gql_http.specs.Connections.{Serves, Breaks};
ghost use Rattle.gql_http.specs.Limits.{limit_in};

use crate::service::step;
use gql_registry::Registry;
use gql_wire::laws::some_split;
use gql_wire::{Framed, Framer};
use std::alloc::{AllocError, Global};

/// Whether the connection closes after the request.
fn closes(framed: &Framed) -> bool
    ensures { result ≡ closes (req framed.now) }
{
    match framed {
        Framed::Request { closing, .. } => *closing,
        Framed::Refused { .. } => true,
    }
}

fn rest_from(piece: &[u8], at: usize) -> &[u8]
    requires { at ≤ length piece.now }
    ensures { result.now ≡ drop at piece.now }
{
    &piece[at..]
}

/// Takes a piece of a connection's bytes, makes the requests that it completes and writes their
/// answers. Returns whether a request closes the connection; later bytes are then dropped. If an
/// allocation fails, the requests before have been made and answered, and the current one changes
/// nothing.
pub fn serve(
    alloc: Global,
    registry: &mut Registry,
    framer: &mut Framer,
    piece: &[u8],
    out: &mut Vec<u8>,
) -> Result<bool, AllocError>
    requires none { out.old.items ≡ [] }
    requires limit { framer.old.limit ≡ limit_in (state_of registry.old) }
    ensures limit { framer.new.limit ≡ framer.old.limit }
    ensures profile { profile_of (state_of registry.new) ≡ profile_of (state_of registry.old) }
    ensures ok { IfOk result (λ closed. Serves (state_of registry.old)
        (framer.old.bytes ++ piece.now) out.new.items (state_of registry.new)
        (if closed then None else Some framer.new.bytes)) }
    ensures err { OnErr result ((made : ℕ)
        × Breaks (state_of registry.old) (framer.old.bytes ++ piece.now) out.new.items
        (state_of registry.new) made) }
{
    // The law that the bytes after the current request are requests, too.
    some_split();
    let mut at = 0;
    'requests: loop {
        let (count, framed) = framer.take(rest_from(piece, at))?;
        let Some(framed) = framed else {
            return Ok(false);
        };
        at += count;
        step(alloc, registry, out, &framed)?;
        if closes(&framed) {
            return Ok(true);
        }
    }
}
