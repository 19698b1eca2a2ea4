//! Connections served one after the other.
ghost use Rattle.std.specs.Prelude.{◌≡◌, ◌<◌, [], ◌∷◌, List, None, length, OnOk, OnErr, true, false, IfErr};
ghost use Rattle.gql_http.specs.Hubs.{rests_of, service_of};
ghost use Rattle.gql_server.specs.declared.fault.ServeFault.TheVariants.{AcceptFailed};
ghost use Rattle.gql_server.specs.OneByOne.{AddsKnown, ArePiped, IsPiped, Known};

use crate::fault::ServeFault;
use crate::listener::Listener;
use gql_http::{Hub, pipe};
use gql_wire::Peer;

/// Pipes the next connection of a listener.
fn serve_one<P: Peer, L: Listener<P>>(listener: &mut L, hub: &mut Hub) -> Result<(), ServeFault>
    requires closed { rests_of hub.old 0 ≡ None }
    requires none_out { L.is_out listener.old ≡ false }
    ensures connections { rests_of hub.new ≡ rests_of hub.old }
    ensures fault { IfErr result (λ fault. fault ≡ AcceptFailed) }
    ensures none_out { L.is_out listener.new ≡ false }
    ensures served { OnOk result ((first last : Known)
        × AddsKnown (L.firsts listener.old) (L.firsts listener.new) (first ∷ [])
        × AddsKnown (L.lasts listener.old) (L.lasts listener.new) (last ∷ [])
        × IsPiped (service_of hub.old) first last (service_of hub.new)) }
    ensures failed { OnErr result (AddsKnown (L.firsts listener.old) (L.firsts listener.new) []
        × (L.lasts listener.new ≡ L.lasts listener.old)
        × (L.has_failed listener.new ≡ true) × (service_of hub.new ≡ service_of hub.old)) }
{
    let Ok(mut peer) = listener.accept() else {
        return Err(ServeFault::AcceptFailed);
    };
    let _ended = pipe(hub, &mut peer);
    listener.take_back(peer);
    Ok(())
}

/// Serves this many connections of a listener, one after the other: each is piped once, also after
/// one that failed. It ends early only if the listener fails to hand one out.
pub fn serve_on<P: Peer, L: Listener<P>>(
    listener: &mut L,
    hub: &mut Hub,
    connections: u32,
) -> Result<(), ServeFault>
    requires closed { rests_of hub.old 0 ≡ None }
    requires none_out { L.is_out listener.old ≡ false }
    ensures connections { rests_of hub.new ≡ rests_of hub.old }
    ensures fault { IfErr result (λ fault. fault ≡ AcceptFailed) }
    ensures none_out { L.is_out listener.new ≡ false }
    ensures served { (firsts lasts : List Known)
        × AddsKnown (L.firsts listener.old) (L.firsts listener.new) firsts
        × AddsKnown (L.lasts listener.old) (L.lasts listener.new) lasts
        × ArePiped (service_of hub.old) firsts lasts (service_of hub.new)
        × OnOk result (length firsts ≡ connections)
        × OnErr result ((length firsts < connections) × (L.has_failed listener.new ≡ true)) }
{
    for _connection in 0..connections {
        serve_one(listener, hub)?;
    }
    Ok(())
}
