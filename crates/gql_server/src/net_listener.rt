//! The listeners of a network, for connections that are served one after the other.
ghost use Rattle.std.specs.Prelude.{◌≡◌, None, false, IfSome};

use crate::listener::{AcceptFailed, Listener};
use gql_wire::DevicePeer;
use std::net::{TcpListener, TcpStream};
use std::time::Duration;

/// A read or a write that waits for longer fails.
const WAIT_SECONDS: u64 = 60;

/// The connections of a listener. It reports none of them.
#[derive(Drop)]
pub struct NetListener {
    pub listener: TcpListener,
    /// Whether a connection is out.
    pub is_out: bool,
    /// Whether a connection was not accepted.
    pub has_failed: bool,
}

impl NetListener {
    /// A listener that handed out nothing so far.
    pub fn new(listener: TcpListener) -> NetListener
        ensures { result.is_out ≡ false }
    {
        NetListener {
            listener,
            is_out: false,
            has_failed: false,
        }
    }
}

/// The next connection of a listener, whose reads and writes wait for at most a minute.
fn next_of(listener: &TcpListener) -> Option<DevicePeer<TcpStream, TcpStream>>
    ensures { IfSome result (λ peer. (peer.read_failures ≡ 0) × (peer.write_failures ≡ 0)) }
{
    let (stream, _address) = listener.accept().ok()?;
    let limit = Some(Duration::from_secs(WAIT_SECONDS));
    stream.set_read_timeout(limit).ok()?;
    stream.set_write_timeout(limit).ok()?;
    let reader = stream.try_clone().ok()?;
    Some(DevicePeer::new(reader, stream))
}

impl Listener<DevicePeer<TcpStream, TcpStream>> for NetListener {
    ghost firsts = { λ _. None };

    ghost lasts = { λ _. None };

    ghost is_out = { λ s. s.is_out };

    ghost has_failed = { λ s. s.has_failed };

    fn accept(&mut self) -> Result<DevicePeer<TcpStream, TcpStream>, AcceptFailed> {
        let Some(peer) = next_of(&self.listener) else {
            self.has_failed = true;
            return Err(AcceptFailed);
        };
        self.is_out = true;
        Ok(peer)
    }

    fn take_back(&mut self, _peer: DevicePeer<TcpStream, TcpStream>) {
        self.is_out = false;
    }
}
