//! A server and its client in one process.
ghost use Rattle.std.specs.Prelude.{◌≡◌, ◌≤◌, None};
ghost use Rattle.gql_http.specs.Hubs.{rests_of};
ghost use Rattle.gql_server.specs.Together.{AreClosed};

use crate::bytes::bytes_in;
use crate::written_answers::written_answers;
use gql_http::Hub;
use gql_registry::Registry;
use gql_server::{MioNetwork, NetListener, serve_on, serve_together};
use std::io::{Read, Write};
use std::net::{Ipv4Addr, Shutdown, SocketAddr, TcpListener, TcpStream};

/// A client that connects, writes a stream and ends it.
fn client_of(rt: &HostRuntime, address: SocketAddr, bytes: &[u8]) -> Option<TcpStream> {
    let mut client = TcpStream::connect(rt, address).ok()?;
    client.write_all(bytes).ok()?;
    client.shutdown(Shutdown::Write).ok()?;
    Some(client)
}

/// Serves the one connection of a client by the server that serves one connection after the other.
fn serve_in_turn(rt: &HostRuntime, hub: &mut Hub, bytes: &[u8]) -> Option<TcpStream>
    requires { rests_of hub.old 0 ≡ None }
{
    let listener = TcpListener::bind(rt, "127.0.0.1:0").ok()?;
    let address = listener.local_addr().ok()?;
    let client = client_of(rt, address, bytes)?;
    serve_on(&mut NetListener::new(listener), hub, 1).ok()?;
    Some(client)
}

/// Serves the one connection of a client by the server that serves many at one time.
fn serve_at_once(rt: &HostRuntime, hub: &mut Hub, bytes: &[u8]) -> Option<TcpStream>
    requires { AreClosed 16 hub.old }
{
    let any_port = SocketAddr::from((Ipv4Addr::LOCALHOST, 0));
    let listener = mio::net::TcpListener::bind(rt, any_port).ok()?;
    let address = listener.local_addr().ok()?;
    let client = client_of(rt, address, bytes)?;
    let mut network = MioNetwork::new(rt, rt.alloc(), listener).ok()?;
    serve_together(rt.alloc(), &mut network, hub, 1, 16).ok()?;
    Some(client)
}

/// What a server on an empty registry answers to a client that connects, writes a stream and ends
/// it, each answer on a line as a transcript writes it.
pub fn serves_answer(rt: &HostRuntime, text: &str, together: bool) -> Option<String> {
    let bytes = bytes_in(rt.alloc(), text)?;
    let mut hub = Hub::new(rt.alloc(), Registry::new(rt.alloc()).ok()?);
    let mut client = if together {
        serve_at_once(rt, &mut hub, bytes.as_slice())?
    } else {
        serve_in_turn(rt, &mut hub, bytes.as_slice())?
    };
    let mut answer = Vec::new(rt.alloc());
    client.read_to_end(&mut answer).ok()?;
    written_answers(rt.alloc(), answer.as_slice(), "\n")
}
