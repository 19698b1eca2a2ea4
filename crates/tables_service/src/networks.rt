//! The server of many connections at one time, on a network in memory.
ghost use Rattle.std.specs.Prelude.{◌≤◌};
ghost use Rattle.gql_server.specs.Together.{AreClosed};

use crate::bytes::bytes_in;
use crate::written_answers::written_answers;
use gql_http::Hub;
use gql_registry::Registry;
use gql_server::{
    Arrival, MemNetwork, MemRead, MemWrite, Report, Script, ServeFault, Wait, serve_together,
};
use serde_json::Value;
use std::alloc::Global;
use table_rows::join;

/// What reads bring: the bytes of a string; `null` finds nothing, and `false` fails.
fn read_in(alloc: Global, value: &Value) -> Option<MemRead> {
    match value {
        Value::String(text) => Some(MemRead::Bytes(bytes_in(alloc, text.as_str())?)),
        Value::Null => Some(MemRead::Nothing),
        Value::Bool(false) => Some(MemRead::Failure),
        _ => None,
    }
}

/// How a write goes: it takes so many bytes at most, and `false` fails.
fn write_in(value: &Value) -> Option<MemWrite> {
    match value {
        Value::Bool(false) => Some(MemWrite::Failure),
        _ => Some(MemWrite::Bytes(usize::try_from(value.as_u64()?).ok()?)),
    }
}

/// The reads and writes of a connection.
fn script_in(alloc: Global, value: &Value) -> Option<Script> {
    let mut reads = Vec::new(alloc);
    for read in value.get("reads")?.as_array()? {
        reads.push(read_in(alloc, read)?).ok()?;
    }
    let mut writes = Vec::new(alloc);
    if let Some(given) = value.get("writes") {
        for write in given.as_array()? {
            writes.push(write_in(write)?).ok()?;
        }
    }
    Some(Script { reads, writes })
}

/// How often a connection arrives.
fn times_in(value: &Value) -> Option<u64> {
    match value.get("times") {
        Some(times) => times.as_u64(),
        None => Some(1),
    }
}

/// Adds what calls of `accept` find: a connection, as often as it says; `null` finds none, `true` one
/// that is gone, and `false` fails.
fn add_arrival(alloc: Global, value: &Value, arrivals: &mut Vec<Arrival>) -> Option<()> {
    match value {
        Value::Null => arrivals.push(Arrival::Nothing).ok(),
        Value::Bool(true) => arrivals.push(Arrival::Passing).ok(),
        Value::Bool(false) => arrivals.push(Arrival::Failure).ok(),
        _ => {
            for _ in 0..times_in(value)? {
                let script = script_in(alloc, value)?;
                arrivals.push(Arrival::Connection(script)).ok()?;
            }
            Some(())
        }
    }
}

fn arrivals_in(alloc: Global, values: &Value) -> Option<Vec<Arrival>> {
    let mut arrivals = Vec::new(alloc);
    for value in values.as_array()? {
        add_arrival(alloc, value, &mut arrivals)?;
    }
    Some(arrivals)
}

/// One wait: `[MILLISECONDS, [NUMBER, ..], CONNECTS]`.
fn wait_in(value: &Value) -> Option<Wait> {
    let parts = value.as_array()?;
    let mut sockets = [false; 16];
    for number in parts.get(1)?.as_array()? {
        let place = usize::try_from(number.as_u64()?).ok()?;
        if place >= sockets.len() {
            return None;
        }
        sockets[place] = true;
    }
    Some(Wait {
        milliseconds: parts.get(0)?.as_u64()?,
        report: Report {
            has_connection: parts.get(2)?.as_bool()?,
            sockets,
        },
    })
}

fn waits_in(alloc: Global, values: &Value) -> Option<Vec<Wait>> {
    let mut waits = Vec::new(alloc);
    for value in values.as_array()? {
        waits.push(wait_in(value)?).ok()?;
    }
    Some(waits)
}

fn written_end(served: &Result<(), ServeFault>) -> &'static str {
    match served {
        Ok(()) => "served",
        Err(ServeFault::AcceptFailed) => "accepting failed",
        Err(ServeFault::WaitFailed) => "waiting failed",
        Err(_) => "another fault",
    }
}

/// What was written to a socket: answers as a transcript writes them, with `; ` between, or `nothing`;
/// or how many bytes, if these are not whole answers.
fn written_bytes(alloc: Global, sent: &[u8]) -> Option<String> {
    if sent.is_empty() {
        return String::from_str(alloc, "nothing").ok();
    }
    match written_answers(alloc, sent, "; ") {
        Some(answers) => Some(answers),
        None => {
            let count = sent.len();
            format!(in alloc; "{count} bytes").ok()
        }
    }
}

/// How a server on a closed hub ends, and what was written to each socket that the network took back,
/// in that order.
fn served_on(
    alloc: Global,
    network: &mut MemNetwork<'_>,
    hub: &mut Hub,
    connections: u32,
    at_once: u8,
) -> Option<String>
    requires most { at_once ≤ 16 }
    requires closed { AreClosed at_once hub.old }
{
    let served = serve_together(alloc, network, hub, connections, at_once);
    let mut written = String::from_str(alloc, written_end(&served)).ok()?;
    for socket in &network.returned {
        let sent = socket.sent_bytes(alloc).ok()?;
        let answers = written_bytes(alloc, sent.as_slice())?;
        join(&mut written, " | ", answers.as_str()).ok()?;
    }
    Some(written)
}

/// What a server on an empty registry does on the network in memory that an object of JSON says.
pub fn network_answer(alloc: Global, text: &str) -> Option<String> {
    let script = Value::from_str(alloc, text).ok()?;
    let connections = u32::try_from(script.get("connections")?.as_u64()?).ok()?;
    let at_once = u8::try_from(script.get("at once")?.as_u64()?).ok()?;
    if at_once > 16 {
        return None;
    }
    let arrivals = arrivals_in(alloc, script.get("arrivals")?)?;
    let waits = waits_in(alloc, script.get("waits")?)?;
    let mut network = MemNetwork::new(alloc, arrivals.as_slice(), waits.as_slice());
    let mut hub = Hub::new(alloc, Registry::new(alloc).ok()?);
    served_on(alloc, &mut network, &mut hub, connections, at_once)
}
