//! Streams that come over several connections in turn, a byte at a time.
use crate::written_answers::written_answers;
use gql_http::Hub;
use gql_registry::Registry;
use std::alloc::{AllocError, Global};

/// Each stream is shorter.
const STREAM_BYTES: usize = 256;

/// A service, and what it answered on each of its connections.
#[derive(Drop)]
struct Session {
    hub: Hub,
    answers: Vec<Vec<u8>>,
}

impl Session {
    /// A service on an empty registry with this many open connections; `None` if it has fewer.
    fn new(alloc: Global, count: u8) -> Option<Session> {
        let mut hub = Hub::new(alloc, Registry::new(alloc).ok()?);
        let mut answers = Vec::new(alloc);
        for connection in 0..count {
            hub.open(connection).ok()?;
            answers.push(Vec::new(alloc)).ok()?;
        }
        Some(Session { hub, answers })
    }

    /// Feeds a piece to an open connection; none if it is closed or an allocation fails.
    fn feed(&mut self, connection: u8, piece: &[u8]) -> Option<()> {
        if !self.hub.is_open(connection) {
            return None;
        }
        let fed = self.hub.feed(connection, piece);
        if fed.memory {
            return None;
        }
        let answers = self.answers.get_mut(usize::from(connection))?;
        answers.extend_from_slice(fed.out.as_slice()).ok()
    }
}

/// The stream of a connection: a request that puts a schema file of its own.
fn stream(alloc: Global, connection: u8) -> Result<String, AllocError> {
    let body = format!(in alloc; "type T{connection} {{ a: Int }}")?;
    let body = body.as_str();
    let count = body.len();
    format!(in alloc; "PUT /schema/f{connection} HTTP/1.1\r\nContent-Length: {count}\r\n\r\n{body}")
}

fn streams(alloc: Global, count: u8) -> Result<Vec<String>, AllocError> {
    let mut streams = Vec::new(alloc);
    for connection in 0..count {
        streams.push(stream(alloc, connection)?)?;
    }
    Ok(streams)
}

/// A session in which the streams come one after the other, each whole.
fn one_by_one(alloc: Global, count: u8, streams: &[String]) -> Option<Session> {
    let mut session = Session::new(alloc, count)?;
    for connection in 0..count {
        let stream = streams.get(usize::from(connection))?;
        session.feed(connection, stream.as_str().as_bytes())?;
    }
    Some(session)
}

/// A session in which each stream in turn brings one byte.
fn byte_by_byte(alloc: Global, count: u8, streams: &[String]) -> Option<Session> {
    let mut session = Session::new(alloc, count)?;
    for at in 0..STREAM_BYTES {
        for connection in 0..count {
            let stream = streams.get(usize::from(connection))?;
            if let Some(byte) = stream.as_str().as_bytes().get(at) {
                session.feed(connection, &[*byte])?;
            }
        }
    }
    Some(session)
}

/// Whether streams over this many connections get the same answers in turn, a byte at a time, as
/// one after the other; and the answers on the last connection.
pub fn interleaved_answer(alloc: Global, count: &str) -> Option<String> {
    let count = count.parse::<u8>().ok()?;
    let streams = streams(alloc, count).ok()?;
    let whole = one_by_one(alloc, count, streams.as_slice())?;
    let in_turn = byte_by_byte(alloc, count, streams.as_slice())?;
    for (connection, answers) in whole.answers.iter().enumerate() {
        if in_turn.answers.get(connection)?.as_slice() != answers.as_slice() {
            return format!(in alloc; "another on connection {connection}").ok();
        }
    }
    let last = written_answers(alloc, in_turn.answers.last()?.as_slice(), "; ")?;
    let last = last.as_str();
    format!(in alloc; "the same; the last: {last}").ok()
}
