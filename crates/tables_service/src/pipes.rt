//! Pipes: the answers to the requests of a peer whose reads and writes may fail.
use crate::bytes::bytes_in;
use crate::cut_streams::{answered, feed};
use crate::moves::moves_in;
use crate::written_answers::written_answers;
use gql_http::{Hub, PipeEnd, PipeFault, pipe, status_of};
use gql_registry::Registry;
use gql_wire::MemPeer;
use std::alloc::Global;

/// How a pipe of a service on an empty registry ends, whose peer is new, and the service after it;
/// `None` if the peer is not new.
fn piped(alloc: Global, peer: &mut MemPeer<'_>) -> Option<(Result<PipeEnd, PipeFault>, Hub)> {
    if peer.read_failures > 0 || peer.write_failures > 0 {
        return None;
    }
    let mut hub = Hub::new(alloc, Registry::new(alloc).ok()?);
    let ended = pipe(&mut hub, peer);
    Some((ended, hub))
}

fn written_end(ended: &Result<PipeEnd, PipeFault>) -> &'static str {
    match ended {
        Ok(PipeEnd::Whole) => "whole",
        Ok(PipeEnd::Rest) => "rest",
        Err(PipeFault::ReadFailed) => "a read failed",
        Err(PipeFault::WriteFailed) => "a write failed",
        Err(PipeFault::TooManyReads) => "too many reads",
        Err(PipeFault::Memory) => "memory",
    }
}

/// The report of a service, with `, then` before it.
fn later_report(alloc: Global, hub: &mut Hub) -> Option<String> {
    let mut out = Vec::new(alloc);
    hub.open(0).ok()?;
    feed(hub, &mut out, b"GET /report HTTP/1.1\r\n\r\n")?;
    let report = written_answers(alloc, out.as_slice(), "; ")?;
    let report = report.as_str();
    format!(in alloc; ", then {report}").ok()
}

/// How a pipe ends, how many bytes of the stream's answers it wrote, and the status of a program
/// that runs it: `reads MOVES, writes MOVES`; and with `, then the report` after these, the report
/// of the service after the pipe.
pub fn pipe_answer(alloc: Global, text: &str, question: &str) -> Option<String> {
    let (moves, is_reported) = match question.strip_suffix(", then the report") {
        Some(moves) => (moves, true),
        None => (question, false),
    };
    let (reads, writes) = moves.strip_prefix("reads ")?.split_once(", writes ")?;
    let bytes = bytes_in(alloc, text)?;
    let mut peer = MemPeer::new(alloc, bytes.as_slice(), moves_in(reads)?, moves_in(writes)?);
    let (ended, mut hub) = piped(alloc, &mut peer)?;
    let written = peer.sent_bytes(alloc).ok()?;
    let answers = answered(alloc, bytes.as_slice(), 0)?;
    if !answers.as_slice().starts_with(written.as_slice()) {
        return String::from_str(alloc, "other bytes").ok();
    }
    let count = written.len();
    let end = written_end(&ended);
    let status = status_of(&ended);
    let report = if is_reported {
        later_report(alloc, &mut hub)?
    } else {
        String::new(alloc)
    };
    let report = report.as_str();
    format!(in alloc; "{end}, {count} bytes, status {status}{report}").ok()
}
