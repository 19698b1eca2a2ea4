//! The service: its answers to a stream of requests.
use crate::bytes::{bytes_in, quoted_bytes};
use crate::written_answers::written_answers;
use gql_http::Hub;
use gql_registry::Registry;
use std::alloc::Global;

/// Feeds a piece to a connection unless it is closed; `None` if an allocation fails.
pub fn feed(hub: &mut Hub, out: &mut Vec<u8>, piece: &[u8]) -> Option<()> {
    if hub.is_open(0) {
        let fed = hub.feed(0, piece);
        if fed.memory {
            return None;
        }
        out.extend_from_slice(fed.out.as_slice()).ok()?;
    }
    Some(())
}

/// What a service on an empty registry answers to a stream that is cut at this place.
pub fn answered(alloc: Global, bytes: &[u8], place: usize) -> Option<Vec<u8>> {
    let place = place.min(bytes.len());
    let mut hub = Hub::new(alloc, Registry::new(alloc).ok()?);
    hub.open(0).ok()?;
    let mut out = Vec::new(alloc);
    feed(&mut hub, &mut out, &bytes[..place])?;
    feed(&mut hub, &mut out, &bytes[place..])?;
    Some(out)
}

/// What it answers to a stream that comes a byte at a time.
fn byte_by_byte(alloc: Global, bytes: &[u8]) -> Option<Vec<u8>> {
    let mut hub = Hub::new(alloc, Registry::new(alloc).ok()?);
    hub.open(0).ok()?;
    let mut out = Vec::new(alloc);
    for byte in bytes {
        feed(&mut hub, &mut out, &[*byte])?;
    }
    Some(out)
}

/// The answers to a stream, which are the same whole, byte by byte and cut at each place. `None`
/// if they are not.
fn in_any_pieces(alloc: Global, bytes: &[u8]) -> Option<Vec<u8>> {
    let whole = answered(alloc, bytes, 0)?;
    for place in 1..bytes.len() {
        if answered(alloc, bytes, place)?.as_slice() != whole.as_slice() {
            return None;
        }
    }
    if byte_by_byte(alloc, bytes)?.as_slice() != whole.as_slice() {
        return None;
    }
    Some(whole)
}

/// The answers to a stream, in any pieces, or where it is cut at one place: ` cut at PLACE`.
fn pieces_answer(alloc: Global, text: &str, pieces: &str) -> Option<Vec<u8>> {
    let bytes = bytes_in(alloc, text)?;
    if pieces.is_empty() {
        return in_any_pieces(alloc, bytes.as_slice());
    }
    let place = pieces.strip_prefix("cut at ")?.parse::<usize>().ok()?;
    answered(alloc, bytes.as_slice(), place)
}

/// The answers to a stream, each on a line as a transcript writes it.
pub fn answers_answer(alloc: Global, text: &str, pieces: &str) -> Option<String> {
    match pieces_answer(alloc, text, pieces) {
        Some(bytes) => written_answers(alloc, bytes.as_slice(), "\n"),
        None => String::from_str(alloc, "not the same in all pieces").ok(),
    }
}

/// The bytes that are answered to a stream.
pub fn bytes_answer(alloc: Global, text: &str, pieces: &str) -> Option<String> {
    match pieces_answer(alloc, text, pieces) {
        Some(bytes) => quoted_bytes(alloc, bytes.as_slice()).ok(),
        None => String::from_str(alloc, "not the same in all pieces").ok(),
    }
}
