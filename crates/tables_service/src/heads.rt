//! The heads of answers (RFC 9112, 4).
use crate::bytes::quoted_bytes;
use gql_wire::{Allow, answer_head};
use http::StatusCode;
use std::alloc::Global;

/// The methods of a list.
fn allow_in(methods: &str) -> Option<Allow> {
    match methods {
        "PUT, DELETE" => Some(Allow::PutDelete),
        "PUT" => Some(Allow::Put),
        "GET" => Some(Allow::Get),
        "POST" => Some(Allow::Post),
        _ => None,
    }
}

/// These bytes, and then the head of an answer; `None` if the service answers with no such
/// status.
pub fn answer_head_bytes(
    alloc: Global,
    before: &[u8],
    status: &str,
    methods: &str,
    length: usize,
    closes: bool,
) -> Option<Vec<u8>> {
    let status = StatusCode::from_u16(status.parse::<u16>().ok()?).ok()?;
    if ![200, 400, 404, 405, 409, 413, 422, 431, 501].contains(&status.as_u16()) {
        return None;
    }
    let mut bytes = Vec::from_slice(alloc, before).ok()?;
    answer_head(&mut bytes, status, allow_in(methods), length, closes).ok()?;
    Some(bytes)
}

/// The head of an answer after a byte `x`: `STATUS LENGTH`, the methods that are allowed, and
/// `close`.
pub fn head_answer(alloc: Global, question: &str) -> Option<String> {
    let closed = question.strip_suffix(" close");
    let question = closed.unwrap_or(question);
    let (status, rest) = question.split_once(" ")?;
    let (length, methods) = rest.split_once(" ").unwrap_or((rest, ""));
    let length = length.parse::<usize>().ok()?;
    let bytes = answer_head_bytes(alloc, b"x", status, methods, length, closed.is_some())?;
    quoted_bytes(alloc, bytes.as_slice()).ok()
}
