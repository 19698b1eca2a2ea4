//! Answers, as they are read from a connection.
ghost use Rattle.std.specs.Prelude.{◌≤◌, IfOk, IfSome, length};

use httparse::{EMPTY_HEADER, Header, Response, Status};
use std::str;

/// Where an answer is in the bytes that were read: its status, where its body begins, and where it
/// ends.
#[derive(Clone, Copy)]
pub struct AnswerSpan {
    pub status: u16,
    pub body: usize,
    pub end: usize,
}

/// The greatest number of fields of an answer that is read.
const MAX_FIELDS: usize = 32;

/// The greatest number of digits of a length that is read.
const MAX_DIGITS: usize = 15;

/// The number that a field has, if it is one of at most `MAX_DIGITS` digits.
fn number_in(value: &[u8]) -> Option<usize> {
    if value.is_empty() || value.len() > MAX_DIGITS {
        return None;
    }
    match str::from_utf8(value) {
        Ok(text) => text.parse::<usize>().ok(),
        Err(_) => None,
    }
}

/// The length of the body that these fields of an answer name, if they name one.
fn length_in(fields: &[Header<'_>]) -> Option<usize> {
    for field in fields {
        if field.name.eq_ignore_ascii_case("content-length") {
            return number_in(field.value);
        }
    }
    None
}

/// The answer at the start of these bytes. None if more bytes are to come; an `Err` if they are no
/// answer of a registry.
pub fn answer_in(bytes: &[u8]) -> Result<Option<AnswerSpan>, ()>
    ensures { IfOk result (λ answer. IfSome answer (λ span.
        (span.body ≤ span.end) × (span.end ≤ length bytes.now))) }
{
    let mut fields = [EMPTY_HEADER; MAX_FIELDS];
    let mut response = Response::new(&mut fields);
    let body = match response.parse(bytes) {
        Ok(Status::Complete(body)) => body,
        Ok(Status::Partial) => return Ok(None),
        Err(_) => return Err(()),
    };
    let Some(status) = response.code else {
        return Err(());
    };
    let Some(length) = length_in(response.headers) else {
        return Err(());
    };
    let end = body.saturating_add(length);
    if bytes.len() < end {
        return Ok(None);
    }
    Ok(Some(AnswerSpan { status, body, end }))
}
