//! The heads of answers.

ghost use Rattle.std.specs.Prelude.{◌≡◌, ◌+◌, ◌<◌, ◌≤◌, ◌++◌, IsTrue, IsOk, OnOk, OnErr, length, vec_len, vec_capacity, codes, decimal};
ghost use Rattle.gql_wire.specs.Answer.{is_answered, phrase_of, methods_text, allow_line, status_line, body_lines, closing_line, answer_head_of};

use http::StatusCode;
use itoa::Buffer;
use std::alloc::AllocError;

/// The most bytes that the head of an answer has.
pub const ANSWER_HEAD_ROOM: usize = 160;

/// The methods that a route serves, as the field Allow lists them.
#[derive(Clone, Copy, Debug, PartialEq, Eq)]
pub enum Allow {
    /// `PUT, DELETE`
    PutDelete,
    /// `PUT`
    Put,
    /// `GET`
    Get,
    /// `POST`
    Post,
}

impl Allow {
    ghost use Rattle.std.specs.Prelude.{◌≡◌, ◌≤◌, length};
    ghost use Rattle.gql_wire.specs.Answer.{methods_text};

    /// The value of the field Allow.
    fn text(self) -> &'static [u8]
        ensures text { result.now ≡ methods_text self }
        ensures short { length result.now ≤ 11 }
    {
        match self {
            Allow::PutDelete => b"PUT, DELETE",
            Allow::Put => b"PUT",
            Allow::Get => b"GET",
            Allow::Post => b"POST",
        }
    }
}

/// Appends bytes to a vector that has room for them.
fn append(out: &mut Vec<u8>, bytes: &[u8])
    requires { vec_len out.old + length bytes.now ≤ vec_capacity out.old }
    ensures items { out.new.items ≡ out.old.items ++ bytes.now }
    ensures len { vec_len out.new ≡ vec_len out.old + length bytes.now }
    ensures capacity { vec_capacity out.old ≤ vec_capacity out.new }
{
    let Ok(()) = out.extend_from_slice(bytes) else {
        unreachable!();
    };
}

/// The reason phrase of a status.
#[tactic(auto, unfolding(crate::specs::Answer::phrase_of))]
fn phrase(status: StatusCode) -> &'static str
    requires { IsTrue (is_answered status) }
    ensures text { result.now ≡ phrase_of status }
    ensures short { length result.now ≤ 31 }
{
    match status.canonical_reason() {
        Some(phrase) => phrase,
        None => "",
    }
}

/// Appends the status line.
fn append_status(out: &mut Vec<u8>, status: StatusCode)
    requires answered { IsTrue (is_answered status) }
    requires room { vec_len out.old + 46 ≤ vec_capacity out.old }
    ensures items { out.new.items ≡ out.old.items ++ status_line status }
    ensures len { vec_len out.new ≤ vec_len out.old + 46 }
    ensures capacity { vec_capacity out.old ≤ vec_capacity out.new }
{
    append(out, b"HTTP/1.1 ");
    append(out, status.as_str().as_bytes());
    append(out, b" ");
    append(out, phrase(status).as_bytes());
    append(out, b"\r\n");
}

/// Appends the field Allow, if methods are given.
fn append_allow(out: &mut Vec<u8>, allow: Option<Allow>)
    requires room { vec_len out.old + 20 ≤ vec_capacity out.old }
    ensures items { out.new.items ≡ out.old.items ++ allow_line allow }
    ensures len { vec_len out.new ≤ vec_len out.old + 20 }
    ensures capacity { vec_capacity out.old ≤ vec_capacity out.new }
{
    if let Some(methods) = allow {
        append(out, b"Allow: ");
        append(out, methods.text());
        append(out, b"\r\n");
    }
}

/// Appends the fields Content-Type and Content-Length.
fn append_body_lines(out: &mut Vec<u8>, length: usize)
    requires room { vec_len out.old + 70 ≤ vec_capacity out.old }
    ensures items { out.new.items ≡ out.old.items ++ body_lines length }
    ensures len { vec_len out.new ≤ vec_len out.old + 70 }
    ensures capacity { vec_capacity out.old ≤ vec_capacity out.new }
{
    let mut digits = Buffer::new();
    append(out, b"Content-Type: application/json\r\nContent-Length: ");
    append(out, digits.format(length).as_bytes());
    append(out, b"\r\n");
}

/// Appends `Connection: close` if the connection closes, and the empty line that ends the head.
fn append_closing(out: &mut Vec<u8>, closing: bool)
    requires room { vec_len out.old + 21 ≤ vec_capacity out.old }
    ensures items { out.new.items ≡ out.old.items ++ closing_line closing ++ codes "\r\n" }
    ensures len { vec_len out.new ≤ vec_len out.old + 21 }
    ensures capacity { vec_capacity out.old ≤ vec_capacity out.new }
{
    if closing {
        append(out, b"Connection: close\r\n");
    }
    append(out, b"\r\n");
}

/// Appends the head of an answer with this status and a body of `length` bytes: the status line,
/// the field Allow if methods are given, the body's type and length, `Connection: close` if the
/// connection closes, and the empty line. The head has at most `ANSWER_HEAD_ROOM` bytes. The call
/// fails only if the vector has less room than that and cannot grow.
pub fn answer_head(
    out: &mut Vec<u8>,
    status: StatusCode,
    allow: Option<Allow>,
    length: usize,
    closing: bool,
) -> Result<(), AllocError>
    requires answered { IsTrue (is_answered status) }
    ensures ok { OnOk result
        (out.new.items ≡ out.old.items ++ answer_head_of status allow length closing) }
    ensures err { OnErr result (out.new.items ≡ out.old.items) }
    ensures succeeds { vec_len out.old + ANSWER_HEAD_ROOM ≤ vec_capacity out.old → IsOk result }
    ensures short { vec_len out.new ≤ vec_len out.old + ANSWER_HEAD_ROOM }
    ensures capacity { vec_capacity out.old ≤ vec_capacity out.new }
{
    out.reserve(ANSWER_HEAD_ROOM)?;
    append_status(out, status);
    append_allow(out, allow);
    append_body_lines(out, length);
    append_closing(out, closing);
    Ok(())
}
