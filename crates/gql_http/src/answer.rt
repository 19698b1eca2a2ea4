//! Answers, and their bytes.
ghost use Rattle.std.specs.Prelude.{◌≡◌, ◌++◌, ◌+◌, ◌≤◌, ◌<◌, ◌^◌, IsTrue, IsOk, IfOk, OnOk, OnErr, length, vec_len, vec_capacity};
ghost use Rattle.gql_wire.specs.Answer.{is_answered};
ghost use Rattle.gql_http.specs.Answers.{answer_bytes};

use gql_wire::{ANSWER_HEAD_ROOM, Allow, answer_head};
use http::StatusCode;
use std::alloc::AllocError;

/// An answer: its status, the methods of the route if that is 405, and its body.
pub struct Answer {
    pub status: StatusCode,
    pub allow: Option<Allow>,
    pub body: Vec<u8>,
    ghost answered: { IsTrue (is_answered status) },
}

impl Drop for Answer {
    fn drop(self) {
        let Answer {
            status: _,
            allow: _,
            body: _,
        } = self;
    }
}

/// How an answer ends: whether the connection closes after it, and whether its body is left out.
#[derive(Clone, Copy)]
pub struct Ending {
    pub closing: bool,
    pub bodiless: bool,
}

/// Writes an answer of these parts. If an allocation fails, nothing is written; if there is room,
/// none fails.
#[tactic(auto, unfolding(crate::specs::Answers::answer_bytes))]
pub fn write_parts(
    out: &mut Vec<u8>,
    status: StatusCode,
    allow: Option<Allow>,
    body: &[u8],
    ending: Ending,
) -> Result<(), AllocError>
    requires answered { IsTrue (is_answered status) }
    requires short { length body.now < 2 ^ 63 }
    ensures ok { OnOk result (out.new.items ≡ out.old.items
        ++ answer_bytes ending.closing ending.bodiless
        (record { status = status; allow = allow; body = body.now })) }
    ensures err { OnErr result (out.new.items ≡ out.old.items) }
    ensures room { vec_len out.old + (160 + length body.now) ≤ vec_capacity out.old → IsOk result }
{
    out.reserve(ANSWER_HEAD_ROOM + body.len())?;
    answer_head(out, status, allow, body.len(), ending.closing)?;
    if !ending.bodiless {
        out.extend_from_slice(body)?;
    }
    Ok(())
}
