//! Answers, written.
ghost use Rattle.std.specs.Prelude.{◌≡◌, ◌++◌, ◌<◌, ◌^◌, OnOk, OnErr, length};
ghost use Rattle.gql_http.specs.Said.{answer_said, ended_bytes};
ghost use Rattle.gql_http.specs.Answers.{said};
ghost use Rattle.gql_http.specs.Json.{edited_text};

use crate::answer::{Answer, Ending, write_parts};
use arrayvec::ArrayString;
use gql_registry::Edited;
use http::StatusCode;
use itoa::Buffer;
use std::alloc::AllocError;

/// Writes an answer, or nothing if an allocation fails.
pub fn write_answer(out: &mut Vec<u8>, answer: &Answer, ending: Ending) -> Result<(), AllocError>
    ensures ok { OnOk result (out.new.items ≡ out.old.items
        ++ ended_bytes ending (answer_said answer.now)) }
    ensures err { OnErr result (out.new.items ≡ out.old.items) }
{
    write_parts(
        out,
        answer.status,
        answer.allow,
        answer.body.as_slice(),
        ending,
    )
}

/// Writes the answer to a served call, with this reply, or nothing if an allocation fails.
pub fn write_reply(out: &mut Vec<u8>, reply: &[u8], ending: Ending) -> Result<(), AllocError>
    requires short { length reply.now < 2 ^ 63 }
    ensures ok { OnOk result (out.new.items ≡ out.old.items
        ++ ended_bytes ending (said 200 reply.now)) }
    ensures err { OnErr result (out.new.items ≡ out.old.items) }
{
    write_parts(out, StatusCode::OK, None, reply, ending)
}

/// The body of the answer to an accepted edit.
#[tactic(auto, unfolding(crate::specs::Json::edited_text))]
fn edited_body(edited: Edited) -> ArrayString<64>
    ensures { result.bytes ≡ edited_text edited.revision edited.faults }
{
    let mut digits = Buffer::new();
    let mut body = ArrayString::new();
    body.push_str("{\"revision\":");
    body.push_str(digits.format(edited.revision));
    body.push_str(",\"faults\":");
    body.push_str(digits.format(edited.faults));
    body.push_str("}");
    body
}

/// Writes the answer to an accepted edit, or nothing if an allocation fails.
pub fn write_edited(out: &mut Vec<u8>, edited: Edited, ending: Ending) -> Result<(), AllocError>
    ensures ok { OnOk result (out.new.items ≡ out.old.items ++ ended_bytes ending
        (said 200 (edited_text edited.revision edited.faults))) }
    ensures err { OnErr result (out.new.items ≡ out.old.items) }
{
    write_reply(out, edited_body(edited).as_str().as_bytes(), ending)
}
