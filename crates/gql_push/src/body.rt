//! What the body of an answer to an edit says.
ghost use Rattle.std.specs.Prelude.{◌≡◌, codes, IfOk, option_map, string_bytes};
ghost use Rattle.std.specs.Option.{option_copied};
ghost use Rattle.serde_json.specs.View.{view};
ghost use Rattle.gql_push.specs.Replies as spec;

use serde_json::Value;
use std::alloc::{AllocError, Global};
use std::str;

/// The status of an answer to a request that is accepted.
const ACCEPTED: u16 = 200;

/// The error code of an edit that expects another revision than the present one.
const STALE: u64 = 206;

/// What a registry answers to an edit.
#[derive(Drop)]
pub enum Reply {
    /// The edit is accepted: the revision, and how many faults there are.
    Done {
        revision: u64,
        faults: u64,
    },
    /// The edit expects another revision than the present one, which this is.
    Stale {
        revision: u64,
    },
    /// The edit is refused: the number, the message, and the file that is refused, as
    /// `schema/users`, where the answer names one.
    Refused {
        number: u64,
        message: String,
        file: Option<String>,
    },
    /// The answer is not one of a registry.
    Strange,
}

/// The number of a member of an object.
pub(crate) fn number_at(value: &Value, name: &str) -> Option<u64>
    ensures { result ≡ spec.number_at name.now (view value.now) }
{
    match value.get(name) {
        Some(number) => number.as_u64(),
        None => None,
    }
}

/// The text of a member of an object.
pub(crate) fn text_at<'v>(value: &'v Value, name: &str) -> Option<&'v str>
    ensures { option_copied result ≡ spec.text_at name.now (view value.entry.now) }
{
    match value.get(name) {
        Some(text) => text.as_str(),
        None => None,
    }
}

/// The first error of an answer.
fn first_error(value: &Value) -> Option<&Value>
    ensures { option_map (λ e. view e.now) result ≡ spec.first_error (view value.now) }
{
    match value.get("errors") {
        Some(errors) => errors.get(0),
        None => None,
    }
}

/// What an edit that is accepted is answered.
fn accepted(value: &Value) -> Reply
    ensures { spec.said_by result ≡ spec.accepted_in (view value.now) }
{
    let (revision, faults) = (number_at(value, "revision"), number_at(value, "faults"));
    match (revision, faults) {
        (Some(revision), Some(faults)) => Reply::Done { revision, faults },
        _ => Reply::Strange,
    }
}

/// What an edit is answered that expects another revision.
fn stale(extensions: &Value) -> Reply
    ensures { spec.said_by result ≡ spec.stale_in (view extensions.now) }
{
    match number_at(extensions, "revision") {
        Some(revision) => Reply::Stale { revision },
        None => Reply::Strange,
    }
}

/// The file that is refused, if the extensions of an error name one.
fn file_in(alloc: Global, extensions: &Value) -> Result<Option<String>, AllocError>
    ensures { IfOk result (λ file. option_map (λ f. string_bytes f) file
        ≡ spec.text_at (codes "file") (view extensions.now)) }
{
    match text_at(extensions, "file") {
        Some(file) => Ok(Some(String::from_str(alloc, file)?)),
        None => Ok(None),
    }
}

/// What an edit is answered that is refused with this number.
fn refused(
    alloc: Global,
    error: &Value,
    extensions: &Value,
    number: u64,
) -> Result<Reply, AllocError>
    ensures { IfOk result (λ reply. spec.said_by reply
        ≡ spec.refused_in (view error.now) (view extensions.now) number) }
{
    match text_at(error, "message") {
        Some(message) => Ok(Reply::Refused {
            number,
            message: String::from_str(alloc, message)?,
            file: file_in(alloc, extensions)?,
        }),
        None => Ok(Reply::Strange),
    }
}

/// What an error says.
fn error_reply(alloc: Global, error: &Value) -> Result<Reply, AllocError>
    ensures { IfOk result (λ reply. spec.said_by reply ≡ spec.said_in_error (view error.now)) }
{
    let Some(extensions) = error.get("extensions") else {
        return Ok(Reply::Strange);
    };
    match number_at(extensions, "code") {
        Some(STALE) => Ok(stale(extensions)),
        Some(number) => refused(alloc, error, extensions, number),
        None => Ok(Reply::Strange),
    }
}

/// The bytes of a body as JSON, if they are JSON.
pub(crate) fn value_in(alloc: Global, body: &[u8]) -> Result<Option<Value>, AllocError>
    ensures { IfOk result (λ value. option_map view value ≡ spec.value_in body.now) }
{
    let Ok(text) = str::from_utf8(body) else {
        return Ok(None);
    };
    match Value::from_str(alloc, text) {
        Ok(value) => Ok(Some(value)),
        Err(error) => {
            if error.is_memory() {
                Err(AllocError)
            } else {
                Ok(None)
            }
        }
    }
}

/// What an answer with this status and this JSON says.
fn value_reply(alloc: Global, status: u16, value: &Value) -> Result<Reply, AllocError>
    ensures { IfOk result (λ reply.
        spec.said_by reply ≡ spec.said_in_value status (view value.now)) }
{
    if status == ACCEPTED {
        return Ok(accepted(value));
    }
    match first_error(value) {
        Some(error) => error_reply(alloc, error),
        None => Ok(Reply::Strange),
    }
}

/// What an answer to an edit says, by its status and its body.
pub fn reply_in(alloc: Global, status: u16, body: &[u8]) -> Result<Reply, AllocError>
    ensures { IfOk result (λ reply.
        spec.said_by reply ≡ spec.said_in status (spec.value_in body.now)) }
{
    match value_in(alloc, body)? {
        Some(value) => value_reply(alloc, status, &value),
        None => Ok(Reply::Strange),
    }
}
