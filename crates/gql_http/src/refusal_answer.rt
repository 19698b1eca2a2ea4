//! The answers to refusals.
ghost use Rattle.std.specs.Prelude.{◌≡◌, IfOk, Some, IsTrue};
ghost use Rattle.gql_wire.specs.Answer.{is_answered};
ghost use Rattle.std.specs.Option.{option_copied};
ghost use Rattle.gql_http.specs.Answers.{error_text, head_message, head_said, head_status, refusal_said, refused_text, said};
ghost use Rattle.gql_http.specs.Called.{batch_said, body_said, route_said};
ghost use Rattle.gql_http.specs.Said.{answer_said};

use crate::answer::Answer;
use crate::batch::BatchFault;
use crate::refusal_body::{error_body, faulty_body, refused_body, stale_body, syntax_body};
use crate::route::RouteRefusal;
use crate::run_body::RunBodyFault;
use gql_registry::Refusal;
use gql_wire::HeadRefusal;
use http::StatusCode;
use std::alloc::{AllocError, Global};

fn head_status(refusal: HeadRefusal) -> StatusCode
    ensures value { result ≡ head_status refusal }
    ensures answered { IsTrue (is_answered result) }
{
    match refusal {
        HeadRefusal::BadHead | HeadRefusal::BadLength => StatusCode::BAD_REQUEST,
        HeadRefusal::LongHead => StatusCode::REQUEST_HEADER_FIELDS_TOO_LARGE,
        HeadRefusal::LongBody => StatusCode::PAYLOAD_TOO_LARGE,
        HeadRefusal::TransferCoding => StatusCode::NOT_IMPLEMENTED,
    }
}

fn head_message(refusal: HeadRefusal) -> &'static str
    ensures { result.now ≡ head_message refusal }
{
    match refusal {
        HeadRefusal::BadHead => "bad head",
        HeadRefusal::LongHead => "head is too long",
        HeadRefusal::LongBody => "body is too long",
        HeadRefusal::TransferCoding => "transfer coding is not served",
        HeadRefusal::BadLength => "bad content length",
    }
}

/// The answer to a refused head.
pub fn head_answer(alloc: Global, refusal: HeadRefusal) -> Result<Answer, AllocError>
    ensures { IfOk result (λ a. answer_said a ≡ head_said refusal) }
{
    let number = u64::from(refusal.number());
    simple(alloc, head_status(refusal), head_message(refusal), number)
}

/// The answer to a request that is not a call.
pub fn route_answer(alloc: Global, refusal: RouteRefusal) -> Result<Answer, AllocError>
    ensures { IfOk result (λ a. answer_said a ≡ route_said refusal) }
{
    let number = u64::from(refusal.number());
    match refusal {
        RouteRefusal::NoRoute => simple(alloc, StatusCode::NOT_FOUND, "no such route", number),
        RouteRefusal::NotAllowed(methods) => Ok(Answer {
            status: StatusCode::METHOD_NOT_ALLOWED,
            allow: Some(methods),
            body: error_body(alloc, "method is not allowed", number)?,
        }),
        RouteRefusal::BadQuery => simple(alloc, StatusCode::BAD_REQUEST, "bad query", number),
    }
}

fn simple(
    alloc: Global,
    status: StatusCode,
    message: &str,
    number: u64,
) -> Result<Answer, AllocError>
    requires { IsTrue (is_answered status) }
    ensures { IfOk result (λ a. answer_said a ≡ said status (error_text message.now number)) }
{
    Ok(Answer {
        status,
        allow: None,
        body: error_body(alloc, message, number)?,
    })
}

/// An answer that names a file, if there is one.
fn naming(
    alloc: Global,
    status: StatusCode,
    message: &str,
    number: u64,
    file: Option<&str>,
) -> Result<Answer, AllocError>
    requires { IsTrue (is_answered status) }
    ensures { IfOk result (λ a. answer_said a
        ≡ said status (refused_text (option_copied file.entry) message.now number)) }
{
    let body = refused_body(alloc, message, number, file)?;
    Ok(with_body(status, body))
}

fn with_body(status: StatusCode, body: Vec<u8>) -> Answer
    requires { IsTrue (is_answered status) }
    ensures { answer_said result ≡ said status body.items }
{
    Answer {
        status,
        allow: None,
        body,
    }
}

/// The answer to a run whose body is refused. There is none if an allocation failed.
pub fn body_answer(alloc: Global, fault: RunBodyFault) -> Result<Answer, AllocError>
    ensures { IfOk result (λ a. body_said fault ≡ Some (answer_said a)) }
{
    let status = StatusCode::BAD_REQUEST;
    let number = u64::from(fault.number());
    match fault {
        RunBodyFault::BadCall => simple(alloc, status, "bad run body", number),
        RunBodyFault::StoredOnly => simple(alloc, status, "stored operations only", number),
        RunBodyFault::Memory => Err(AllocError),
    }
}

/// The answer to an edit whose body is no batch. There is none if an allocation failed.
pub fn batch_answer(alloc: Global, fault: BatchFault) -> Result<Answer, AllocError>
    ensures { IfOk result (λ a. batch_said fault ≡ Some (answer_said a)) }
{
    let number = u64::from(fault.number());
    match fault {
        BatchFault::BadBatch => simple(alloc, StatusCode::BAD_REQUEST, "bad batch", number),
        BatchFault::Memory => Err(AllocError),
    }
}

/// The answer to a refusal of the registry, which names the file if it is one of a change. There is
/// none if an allocation failed.
pub fn refusal_answer(
    alloc: Global,
    refusal: &Refusal,
    file: Option<&str>,
) -> Result<Answer, AllocError>
    ensures { IfOk result (λ a. refusal_said (option_copied file.entry) refusal.now
        ≡ Some (answer_said a)) }
{
    let number = u64::from(refusal.number());
    let bad = StatusCode::BAD_REQUEST;
    let large = StatusCode::PAYLOAD_TOO_LARGE;
    let missing = StatusCode::NOT_FOUND;
    let conflict = StatusCode::CONFLICT;
    let not_run = StatusCode::UNPROCESSABLE_ENTITY;
    match refusal {
        Refusal::Syntax {
            number: of_syntax,
            place,
        } => Ok(with_body(bad, syntax_body(alloc, *of_syntax, *place, file)?)),
        Refusal::NotText => naming(alloc, bad, "body is not UTF-8", number, file),
        Refusal::TooLong => naming(alloc, large, "file is too long", number, file),
        Refusal::NoFile => naming(alloc, missing, "no such file", number, file),
        Refusal::FilesFull => naming(alloc, conflict, "too many files", number, file),
        Refusal::Stale { revision } => Ok(with_body(conflict, stale_body(alloc, *revision)?)),
        Refusal::BadData => naming(alloc, bad, "data is not accepted", number, file),
        Refusal::NoOperation => simple(alloc, missing, "no such operation", number),
        Refusal::Faulty { faults } => {
            let body = faulty_body(alloc, faults.as_slice())?;
            Ok(with_body(not_run, body))
        }
        Refusal::TooLarge => simple(alloc, not_run, "answer is too large", number),
        Refusal::NotRun => simple(alloc, not_run, "subscriptions are not run", number),
        Refusal::Memory => Err(AllocError),
        Refusal::Spent => simple(alloc, conflict, "revisions are spent", number),
    }
}
