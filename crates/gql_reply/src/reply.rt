//! The text of an answer.
ghost use Rattle.std.specs.Prelude.{◌≡◌, ◌++◌, map, option_map, IfOk, OnOk};
ghost use Rattle.gql_steps.specs.Outcomes.{error_of, outcome_of};
ghost use Rattle.gql_reply.specs.ReplyText as spec;

use crate::errors::write_errors;
use gql_exec::{Outcome, ResponseError};
use std::alloc::{AllocError, Global};

/// Writes the errors of an answer, if there are any.
fn add_errors(errors: &[ResponseError<'_>], out: &mut Vec<u8>) -> Result<(), AllocError>
    ensures { OnOk result (out.new.items
        ≡ out.old.items ++ spec.errors_text (map error_of errors.now)) }
{
    if errors.is_empty() {
        return Ok(());
    }
    out.extend_from_slice(b"\"errors\":[")?;
    write_errors(errors, out)?;
    Ok(())
}

/// Writes the data of an answer, unless it is a request error.
fn add_data(
    errors: &[ResponseError<'_>],
    text: &Option<Vec<u8>>,
    out: &mut Vec<u8>,
) -> Result<(), AllocError>
    ensures { OnOk result (out.new.items ≡ out.old.items
        ++ spec.data_text (map error_of errors.now) (option_map (λ t. t.items) text.now)) }
{
    let Some(text) = text else {
        return Ok(());
    };
    if !errors.is_empty() {
        out.push(b',')?;
    }
    out.extend_from_slice(b"\"data\":")?;
    out.extend_from_slice(text.as_slice())?;
    Ok(())
}

/// The room for an answer with this data, and without errors.
fn room(text: &Option<Vec<u8>>) -> usize {
    match text {
        Some(text) => text.len().saturating_add(16),
        None => 16,
    }
}

/// The text of an answer (GraphQL specification, 7.1), without blanks: its errors, if there are
/// any, and its data, unless it is a request error.
pub fn reply_text(alloc: Global, outcome: &Outcome<'_>) -> Result<Vec<u8>, AllocError>
    ensures { IfOk result (λ text. text.items ≡ spec.reply_text (outcome_of outcome.now)) }
{
    let mut out = Vec::with_capacity(alloc, room(&outcome.data))?;
    out.push(b'{')?;
    add_errors(outcome.errors.as_slice(), &mut out)?;
    add_data(outcome.errors.as_slice(), &outcome.data, &mut out)?;
    out.push(b'}')?;
    Ok(out)
}
