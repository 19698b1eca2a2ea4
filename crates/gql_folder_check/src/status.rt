//! The exit statuses of a check, and of a question about the use of a schema.

ghost use Rattle.std.specs.Prelude.{◌≡◌};
ghost use Rattle.gql_folder_check.specs.Statuses as spec;

use gql_findings::{Comparison, Findings};
use gql_folder_files::Failure;

/// A check that was written: what it found, and what the change does, if there is a base.
#[derive(Drop)]
pub struct Checked {
    pub now: Findings,
    pub comparison: Option<Comparison>,
}

/// How a question about the use of a schema ends, if nothing fails.
#[derive(Clone, Copy)]
pub enum Answered {
    /// The answer was written.
    Written,
    /// The schema has faults, so that there is no answer.
    FaultySchema,
}

/// Whether a check has something against the folder: without a base, a fault; with one, a fault
/// that is brought, an operation that is broken, or documents that are hidden.
fn is_against(now: &Findings, comparison: &Option<Comparison>) -> bool
    ensures { result ≡ spec.is_against now.now comparison.now }
{
    match comparison {
        Some(comparison) => {
            !comparison.brought.is_empty() || !comparison.broken.is_empty() || comparison.hidden
        }
        None => !now.findings.is_empty(),
    }
}

/// The exit status of a check.
pub fn check_status(outcome: &Result<Checked, Failure>) -> u8
    ensures { result ≡ spec.check_status outcome.now }
{
    match outcome {
        Ok(checked) => u8::from(is_against(&checked.now, &checked.comparison)),
        Err(failure) => failure.status(),
    }
}

/// The exit status of a question about the use of a schema.
pub fn usage_status(outcome: &Result<Answered, Failure>) -> u8
    ensures { result ≡ spec.usage_status outcome.now }
{
    match outcome {
        Ok(Answered::Written) => 0,
        Ok(Answered::FaultySchema) => 1,
        Err(failure) => failure.status(),
    }
}
