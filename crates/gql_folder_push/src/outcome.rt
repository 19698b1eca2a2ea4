//! How a push ends, and the status then.

ghost use Rattle.std.specs.Prelude.{◌≡◌};
ghost use Rattle.gql_folder_push.specs.Statuses.{status_of};

use gql_folder_files::{Failure, report};

/// How a push ends that is not cut short.
#[derive(Clone, Copy, Debug, PartialEq, Eq)]
pub enum PushEnd {
    /// All edits are made.
    Pushed,
    /// The registry has what the folder has: no edit was to be made.
    NothingToPush,
    /// The folder has faults, and with `--fail-on-faults` nothing is put then.
    Faulty,
}

/// The status of a push that ends so. Reports why it was cut short, if it was.
pub fn end_push(rt: &HostRuntime, outcome: Result<PushEnd, Failure>) -> u8
    ensures { result ≡ status_of outcome }
{
    match outcome {
        Ok(PushEnd::Pushed | PushEnd::NothingToPush) => 0,
        Ok(PushEnd::Faulty) => 1,
        Err(failure) => report(rt, failure),
    }
}
