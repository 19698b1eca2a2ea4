//! What a push did, in words.

use gql_push::{Progress, Unserved};
use std::alloc::AllocError;

/// What is known of the registry after a push.
#[derive(Clone, Copy)]
pub enum After {
    /// How many faults it reports, and which operations it does not serve.
    Reported { faults: usize, unserved: Unserved },
    /// Somebody else has edited it since: it is at this revision.
    Edited { revision: u64 },
    /// It does not answer any more.
    Unknown,
}

/// So many things, as `1 fault` or `2 faults`.
fn counted(rt: &HostRuntime, count: usize, noun: &str) -> Result<String, AllocError> {
    let ending = if count == 1 { "" } else { "s" };
    format!(in rt.alloc(); "{count} {noun}{ending}")
}

/// How many operations of the folder are not served, in words.
fn operations_text(rt: &HostRuntime, count: usize) -> Result<String, AllocError> {
    let operations = counted(rt, count, "operation")?;
    let (operations, verb) = (operations.as_str(), if count == 1 { "is" } else { "are" });
    format!(in rt.alloc(); "{operations} of this folder {verb} not served")
}

/// The faults that a registry reports, and which operations it does not serve, in words.
fn reported_text(
    rt: &HostRuntime,
    faults: usize,
    unserved: Unserved,
) -> Result<String, AllocError> {
    let faults = counted(rt, faults, "fault")?;
    let faults = faults.as_str();
    match unserved {
        Unserved::Nothing => format!(in rt.alloc(); ", {faults}, 0 operations are not served"),
        Unserved::Everything => {
            format!(in rt.alloc(); ", the schema has {faults}: no operation is served")
        }
        Unserved::Exactly(count) => {
            let operations = operations_text(rt, count)?;
            let operations = operations.as_str();
            format!(in rt.alloc(); ", {faults}, {operations}")
        }
        Unserved::AtLeast(0) => format!(in rt.alloc();
            ", {faults}; how many operations of this folder are not served is not known"
        ),
        Unserved::AtLeast(count) => {
            let operations = operations_text(rt, count)?;
            let operations = operations.as_str();
            format!(in rt.alloc(); ", {faults}, at least {operations}")
        }
    }
}

/// What is known of the registry after a push, in words.
fn after_text(rt: &HostRuntime, after: After) -> Result<String, AllocError> {
    match after {
        After::Reported { faults, unserved } => reported_text(rt, faults, unserved),
        After::Edited { revision } => format!(in rt.alloc();
            "; somebody else has edited the registry since, which is at revision {revision}"
        ),
        After::Unknown => String::from_str(rt.alloc(), "; what it serves is not known"),
    }
}

/// What a push did to a registry, and what is known of that.
pub fn summary(rt: &HostRuntime, progress: &Progress, after: After) -> Result<String, AllocError> {
    let made = counted(rt, progress.made(), "file")?;
    let (made, revision) = (made.as_str(), progress.revision());
    let after = after_text(rt, after)?;
    let after = after.as_str();
    format!(in rt.alloc(); "{made} put or removed: revision {revision}{after}\n")
}
