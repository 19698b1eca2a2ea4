//! `gqlreg usage`: who reads a part of a schema, and which parts nobody reads.

use crate::check::refusal;
use crate::status::{Answered, usage_status};
use gql_folder::GivenFile;
use gql_folder_command::{Format, UsageFormat, UsageOptions, UsageQuestion};
use gql_folder_files::{Failure, given_files, report, tell_made};
use gql_folder_usage::{AnswerFormat, UsageFault, readers_in, unread_in};
use std::alloc::AllocError;
use std::io::Write;

/// The answer to a question about the use of the schema of a folder.
fn answer(
    rt: &HostRuntime,
    options: &UsageOptions,
    files: &[GivenFile],
) -> Result<Vec<u8>, UsageFault> {
    let (profile, folder) = (options.profile, options.folder.as_str());
    let format = match options.format {
        UsageFormat::Text => AnswerFormat::Text,
        UsageFormat::Json => AnswerFormat::Json,
    };
    match &options.question {
        UsageQuestion::ReadersOf(part) => {
            readers_in(rt.alloc(), profile, folder, files, part.as_str(), format)
        }
        UsageQuestion::Unread => unread_in(rt.alloc(), profile, folder, files, format),
    }
}

/// That a schema has faults, so that there is no answer.
fn faulty_text(rt: &HostRuntime, folder: &str, faults: usize) -> Result<String, AllocError> {
    let noun = if faults == 1 { "fault" } else { "faults" };
    format!(in rt.alloc();
        "the schema of {folder} has {faults} {noun}, which gqlreg check shows: until then it is not said who reads what"
    )
}

/// Says why there is no answer.
fn unanswered(
    rt: &HostRuntime,
    options: &UsageOptions,
    files: &[GivenFile],
    fault: UsageFault,
) -> Result<Answered, Failure> {
    let (profile, folder) = (options.profile, options.folder.as_str());
    match fault {
        UsageFault::Files(fault) => {
            Err(refusal(rt, profile, folder, files, Format::Text, &fault)?)
        }
        UsageFault::FaultySchema { faults } => {
            let _ = rt.eprintln(faulty_text(rt, folder, faults)?);
            Ok(Answered::FaultySchema)
        }
        UsageFault::NoSuchPart(text) => Err(Failure::Refused(text)),
        UsageFault::Memory => Err(Failure::Memory),
    }
}

/// Answers a question about the use of the schema of a folder.
fn usage(rt: &HostRuntime, options: &UsageOptions) -> Result<Answered, Failure> {
    let (limits, folder) = (&options.profile.limits, options.folder.as_str());
    let given = given_files(rt, limits, folder, options.manifests.as_slice())?;
    tell_made(rt, &given);
    let files = given.files.as_slice();
    match answer(rt, options, files) {
        Ok(text) => match rt.stdout().write_all(text.as_slice()) {
            Ok(()) => Ok(Answered::Written),
            Err(_) => Err(Failure::Closed),
        },
        Err(fault) => unanswered(rt, options, files, fault),
    }
}

/// Runs a question about the use of a schema, and returns the status.
pub fn run_usage(rt: &HostRuntime, options: &UsageOptions) -> u8 {
    let outcome = usage(rt, options);
    let status = usage_status(&outcome);
    if let Err(failure) = outcome {
        let _ = report(rt, failure);
    }
    status
}
