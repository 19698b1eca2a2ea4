//! `gqlreg push`: checks the files of a folder, and puts them into a registry.

use gql_folder_check::checked;
use gql_folder_command::{Format, PushOptions};
use gql_folder_files::{Failure, given_files, tell_made};
use gql_folder_push::{PushEnd, end_push, push_files};

/// Pushes the files of a folder.
fn push(rt: &HostRuntime, options: &PushOptions) -> Result<PushEnd, Failure> {
    let (profile, folder) = (options.profile, options.folder.as_str());
    let given = given_files(rt, &profile.limits, folder, options.manifests.as_slice())?;
    tell_made(rt, &given);
    let findings = checked(rt, profile, folder, given.files.as_slice(), Format::Text)?;
    push_files(rt, options, given.files, &findings)
}

/// Runs a push, and returns the status.
pub fn run_push(rt: &HostRuntime, options: &PushOptions) -> u8 {
    end_push(rt, push(rt, options))
}
