//! `gqlreg push`: puts the files of a folder into a registry.

use crate::checked::folder_check;
use crate::connection::{Connection, NoAnswer};
use crate::making::make_all;
use crate::outcome::PushEnd;
use crate::plan::{planned, test_revision};
use crate::state::{keep, last_push};
use crate::summary::{After, summary};
use gql_findings::Findings;
use gql_folder::GivenFile;
use gql_folder_command::PushOptions;
use gql_folder_files::Failure;
use gql_push::{FolderCheck, Progress, Report, Unserved, unserved_by};
use std::alloc::AllocError;

/// The progress of a push that begins at this report.
fn progress_from(report: &Report) -> Progress {
    Progress::new(report.revision, report.owners.len() as u64)
}

/// Whether nothing is to be put, since the folder has faults. Says so.
fn stops_at_faults(
    rt: &HostRuntime,
    options: &PushOptions,
    findings: &Findings,
) -> Result<bool, AllocError> {
    if !options.fail_on_faults || findings.findings.is_empty() {
        return Ok(false);
    }
    let count = findings.findings.len();
    let folder = options.folder.as_str();
    let text = format!(in rt.alloc();
        "{folder} has {count} faults, which gqlreg check shows: nothing is put\n"
    )?;
    let _ = rt.eprint(text);
    Ok(true)
}

/// What is known of a registry that has answered with this report after a push.
fn after_report(progress: &Progress, check: &FolderCheck, report: &Report) -> After {
    if report.revision != progress.revision() {
        return After::Edited {
            revision: report.revision,
        };
    }
    After::Reported {
        faults: report.owners.len(),
        unserved: unserved_by(report.owners.as_slice(), check),
    }
}

/// Prints a text on standard output.
fn print(rt: &HostRuntime, text: String) -> Result<(), Failure> {
    match rt.print(text) {
        Ok(()) => Ok(()),
        Err(_) => Err(Failure::Closed),
    }
}

/// Says what a push did. The registry is asked for its report, unless the last edit left no fault.
fn tell_pushed(
    rt: &HostRuntime,
    connection: &mut Connection,
    options: &PushOptions,
    check: &FolderCheck,
    progress: &Progress,
) -> Result<(), Failure> {
    if progress.faults() == 0 {
        let after = After::Reported {
            faults: 0,
            unserved: Unserved::Nothing,
        };
        return print(rt, summary(rt, progress, after)?);
    }
    match connection.report(rt, options.server.as_str()) {
        Ok(report) => {
            let after = after_report(progress, check, &report);
            print(rt, summary(rt, progress, after)?)
        }
        Err(NoAnswer::NoServer) => {
            print(rt, summary(rt, progress, After::Unknown)?)?;
            Err(Failure::NoServer)
        }
        Err(NoAnswer::Memory) => Err(Failure::Memory),
    }
}

/// Says that there is nothing to push.
fn tell_nothing(
    rt: &HostRuntime,
    options: &PushOptions,
    progress: &Progress,
) -> Result<(), Failure> {
    let (server, revision) = (options.server.as_str(), progress.revision());
    let text = format!(in rt.alloc(); "nothing to push: {server} is at revision {revision}\n")?;
    print(rt, text)
}

/// Puts the files of a folder, whose check found this.
fn put_all(
    rt: &HostRuntime,
    options: &PushOptions,
    files: Vec<GivenFile>,
    findings: &Findings,
) -> Result<PushEnd, Failure> {
    let mut last = last_push(rt, options)?;
    let mut connection = Connection::open(rt, options.server.as_str(), options.wait)?;
    let report = connection.report(rt, options.server.as_str())?;
    let mut progress = progress_from(&report);
    if progress.revision() == 0 {
        // A registry that has just been started has nothing of the last push.
        last = None;
    }
    let left = last.as_ref().map(|last| last.revision);
    let push = planned(rt, options, files, last)?;
    test_revision(rt, options, left, progress.revision(), &push)?;
    make_all(rt, &mut connection, options, &push, &mut progress)?;
    let check = folder_check(rt, push.resources.as_slice(), findings)?;
    keep(rt, options, push.resources, progress.revision())?;
    if progress.made() == 0 {
        tell_nothing(rt, options, &progress)?;
        return Ok(PushEnd::NothingToPush);
    }
    tell_pushed(rt, &mut connection, options, &check, &progress)?;
    Ok(PushEnd::Pushed)
}

/// Pushes the files of a folder, whose check found this. Nothing is put if the folder has faults
/// that are to stop it. An `Err` if the push is cut short.
pub fn push_files(
    rt: &HostRuntime,
    options: &PushOptions,
    files: Vec<GivenFile>,
    findings: &Findings,
) -> Result<PushEnd, Failure> {
    if stops_at_faults(rt, options, findings)? {
        return Ok(PushEnd::Faulty);
    }
    put_all(rt, options, files, findings)
}
