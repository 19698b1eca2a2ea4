//! `gqlreg check`: what a check of a folder finds, written in a format.

use crate::status::{Checked, check_status};
use gql_ast::Profile;
use gql_check::{CheckFault, check_files, refusal_annotation, refusal_text};
use gql_findings::{Findings, compare};
use gql_folder::GivenFile;
use gql_folder_command::{CheckOptions, Format};
use gql_folder_files::{Failure, given_files, report, tell_long_check, tell_made, unwritten};
use gql_page::{as_html, as_markdown};
use gql_render::{Against, Check, as_github, as_json, as_sarif, as_text};
use std::alloc::AllocError;
use std::io::{IsTerminal, Write};
use std::{env, fs};

/// What a check of the folder finds. Says what manifests are made into, if there are some.
fn findings_now(rt: &HostRuntime, options: &CheckOptions) -> Result<Findings, Failure> {
    let folder = options.folder.as_str();
    let limits = &options.profile.limits;
    let given = given_files(rt, limits, folder, options.manifests.as_slice())?;
    tell_made(rt, &given);
    tell_long_check(rt, given.files.as_slice());
    let files = given.files.as_slice();
    checked(rt, options.profile, folder, files, options.format)
}

/// What a check of the base finds, whose operations are also those of the manifests.
fn findings_before(
    rt: &HostRuntime,
    folder: &str,
    options: &CheckOptions,
) -> Result<Findings, Failure> {
    let limits = &options.profile.limits;
    let given = given_files(rt, limits, folder, options.manifests.as_slice())?;
    let files = given.files.as_slice();
    checked(rt, options.profile, folder, files, options.format)
}

/// The failure of files that are not checked. For annotations, it is one of them, too.
pub fn refusal(
    rt: &HostRuntime,
    profile: Profile,
    folder: &str,
    files: &[GivenFile],
    format: Format,
    fault: &CheckFault,
) -> Result<Failure, AllocError> {
    if matches!(format, Format::Github) {
        if let Some(text) = refusal_annotation(rt.alloc(), folder, files, fault)? {
            let _ = rt.print(text);
        }
    }
    let text = refusal_text(rt.alloc(), profile, folder, files, fault)?;
    Ok(Failure::Refused(text))
}

/// What a check of the files of a folder by this profile finds.
pub fn checked(
    rt: &HostRuntime,
    profile: Profile,
    folder: &str,
    files: &[GivenFile],
    format: Format,
) -> Result<Findings, Failure> {
    match check_files(rt.alloc(), profile, folder, files) {
        Ok(findings) => Ok(findings),
        Err(CheckFault::Memory) => Err(Failure::Memory),
        Err(fault) => Err(refusal(rt, profile, folder, files, format, &fault)?),
    }
}

/// Whether lines are coloured: on a terminal, unless NO_COLOR is set.
fn has_colours(rt: &HostRuntime) -> bool {
    rt.stdout().is_terminal() && env::var(rt, "NO_COLOR").is_err()
}

/// A check in a format.
fn written(
    rt: &HostRuntime,
    check: &Check<'_>,
    format: Format,
    colours: bool,
) -> Result<Vec<u8>, AllocError> {
    match format {
        Format::Text => as_text(rt.alloc(), check, colours),
        Format::Json => as_json(rt.alloc(), check),
        Format::Github => as_github(rt.alloc(), check),
        Format::Sarif => as_sarif(rt.alloc(), check),
        Format::Markdown => as_markdown(rt.alloc(), check),
        Format::Html => as_html(rt.alloc(), check),
    }
}

/// Writes a text to a file, or to standard output if none is given.
fn write_out(rt: &HostRuntime, text: Vec<u8>, output: &Option<String>) -> Result<(), Failure> {
    match output {
        Some(path) => match fs::write(rt, path.as_str(), text) {
            Ok(()) => Ok(()),
            Err(_) => Err(unwritten(rt, path.as_str())),
        },
        None => match rt.stdout().write_all(text.as_slice()) {
            Ok(()) => Ok(()),
            Err(_) => Err(Failure::Closed),
        },
    }
}

/// Checks a folder, and writes what is found.
fn check(rt: &HostRuntime, options: &CheckOptions) -> Result<Checked, Failure> {
    let now = findings_now(rt, options)?;
    let base = match &options.base {
        Some(folder) => Some(findings_before(rt, folder.as_str(), options)?),
        None => None,
    };
    let comparison = match &base {
        Some(base) => Some(compare(rt.alloc(), &now, base)?),
        None => None,
    };
    let against = match (&base, &comparison) {
        (Some(findings), Some(comparison)) => Some(Against {
            findings,
            comparison,
        }),
        _ => None,
    };
    let check = Check {
        now: &now,
        base: against,
    };
    let colours = options.output.is_none() && has_colours(rt);
    let mut text = written(rt, &check, options.format, colours)?;
    if matches!(options.format, Format::Json | Format::Sarif) {
        text.push(b'\n')?;
    }
    write_out(rt, text, &options.output)?;
    Ok(Checked { now, comparison })
}

/// Runs a check, and returns the status.
pub fn run_check(rt: &HostRuntime, options: &CheckOptions) -> u8 {
    let outcome = check(rt, options);
    let status = check_status(&outcome);
    if let Some(failure) = outcome.err() {
        let _ = report(rt, failure);
    }
    status
}
