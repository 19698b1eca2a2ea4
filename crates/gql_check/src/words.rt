//! Why a folder is not checked, in words.

use crate::fault::{CheckFault, FileFault};
use gql_ast::{FileSide, Profile};
use gql_findings::Source;
use gql_folder::{GivenFile, with_commas};
use gql_render::caret::write_padding;
use gql_render::escapes::write_property;
use gql_text::Place;
use std::alloc::{AllocError, Global};
use std::str;

/// The path of a file given, below its folder; empty where there is none.
fn path_at(files: &[GivenFile], at: usize) -> &str {
    match files.get(at) {
        Some(file) => file.path.as_str(),
        None => "",
    }
}

/// Writes the line of a place, and below it a caret at the place.
fn write_line(
    alloc: Global,
    out: &mut String,
    file: &GivenFile,
    place: Place,
) -> Result<(), AllocError> {
    let Ok(text) = str::from_utf8(file.bytes.as_slice()) else {
        return Ok(());
    };
    let (label, path) = (String::new(alloc), String::new(alloc));
    let source = Source::new(alloc, label, path, String::from_str(alloc, text)?)?;
    let line = source.line(place.line);
    out.push_str("\n  ")?;
    out.push_str(line)?;
    out.push_str("\n  ")?;
    write_padding(out, line, place.column)?;
    out.push('^')?;
    Ok(())
}

/// A file that is refused, with its place and its line if it has one.
fn refused_text(
    alloc: Global,
    folder: &str,
    files: &[GivenFile],
    fault: &FileFault,
) -> Result<String, AllocError> {
    let path = path_at(files, fault.file);
    let FileFault {
        file: _,
        place,
        number,
        reason,
    } = fault;
    let Some(place) = place else {
        return format!(in alloc; "{folder}/{path}: {reason} ({number})");
    };
    let (line, column) = (place.line, place.column);
    let mut out = format!(in alloc; "{folder}/{path}:{line}:{column}: {reason} ({number})")?;
    if let Some(file) = files.get(fault.file) {
        write_line(alloc, &mut out, file, *place)?;
    }
    Ok(out)
}

/// All files that are refused, each on a line of its own.
fn all_refused_text(
    alloc: Global,
    folder: &str,
    files: &[GivenFile],
    faults: &[FileFault],
) -> Result<String, AllocError> {
    let mut out = String::new(alloc);
    for fault in faults {
        if !out.is_empty() {
            out.push('\n')?;
        }
        out.push_str(refused_text(alloc, folder, files, fault)?.as_str())?;
    }
    Ok(out)
}

/// The name of the folder of a side.
fn side_folder(side: FileSide) -> &'static str {
    match side {
        FileSide::Schema => "schema",
        FileSide::Documents => "documents",
    }
}

/// That a folder has too many files of a side.
fn too_many_text(
    alloc: Global,
    profile: Profile,
    folder: &str,
    side: FileSide,
) -> Result<String, AllocError> {
    let side = side_folder(side);
    let most = with_commas(alloc, profile.limits.files)?;
    format!(in alloc; "{folder}/{side} has more than {most} files")
}

/// Why the files given, which are those of a folder, are not checked by this profile. Without a line
/// break at its end.
pub fn refusal_text(
    alloc: Global,
    profile: Profile,
    folder: &str,
    files: &[GivenFile],
    fault: &CheckFault,
) -> Result<String, AllocError> {
    match fault {
        CheckFault::Empty => format!(in alloc;
            "{folder} has no files: schema/ and documents/ have those with .graphql at their end"
        ),
        CheckFault::TooMany { side } => too_many_text(alloc, profile, folder, *side),
        CheckFault::Twice { first, at } => {
            let (first, at) = (path_at(files, *first), path_at(files, *at));
            format!(in alloc;
                "{folder}/{at} has the name of {folder}/{first}: a slash counts as a dot"
            )
        }
        CheckFault::Misnamed { at } => {
            let path = path_at(files, *at);
            let most = profile.limits.name;
            format!(in alloc;
                "{folder}/{path} has a name that is not accepted: 1 to {most} letters, digits, `_`, `.` and `-`"
            )
        }
        CheckFault::Refused(faults) => all_refused_text(alloc, folder, files, faults.as_slice()),
        CheckFault::Memory => String::from_str(alloc, "out of memory"),
    }
}

/// Adds why a file given is refused, as an annotation, with a line break at its end.
fn write_annotation(
    alloc: Global,
    out: &mut String,
    folder: &str,
    files: &[GivenFile],
    fault: &FileFault,
) -> Result<(), AllocError> {
    let path = path_at(files, fault.file);
    let path = format!(in alloc; "{folder}/{path}")?;
    out.push_str("::error file=")?;
    write_property(out, path.as_str())?;
    let (number, reason) = (fault.number, fault.reason);
    if let Some(place) = fault.place {
        let (line, column) = (place.line, place.column);
        let at = format!(in alloc; ",line={line},col={column}")?;
        out.push_str(at.as_str())?;
    }
    let end = format!(in alloc; ",title={number}::{reason} ({number})\n")?;
    out.push_str(end.as_str())?;
    Ok(())
}

/// Why files given are refused, as annotations of GitHub's build server, one for each, with a line
/// break at the end of each. None for what is no fault of files.
pub fn refusal_annotation(
    alloc: Global,
    folder: &str,
    files: &[GivenFile],
    fault: &CheckFault,
) -> Result<Option<String>, AllocError> {
    let CheckFault::Refused(faults) = fault else {
        return Ok(None);
    };
    let mut out = String::new(alloc);
    for fault in faults.as_slice() {
        write_annotation(alloc, &mut out, folder, files, fault)?;
    }
    Ok(Some(out))
}
