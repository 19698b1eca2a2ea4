//! Finds the files of a folder that are those of a registry, and reads them.

use crate::fault::{DiskFault, refused, unread};
use gql_ast::{FileSide, Limits};
use gql_folder::{GivenFile, Role, role_of, with_commas};
use std::alloc::{AllocError, Global};
use std::fs;

/// The greatest number of bytes of a manifest.
const MAX_MANIFEST_BYTES: u64 = 67_108_864;

/// How many folders are entered, and how many files and folders there may be in one.
const MAX_ENTRIES: usize = 100_000;

/// The folders that have the files of a registry.
const SIDES: [&str; 2] = ["schema", "documents"];

/// What is found: files that were read, and folders that were not entered yet. Paths are those below
/// the folder.
#[derive(Drop)]
struct Found {
    files: Vec<GivenFile>,
    folders: Vec<String>,
}

/// A path in a folder.
fn joined(rt: &HostRuntime, folder: &str, path: &str) -> Result<String, AllocError> {
    let mut joined = String::from_str(rt.alloc(), folder)?;
    joined.push('/')?;
    joined.push_str(path)?;
    Ok(joined)
}

/// The greatest number of bytes of a file of this role. The data are the body of a request.
fn limit_of(role: &Role, limits: &Limits) -> usize {
    match role {
        Role::Data => limits.body,
        Role::File(FileSide::Schema, _) => limits.schema_file,
        _ => limits.document_file,
    }
}

/// The fault of a file that has more bytes than this.
fn too_long(alloc: Global, path: &str, limit: usize) -> DiskFault {
    let Ok(limit) = with_commas(alloc, limit) else {
        return DiskFault::Memory;
    };
    match format!(in alloc; "has more than {limit} bytes") {
        Ok(reason) => refused(alloc, path, reason.as_str()),
        Err(_) => DiskFault::Memory,
    }
}

/// Reads a file of the folder at a path below it, if it is one of a registry with these limits.
fn read_file(
    rt: &HostRuntime,
    limits: &Limits,
    folder: &str,
    path: String,
    bytes: u64,
    files: &mut Vec<GivenFile>,
) -> Result<(), DiskFault> {
    let role = role_of(rt.alloc(), path.as_str(), limits.name)?;
    if matches!(&role, Role::Other) {
        return Ok(());
    }
    let whole = joined(rt, folder, path.as_str())?;
    let limit = limit_of(&role, limits);
    if bytes > limit as u64 {
        return Err(too_long(rt.alloc(), whole.as_str(), limit));
    }
    match fs::read(rt, whole.as_str()) {
        Ok(bytes) => {
            files.push(GivenFile { path, bytes })?;
            Ok(())
        }
        Err(error) => Err(unread(rt.alloc(), whole.as_str(), &error)),
    }
}

/// Takes what is at a path below the folder: reads a file, and notes a folder.
fn take(
    rt: &HostRuntime,
    limits: &Limits,
    folder: &str,
    path: String,
    found: &mut Found,
) -> Result<(), DiskFault> {
    let whole = joined(rt, folder, path.as_str())?;
    let metadata = match fs::metadata(rt, whole.as_str()) {
        Ok(metadata) => metadata,
        Err(error) => return Err(unread(rt.alloc(), whole.as_str(), &error)),
    };
    if metadata.is_dir() {
        found.folders.push(path)?;
        return Ok(());
    }
    read_file(rt, limits, folder, path, metadata.len(), &mut found.files)
}

/// Takes what is in a folder below the folder. Names that begin with a dot are left out.
fn enter(
    rt: &HostRuntime,
    limits: &Limits,
    folder: &str,
    inner: &str,
    found: &mut Found,
) -> Result<(), DiskFault> {
    let whole = joined(rt, folder, inner)?;
    let entries = match fs::read_dir(rt, whole.as_str()) {
        Ok(entries) => entries,
        Err(error) => return Err(unread(rt.alloc(), whole.as_str(), &error)),
    };
    for entry in entries {
        let entry = match entry {
            Ok(entry) => entry,
            Err(error) => return Err(unread(rt.alloc(), whole.as_str(), &error)),
        };
        if !entry.file_name().starts_with('.') {
            let path = joined(rt, inner, entry.file_name())?;
            take(rt, limits, folder, path, found)?;
        }
    }
    Ok(())
}

/// Takes the data, and the folders of schema and documents, as far as they are there.
fn begin(
    rt: &HostRuntime,
    limits: &Limits,
    folder: &str,
    found: &mut Found,
) -> Result<(), DiskFault> {
    for side in SIDES {
        let whole = joined(rt, folder, side)?;
        if fs::metadata(rt, whole.as_str()).is_ok() {
            found.folders.push(String::from_str(rt.alloc(), side)?)?;
        }
    }
    let data = String::from_str(rt.alloc(), "data.json")?;
    let whole = joined(rt, folder, "data.json")?;
    if fs::metadata(rt, whole.as_str()).is_ok() {
        take(rt, limits, folder, data, found)?;
    }
    Ok(())
}

/// Whether a path is that of a folder, or why it is not.
fn test_folder(rt: &HostRuntime, folder: &str) -> Result<(), DiskFault> {
    match fs::metadata(rt, folder) {
        Ok(metadata) if metadata.is_dir() => Ok(()),
        Ok(_) => Err(refused(rt.alloc(), folder, "is not a folder")),
        Err(error) => Err(unread(rt.alloc(), folder, &error)),
    }
}

/// The files of a folder that are those of a registry, by their paths below it, in the order of
/// these: the files of `schema/` and `documents/`, however deep, and `data.json`. Links are
/// followed. A file that is over a limit is refused.
pub fn find_files(
    rt: &HostRuntime,
    limits: &Limits,
    folder: &str,
) -> Result<Vec<GivenFile>, DiskFault> {
    test_folder(rt, folder)?;
    let mut found = Found {
        files: Vec::new(rt.alloc()),
        folders: Vec::new(rt.alloc()),
    };
    begin(rt, limits, folder, &mut found)?;
    for _ in 0..MAX_ENTRIES {
        let Some(inner) = found.folders.pop() else {
            let Found {
                mut files,
                folders: _,
            } = found;
            files.sort_by(|a, b| a.path.as_str().cmp(b.path.as_str()))?;
            return Ok(files);
        };
        enter(rt, limits, folder, inner.as_str(), &mut found)?;
    }
    let reason = "has too many folders, or a link that leads back to itself";
    Err(refused(rt.alloc(), folder, reason))
}

/// The bytes of a manifest of persisted operations.
pub fn read_manifest(rt: &HostRuntime, path: &str) -> Result<Vec<u8>, DiskFault> {
    match fs::metadata(rt, path) {
        Ok(metadata) if metadata.is_dir() => Err(refused(rt.alloc(), path, "is a folder")),
        Ok(metadata) if metadata.len() > MAX_MANIFEST_BYTES => {
            Err(refused(rt.alloc(), path, "has more than 64 MiB"))
        }
        Ok(_) => match fs::read(rt, path) {
            Ok(bytes) => Ok(bytes),
            Err(error) => Err(unread(rt.alloc(), path, &error)),
        },
        Err(error) => Err(unread(rt.alloc(), path, &error)),
    }
}
