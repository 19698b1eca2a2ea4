//! The files that a command is given: those of a folder, and those that manifests are made into.

use crate::failure::Failure;
use gql_ast::Limits;
use gql_disk::{find_files, read_manifest};
use gql_folder::GivenFile;
use gql_manifest::{
    FromManifests, GivenManifest, ManifestFault, add_files, fault_text, files_of, made_text,
};

/// The files that a command is given, and what manifests are made into, in words.
#[derive(Drop)]
pub struct Given {
    pub files: Vec<GivenFile>,
    pub made: Option<String>,
}

/// The failure of manifests that are refused.
fn refused(rt: &HostRuntime, fault: &ManifestFault) -> Failure {
    if matches!(fault, ManifestFault::Memory) {
        return Failure::Memory;
    }
    match fault_text(rt.alloc(), fault) {
        Ok(text) => Failure::Refused(text),
        Err(_) => Failure::Memory,
    }
}

/// The files that the manifests at these paths are made into.
fn made_of(rt: &HostRuntime, paths: &[String]) -> Result<FromManifests, Failure> {
    let mut manifests = Vec::new(rt.alloc());
    for path in paths {
        let bytes = read_manifest(rt, path.as_str())?;
        let path = path.clone()?;
        manifests.push(GivenManifest { path, bytes })?;
    }
    match files_of(rt.alloc(), manifests.as_slice()) {
        Ok(made) => Ok(made),
        Err(fault) => Err(refused(rt, &fault)),
    }
}

/// The files of a folder that are within these limits, with those that the manifests at these paths
/// are made into.
pub fn given_files(
    rt: &HostRuntime,
    limits: &Limits,
    folder: &str,
    manifests: &[String],
) -> Result<Given, Failure> {
    let mut files = find_files(rt, limits, folder)?;
    if manifests.is_empty() {
        return Ok(Given { files, made: None });
    }
    let made = made_of(rt, manifests)?;
    let text = made_text(rt.alloc(), &made)?;
    match add_files(rt.alloc(), folder, made.files, &mut files, limits.name) {
        Ok(()) => Ok(Given {
            files,
            made: Some(text),
        }),
        Err(fault) => Err(refused(rt, &fault)),
    }
}

/// Says on standard error what manifests are made into, if there are some.
pub fn tell_made(rt: &HostRuntime, given: &Given) {
    if let Some(made) = &given.made {
        let _ = rt.eprintln(made.as_str());
    }
}
