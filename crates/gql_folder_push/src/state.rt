//! The file that keeps what was pushed, beside the folder that is pushed.

use gql_folder_command::PushOptions;
use gql_folder_files::{Failure, unwritten};
use gql_push::{PushState, Resource, read_state};
use std::alloc::AllocError;
use std::fs;

/// The path of the file that keeps what was pushed.
fn state_path(rt: &HostRuntime, options: &PushOptions) -> Result<String, AllocError> {
    match &options.state {
        Some(path) => path.clone(),
        None => {
            let folder = options.folder.as_str();
            format!(in rt.alloc(); "{folder}/.gqlreg-push")
        }
    }
}

/// What was pushed last to the server. Nothing if no file keeps it, or if it was another server.
pub fn last_push(rt: &HostRuntime, options: &PushOptions) -> Result<Option<PushState>, Failure> {
    let path = state_path(rt, options)?;
    let Ok(text) = fs::read_to_string(rt, path.as_str()) else {
        return Ok(None);
    };
    match read_state(rt.alloc(), text.as_str())? {
        Some(state) if state.server == options.server => Ok(Some(state)),
        _ => Ok(None),
    }
}

/// Keeps what is pushed, for the next push.
pub fn keep(
    rt: &HostRuntime,
    options: &PushOptions,
    resources: Vec<Resource>,
    revision: u64,
) -> Result<(), Failure> {
    let state = PushState {
        server: options.server.clone()?,
        revision,
        pushed: resources,
    };
    let path = state_path(rt, options)?;
    match fs::write(rt, path.as_str(), state.text(rt.alloc())?) {
        Ok(()) => Ok(()),
        Err(_) => Err(unwritten(rt, path.as_str())),
    }
}
