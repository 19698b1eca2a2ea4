//! What a push has to do, and whether it may begin.

use gql_folder::GivenFile;
use gql_folder_command::PushOptions;
use gql_folder_files::Failure;
use gql_push::{Edit, PushState, Resource, plan, resources_of, to_put_again};
use std::alloc::AllocError;

/// A push: the files of a folder, their resources, the resources that were pushed before, and the
/// edits that are to be made.
#[derive(Drop)]
pub struct PushPlan {
    pub files: Vec<GivenFile>,
    pub resources: Vec<Resource>,
    pub before: Vec<Resource>,
    pub edits: Vec<Edit>,
}

/// What a push of these files has to do, if this was pushed last.
pub fn planned(
    rt: &HostRuntime,
    options: &PushOptions,
    files: Vec<GivenFile>,
    last: Option<PushState>,
) -> Result<PushPlan, AllocError> {
    let all = options.all || options.force;
    let before = match last {
        Some(last) if all => to_put_again(rt.alloc(), last.pushed.as_slice())?,
        Some(last) => last.pushed,
        None => Vec::new(rt.alloc()),
    };
    let most = options.profile.limits.name;
    let resources = resources_of(rt.alloc(), files.as_slice(), most)?;
    let edits = plan(rt.alloc(), resources.as_slice(), before.as_slice(), all)?;
    Ok(PushPlan {
        files,
        resources,
        before,
        edits,
    })
}

/// How many of the files that have changed are named where a push stops.
const NAMED: usize = 20;

/// What has happened to the file of an edit since the last push, in a line.
fn change_line(rt: &HostRuntime, push: &PushPlan, edit: &Edit) -> Result<String, AllocError> {
    let target = edit.target(push.resources.as_slice());
    match edit {
        Edit::Put(_) => format!(in rt.alloc(); "\n  {target} has changed"),
        Edit::Remove(_) | Edit::EmptyData => format!(in rt.alloc(); "\n  {target} is gone"),
    }
}

/// Which files of the folder have changed since the last push, in lines.
fn changes_of(rt: &HostRuntime, push: &PushPlan) -> Result<String, AllocError> {
    if push.edits.is_empty() {
        return String::from_str(rt.alloc(), "\nthe folder is as it was at the last push");
    }
    let mut text = String::from_str(rt.alloc(), "\nin the folder, since the last push:")?;
    for edit in push.edits.iter().take(NAMED) {
        let line = change_line(rt, push, edit)?;
        text.push_str(line.as_str())?;
    }
    if push.edits.len() > NAMED {
        let left = push.edits.len().saturating_sub(NAMED);
        let line = format!(in rt.alloc(); "\n  and {left} more")?;
        text.push_str(line.as_str())?;
    }
    Ok(text)
}

/// Refuses to go on where somebody else has edited the registry since the last push, which left this
/// revision, if there was one. Says which files of the folder have changed since.
pub fn test_revision(
    rt: &HostRuntime,
    options: &PushOptions,
    last: Option<u64>,
    revision: u64,
    push: &PushPlan,
) -> Result<(), Failure> {
    if options.force || last == Some(revision) {
        return Ok(());
    }
    let text = match last {
        Some(before) => {
            let changes = if options.all {
                String::new(rt.alloc())
            } else {
                changes_of(rt, push)?
            };
            let changes = changes.as_str();
            format!(in rt.alloc();
                "the registry is at revision {revision}, and the last push left {before}: somebody else has edited it. Nothing is put; --force puts all files of the folder{changes}"
            )?
        }
        None if revision == 0 || options.all => return Ok(()),
        None => {
            format!(in rt.alloc();
                "the registry is at revision {revision}, and it is not known what was pushed last: somebody else may have edited it. Nothing is put; --all puts all files of the folder"
            )?
        }
    };
    Err(Failure::Edited(text))
}
