//! The edits of a push: all in one request, or else one at a time.

use crate::connection::Connection;
use crate::plan::PushPlan;
use crate::state::keep;
use gql_folder_command::PushOptions;
use gql_folder_files::{Counter, Failure};
use gql_push::{
    Progress, Reply, Sent, Stop, batch_request, pushed_after, trial_request, write_edit,
};
use std::alloc::AllocError;

/// After how many edits what is put is kept.
const KEPT: usize = 16;

/// The greatest number of bytes of a request that a registry of any profile reads. One of another
/// profile may close the connection before a longer one is sent.
const COMMON_BYTES: usize = 262_144;

/// The refusal of a batch by its form.
const BAD_BATCH: u64 = 312;

/// The refusal of a body by its length, after which the connection closes.
const BODY_TOO_LONG: u64 = 303;

/// Sends a request for an edit, and returns its reply.
fn exchange(
    rt: &HostRuntime,
    connection: &mut Connection,
    request: &[u8],
) -> Result<Reply, Failure> {
    connection.send(request)?;
    let reply = connection.reply(rt)?;
    Ok(reply)
}

/// Sends an edit, and returns its reply.
fn send_edit(
    rt: &HostRuntime,
    connection: &mut Connection,
    options: &PushOptions,
    push: &PushPlan,
    sent: &Sent<'_>,
) -> Result<Reply, Failure> {
    let mut request = Vec::new(rt.alloc());
    let (resources, files) = (push.resources.as_slice(), push.files.as_slice());
    let host = options.server.as_str();
    write_edit(rt.alloc(), &mut request, host, sent, resources, files)?;
    exchange(rt, connection, request.as_slice())
}

/// What is refused, in words: a file, or else the folder as a whole.
fn refusal_text(
    rt: &HostRuntime,
    options: &PushOptions,
    file: Option<&str>,
    number: u64,
    message: &str,
) -> Result<String, AllocError> {
    let folder = options.folder.as_str();
    match file {
        Some(file) => format!(in rt.alloc(); "{folder}: {file} is refused: {message} ({number})"),
        None => format!(in rt.alloc(); "{folder} is refused: {message} ({number})"),
    }
}

/// Why a push stops, in words. With the target of an edit it stops at that one, and else at the
/// request for all, whose refusal may name a file.
fn stop_failure(
    rt: &HostRuntime,
    options: &PushOptions,
    target: Option<&str>,
    stop: &Stop,
) -> Failure {
    let text = match stop {
        Stop::Edited { revision } => format!(in rt.alloc();
            "the registry is at revision {revision}: somebody else edits it. The push stops here"
        ),
        Stop::Refused {
            number,
            message,
            file,
        } => {
            let file = match file {
                Some(file) if target.is_none() => Some(file.as_str()),
                _ => target,
            };
            refusal_text(rt, options, file, *number, message.as_str())
        }
        Stop::Strange => return Failure::NoServer,
    };
    match (stop, text) {
        (Stop::Edited { .. }, Ok(text)) => Failure::Edited(text),
        (_, Ok(text)) => Failure::Refused(text),
        (_, Err(_)) => Failure::Memory,
    }
}

/// One request for all edits, if the profile of the push has such requests and the edits can be said
/// in one.
fn request_for_all(
    rt: &HostRuntime,
    options: &PushOptions,
    push: &PushPlan,
    revision: u64,
) -> Result<Option<Vec<u8>>, AllocError> {
    if !options.profile.floats {
        return Ok(None);
    }
    batch_request(
        rt.alloc(),
        options.server.as_str(),
        revision,
        push.edits.as_slice(),
        push.resources.as_slice(),
        push.files.as_slice(),
        options.profile.limits.body,
    )
}

/// Whether the registry serves one request for all edits. It is asked by one with an empty body,
/// which is no edit.
fn serves_batches(
    rt: &HostRuntime,
    connection: &mut Connection,
    options: &PushOptions,
    revision: u64,
) -> Result<bool, Failure> {
    let request = trial_request(rt.alloc(), options.server.as_str(), revision)?;
    match exchange(rt, connection, request.as_slice())? {
        Reply::Refused { number, .. } => Ok(number == BAD_BATCH),
        _ => Ok(false),
    }
}

/// Whether the connection closes after a reply.
fn closes(reply: &Reply) -> bool {
    match reply {
        Reply::Refused { number, .. } => *number == BODY_TOO_LONG,
        _ => false,
    }
}

/// Makes all edits by one request, if the registry serves such requests. An `Err` if the push stops at
/// it; else all edits are made, or none.
fn make_together(
    rt: &HostRuntime,
    connection: &mut Connection,
    options: &PushOptions,
    push: &PushPlan,
    progress: &mut Progress,
) -> Result<(), Failure> {
    let edits = push.edits.as_slice();
    let Some(revision) = progress.together(edits) else {
        return Ok(());
    };
    let Some(request) = request_for_all(rt, options, push, revision)? else {
        return Ok(());
    };
    let is_long = request.len() > COMMON_BYTES;
    if is_long && !serves_batches(rt, connection, options, revision)? {
        return Ok(());
    }
    let reply = exchange(rt, connection, request.as_slice())?;
    if closes(&reply) {
        *connection = Connection::open(rt, options.server.as_str(), 0)?;
    }
    progress.note_together(edits, reply);
    match progress.stop() {
        Some(stop) => Err(stop_failure(rt, options, None, stop)),
        None => Ok(()),
    }
}

/// Makes at most so many edits: each is sent once the one before it is made. An `Err` if one of
/// them is not made.
fn make_some(
    rt: &HostRuntime,
    connection: &mut Connection,
    options: &PushOptions,
    push: &PushPlan,
    count: usize,
    progress: &mut Progress,
) -> Result<(), Failure> {
    let edits = push.edits.as_slice();
    for _ in 0..count {
        let Some(sent) = progress.next(edits) else {
            return Ok(());
        };
        let reply = send_edit(rt, connection, options, push, &sent)?;
        progress.note(edits, reply);
        if let Some(stop) = progress.stop() {
            let target = sent.edit.target(push.resources.as_slice());
            return Err(stop_failure(rt, options, Some(target), stop));
        }
    }
    Ok(())
}

/// Keeps what was put so far, if something was: should the push stop, the next one goes on from
/// there.
fn keep_made(
    rt: &HostRuntime,
    options: &PushOptions,
    push: &PushPlan,
    progress: &Progress,
) -> Result<(), Failure> {
    match push.edits.get(..progress.made()) {
        Some(made) if !made.is_empty() => {
            let (resources, before) = (push.resources.as_slice(), push.before.as_slice());
            let after = pushed_after(rt.alloc(), resources, before, made)?;
            keep(rt, options, after, progress.revision())
        }
        _ => Ok(()),
    }
}

/// Makes the edits that are left, one at a time, and keeps what is put as it goes on.
fn make_singly(
    rt: &HostRuntime,
    connection: &mut Connection,
    options: &PushOptions,
    push: &PushPlan,
    progress: &mut Progress,
    counter: &mut Counter,
) -> Result<(), Failure> {
    for some in push.edits.chunks(KEPT) {
        if progress.made() == push.edits.len() {
            return Ok(());
        }
        let made = make_some(rt, connection, options, push, some.len(), progress);
        let kept = keep_made(rt, options, push, progress);
        counter.show(rt, progress.made(), push.edits.len());
        made?;
        kept?;
    }
    Ok(())
}

/// Makes all edits: by one request, or else one at a time. The caller keeps what is put once all of
/// them are made.
pub fn make_all(
    rt: &HostRuntime,
    connection: &mut Connection,
    options: &PushOptions,
    push: &PushPlan,
    progress: &mut Progress,
) -> Result<(), Failure> {
    make_together(rt, connection, options, push, progress)?;
    let mut counter = Counter::new(rt);
    let made = make_singly(rt, connection, options, push, progress, &mut counter);
    counter.end(rt);
    made
}
