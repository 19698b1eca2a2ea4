//! What was pushed last, as a file keeps it.

use crate::edits::{Resource, add_resource};
use std::alloc::{AllocError, Global};
use std::str::Lines;

/// What was pushed last: to which server, the revision that it left, and each resource with the sum
/// of its bytes.
#[derive(Drop)]
pub struct PushState {
    pub server: String,
    pub revision: u64,
    pub pushed: Vec<Resource>,
}

/// The first line of such a file.
const FIRST_LINE: &str = "gqlreg push 1";

impl PushState {
    /// The text that keeps this state: a line for the server, the revision and each resource.
    pub fn text(&self, alloc: Global) -> Result<String, AllocError> {
        let server = self.server.as_str();
        let revision = self.revision;
        let mut text = format!(in alloc; "{FIRST_LINE}\nserver {server}\nrevision {revision}\n")?;
        for resource in self.pushed.as_slice() {
            text.push_str(resource.sum.as_str())?;
            text.push(' ')?;
            text.push_str(resource.target.as_str())?;
            text.push('\n')?;
        }
        Ok(text)
    }
}

/// What a line says after a word, if there is a line and it begins with the word.
fn after_word<'t>(line: Option<&'t str>, word: &str) -> Option<&'t str> {
    match line {
        Some(line) => line.strip_prefix(word),
        None => None,
    }
}

/// The server and the revision that the first lines of a state name. None if they are no such lines.
fn head_of<'t>(lines: &mut Lines<'t>) -> Option<(&'t str, u64)> {
    if lines.next() != Some(FIRST_LINE) {
        return None;
    }
    let server = after_word(lines.next(), "server ");
    let revision = after_word(lines.next(), "revision ");
    let (Some(server), Some(revision)) = (server, revision) else {
        return None;
    };
    match revision.parse::<u64>() {
        Ok(revision) => Some((server, revision)),
        Err(_) => None,
    }
}

/// The resources of these lines. None if one of them has none.
fn resources_in(alloc: Global, lines: Lines<'_>) -> Result<Option<Vec<Resource>>, AllocError> {
    let mut pushed = Vec::new(alloc);
    for line in lines {
        let Some((sum, target)) = line.split_once(' ') else {
            return Ok(None);
        };
        add_resource(alloc, target, sum, 0, &mut pushed)?;
    }
    Ok(Some(pushed))
}

/// The state that a text keeps. None if it keeps none.
pub fn read_state(alloc: Global, text: &str) -> Result<Option<PushState>, AllocError> {
    let mut lines = text.lines();
    let Some((server, revision)) = head_of(&mut lines) else {
        return Ok(None);
    };
    let Some(pushed) = resources_in(alloc, lines)? else {
        return Ok(None);
    };
    Ok(Some(PushState {
        server: String::from_str(alloc, server)?,
        revision,
        pushed,
    }))
}
