//! Answers about the use of the schema of a folder.

use crate::brought::faults_brought;
use crate::fault::UsageFault;
use crate::loaded::{Loaded, load_folder};
use crate::words::{misspelt_text, no_part_text};
use gql_ast::Profile;
use gql_folder::GivenFile;
use gql_removal::{Asked, Removal, Subject, read_subject, removal_of};
use gql_usage::{
    Paths, Usage, answered_objects, is_answered, readers_of, unread_as_json, unread_as_text,
    unread_parts, usage_as_json, usage_as_text,
};
use std::alloc::{AllocError, Global};

/// How an answer is written.
#[derive(Clone, Copy, Debug, PartialEq, Eq)]
pub enum AnswerFormat {
    /// Lines for a terminal.
    Text,
    /// One JSON value.
    Json,
}

/// The part of a schema that a word names.
fn subject_of(alloc: Global, word: &str) -> Result<Subject, UsageFault> {
    match read_subject(alloc, word)? {
        Some(subject) => Ok(subject),
        None => {
            let text = misspelt_text(alloc, word)?;
            Err(UsageFault::NoSuchPart(text))
        }
    }
}

/// The part that a subject names in the schema of a folder, and its removal.
fn asked_by(
    alloc: Global,
    folder: &str,
    loaded: &Loaded,
    subject: &Subject,
) -> Result<Asked, UsageFault> {
    match removal_of(alloc, &loaded.schema, subject)? {
        Some(asked) => Ok(asked),
        None => {
            let text = no_part_text(alloc, folder, &loaded.schema, subject)?;
            Err(UsageFault::NoSuchPart(text))
        }
    }
}

/// Whether operations may get or send values of a type that is removed, and need not name it.
fn is_removal_answered(
    alloc: Global,
    loaded: &Loaded,
    removal: &Removal,
) -> Result<bool, AllocError> {
    let Removal::Type(name) = removal else {
        return Ok(false);
    };
    let shelf = loaded.registry.shelf();
    let answered = answered_objects(alloc, &loaded.schema, shelf)?;
    is_answered(shelf, &answered, name)
}

/// The use of a part, in a format.
fn written(
    alloc: Global,
    usage: &Usage<'_>,
    paths: &Paths,
    format: AnswerFormat,
) -> Result<Vec<u8>, AllocError> {
    Ok(match format {
        AnswerFormat::Text => usage_as_text(alloc, usage, paths)?.into_bytes(),
        AnswerFormat::Json => usage_as_json(alloc, usage, paths)?,
    })
}

/// Which operations and fragments of these files of a folder read the part of its schema that a
/// word names, and which faults the removal of the part brings to the schema, by this profile.
pub fn readers_in(
    alloc: Global,
    profile: Profile,
    folder: &str,
    given: &[GivenFile],
    word: &str,
    format: AnswerFormat,
) -> Result<Vec<u8>, UsageFault> {
    let loaded = load_folder(alloc, profile, folder, given)?;
    let subject = subject_of(alloc, word)?;
    let asked = asked_by(alloc, folder, &loaded, &subject)?;
    let shelf = loaded.registry.shelf();
    let readers = readers_of(alloc, &loaded.stored, shelf, &asked.removal)?;
    let brought = faults_brought(alloc, &subject, loaded.registry.files())?;
    let usage = Usage {
        word,
        part: asked.part,
        readers: readers.as_slice(),
        is_answered: is_removal_answered(alloc, &loaded, &asked.removal)?,
        brought: brought.as_slice(),
    };
    Ok(written(alloc, &usage, &loaded.paths, format)?)
}

/// Which parts of the schema of these files of a folder no operation or fragment of them reads, by
/// this profile.
pub fn unread_in(
    alloc: Global,
    profile: Profile,
    folder: &str,
    given: &[GivenFile],
    format: AnswerFormat,
) -> Result<Vec<u8>, UsageFault> {
    let loaded = load_folder(alloc, profile, folder, given)?;
    let shelf = loaded.registry.shelf();
    let unread = unread_parts(alloc, &loaded.schema, &loaded.stored, shelf)?;
    let unread = unread.as_slice();
    Ok(match format {
        AnswerFormat::Text => unread_as_text(alloc, unread, &loaded.paths)?.into_bytes(),
        AnswerFormat::Json => unread_as_json(alloc, unread, &loaded.paths)?,
    })
}
