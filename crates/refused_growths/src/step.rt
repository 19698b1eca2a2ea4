//! Steps on a registry: edits and runs.
use crate::faults::add_faults;
use gql_ast::{FileName, FileSide, Profile};
use gql_registry::{Edited, Refusal, Registry, Reply};
use gql_verdict::Meter;
use serde_json::Value;
use std::alloc::Global;
use std::str;

/// What is done to a registry.
#[derive(Drop)]
pub enum Step {
    Put {
        side: FileSide,
        name: FileName,
        text: String,
    },
    Remove {
        side: FileSide,
        name: FileName,
    },
    PutData(String),
    Run {
        name: String,
        variables: Value,
    },
}

/// What an accepted step gives.
#[derive(Drop)]
pub enum Given {
    Edited(Edited),
    Ran(Reply),
}

fn side_of(word: &str) -> Option<FileSide> {
    match word {
        "schema" => Some(FileSide::Schema),
        "documents" => Some(FileSide::Documents),
        _ => None,
    }
}

/// A text as the name of a file.
fn file_name(alloc: Global, text: &str) -> Option<FileName> {
    FileName::read(alloc, text, Profile::whole_numbers().limits.name).ok()?
}

fn read_put(alloc: Global, rest: &str) -> Option<Step> {
    let (word, rest) = rest.split_once(" ")?;
    if word == "data" {
        return Some(Step::PutData(String::from_str(alloc, rest).ok()?));
    }
    let (name, text) = rest.split_once(" ")?;
    Some(Step::Put {
        side: side_of(word)?,
        name: file_name(alloc, name)?,
        text: String::from_str(alloc, text).ok()?,
    })
}

impl Step {
    /// The step that a line says: `put schema NAME TEXT`, `put documents NAME TEXT`, `put data
    /// JSON`, `remove SIDE NAME` or `run NAME VARIABLES`.
    pub fn read(alloc: Global, line: &str) -> Option<Step> {
        let (word, rest) = line.split_once(" ")?;
        if word == "put" {
            return read_put(alloc, rest);
        }
        let (first, second) = rest.split_once(" ")?;
        match word {
            "remove" => Some(Step::Remove {
                side: side_of(first)?,
                name: file_name(alloc, second)?,
            }),
            "run" => Some(Step::Run {
                name: String::from_str(alloc, first).ok()?,
                variables: Value::from_str(alloc, second).ok()?,
            }),
            _ => None,
        }
    }

    /// Does it. Nothing but the registry takes memory here.
    pub fn make(&self, registry: &mut Registry, meter: &mut Meter) -> Result<Given, Refusal> {
        let edited = match self {
            Step::Put { side, name, text } => {
                let bytes = text.as_str().as_bytes();
                match side {
                    FileSide::Schema => registry.put_schema(name.copy()?, bytes, None, meter),
                    FileSide::Documents => registry.put_document(name.copy()?, bytes, None, meter),
                }
            }
            Step::Remove { side, name } => match side {
                FileSide::Schema => registry.remove_schema(name.copy()?, None, meter),
                FileSide::Documents => registry.remove_document(name.copy()?, None, meter),
            },
            Step::PutData(text) => registry.put_data(text.as_str().as_bytes(), None, meter),
            Step::Run { name, variables } => {
                return match registry.run(Some(name.as_str()), variables) {
                    Ok(reply) => Ok(Given::Ran(reply)),
                    Err(refusal) => Err(refusal),
                };
            }
        };
        match edited {
            Ok(edited) => Ok(Given::Edited(edited)),
            Err(refusal) => Err(refusal),
        }
    }
}

/// Why a call is refused.
pub fn written_refusal(alloc: Global, refusal: &Refusal) -> Option<String> {
    let mut text = String::from_str(alloc, "refused: ").ok()?;
    match refusal {
        Refusal::Syntax { .. } => text.push_str("syntax").ok()?,
        Refusal::NoFile => text.push_str("no such file").ok()?,
        Refusal::BadData => text.push_str("data is not accepted").ok()?,
        Refusal::NoOperation => text.push_str("no such operation").ok()?,
        Refusal::TooLarge => text.push_str("answer is too large").ok()?,
        Refusal::Memory => text.push_str("out of memory").ok()?,
        Refusal::Faulty { faults } => add_faults(alloc, faults.as_slice(), &mut text).ok()?,
        _ => text.push_str("another number").ok()?,
    }
    Some(text)
}

/// What a step gives: `revision N, faults K`, and the definitions that were examined, each as `FILE
/// OFFSET`; or the reply of a run; or why it is refused.
pub fn written(alloc: Global, given: &Result<Given, Refusal>, meter: &Meter) -> Option<String> {
    match given {
        Ok(Given::Edited(edited)) => {
            let revision = edited.revision;
            let faults = edited.faults;
            let mut text = format!(in alloc; "revision {revision}, faults {faults}").ok()?;
            for id in meter.entries() {
                let file = id.file.as_str();
                let offset = id.offset;
                text.push_str(format!(in alloc; ", {file} {offset}").ok()?.as_str())
                    .ok()?;
            }
            Some(text)
        }
        Ok(Given::Ran(reply)) => {
            let text = str::from_utf8(reply.body.as_slice()).ok()?;
            String::from_str(alloc, text).ok()
        }
        Err(refusal) => written_refusal(alloc, refusal),
    }
}
