//! Questions about the files of a row, about its requests as a stream to a service, and about no
//! file.
use crate::cut_streams::{answers_answer, bytes_answer};
use crate::editing::Editing;
use crate::heads::head_answer;
use crate::interleaved::interleaved_answer;
use crate::networks::network_answer;
use crate::pipes::pipe_answer;
use crate::profiles::profile_named;
use crate::row_files::{RowFiles, parser_answer};
use crate::servers::serves_answer;
use crate::transcripts::{Transcript, connections_answer, written_request};
use std::alloc::{AllocError, Global};
use table_rows::{Given, NamedText, Row};

/// The stream that requests and texts are; `None` if a request is not well written.
fn stream_of(alloc: Global, texts: &[NamedText]) -> Option<String> {
    let mut stream = String::new(alloc);
    for named in texts {
        if named.name.as_str() == ">" {
            let request = written_request(alloc, named.text.as_str())?;
            stream.push_str(request.as_str()).ok()?;
        } else {
            stream.push_str(named.text.as_str()).ok()?;
        }
    }
    Some(stream)
}

/// The answer to a question about a stream, or about no text; `None` if there is no such question,
/// or where it is not well written.
fn stream_answer(alloc: Global, text: &str, word: &str, rest: &str) -> Option<String> {
    match word {
        "answers" => answers_answer(alloc, text, rest),
        "bytes" => bytes_answer(alloc, text, rest),
        "connections" => connections_answer(alloc, rest),
        "interleaved" => interleaved_answer(alloc, rest),
        "network" => network_answer(alloc, rest),
        "pipe" => pipe_answer(alloc, text, rest),
        "head" => head_answer(alloc, rest),
        "sdl" | "any" => parser_answer(alloc, word, text),
        _ => None,
    }
}

/// A row that is files, or requests to a service.
#[derive(Drop)]
pub struct ServiceRow {
    alloc: Global,
    /// The files of the row, once it is asked of them.
    files: Option<RowFiles>,
    /// The service that `hub` lines are about, once there is one.
    transcript: Option<Transcript>,
    /// The registry that `edit`, `on` and `run` lines are about, once there is one.
    editing: Option<Editing>,
}

impl ServiceRow {
    fn files(&mut self) -> Option<&mut RowFiles> {
        if self.files.is_none() {
            self.files = Some(RowFiles::new(self.alloc)?);
        }
        self.files.as_mut()
    }

    fn transcript(&mut self) -> Option<&mut Transcript> {
        if self.transcript.is_none() {
            self.transcript = Some(Transcript::new(self.alloc)?);
        }
        self.transcript.as_mut()
    }

    fn editing(&mut self) -> Option<&mut Editing> {
        if self.editing.is_none() {
            self.editing = Some(Editing::new(self.alloc)?);
        }
        self.editing.as_mut()
    }

    fn some_answer(&mut self, rt: &HostRuntime, given: &Given, question: &str) -> Option<String> {
        let (word, rest) = question.split_once(" ").unwrap_or((question, ""));
        match word {
            "report" | "runs" if rest.is_empty() => self.files()?.answer(given, word),
            "report" => {
                let profile = profile_named(rest)?;
                RowFiles::under(self.alloc, profile)?.answer(given, word)
            }
            "edit" => self.editing()?.step(rest),
            "hub" => self.transcript()?.step(rest),
            "on" | "run" | "many" => self.editing()?.run_step(question),
            _ => {
                let stream = stream_of(self.alloc, given.texts.as_slice())?;
                if word == "serves" {
                    return serves_answer(rt, stream.as_str(), rest == "together");
                }
                stream_answer(self.alloc, stream.as_str(), word, rest)
            }
        }
    }
}

impl Row for ServiceRow {
    fn new(alloc: Global) -> ServiceRow {
        ServiceRow {
            alloc,
            files: None,
            transcript: None,
            editing: None,
        }
    }

    fn answer(
        &mut self,
        rt: &HostRuntime,
        given: &Given,
        question: &str,
    ) -> Result<String, AllocError> {
        match self.some_answer(rt, given, question) {
            Some(answer) => Ok(answer),
            None => String::from_str(self.alloc, "no such question"),
        }
    }
}
