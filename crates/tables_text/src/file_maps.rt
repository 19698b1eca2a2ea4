//! Files that are put, found and removed, step after step.
use crate::file_names::{LONGEST, file_name};
use crate::steps::{Stepped, parts_of, steps_answer, yes_or_no};
use gql_ast::{Document, FileName, Files, Items, Shared};
use std::alloc::Global;

/// Files, and the copy that was made of them last.
#[derive(Drop)]
struct Kept {
    files: Files,
    copy: Files,
}

impl Kept {
    /// Puts an empty document.
    fn put(&mut self, alloc: Global, name: FileName) -> Option<()> {
        let document = Document {
            definitions: Items::new(alloc),
        };
        let document = Shared::new(alloc, document).ok()?;
        self.files.documents.put(name, document).ok()
    }
}

impl Stepped for Kept {
    fn step(&mut self, alloc: Global, step: &str) -> Option<String> {
        let (word, rest) = parts_of(step);
        match word {
            "put" => {
                self.put(alloc, file_name(alloc, rest, LONGEST)?)?;
                String::from_str(alloc, "put").ok()
            }
            "take" => {
                let taken = self
                    .files
                    .documents
                    .remove(&file_name(alloc, rest, LONGEST)?);
                yes_or_no(alloc, taken.is_some())
            }
            "has" => yes_or_no(
                alloc,
                self.files.documents.has(&file_name(alloc, rest, LONGEST)?),
            ),
            "count" => {
                let count = self.files.documents.len();
                format!(in alloc; "{count}").ok()
            }
            "copy" => {
                self.copy = self.files.copy().ok()?;
                String::from_str(alloc, "copied").ok()
            }
            "copy-has" => yes_or_no(
                alloc,
                self.copy.documents.has(&file_name(alloc, rest, LONGEST)?),
            ),
            _ => None,
        }
    }
}

/// The answers to steps that begin without files.
pub fn files_answer(alloc: Global, steps: &str) -> Option<String> {
    let mut kept = Kept {
        files: Files::new(alloc),
        copy: Files::new(alloc),
    };
    steps_answer(alloc, &mut kept, steps)
}
