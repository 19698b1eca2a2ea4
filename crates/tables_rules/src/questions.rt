//! Questions about schema files.
use crate::built_in_names::built_in_answer;
use crate::facts::facts_answer;
use crate::inputs::{file_name, put_file};
use crate::look_ups::look_up_answer;
use crate::reports::{report_answer, verdicts_answer};
use crate::root_fields::root_fields_answer;
use crate::rule_groups::{Rules, operations_answer};
use crate::values::value_answer;
use gql_ast::{Files, Profile};
use gql_types::{Schema, assemble};
use gql_verdict::Shelf;
use std::alloc::{AllocError, Global};
use table_rows::{Given, NamedText, Row};

/// The schema files of a row, by a profile; `None` if one of them is not such a file.
fn files_of(alloc: Global, profile: Profile, texts: &[NamedText]) -> Option<Files> {
    let mut files = Files::of(alloc, profile);
    for named in texts {
        let name = file_name(alloc, named.name.as_str())?;
        put_file(alloc, &mut files, &name, named.text.as_str())?;
    }
    Some(files)
}

/// The faults of a document, which the question has after its word, or which is the one before it.
fn faults_answer(alloc: Global, schema: &Schema, document: &str, question: &str) -> Option<String> {
    let (word, text) = question.split_once(" ").unwrap_or((question, document));
    let rules = match word {
        "faults" => Rules::Local,
        "usage" => Rules::Variables,
        "merge" => Rules::Merging,
        "root-fields" => return root_fields_answer(alloc, schema, text),
        _ => return None,
    };
    operations_answer(alloc, schema, rules, text)
}

/// The answer to a question about a schema; `None` if there is no such question.
fn schema_answer(alloc: Global, schema: &Schema, document: &str, question: &str) -> Option<String> {
    if let Some(answer) = value_answer(alloc, schema, question) {
        return Some(answer);
    }
    if let Some(answer) = facts_answer(alloc, schema, question) {
        return Some(answer);
    }
    if let Some(answer) = faults_answer(alloc, schema, document, question) {
        return Some(answer);
    }
    look_up_answer(alloc, schema, question)
}

/// The schema files of a row, as one schema.
#[derive(Drop)]
struct Known {
    files: Files,
    schema: Schema,
    /// The verdicts on the definitions of the document file of the row.
    shelf: Shelf,
}

fn read_files(alloc: Global, profile: Profile, texts: &[NamedText]) -> Option<Known> {
    let files = files_of(alloc, profile, texts)?;
    let schema = assemble(alloc, &files).ok()?;
    Some(Known {
        files,
        schema,
        shelf: Shelf::new(alloc),
    })
}

/// The answer to a question about these files; `None` if there is no such question.
fn known_answer(
    alloc: Global,
    known: &mut Known,
    document: &str,
    question: &str,
) -> Option<String> {
    let (word, _rest) = question.split_once(" ").unwrap_or((question, ""));
    match word {
        "report" => report_answer(
            alloc,
            &known.files,
            &known.schema,
            &mut known.shelf,
            document,
        ),
        "verdicts" => verdicts_answer(alloc, &known.schema, &mut known.shelf, document),
        "built-in" => built_in_answer(alloc, known.files.profile.floats),
        _ => schema_answer(alloc, &known.schema, document, question),
    }
}

/// The answer to a question about the files that were read, if they could be.
fn read_answer(
    alloc: Global,
    known: &mut Option<Known>,
    document: &str,
    question: &str,
) -> Result<String, AllocError> {
    let Some(known) = known else {
        return String::from_str(alloc, "refused");
    };
    match known_answer(alloc, known, document, question) {
        Some(answer) => Ok(answer),
        None => String::from_str(alloc, "no such question"),
    }
}

/// A row that is schema files.
#[derive(Drop)]
pub struct SchemaRow {
    alloc: Global,
    /// Its schema files by the profile `whole-numbers`, once a question is asked.
    whole_numbers: Option<Known>,
    /// Its schema files by the profile `october-2021`, once a question is asked about that.
    october_2021: Option<Known>,
}

impl Row for SchemaRow {
    fn new(alloc: Global) -> SchemaRow {
        SchemaRow {
            alloc,
            whole_numbers: None,
            october_2021: None,
        }
    }

    fn answer(
        &mut self,
        _rt: &HostRuntime,
        given: &Given,
        question: &str,
    ) -> Result<String, AllocError> {
        let alloc = self.alloc;
        let texts = given.texts.as_slice();
        let document = given.document.as_str();
        match question.strip_prefix("october-2021 ") {
            Some(question) => {
                if self.october_2021.is_none() {
                    self.october_2021 = read_files(alloc, Profile::october_2021(), texts);
                }
                read_answer(alloc, &mut self.october_2021, document, question)
            }
            None => {
                if self.whole_numbers.is_none() {
                    self.whole_numbers = read_files(alloc, Profile::whole_numbers(), texts);
                }
                read_answer(alloc, &mut self.whole_numbers, document, question)
            }
        }
    }
}
