//! The whole state of a registry, as far as its calls tell it.
use crate::faults::add_faults;
use crate::step::{Step, written_refusal};
use gql_ast::{Definition, DefinitionId, FileName, FileSide, Same, same_items};
use gql_facts::{Fact, Key};
use gql_reads::{Record, TypeAnswers};
use gql_registry::Registry;
use gql_verdict::Verdict;
use serde_json::Value;
use std::alloc::Global;
use std::str;

/// The state of a registry.
#[derive(Drop)]
pub struct State {
    alloc: Global,
    /// The revision, the report, for each verdict its definition and its faults, and what each
    /// operation that is asked about answers.
    text: String,
    /// The definitions of the verdicts, and all that they observed.
    definitions: Vec<Definition>,
    keys: Vec<Key>,
    facts: Vec<Fact>,
}

impl State {
    /// Adds what was observed of a definition or a fragment alone.
    fn add_record(&mut self, record: &Record) -> Option<()> {
        for answer in record.answers() {
            let answer = answer.get();
            self.keys.push(answer.observation.key.copy().ok()?).ok()?;
            self.facts.push(answer.observation.fact.copy().ok()?).ok()?;
            for of_type in answer.types.as_slice() {
                self.add_type(of_type.get())?;
            }
        }
        Some(())
    }

    /// Adds what was observed of a type.
    fn add_type(&mut self, of_type: &TypeAnswers) -> Option<()> {
        self.keys.push(Key::KindOf(of_type.name.copy().ok()?)).ok()?;
        self.facts.push(of_type.kind.copy().ok()?).ok()?;
        self.facts.push(of_type.possible.copy().ok()?).ok()?;
        self.facts.push(of_type.input.copy().ok()?).ok()?;
        self.facts.push(of_type.values.copy().ok()?).ok()
    }

    fn add_verdict(&mut self, id: &DefinitionId, verdict: &Verdict) -> Option<()> {
        let file = id.file.as_str();
        let offset = id.offset;
        let line = format!(in self.alloc; "\nverdict {file} {offset}: ").ok()?;
        self.text.push_str(line.as_str()).ok()?;
        add_faults(self.alloc, verdict.faults(), &mut self.text).ok()?;
        self.definitions.push(verdict.def().copy().ok()?).ok()?;
        self.add_record(verdict.reading().own.record.get())?;
        for part in verdict.reading().parts.as_slice() {
            self.add_record(part.seen().get())?;
        }
        Some(())
    }

    /// Adds the verdicts on the definitions that begin in the first bytes of a document file.
    fn add_verdicts(&mut self, registry: &Registry, name: &FileName, count: usize) -> Option<()> {
        for offset in 0..count {
            let id = DefinitionId {
                file: name.copy().ok()?,
                offset,
            };
            if let Some(verdict) = registry.shelf().get(&id) {
                self.add_verdict(&id, verdict)?;
            }
        }
        Some(())
    }

    /// Adds what an operation answers. Nothing changes.
    fn add_run(&mut self, registry: &Registry, name: &str) -> Option<()> {
        let line = format!(in self.alloc; "\nrun {name}: ").ok()?;
        self.text.push_str(line.as_str()).ok()?;
        match registry.prepare(Some(name), &Value::Null) {
            Ok(prepared) => {
                let body = str::from_utf8(prepared.body()).ok()?;
                self.text.push_str(body).ok()
            }
            Err(refusal) => {
                let why = written_refusal(self.alloc, &refusal)?;
                self.text.push_str(why.as_str()).ok()
            }
        }
    }

    /// The state of a registry, with the verdicts on all document files that these steps put, and
    /// the runs of these operations without variables.
    pub fn of(
        alloc: Global,
        registry: &Registry,
        steps: &[Step],
        operations: &[String],
    ) -> Option<State> {
        let revision = registry.revision();
        let mut state = State {
            alloc,
            text: format!(in alloc; "revision {revision}: ").ok()?,
            definitions: Vec::new(alloc),
            keys: Vec::new(alloc),
            facts: Vec::new(alloc),
        };
        let report = registry.shared_report().ok()?;
        add_faults(alloc, report.as_slice(), &mut state.text).ok()?;
        for step in steps {
            if let Step::Put { side, name, text } = step {
                if *side == FileSide::Documents {
                    state.add_verdicts(registry, name, text.len())?;
                }
            }
        }
        for name in operations {
            state.add_run(registry, name.as_str())?;
        }
        Some(state)
    }

    /// Whether two states are the same.
    pub fn same(&self, other: &State) -> bool {
        self.text.as_str() == other.text.as_str()
            && same_items(self.definitions.as_slice(), other.definitions.as_slice())
            && same_items(self.keys.as_slice(), other.keys.as_slice())
            && same_items(self.facts.as_slice(), other.facts.as_slice())
    }
}
