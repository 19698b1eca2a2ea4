//! Edits on one registry, one after the other: what each answers, and which definitions it
//! examines.
use crate::clashes::written_pair;
use crate::faults::written_faults;
use crate::profiles::file_name;
use crate::running::run_step;
use gql_ast::{DefinitionId, Shared, Text};
use gql_facts::Key;
use gql_registry::{Edited, Refusal, Registry};
use gql_verdict::Meter;
use std::alloc::Global;
use table_rows::join;

/// A registry that is edited.
#[derive(Drop)]
pub struct Editing {
    alloc: Global,
    registry: Registry,
}

/// Adds a definition, as `FILE OFFSET`.
fn add_id(alloc: Global, id: &DefinitionId, written: &mut String) -> Option<()> {
    let file = id.file.as_str();
    let offset = id.offset;
    let id = format!(in alloc; "{file} {offset}").ok()?;
    join(written, ", ", id.as_str()).ok()
}

/// The definitions that read a key, each as `FILE OFFSET`, or `nobody`.
fn written_readers(alloc: Global, ids: &[Shared<DefinitionId>]) -> Option<String> {
    let mut written = String::new(alloc);
    for id in ids {
        add_id(alloc, id.get(), &mut written)?;
    }
    if written.is_empty() {
        written.push_str("nobody").ok()?;
    }
    Some(written)
}

/// The definitions that a meter has, each as `FILE OFFSET`, or `nothing`.
fn written_meter(alloc: Global, meter: &Meter) -> Option<String> {
    let mut written = String::new(alloc);
    for id in meter.entries() {
        add_id(alloc, id, &mut written)?;
    }
    if written.is_empty() {
        written.push_str("nothing").ok()?;
    }
    Some(written)
}

/// The key that is written as `FieldOf TYPE FIELD`, `KindOf TYPE` or `FragmentOf NAME`.
fn read_key(alloc: Global, written: &str) -> Option<Key> {
    let (question, names) = written.split_once(" ")?;
    match question {
        "FieldOf" => {
            let (of_type, field) = names.split_once(" ")?;
            Some(Key::FieldOf {
                of_type: Text::from_str(alloc, of_type).ok()?,
                field: Text::from_str(alloc, field).ok()?,
            })
        }
        "KindOf" => Some(Key::KindOf(Text::from_str(alloc, names).ok()?)),
        "FragmentOf" => Some(Key::FragmentOf(Text::from_str(alloc, names).ok()?)),
        _ => None,
    }
}

/// What an edit answers: `revision N, faults K, examined ..`, or `refused, examined ..`.
fn written_edit(alloc: Global, edited: Result<Edited, Refusal>, meter: &Meter) -> Option<String> {
    let examined = written_meter(alloc, meter)?;
    let examined = examined.as_str();
    match edited {
        Ok(edited) => {
            let revision = edited.revision;
            let faults = edited.faults;
            format!(in alloc; "revision {revision}, faults {faults}, examined {examined}").ok()
        }
        Err(_) => format!(in alloc; "refused, examined {examined}").ok(),
    }
}

impl Editing {
    /// An empty registry.
    pub fn new(alloc: Global) -> Option<Editing> {
        Some(Editing {
            alloc,
            registry: Registry::new(alloc).ok()?,
        })
    }

    /// Puts the file that `SIDE NAME TEXT` says.
    fn put(&mut self, rest: &str) -> Option<String> {
        let (side, rest) = rest.split_once(" ")?;
        let (name, text) = rest.split_once(" ")?;
        let name = file_name(self.alloc, name)?;
        let mut meter = Meter::new(self.alloc);
        let bytes = text.as_bytes();
        let edited = match side {
            "schema" => self.registry.put_schema(name, bytes, None, &mut meter),
            "documents" => self.registry.put_document(name, bytes, None, &mut meter),
            _ => return None,
        };
        written_edit(self.alloc, edited, &meter)
    }

    /// Removes the file that `SIDE NAME` says.
    fn remove(&mut self, rest: &str) -> Option<String> {
        let (side, name) = rest.split_once(" ")?;
        let name = file_name(self.alloc, name)?;
        let mut meter = Meter::new(self.alloc);
        let edited = match side {
            "schema" => self.registry.remove_schema(name, None, &mut meter),
            "documents" => self.registry.remove_document(name, None, &mut meter),
            _ => return None,
        };
        written_edit(self.alloc, edited, &meter)
    }

    /// The faults of the verdict on the definition that `FILE OFFSET` says, or `no verdict`.
    fn verdict(&self, rest: &str) -> Option<String> {
        let (file, offset) = rest.split_once(" ")?;
        let id = DefinitionId {
            file: file_name(self.alloc, file)?,
            offset: offset.parse::<usize>().ok()?,
        };
        match self.registry.shelf().get(&id) {
            Some(verdict) => written_faults(self.alloc, verdict.faults()).ok(),
            None => String::from_str(self.alloc, "no verdict").ok(),
        }
    }

    /// The definitions whose verdicts observe a key, each as `FILE OFFSET`, or `nobody`.
    fn readers(&self, rest: &str) -> Option<String> {
        let key = read_key(self.alloc, rest)?;
        let ids = self.registry.shelf().readers(self.alloc, &key).ok()?;
        written_readers(self.alloc, ids.as_slice())
    }

    /// What is kept of two fragments, which `FIRST SECOND` names.
    fn pair(&self, rest: &str) -> Option<String> {
        let (first, second) = rest.split_once(" ")?;
        written_pair(self.alloc, self.registry.shelf().pairs(), first, second).ok()
    }

    /// What a step gives: `begin`, `put SIDE NAME TEXT`, `remove SIDE NAME`, `verdict FILE OFFSET`,
    /// `readers KEY`, `pair FIRST SECOND` or `report`.
    pub fn step(&mut self, step: &str) -> Option<String> {
        let (word, rest) = step.split_once(" ").unwrap_or((step, ""));
        match word {
            "begin" => {
                self.registry = Registry::new(self.alloc).ok()?;
                String::from_str(self.alloc, "begun").ok()
            }
            "put" => self.put(rest),
            "remove" => self.remove(rest),
            "verdict" => self.verdict(rest),
            "readers" => self.readers(rest),
            "pair" => self.pair(rest),
            "report" => {
                let faults = self.registry.shared_report().ok()?;
                written_faults(self.alloc, faults.as_slice()).ok()
            }
            _ => None,
        }
    }

    /// What a question about runs of stored operations gives; `None` for another question.
    pub fn run_step(&mut self, question: &str) -> Option<String> {
        run_step(self.alloc, &mut self.registry, question)
    }
}
