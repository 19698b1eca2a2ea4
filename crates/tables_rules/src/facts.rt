//! Questions about facts, and about what a definition reads. Each answer is `None` if the
//! question is not well written.
use crate::fact_words::{kind_in, written_fact, written_key};
use crate::inputs::file_name;
use gql_ast::{Document, FileMap, Shared, Text};
use gql_facts::{Fact, Fragments, Key, Present, Recorder, SchemaFacts, World, walk_reads};
use gql_parse_sdl::parse_any;
use gql_types::Schema;
use indexmap::IndexMap;
use std::alloc::Global;
use table_rows::join;

/// A document file `d` with this text.
pub fn documents_in(alloc: Global, text: &str) -> Option<FileMap<Shared<Document>>> {
    let name = file_name(alloc, "d")?;
    let document = parse_any(alloc, name.copy().ok()?, text).ok()?;
    let mut documents = FileMap::new(alloc);
    documents
        .put(name, Shared::new(alloc, document).ok()?)
        .ok()?;
    Some(documents)
}

fn text_of(alloc: Global, text: &str) -> Option<Text> {
    Text::from_str(alloc, text).ok()
}

/// The key that a question writes.
fn key_in(alloc: Global, question: &str) -> Option<Key> {
    let (word, name) = question.split_once(" ")?;
    Some(match word {
        "kind-of" => Key::KindOf(text_of(alloc, name)?),
        "field-of" => {
            let (of_type, field) = name.split_once(" ")?;
            Key::FieldOf {
                of_type: text_of(alloc, of_type)?,
                field: text_of(alloc, field)?,
            }
        }
        "possible-of" => Key::PossibleOf(text_of(alloc, name)?),
        "input-of" => Key::InputOf(text_of(alloc, name)?),
        "enum-of" => Key::EnumOf(text_of(alloc, name)?),
        "directive-of" => Key::DirectiveOf(text_of(alloc, name)?),
        "root-of" => Key::RootOf(kind_in(name)?),
        "fragment-of" => Key::FragmentOf(text_of(alloc, name)?),
        _ => return None,
    })
}

/// The fact that answers a key: `KEY`, or `KEY in DOCUMENT`.
fn fact_answer(alloc: Global, schema: &Schema, question: &str) -> Option<String> {
    let (question, text) = question
        .split_once(" in ")
        .unwrap_or((question, "fragment F on T { f }"));
    let facts = SchemaFacts::new(alloc, schema).ok()?;
    let documents = documents_in(alloc, text)?;
    let fragments = Fragments::new(alloc, &documents).ok()?;
    let mut world = Present::new(&facts, &fragments);
    let fact = world.fact(alloc, &key_in(alloc, question)?).ok()?;
    written_fact(alloc, &fact)
}

/// A record, each key in its order, with `-` before an absent one.
fn written_record(alloc: Global, record: &IndexMap<Key, Fact>) -> Option<String> {
    let mut written = String::new(alloc);
    for (key, fact) in record.iter() {
        let mark = match fact {
            Fact::Absent => "-",
            _ => "",
        };
        let key = written_key(alloc, key)?;
        let text = format!(in alloc; "{mark}{key}").ok()?;
        join(&mut written, ", ", text.as_str()).ok()?;
    }
    Some(written)
}

/// What the first definition of a document reads, or the fragments that it reaches.
fn walk_answer(alloc: Global, schema: &Schema, word: &str, text: &str) -> Option<String> {
    let facts = SchemaFacts::new(alloc, schema).ok()?;
    let documents = documents_in(alloc, text)?;
    let fragments = Fragments::new(alloc, &documents).ok()?;
    let mut world = Present::new(&facts, &fragments);
    let mut record = IndexMap::new(alloc);
    let mut recorder = Recorder {
        inner: &mut world,
        record: &mut record,
    };
    let document = documents.get(&file_name(alloc, "d")?)?.get();
    let definition = document.definitions.as_slice().first()?;
    let walk = walk_reads(alloc, &mut recorder, definition).ok()?;
    if walk.keys.len() != record.len() {
        return String::from_str(alloc, "the record has other keys").ok();
    }
    if word == "reads" {
        return written_record(alloc, &record);
    }
    let mut written = String::new(alloc);
    for member in walk.members.as_slice() {
        join(&mut written, " ", member.fragment.get().name.as_str()).ok()?;
    }
    Some(written)
}

/// The answer to a question about facts.
pub fn facts_answer(alloc: Global, schema: &Schema, question: &str) -> Option<String> {
    let (word, rest) = question.split_once(" ")?;
    match word {
        "fact" => fact_answer(alloc, schema, rest),
        "reads" => walk_answer(alloc, schema, word, rest),
        "reaches" => walk_answer(alloc, schema, word, rest),
        _ => None,
    }
}
