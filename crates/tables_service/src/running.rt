//! Runs of stored operations on one registry: what each answers.
use crate::faults::written_faults;
use crate::profiles::file_name;
use gql_registry::{Edited, Refusal, Registry, Reply};
use gql_verdict::Meter;
use serde_json::Value;
use std::alloc::Global;
use std::str;

/// The most bytes of an answer that is compared whole.
const SHORT: usize = 10_000;

/// Whether an edit was accepted: `ok` or `refused`.
fn written_edit(alloc: Global, edited: Result<Edited, Refusal>) -> Option<String> {
    let word = match edited {
        Ok(_) => "ok",
        Err(_) => "refused",
    };
    String::from_str(alloc, word).ok()
}

/// The text of a reply, or of one with more bytes than these how many it has.
fn written_reply(alloc: Global, reply: &Reply, most: usize) -> Option<String> {
    let length = reply.body.len();
    if length > most {
        return format!(in alloc; "{length} bytes").ok();
    }
    let text = str::from_utf8(reply.body.as_slice()).ok()?;
    String::from_str(alloc, text).ok()
}

/// What a run answers: its reply, of at most this many bytes, or why it is refused.
fn written_run(alloc: Global, ran: Result<Reply, Refusal>, most: usize) -> Option<String> {
    match ran {
        Ok(reply) => written_reply(alloc, &reply, most),
        Err(Refusal::Faulty { faults }) => written_faults(alloc, faults.as_slice()).ok(),
        Err(Refusal::NoOperation) => String::from_str(alloc, "no such operation").ok(),
        Err(Refusal::TooLarge) => String::from_str(alloc, "too large").ok(),
        Err(_) => None,
    }
}

/// A text in which `1 times COUNT`, if it is there, is replaced by as many ones with commas
/// between.
fn with_times(alloc: Global, text: &str) -> Option<String> {
    let mut whole = String::new(alloc);
    let Some((before, rest)) = text.split_once("1 times ") else {
        whole.push_str(text).ok()?;
        return Some(whole);
    };
    let (count, after) = rest.split_once("]")?;
    whole.push_str(before).ok()?;
    whole.push_str("1").ok()?;
    for _ in 1..count.parse::<u32>().ok()? {
        whole.push_str(",1").ok()?;
    }
    whole.push_str("]").ok()?;
    whole.push_str(after).ok()?;
    Some(whole)
}

/// Puts what `schema TEXT`, `document TEXT` or `data JSON` says: the schema file `s` of a new
/// registry, the document file `d`, or the data.
fn put(alloc: Global, registry: &mut Registry, rest: &str) -> Option<String> {
    let (word, text) = rest.split_once(" ")?;
    let mut meter = Meter::new(alloc);
    let edited = match word {
        "schema" => {
            *registry = Registry::new(alloc).ok()?;
            registry.put_schema(file_name(alloc, "s")?, text.as_bytes(), None, &mut meter)
        }
        "document" => {
            registry.put_document(file_name(alloc, "d")?, text.as_bytes(), None, &mut meter)
        }
        "data" => {
            let text = with_times(alloc, text)?;
            registry.put_data(text.as_str().as_bytes(), None, &mut meter)
        }
        _ => return None,
    };
    written_edit(alloc, edited)
}

/// Runs what `NAME VARIABLES` says, where `-` names no operation.
fn run(alloc: Global, registry: &mut Registry, rest: &str) -> Option<String> {
    let (name, variables) = rest.split_once(" ")?;
    let variables = Value::from_str(alloc, variables).ok()?;
    let name = if name == "-" { None } else { Some(name) };
    written_run(alloc, registry.run(name, &variables), SHORT)
}

/// What the only operation of a registry answers without variables: the whole of its reply, or why
/// it is refused.
pub fn only_run(alloc: Global, registry: &mut Registry) -> Option<String> {
    written_run(alloc, registry.run(None, &Value::Null), usize::MAX)
}

/// A document with this many operations, each of which asks for the field `a` twice, once under a
/// name of its own.
fn many_operations(alloc: Global, count: u32) -> Option<String> {
    let mut text = String::new(alloc);
    for number in 0..count {
        let line = format!(in alloc; "query Q{number} {{ a{number}: a b: a }}\n").ok()?;
        text.push_str(line.as_str()).ok()?;
    }
    Some(text)
}

/// Whether the operation of that number answers the two fields, each with 1.
fn answers_one(alloc: Global, registry: &mut Registry, number: u32) -> Option<bool> {
    let name = format!(in alloc; "Q{number}").ok()?;
    let expected = format!(in alloc; "{{\"data\":{{\"a{number}\":1,\"b\":1}}}}").ok()?;
    let ran = registry.run(Some(name.as_str()), &Value::Null);
    Some(written_run(alloc, ran, SHORT)?.as_str() == expected.as_str())
}

/// Puts a document with this many operations and runs each: how many bytes it has, and how many
/// answers are as they should be.
fn run_many(alloc: Global, registry: &mut Registry, count: &str) -> Option<String> {
    let count = count.parse::<u32>().ok()?;
    let text = many_operations(alloc, count)?;
    let length = text.len();
    let mut meter = Meter::new(alloc);
    let put = registry.put_document(file_name(alloc, "d")?, text.as_bytes(), None, &mut meter);
    if put.is_err() {
        return written_edit(alloc, put);
    }
    let mut good: u32 = 0;
    for number in 0..count {
        if answers_one(alloc, registry, number)? {
            good = good.wrapping_add(1);
        }
    }
    format!(in alloc; "{good} of a file of {length} bytes").ok()
}

/// What a question about a registry gives: `on schema TEXT`, `on document TEXT` or `on data JSON`,
/// or a run, `run NAME VARIABLES`, or `many COUNT`; `None` for another question.
pub fn run_step(alloc: Global, registry: &mut Registry, question: &str) -> Option<String> {
    match question.split_once(" ")? {
        ("on", rest) => put(alloc, registry, rest),
        ("run", rest) => run(alloc, registry, rest),
        ("many", count) => run_many(alloc, registry, count),
        _ => None,
    }
}
