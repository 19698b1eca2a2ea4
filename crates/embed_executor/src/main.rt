//! An example of an executor over the crates alone: a schema, an operation and the data on standard
//! input, with a line `---` between each two, and the answer of the operation on the data.
#![tactic(auto)]

use anyhow::Result;
use gql_ast::{Document, FileName, Files, Shared};
use gql_exec::{ExecRefusal, execute};
use gql_facts::Fragments;
use gql_grammar::SyntaxFault;
use gql_intro::intro_schema;
use gql_parse_sdl::{parse_any, parse_sdl};
use gql_reply::reply_text;
use gql_types::assemble;
use serde_json::{Map, Value};
use std::alloc::{AllocError, Global};
use std::io;

/// An answer of more values is refused.
const MOST_VALUES: usize = 100_000;

/// The most bytes of the name of a file.
const LONGEST_NAME: usize = 64;

/// Puts a schema file and a document file.
fn put_both(
    alloc: Global,
    files: &mut Files,
    schema: (FileName, Document),
    document: (FileName, Document),
) -> Result<(), AllocError> {
    files.schema.put(schema.0, Shared::new(alloc, schema.1)?)?;
    files
        .documents
        .put(document.0, Shared::new(alloc, document.1)?)
}

/// The name of a file. Without memory, and of a text that is no name, it is a fault.
fn file_name(alloc: Global, text: &str) -> Result<FileName, SyntaxFault> {
    match FileName::read(alloc, text, LONGEST_NAME) {
        Ok(Some(name)) => Ok(name),
        _ => Err(SyntaxFault::Memory),
    }
}

/// The same name, which shares its text.
fn copy_of(name: &FileName) -> Result<FileName, SyntaxFault> {
    match name.copy() {
        Ok(copy) => Ok(copy),
        Err(_) => Err(SyntaxFault::Memory),
    }
}

/// The files of a schema and of a document.
fn files_of(alloc: Global, schema: &str, document: &str) -> Result<Files, SyntaxFault> {
    let mut files = Files::new(alloc);
    let name = file_name(alloc, "schema")?;
    let client = file_name(alloc, "client")?;
    let schema = parse_sdl(alloc, copy_of(&name)?, schema)?;
    let document = parse_any(alloc, copy_of(&client)?, document)?;
    match put_both(alloc, &mut files, (name, schema), (client, document)) {
        Ok(()) => Ok(files),
        Err(_) => Err(SyntaxFault::Memory),
    }
}

/// The text of the answer of the first definition on the data, if it is small enough. The caller has
/// seen before that neither the schema nor the operation has faults.
fn answer(alloc: Global, files: &Files, data: &Value) -> Result<Option<Vec<u8>>, ExecRefusal> {
    let schema = assemble(alloc, files)?;
    let made = intro_schema(alloc, files, &schema)?;
    let fragments = Fragments::new(alloc, &files.documents)?;
    let no_variables = Value::Object(Map::new(alloc));
    for (_, document) in files.documents.entries().iter() {
        if let Some(operation) = document.get().definitions.as_slice().first() {
            let outcome = execute(
                alloc,
                &fragments,
                &schema,
                &made,
                operation,
                &no_variables,
                data,
                MOST_VALUES,
            )?;
            return Ok(Some(reply_text(alloc, &outcome)?));
        }
    }
    Ok(None)
}

fn main(rt: HostRuntime) -> Result<()> {
    let text = io::read_to_string(rt.alloc(), rt.stdin())?;
    let (schema, rest) = text.split_once("\n---\n").unwrap_or((text.as_str(), ""));
    let (operation, data) = rest.split_once("\n---\n").unwrap_or((rest, "{}"));
    let Ok(files) = files_of(rt.alloc(), schema, operation) else {
        println!(rt; "refused: the schema or the operation")?;
        return Ok(());
    };
    let Ok(data) = Value::from_str(rt.alloc(), data) else {
        println!(rt; "refused: the data are not JSON")?;
        return Ok(());
    };
    match answer(rt.alloc(), &files, &data) {
        Ok(Some(answer)) => match String::from_utf8(answer) {
            Ok(answer) => println!(rt; "{answer}")?,
            Err(_) => println!(rt; "not UTF-8")?,
        },
        Ok(None) => println!(rt; "no operation")?,
        Err(ExecRefusal::TooHeavy) => println!(rt; "more than 100,000 values")?,
        Err(ExecRefusal::Memory) => println!(rt; "out of memory")?,
    }
    Ok(())
}
