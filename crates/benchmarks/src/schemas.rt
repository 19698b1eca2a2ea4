//! How fast a schema file of 64 KiB is parsed and split into tokens, and how long schemas of more
//! and more types take to be put together: the time for each type of schemas of up to 10,000 types.
use crate::speed::{LONGEST_NAME, nanos_each, speed, token_count};
use anyhow::Result;
use gql_ast::{FileName, Files, Shared};
use gql_parse_sdl::parse_sdl;
use gql_types::assemble;
use std::alloc::{AllocError, Global};
use std::time::Instant;

const LINES: &str = "\"A user of the shop\"\n\
    type User implements Node & Named @key(fields: \"id\") {\n  \
      id: ID!\n  \
      orders(first: Int = 10, state: State): [Order!]! @deprecated\n\
    }\n\
    enum State { OPEN SENT }\n\
    input Page { first: Int! = 10, after: [String!] }\n";

const ROUNDS: u64 = 100;

/// The names of the files that hold the types of a large schema.
const FILES: [&str; 8] = ["a", "b", "c", "d", "e", "f", "g", "h"];

/// How many types each of them holds.
const TYPES: u64 = 1_250;

/// A schema file of nearly 64 KiB.
fn schema(alloc: Global) -> Result<String, AllocError> {
    let mut text = String::new(alloc);
    for _lines in 0..289 {
        text.push_str(LINES)?;
    }
    Ok(text)
}

/// How many definitions a text has, or 0 if it is refused.
#[inline(never)]
fn definition_count(alloc: Global, text: &str) -> u64 {
    let Ok(Some(file)) = FileName::read(alloc, "bench", LONGEST_NAME) else {
        return 0;
    };
    match parse_sdl(alloc, file, text) {
        Ok(document) => document.definitions.len() as u64,
        Err(_) => 0,
    }
}

/// A file of types that no other file has.
fn types(alloc: Global, file: &str) -> Result<String> {
    let mut text = String::new(alloc);
    for number in 0..TYPES {
        let line = format!(in alloc;
            "type T{file}{number} {{ a: T{file}{number}! b(c: Int): ID }}\n"
        )?;
        text.push_str(line.as_str())?;
    }
    Ok(text)
}

/// The first of the files, with these types.
fn files(alloc: Global, count: usize) -> Result<Files> {
    let mut files = Files::new(alloc);
    for name in FILES.iter().take(count) {
        let text = types(alloc, name)?;
        if let Some(file) = FileName::read(alloc, name, LONGEST_NAME)? {
            if let Ok(document) = parse_sdl(alloc, file.copy()?, text.as_str()) {
                files.schema.put(file, Shared::new(alloc, document)?)?;
            }
        }
    }
    Ok(files)
}

/// How many types the schema of the files has, or 0 if an allocation fails.
#[inline(never)]
fn type_count(alloc: Global, files: &Files) -> u64 {
    match assemble(alloc, files) {
        Ok(schema) => schema.types().len() as u64,
        Err(_) => 0,
    }
}

fn measure_types(rt: &HostRuntime, count: usize) -> Result<()> {
    let files = files(rt.alloc(), count)?;
    let start = Instant::now(rt)?;
    let mut found: u64 = 0;
    for _round in 0..10 {
        found = found.wrapping_add(type_count(rt.alloc(), &files));
    }
    let each = nanos_each(start.elapsed(rt)?, found);
    let types = found / 10;
    println!(rt; "put together: {types} types, {each} ns for each type")?;
    Ok(())
}

fn measure_parser(rt: &HostRuntime, text: &str) -> Result<()> {
    let total = (text.len() as u64).wrapping_mul(ROUNDS);
    let mut found: u64 = 0;
    let start = Instant::now(rt)?;
    for _round in 0..ROUNDS {
        found = found.wrapping_add(token_count(rt.alloc(), text));
    }
    let lexed = speed(total, start.elapsed(rt)?);
    println!(rt; "lex of a schema file: {lexed} MB/s ({found} tokens)")?;
    found = 0;
    let start = Instant::now(rt)?;
    for _round in 0..ROUNDS {
        found = found.wrapping_add(definition_count(rt.alloc(), text));
    }
    let parsed = speed(total, start.elapsed(rt)?);
    println!(rt; "parse of a schema file: {parsed} MB/s ({found} definitions)")?;
    Ok(())
}

/// Prints the speeds and the times.
pub fn measure(rt: &HostRuntime) -> Result<()> {
    let text = schema(rt.alloc())?;
    measure_parser(rt, text.as_str())?;
    for count in [1, 2, 4, 8] {
        measure_types(rt, count)?;
    }
    Ok(())
}
