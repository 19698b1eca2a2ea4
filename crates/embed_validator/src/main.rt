//! An example of a validator over the crates alone: the schema and the document on standard input,
//! with a line `---` between them, and the faults that the document has by the schema.
#![tactic(auto)]

ghost use Rattle.std.specs.Prelude.{◌≡◌};
ghost use Rattle.gql_verdict.specs.SharedWorks.{Holds};

use anyhow::Result;
use gql_ast::{Definition, Document, Fault, FileName, Files, Shared};
use gql_facts::{Fragments, Present, SchemaFacts, World};
use gql_grammar::SyntaxFault;
use gql_pairs::PairTable;
use gql_parse_sdl::{parse_any, parse_sdl};
use gql_reads::NoParts;
use gql_report::in_order;
use gql_schema_rules::schema_faults;
use gql_types::assemble;
use gql_verdict::{Meter, SharedWork, examine, name_faults, shared_faults};
use std::alloc::{AllocError, Global};
use std::io;

/// The most bytes of the name of a file.
const LONGEST_NAME: usize = 64;

/// Puts a schema file and a document file.
fn put_both(
    alloc: Global,
    files: &mut Files,
    schema: (FileName, Document),
    document: (FileName, Document),
) -> Result<(), AllocError> {
    files.schema.put(schema.0, Shared::new(alloc, schema.1)?)?;
    files
        .documents
        .put(document.0, Shared::new(alloc, document.1)?)
}

/// The name of a file. Without memory, and of a text that is no name, it is a fault.
fn file_name(alloc: Global, text: &str) -> Result<FileName, SyntaxFault> {
    match FileName::read(alloc, text, LONGEST_NAME) {
        Ok(Some(name)) => Ok(name),
        _ => Err(SyntaxFault::Memory),
    }
}

/// The same name, which shares its text.
fn copy_of(name: &FileName) -> Result<FileName, SyntaxFault> {
    match name.copy() {
        Ok(copy) => Ok(copy),
        Err(_) => Err(SyntaxFault::Memory),
    }
}

/// The files of a schema and of a document.
fn files_of(alloc: Global, schema: &str, document: &str) -> Result<Files, SyntaxFault> {
    let mut files = Files::new(alloc);
    let name = file_name(alloc, "schema")?;
    let client = file_name(alloc, "client")?;
    let schema = parse_sdl(alloc, copy_of(&name)?, schema)?;
    let document = parse_any(alloc, copy_of(&client)?, document)?;
    match put_both(alloc, &mut files, (name, schema), (client, document)) {
        Ok(()) => Ok(files),
        Err(_) => Err(SyntaxFault::Memory),
    }
}

/// Adds the faults of a definition. What its examination reads of fragments is shared with others.
fn add_faults<W: World>(
    alloc: Global,
    world: &mut W,
    definition: &Definition,
    shared: &mut SharedWork,
    faults: &mut Vec<Shared<Fault>>,
) -> Result<(), AllocError>
    requires holds { Holds (W.facts world.old) shared.old }
    ensures facts { W.facts world.new ≡ W.facts world.old }
    ensures holds { Holds (W.facts world.old) shared.new }
{
    let mut meter = Meter::new(alloc);
    let verdict = examine(alloc, world, definition, &NoParts {}, shared, &mut meter)?;
    for fault in verdict.faults() {
        faults.push(fault.clone()?)?;
    }
    Ok(())
}

/// Adds the faults of definitions.
fn add_all<W: World>(
    alloc: Global,
    world: &mut W,
    definitions: &[Definition],
    shared: &mut SharedWork,
    faults: &mut Vec<Shared<Fault>>,
) -> Result<(), AllocError>
    requires holds { Holds (W.facts world.old) shared.old }
    ensures facts { W.facts world.new ≡ W.facts world.old }
    ensures holds { Holds (W.facts world.old) shared.new }
{
    for definition in definitions {
        add_faults(alloc, world, definition, shared, faults)?;
    }
    Ok(())
}

/// Adds the faults of all definitions of document files, by one `SharedWork`: each fragment is read
/// once for all definitions that reach it.
fn add_documents<W: World>(
    alloc: Global,
    world: &mut W,
    files: &Files,
    faults: &mut Vec<Shared<Fault>>,
) -> Result<(), AllocError> {
    let pairs = PairTable::new(alloc);
    let mut shared = SharedWork::new(alloc, pairs);
    for (_, document) in files.documents.entries().iter() {
        let definitions = document.get().definitions.as_slice();
        add_all(alloc, world, definitions, &mut shared, faults)?;
    }
    Ok(())
}

/// The faults of the files: those of the schema, or if it has none, those of names and of each
/// definition.
fn faults_of(alloc: Global, files: &Files) -> Result<Vec<Shared<Fault>>, AllocError> {
    let schema = assemble(alloc, files)?;
    let of_schema = schema_faults(alloc, files, &schema)?;
    if !of_schema.is_empty() {
        return in_order(alloc, of_schema);
    }
    let facts = SchemaFacts::new(alloc, &schema)?;
    let fragments = Fragments::new(alloc, &files.documents)?;
    let mut world = Present::new(&facts, &fragments);
    let mut faults = shared_faults(alloc, name_faults(alloc, files)?)?;
    add_documents(alloc, &mut world, files, &mut faults)?;
    in_order(alloc, faults)
}

fn main(rt: HostRuntime) -> Result<()> {
    let text = io::read_to_string(rt.alloc(), rt.stdin())?;
    let (schema, document) = text.split_once("\n---\n").unwrap_or((text.as_str(), ""));
    let files = match files_of(rt.alloc(), schema, document) {
        Ok(files) => files,
        Err(SyntaxFault::At { number, place }) => {
            let (number, line, column) = (number.number(), place.line, place.column);
            println!(rt; "refused: {number} at {line}:{column}")?;
            return Ok(());
        }
        Err(SyntaxFault::Memory) => {
            println!(rt; "out of memory")?;
            return Ok(());
        }
    };
    for fault in faults_of(rt.alloc(), &files)?.as_slice() {
        let fault = fault.get();
        print!(rt; "{} {}", fault.rule.name(), fault.about.as_str())?;
        for spot in fault.places.as_slice() {
            let (line, column) = (spot.place.line, spot.place.column);
            print!(rt; " {} {line}:{column}", spot.file.as_str())?;
        }
        println!(rt)?;
    }
    Ok(())
}
