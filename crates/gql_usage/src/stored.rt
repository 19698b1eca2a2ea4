//! What a schema and document files answer, and the definitions of the files.
ghost use Rattle.std.specs.Prelude.{◌≡◌, ◌++◌, IfOk, OnOk};
ghost use Rattle.gql_usage.specs.Stored as spec;
ghost use Rattle.gql_facts.specs.Facts.{fact_in};
ghost use Rattle.gql_facts.specs.Presents.{facts_of_present};
ghost use Rattle.gql_verdict.specs.Definitions.{all_definitions};

use gql_ast::{Definition, Document, FileMap, Files, Shared};
use gql_facts::{Fragments, Present, SchemaFacts};
use gql_types::Schema;
use std::alloc::{AllocError, Global};

/// The facts of a schema and of document files, and the definitions of the files.
#[derive(Drop)]
pub struct Stored {
    facts: SchemaFacts,
    fragments: Fragments,
    definitions: Vec<Definition>,
}

/// Adds definitions.
fn add_definitions(definitions: &[Definition], all: &mut Vec<Definition>) -> Result<(), AllocError>
    ensures { OnOk result (all.new.items ≡ all.old.items ++ definitions.now) }
{
    for definition in definitions {
        all.push(definition.copy()?)?;
    }
    Ok(())
}

/// The definitions of all document files, in the order of the files' names.
fn definitions_of(
    alloc: Global,
    documents: &FileMap<Shared<Document>>,
) -> Result<Vec<Definition>, AllocError>
    ensures { IfOk result (λ all. all.items ≡ all_definitions documents.now) }
{
    let mut all = Vec::new(alloc);
    for (_name, document) in documents.entries().iter() {
        add_definitions(document.get().definitions.as_slice(), &mut all)?;
    }
    Ok(all)
}

impl Stored {
    /// What this schema and these document files answer, and the definitions of the files.
    pub fn new(alloc: Global, schema: &Schema, files: &Files) -> Result<Stored, AllocError>
        ensures facts { IfOk result (λ stored.
            spec.facts_of stored ≡ fact_in schema.now files.now.documents) }
        ensures definitions { IfOk result (λ stored.
            stored.definitions.items ≡ all_definitions files.now.documents) }
    {
        Ok(Stored {
            facts: SchemaFacts::new(alloc, schema)?,
            fragments: Fragments::new(alloc, &files.documents)?,
            definitions: definitions_of(alloc, &files.documents)?,
        })
    }

    /// The world of the schema and the files.
    pub fn present(&self) -> Present<'_>
        ensures { facts_of_present result ≡ spec.facts_of self.now }
    {
        Present::new(&self.facts, &self.fragments)
    }

    /// The definitions of the files.
    pub fn definitions(&self) -> &[Definition]
        ensures { result.now ≡ self.now.definitions.items }
    {
        self.definitions.as_slice()
    }
}
