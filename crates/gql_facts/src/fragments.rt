//! The fragments of the document files.
ghost use Rattle.std.specs.Prelude.{◌≡◌, ◌++◌, ◌↔◌, IfOk, IsTrue, OnOk, find, bytes_eq, flat_map};
ghost use Rattle.std.specs.Option.{option_copied};
ghost use Rattle.gql_facts.specs.Facts as spec;
ghost use Rattle.gql_facts.specs.FileFragments.{fragments_in};
ghost use Rattle.gql_facts.specs.declared.fact.FragmentFact.{FragmentFact};

use crate::fact::FragmentFact;
use gql_ast::{Definition, Document, FileMap, Shared, Tree, same_items};
use gql_types::{HasName, Named};
use std::alloc::{AllocError, Global};

impl HasName for FragmentFact {
    ghost name = { λ f. f.fragment.name.text };

    fn name(&self) -> &str {
        self.fragment.get().name.as_str()
    }
}

/// The fragments of all document files, in the order of the files' names. The first of each name
/// counts. A copy shares them.
pub struct Fragments {
    pub all: Named<FragmentFact>,
}

impl Drop for Fragments {
    fn drop(self) {
        let Fragments { all: _ } = self;
    }
}

fn add_fragment(definition: &Definition, found: &mut Vec<FragmentFact>) -> Result<(), AllocError>
    ensures { OnOk result (found.new.items ≡ found.old.items ++ spec.fragment_in definition.now) }
{
    if let Tree::Fragment(fragment) = &definition.tree {
        found.push(FragmentFact {
            file: definition.file.copy()?,
            fragment: fragment.clone()?,
        })?;
    }
    Ok(())
}

fn add_fragments(
    definitions: &[Definition],
    found: &mut Vec<FragmentFact>,
) -> Result<(), AllocError>
    ensures { OnOk result (found.new.items
        ≡ found.old.items ++ flat_map spec.fragment_in definitions.now) }
{
    for definition in definitions {
        add_fragment(definition, found)?;
    }
    Ok(())
}

fn all_fragments(
    alloc: Global,
    documents: &FileMap<Shared<Document>>,
) -> Result<Vec<FragmentFact>, AllocError>
    ensures { IfOk result (λ found. found.items ≡ spec.fragments documents.now) }
{
    let mut found = Vec::new(alloc);
    for (_name, document) in documents.entries().iter() {
        add_fragments(document.get().definitions.as_slice(), &mut found)?;
    }
    Ok(found)
}

/// The fragments of a file; none if there is no file.
fn file_fragments(
    alloc: Global,
    document: Option<&Document>,
) -> Result<Vec<FragmentFact>, AllocError>
    ensures { IfOk result (λ found. found.items ≡ fragments_in (option_copied document.entry)) }
{
    let mut found = Vec::new(alloc);
    if let Some(document) = document {
        add_fragments(document.definitions.as_slice(), &mut found)?;
    }
    Ok(found)
}

/// Whether two files have the same fragments, in the same order and at the same places. A file that is
/// not there has none.
pub fn have_same_fragments(
    alloc: Global,
    document: Option<&Document>,
    other: Option<&Document>,
) -> Result<bool, AllocError>
    ensures { IfOk result (λ same. IsTrue same ↔ (fragments_in (option_copied document.entry)
        ≡ fragments_in (option_copied other.entry))) }
{
    let fragments = file_fragments(alloc, document)?;
    let others = file_fragments(alloc, other)?;
    Ok(same_items(fragments.as_slice(), others.as_slice()))
}

impl Fragments {
    /// The fragments of these files. They share the trees.
    pub fn new(
        alloc: Global,
        documents: &FileMap<Shared<Document>>,
    ) -> Result<Fragments, AllocError>
        ensures { IfOk result (λ f. f.all ≡ spec.fragments documents.now) }
    {
        Ok(Fragments {
            all: Named::new(alloc, all_fragments(alloc, documents)?)?,
        })
    }

    /// The fragments of these files. They share the trees, and the look-up of the fragments before if
    /// these have the same names.
    pub fn like(
        alloc: Global,
        documents: &FileMap<Shared<Document>>,
        before: &Fragments,
    ) -> Result<Fragments, AllocError>
        ensures { IfOk result (λ f. f.all ≡ spec.fragments documents.now) }
    {
        Ok(Fragments {
            all: Named::like(alloc, all_fragments(alloc, documents)?, &before.all)?,
        })
    }

    /// The same fragments, which both share.
    pub fn copy(&self) -> Result<Fragments, AllocError>
        ensures { IfOk result (λ copy. copy.all ≡ self.now.all) }
    {
        Ok(Fragments {
            all: self.all.copy()?,
        })
    }

    /// The first fragment of that name.
    pub fn get(&self, name: &str) -> Option<&FragmentFact>
        ensures { option_copied result
            ≡ find (λ (f : FragmentFact). bytes_eq name.now f.fragment.name.text) self.now.all }
    {
        self.all.get(name)
    }
}
