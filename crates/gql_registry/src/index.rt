//! The definitions of the document files, by their names.
ghost use Rattle.std.specs.Prelude.{◌≡◌, IfOk, IsTrue};
ghost use Rattle.gql_facts.specs.Facts.{fragments as fragments_of};
ghost use Rattle.std.specs.Option.{option_copied};
ghost use Rattle.gql_ast.specs.FileMaps.{file_named};
ghost use Rattle.gql_ast.specs.declared.files.Files.{Files as TheFiles};
ghost use Rattle.gql_registry.specs.Keeping.{IsIndexOf};
ghost use Rattle.gql_types.specs.Outlines.{edited_files};

use crate::operations::Operations;
use gql_ast::{Document, FileName, Files};
use gql_facts::Fragments;
use std::alloc::{AllocError, Global};

/// The fragments and the operations of the document files. A copy shares them.
#[derive(Drop)]
pub struct DocumentIndex {
    pub fragments: Fragments,
    pub operations: Operations,
}

impl DocumentIndex {
    /// The same index. Both share what is in it.
    pub fn copy(&self) -> Result<DocumentIndex, AllocError>
        ensures { IfOk result (λ copy. copy ≡ self.now) }
    {
        let fragments = self.fragments.copy()?;
        let operations = self.operations.copy()?;
        Ok(DocumentIndex {
            fragments,
            operations,
        })
    }
}

/// Finds the fragments and the operations of the document files.
pub fn document_index(alloc: Global, files: &Files) -> Result<DocumentIndex, AllocError>
    ensures { IfOk result (IsIndexOf files.now) }
{
    let fragments = Fragments::new(alloc, &files.documents)?;
    let operations = Operations::new(alloc, &files.documents)?;
    Ok(DocumentIndex {
        fragments,
        operations,
    })
}

/// The fragments of the document files: those before, if they are the same. Else they are listed, and
/// share the look-up of those before if these have the same names.
fn fragments_like(
    alloc: Global,
    files: &Files,
    before: &Fragments,
    are_same: bool,
) -> Result<Fragments, AllocError>
    requires { IsTrue are_same → before.now.all ≡ fragments_of files.now.documents }
    ensures { IfOk result (λ f. f.all ≡ fragments_of files.now.documents) }
{
    if are_same {
        return before.copy();
    }
    Fragments::like(alloc, &files.documents, before)
}

/// Finds the fragments and the operations of the document files after an edit of the file of a name,
/// which replaces the one before by another, if there is one. What did not change is shared with the
/// index before it. `are_same` says whether all fragments are the same.
pub fn index_after_edit(
    alloc: Global,
    files: &Files,
    index: &DocumentIndex,
    name: &FileName,
    before: Option<&Document>,
    after: Option<&Document>,
    are_same: bool,
) -> Result<DocumentIndex, AllocError>
    requires index { (old : TheFiles) × IsIndexOf old index.now
        × (file_named old.documents name.now ≡ option_copied before)
        × (files.now.documents ≡ edited_files old.documents name.now (option_copied after)) }
    requires same { IsTrue are_same → index.now.fragments.all ≡ fragments_of files.now.documents }
    ensures { IfOk result (IsIndexOf files.now) }
{
    let fragments = fragments_like(alloc, files, &index.fragments, are_same)?;
    let documents = &files.documents;
    let operations = index
        .operations
        .edited(alloc, documents, name, before, after)?;
    Ok(DocumentIndex {
        fragments,
        operations,
    })
}
