//! What an edit may have changed.
ghost use Rattle.std.specs.Prelude.{◌≡◌, ◌++◌, IfOk, OnOk, flat_map};
ghost use Rattle.std.specs.Option.{option_copied};
ghost use Rattle.gql_facts.specs.declared.key.Key.{Key as AKey};
ghost use Rattle.gql_pairs.specs.Doubts.{in_doubt};
ghost use Rattle.gql_verdict.specs.DocumentEdits as edits;
ghost use Rattle.gql_verdict.specs.TouchedFacts as spec;

use gql_ast::{Definition, Document, FileName, Text, Tree};
use gql_pairs::Doubt;
use gql_types::Named;
use std::alloc::{AllocError, Global};

/// The edit of a document file: the file's name, and the names of the fragments that it has or had.
pub struct FileEdit {
    pub file: FileName,
    pub fragments: Named<Text>,
}

impl Drop for FileEdit {
    fn drop(self) {
        let FileEdit {
            file: _,
            fragments: _,
        } = self;
    }
}

/// The edit of a schema file: the names of the types that it may have changed, and of those whose
/// possible types it has changed.
pub struct SchemaEdit {
    pub types: Named<Text>,
}

impl Drop for SchemaEdit {
    fn drop(self) {
        let SchemaEdit { types: _ } = self;
    }
}

/// What an edit may have changed: everything, or only what the edit of one file changes. Of a
/// document file, that is the definitions of the file, and the fragments that it has or had. Of a
/// schema file, that is what is known of some types, of directives and of root operation types.
pub enum Touched {
    All,
    File(FileEdit),
    Schema(SchemaEdit),
}

impl Drop for Touched {
    fn drop(self) {
        match self {
            Touched::All => {}
            Touched::File(_) => {}
            Touched::Schema(_) => {}
        }
    }
}

/// Adds the name of a definition that is a fragment.
fn add_name(definition: &Definition, names: &mut Vec<Text>) -> Result<(), AllocError>
    ensures { OnOk result (names.new.items ≡ names.old.items
        ++ edits.fragment_name_in definition.now) }
{
    if let Tree::Fragment(fragment) = &definition.tree {
        names.push(fragment.get().name.text.copy()?)?;
    }
    Ok(())
}

/// Adds the names of fragments.
fn add_names(definitions: &[Definition], names: &mut Vec<Text>) -> Result<(), AllocError>
    ensures { OnOk result (names.new.items ≡ names.old.items
        ++ flat_map edits.fragment_name_in definitions.now) }
{
    for definition in definitions {
        add_name(definition, names)?;
    }
    Ok(())
}

/// Adds the names of the fragments in a file, if there is one.
fn add_file(document: Option<&Document>, names: &mut Vec<Text>) -> Result<(), AllocError>
    ensures { OnOk result (names.new.items ≡ names.old.items
        ++ edits.fragment_names (option_copied document.entry)) }
{
    if let Some(document) = document {
        add_names(document.definitions.as_slice(), names)?;
    }
    Ok(())
}

impl Touched {
    /// What the edit of the document file of that name touches, by the file before and after it.
    pub fn by_edit(
        alloc: Global,
        name: &FileName,
        before: Option<&Document>,
        after: Option<&Document>,
    ) -> Result<Touched, AllocError>
        ensures { IfOk result (λ touched. touched ≡ edits.touched_by name.now
            (option_copied before.entry) (option_copied after.entry)) }
    {
        let mut names = Vec::new(alloc);
        add_file(before, &mut names)?;
        add_file(after, &mut names)?;
        Ok(Touched::File(FileEdit {
            file: name.copy()?,
            fragments: Named::new(alloc, names)?,
        }))
    }

    /// Which answers may have changed.
    pub fn doubt(&self) -> Result<Doubt, AllocError>
        ensures { IfOk result (λ d. (k : AKey) → in_doubt d k ≡ spec.touches self.now k) }
    {
        match self {
            Touched::All => Ok(Doubt::All),
            Touched::File(edit) => Ok(Doubt::Fragments(edit.fragments.copy()?)),
            Touched::Schema(edit) => Ok(Doubt::Types(edit.types.copy()?)),
        }
    }

    /// Whether a definition may have changed. One of another file than the edited one has not, and
    /// an edit of a schema file changes none.
    pub fn touches_definition(&self, definition: &Definition) -> bool
        ensures { result ≡ spec.touches_definition self.now definition.now }
    {
        match self {
            Touched::All => true,
            Touched::File(edit) => definition.file == edit.file,
            Touched::Schema(_) => false,
        }
    }
}
