//! The operations of document files, and the one that a call asks for.
ghost use Rattle.std.specs.Prelude.{◌≡◌, ◌↔◌, ℕ, List, [], Contains, Some, None, IfOk, IfSome, IsTrue};
ghost use Rattle.std.specs.Option.{option_copied};
ghost use Rattle.gql_ast.specs.FileMaps.{file_named};
ghost use Rattle.gql_ast.specs.declared.definition.Document.{Document as TheDocument};
ghost use Rattle.gql_registry.specs.Chosen as spec;
ghost use Rattle.gql_registry.specs.Indexed.{AreOperationsIn, IsIndexOf, IsWith, kept_as, names_in, text_in};
ghost use Rattle.gql_types.specs.Outlines.{edited_files};

use crate::kept_operation::KeptOperation;
use crate::operation_order::OfName;
use gql_ast::{Definition, Document, FileMap, FileName, Name, Shared, Text, Tree};
use gql_chunks::Chunks;
use gql_verdict::NameSet;
use std::alloc::{AllocError, Global};

/// The operations of all document files, by their names, and those of one name in the order of the
/// files' names. Of those of one name, the first counts. A copy shares them, and so do the operations
/// after an edit of one file.
pub struct Operations {
    all: Chunks<KeptOperation>,
}

impl Drop for Operations {
    fn drop(self) {
        let Operations { all: _ } = self;
    }
}

/// A copy of a name, if there is one.
fn name_copy(name: &Option<Name>) -> Result<Option<Text>, AllocError>
    ensures { IfOk result (λ text. text ≡ text_in name.now) }
{
    match name {
        Some(name) => Ok(Some(name.text.copy()?)),
        None => Ok(None),
    }
}

/// A definition of a file as an operation that is kept, if it is one.
fn kept_operation(
    file: &FileName,
    number: usize,
    definition: &Definition,
) -> Result<Option<KeptOperation>, AllocError>
    ensures { IfOk result (λ kept. kept ≡ kept_as file.now number definition.now) }
{
    match &definition.tree {
        Tree::Operation(operation) => {
            let name = name_copy(&operation.get().name)?;
            Ok(Some(KeptOperation {
                name,
                file: file.copy()?,
                number,
                definition: definition.copy()?,
            }))
        }
        _ => Ok(None),
    }
}

/// These operations, with one more if there is one.
fn with_operation(
    alloc: Global,
    operations: Chunks<KeptOperation>,
    operation: Option<KeptOperation>,
) -> Result<Chunks<KeptOperation>, AllocError>
    ensures { IfOk result (IsWith operations operation) }
{
    match operation {
        Some(operation) => {
            let none = Chunks::new(alloc);
            let one = Chunks::one(alloc, operation)?;
            operations.edited(alloc, &none, &one)
        }
        None => Ok(operations),
    }
}

/// The operations of a document file.
fn operations_in(
    alloc: Global,
    file: &FileName,
    document: &Document,
) -> Result<Chunks<KeptOperation>, AllocError>
    ensures { IfOk result (AreOperationsIn file.now (Some document.now)) }
{
    let mut operations = Chunks::new(alloc);
    let definitions = document.definitions.as_slice();
    for number in 0..definitions.len() {
        let operation = kept_operation(file, number, &definitions[number])?;
        operations = with_operation(alloc, operations, operation)?;
    }
    Ok(operations)
}

/// The operations of a document file, if there is one.
fn operations_of(
    alloc: Global,
    file: &FileName,
    document: Option<&Document>,
) -> Result<Chunks<KeptOperation>, AllocError>
    ensures { IfOk result (AreOperationsIn file.now (option_copied document.entry)) }
{
    match document {
        Some(document) => operations_in(alloc, file, document),
        None => Ok(Chunks::new(alloc)),
    }
}

impl Operations {
    /// The operations of these files. They share the trees.
    pub fn new(
        alloc: Global,
        documents: &FileMap<Shared<Document>>,
    ) -> Result<Operations, AllocError>
        ensures { IfOk result (IsIndexOf documents.now) }
    {
        let mut all = Chunks::new(alloc);
        for (name, document) in documents.entries().iter() {
            let none = Chunks::new(alloc);
            let comes = operations_in(alloc, name, document.get())?;
            all = all.edited(alloc, &none, &comes)?;
        }
        Ok(Operations { all })
    }

    /// The operations of document files after an edit of the file of a name, which replaces the one
    /// there before by this one, if there is one. They share all operations of other files.
    pub fn edited(
        &self,
        alloc: Global,
        documents: &FileMap<Shared<Document>>,
        name: &FileName,
        before: Option<&Document>,
        after: Option<&Document>,
    ) -> Result<Operations, AllocError>
        ensures { IfOk result (λ edited. (files : List (List ℕ × TheDocument))
            → IsIndexOf files self.now → file_named files name.now ≡ option_copied before.entry
            → documents.now ≡ edited_files files name.now (option_copied after.entry)
            → IsIndexOf documents.now edited) }
    {
        let _in_order = documents.entries();
        let goes = operations_of(alloc, name, before)?;
        let comes = operations_of(alloc, name, after)?;
        let all = self.all.edited(alloc, &goes, &comes)?;
        Ok(Operations { all })
    }

    /// The same operations, which both share.
    pub fn copy(&self) -> Result<Operations, AllocError>
        ensures { IfOk result (λ copy. copy ≡ self.now) }
    {
        let all = self.all.copy()?;
        Ok(Operations { all })
    }

    /// The operation of a name.
    fn of_name(&self, name: &str) -> Option<&Definition>
        ensures { (documents : List (List ℕ × TheDocument)) → IsIndexOf documents self.now
            → option_copied result ≡ spec.chosen documents (Some name.now) }
    {
        match self.all.find(&OfName { name }) {
            Some(operation) => Some(&operation.definition),
            None => None,
        }
    }

    /// The only operation, if there is one only.
    fn only(&self) -> Option<&Definition>
        ensures { (documents : List (List ℕ × TheDocument)) → IsIndexOf documents self.now
            → option_copied result ≡ spec.chosen documents None }
    {
        let mut items = self.all.iter();
        let first = items.next();
        match items.next() {
            Some(_) => None,
            None => match first {
                Some(operation) => Some(&operation.definition),
                None => None,
            },
        }
    }

    /// The operation that a call names: the first of that name, or, without a name, the only one
    /// (GraphQL specification, 6.1).
    pub fn chosen(&self, name: Option<&str>) -> Option<&Definition>
        ensures { (documents : List (List ℕ × TheDocument)) → IsIndexOf documents self.now
            → option_copied result ≡ spec.chosen documents (option_copied name.entry) }
    {
        match name {
            Some(name) => self.of_name(name),
            None => self.only(),
        }
    }
}

impl NameSet for Operations {
    ghost names = { λ o. names_in o.all };

    fn has(&self, name: &str) -> bool {
        self.all.find(&OfName { name }).is_some()
    }

    fn is_empty(&self) -> bool {
        let _in_order = self.all.iter();
        match self.all.first() {
            Some(operation) => operation.name.is_none(),
            None => true,
        }
    }
}
