//! What schema files give to the schema. An edit of a file takes over what the other files give,
//! without a look at their definitions.
ghost use Rattle.std.specs.Prelude.{◌≡◌, ◌++◌, ◌<◌, ◌^◌, ◌∷◌, [], IfOk, OnOk, length};
ghost use Rattle.gql_types.specs.Outlines as spec;
ghost use Rattle.gql_types.specs.Sites.{is_other, others_in};

use crate::gathered::Gathered;
use gql_ast::{Document, FileMap, FileName, Files, Items, Shared, Tree};
use gql_built_in::{Sited, same_source};
use std::alloc::{AllocError, Global};

/// What a schema file gives to the schema: how many types it defines, and its definitions that are
/// not of types.
#[derive(Drop)]
pub struct FileOutline {
    pub types: usize,
    pub others: Items<Sited<Tree>>,
}

/// What each schema file gives to the schema, under the name of the file.
#[derive(Drop)]
pub struct Outline {
    pub files: FileMap<Shared<FileOutline>>,
    /// Whether it is known that each type is defined once.
    pub(crate) are_once: bool,
}

/// Whether it is not the definition of a type.
fn is_other(tree: &Tree) -> bool
    ensures { result ≡ is_other tree.now }
{
    !matches!(tree, Tree::Type(_))
}

/// Adds an equal definition, which shares its tree.
fn add(definition: &Sited<Tree>, found: &mut Items<Sited<Tree>>) -> Result<(), AllocError>
    ensures { OnOk result (found.new ≡ found.old ++ definition.now ∷ []) }
{
    found.push(Sited {
        file: same_source(&definition.file)?,
        node: definition.node.copy()?,
    })
}

/// Adds those of these definitions that are not of types.
fn add_others(definitions: &[Sited<Tree>], found: &mut Items<Sited<Tree>>) -> Result<(), AllocError>
    ensures { OnOk result (found.new ≡ found.old ++ others_in definitions.now) }
{
    for definition in definitions {
        if is_other(&definition.node) {
            add(definition, found)?;
        }
    }
    Ok(())
}

/// Adds these definitions.
fn add_all(definitions: &[Sited<Tree>], found: &mut Items<Sited<Tree>>) -> Result<(), AllocError>
    ensures { OnOk result (found.new ≡ found.old ++ definitions.now) }
{
    for definition in definitions {
        add(definition, found)?;
    }
    Ok(())
}

impl FileOutline {
    /// What a file gives, of which these are the definitions.
    pub fn of(definitions: Gathered<'_>) -> FileOutline
        ensures types { result.types ≡ length definitions.entry.types.items }
        ensures others { result.others ≡ definitions.entry.others }
    {
        let Gathered { types, others } = definitions;
        FileOutline {
            types: types.len(),
            others,
        }
    }

    /// What a file gives.
    pub fn of_file(alloc: Global, document: &Document) -> Result<FileOutline, AllocError>
        ensures { IfOk result (λ outline. outline ≡ spec.outline_of document.now) }
    {
        let definitions = Gathered::of_file(alloc, document)?;
        Ok(FileOutline::of(definitions))
    }
}

impl Outline {
    /// What these schema files give. Whether each type is defined once is not known yet.
    pub fn of_files(alloc: Global, files: &Files) -> Result<Outline, AllocError>
        ensures { IfOk result (spec.IsOutline files.now) }
    {
        let mut found = FileMap::new(alloc);
        for (name, document) in files.schema.entries().iter() {
            let file = FileOutline::of_file(alloc, document.get())?;
            found.put(name.copy()?, Shared::new(alloc, file)?)?;
        }
        Ok(Outline {
            files: found,
            are_once: false,
        })
    }

    /// What the files give after an edit that puts this file under its name, or removes the file of
    /// that name if there is none to put. Whether each type is then defined once, the caller knows.
    pub fn after_edit(
        &self,
        alloc: Global,
        name: &FileName,
        file: Option<FileOutline>,
        are_once: bool,
    ) -> Result<Outline, AllocError>
        ensures files { IfOk result (λ outline. outline.files
            ≡ spec.edited_files self.now.files name.now file) }
        ensures once { IfOk result (λ outline. outline.are_once ≡ are_once) }
    {
        let mut files = self.files.copy()?;
        match file {
            Some(file) => files.put(name.copy()?, Shared::new(alloc, file)?)?,
            None => {
                let _removed = files.remove(name);
            }
        }
        Ok(Outline { files, are_once })
    }

    /// The same outline, of which it is known whether each type is defined once.
    pub fn known(self, are_once: bool) -> Outline
        ensures files { result.files ≡ self.files }
        ensures once { result.are_once ≡ are_once }
    {
        let Outline { files, are_once: _ } = self;
        Outline { files, are_once }
    }

    /// How many types the files before the one of this name define.
    pub fn count_until(&self, name: &FileName) -> usize
        requires { spec.count_types (spec.files_until name.now self.now.files) < 2 ^ 64 }
        ensures { result ≡ spec.count_types (spec.files_until name.now self.now.files) }
    {
        let mut count = 0;
        for (other, file) in self.files.entries().iter() {
            if name == other {
                return count;
            }
            count += file.get().types;
        }
        count
    }

    /// How many types the files after the one of this name define.
    pub fn count_past(&self, name: &FileName) -> usize
        requires { spec.count_types (spec.files_past name.now self.now.files) < 2 ^ 64 }
        ensures { result ≡ spec.count_types (spec.files_past name.now self.now.files) }
    {
        let mut count = 0;
        let mut is_past = false;
        for (other, file) in self.files.entries().iter() {
            if is_past {
                count += file.get().types;
            } else {
                is_past = name == other;
            }
        }
        count
    }

    /// The definitions that are not of types: those of these built-in definitions, then those of the
    /// files.
    pub fn others(
        &self,
        alloc: Global,
        built_in: &[Sited<Tree>],
    ) -> Result<Items<Sited<Tree>>, AllocError>
        ensures { IfOk result (λ found. found
            ≡ others_in built_in.now ++ spec.all_others self.now.files) }
    {
        let mut found = Items::new(alloc);
        add_others(built_in, &mut found)?;
        for (_name, file) in self.files.entries().iter() {
            add_all(file.get().others.as_slice(), &mut found)?;
        }
        Ok(found)
    }
}
