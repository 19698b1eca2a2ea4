//! Maps from names of files, and the files that are present.

ghost use Rattle.std.specs.Prelude.{◌≡◌, ◌<◌, ◌^◌, [], length, is_some, IfOk, OnOk, OnErr};
ghost use Rattle.std.specs.Option.{option_copied};
ghost use Rattle.std.specs.BTreeMap.{IsOrdered};
ghost use Rattle.gql_ast.specs.FileMaps.{file_named, with_file, without_file, name_order};
ghost use Rattle.gql_ast.specs.Profiles.{whole_numbers};

use crate::definition::Document;
use crate::file_name::FileName;
use crate::profile::Profile;
use crate::shared::Shared;
use std::alloc::{AllocError, Global};
use std::collections::BTreeMap;
use std::marker::Model;

/// A finite map from names of files. Contracts see the list of names and values, in the order of
/// the bytes of names.
pub struct FileMap<T> {
    entries: BTreeMap<FileName, T>,
}

impl<T: Drop> Drop for FileMap<T> {
    fn drop(self) {
        let FileMap { entries: _ } = self;
    }
}

impl<T> Model for FileMap<T> {
    ghost use Rattle.std.specs.Prelude.{List, ℕ};
    ghost use Rattle.std.specs.Coded.{coded_list, coded×, coded_ℕ};

    ghost Value = { List (List ℕ × T) };

    ghost coded = { coded_list (coded× (coded_list coded_ℕ) T.code) };

    ghost view = { λ m. m.entries.entries };
}

impl<T> FileMap<T> {
    /// No files.
    pub fn new(alloc: Global) -> FileMap<T>
        ensures { result ≡ [] }
    {
        FileMap {
            entries: BTreeMap::new(alloc),
        }
    }

    /// How many files there are.
    pub fn len(&self) -> usize
        ensures { result ≡ length self.now }
    {
        self.entries.len()
    }

    /// Whether there is a file of that name.
    pub fn has(&self, name: &FileName) -> bool
        ensures { result ≡ is_some (file_named self.now name.now) }
    {
        self.entries.contains_key(name)
    }

    /// The file of that name.
    pub fn get(&self, name: &FileName) -> Option<&T>
        ensures { option_copied result ≡ file_named self.now name.now }
    {
        self.entries.get(name)
    }

    /// The files in the order of their names.
    pub fn entries(&self) -> &BTreeMap<FileName, T>
        ensures files { result.now.entries ≡ self.now }
        ensures ordered { IsOrdered name_order result.now }
    {
        // a map says that it is ordered where its length is asked
        let _count = self.entries.len();
        &self.entries
    }
}

impl<T: Drop> FileMap<T> {
    /// Adds a file; it replaces a file of the same name. If an allocation fails, nothing is
    /// changed.
    pub fn put(&mut self, name: FileName, file: T) -> Result<(), AllocError>
        ensures ok { OnOk result (self.new ≡ with_file self.old name file) }
        ensures err { OnErr result (self.new ≡ self.old) }
    {
        match self.entries.insert(name, file) {
            Ok(_) => Ok(()),
            Err(_) => Err(AllocError),
        }
    }

    /// Removes the file of that name, if there is one.
    pub fn remove(&mut self, name: &FileName) -> Option<T>
        ensures found { result ≡ file_named self.old name.now }
        ensures left { self.new ≡ without_file self.old name.now }
    {
        self.entries.remove(name)
    }
}

impl<T: Drop> FileMap<Shared<T>> {
    /// An equal map, which shares the values.
    pub fn copy(&self) -> Result<FileMap<Shared<T>>, AllocError>
        ensures { IfOk result (λ m. m ≡ self.now) }
    {
        Ok(FileMap {
            entries: self.entries.clone()?,
        })
    }
}

/// The files that are present: schema files, which are one schema together, and document files; and
/// the profile by which they are judged.
pub struct Files {
    pub profile: Profile,
    pub schema: FileMap<Shared<Document>>,
    pub documents: FileMap<Shared<Document>>,
}

impl Drop for Files {
    fn drop(self) {
        let Files {
            profile: _,
            schema: _,
            documents: _,
        } = self;
    }
}

impl Files {
    /// No files, in the profile where none is named.
    pub fn new(alloc: Global) -> Files
        ensures { result ≡ record { profile = whole_numbers; schema = []; documents = [] } }
    {
        Files::of(alloc, Profile::whole_numbers())
    }

    /// No files, in this profile.
    pub fn of(alloc: Global, profile: Profile) -> Files
        ensures { result ≡ record { profile = profile; schema = []; documents = [] } }
    {
        Files {
            profile,
            schema: FileMap::new(alloc),
            documents: FileMap::new(alloc),
        }
    }

    /// Equal files, which share the documents.
    pub fn copy(&self) -> Result<Files, AllocError>
        ensures { IfOk result (λ files. files ≡ self.now) }
    {
        Ok(Files {
            profile: self.profile,
            schema: self.schema.copy()?,
            documents: self.documents.copy()?,
        })
    }
}
