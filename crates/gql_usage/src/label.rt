//! How files are named in what is written: by their paths.

use gql_ast::{FileMap, FileName, FilePlace, FileSide};
use gql_folder::{Folder, GivenFile, NamedFile};
use std::alloc::{AllocError, Global};

/// The paths of the files of a folder, by the names of the files.
pub struct Paths {
    schema: FileMap<String>,
    documents: FileMap<String>,
}

impl Drop for Paths {
    fn drop(self) {
        let Paths {
            schema: _,
            documents: _,
        } = self;
    }
}

/// The paths of the files of a side, each below this folder.
fn side_paths(
    alloc: Global,
    folder: &str,
    named: &[NamedFile],
    given: &[GivenFile],
) -> Result<FileMap<String>, AllocError> {
    let mut paths = FileMap::new(alloc);
    for file in named {
        if let Some(found) = given.get(file.at) {
            let path = format!(in alloc; "{folder}/{}", found.path)?;
            paths.put(file.name.copy()?, path)?;
        }
    }
    Ok(paths)
}

impl Paths {
    /// The paths of these files of a folder, each below it.
    pub fn new(
        alloc: Global,
        folder: &str,
        named: &Folder,
        given: &[GivenFile],
    ) -> Result<Paths, AllocError> {
        Ok(Paths {
            schema: side_paths(alloc, folder, named.schema.as_slice(), given)?,
            documents: side_paths(alloc, folder, named.documents.as_slice(), given)?,
        })
    }

    /// The path of a file of a side, or an empty text if the folder has no such file.
    fn path(&self, side: FileSide, file: &FileName) -> &str {
        let paths = match side {
            FileSide::Schema => &self.schema,
            FileSide::Documents => &self.documents,
        };
        match paths.get(file) {
            Some(path) => path.as_str(),
            None => "",
        }
    }

    /// The path of the file of a place.
    pub fn path_of(&self, place: &FilePlace) -> &str {
        self.path(place.side, &place.file)
    }
}
