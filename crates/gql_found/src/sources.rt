//! The files that a check is of, and places of a report as places in them.

ghost use Rattle.std.specs.Prelude.{◌≡◌, ℕ, List, Some, None, IfOk, OnOk, bytes_eq, if◌then◌else◌};
ghost use Rattle.std.specs.Option.{option_or};
ghost use Rattle.gql_ast.specs.FileMaps.{file_named};
ghost use Rattle.gql_found.specs.Spots as spec;

use gql_ast::{Definition, FileMap, FileName, FilePlace, FileSide};
use gql_findings::{Source, Spot};
use std::alloc::{AllocError, Global};

/// The files that a check is of: all of them, each with its paths and its text; and which of them is
/// the file of each name of a side of a registry.
#[derive(Drop)]
pub struct Sources {
    listed: Vec<Source>,
    schema: FileMap<usize>,
    documents: FileMap<usize>,
}

/// Gives a name the index of a file, if it has none.
#[tactic(auto, using(crate::proofs::Names::named_more, crate::proofs::Names::named_kept))]
fn name_file(names: &mut FileMap<usize>, name: FileName, at: usize) -> Result<(), AllocError>
    ensures { OnOk result ((q : List ℕ) → file_named names.new q
        ≡ option_or (file_named names.old q) (if bytes_eq name q then Some at else None)) }
{
    if !names.has(&name) {
        names.put(name, at)?;
    }
    Ok(())
}

/// The place where a definition of a document starts.
pub fn start_of(definition: &Definition) -> Result<FilePlace, AllocError>
    ensures { IfOk result (λ start. start ≡ spec.start_of definition.now) }
{
    Ok(FilePlace {
        side: FileSide::Documents,
        file: definition.file.copy()?,
        place: definition.tree.place(),
    })
}

impl Sources {
    ghost use Rattle.std.specs.Prelude.{◌≡◌, ◌++◌, ◌∷◌, [], OnOk, length};
    ghost use Rattle.gql_found.specs.Spots as spec;
    ghost use Rattle.gql_found.specs.Spots.{HasNoNames, HaveSameNames, IsNamed};

    /// No files.
    #[tactic(auto, using(crate::proofs::Names::no_names))]
    pub fn new(alloc: Global) -> Sources
        ensures listed { spec.files_of result ≡ [] }
        ensures names { HasNoNames result }
    {
        Sources {
            listed: Vec::new(alloc),
            schema: FileMap::new(alloc),
            documents: FileMap::new(alloc),
        }
    }

    /// How many files there are.
    pub fn count(&self) -> usize
        ensures { result ≡ length (spec.files_of self.now) }
    {
        self.listed.len()
    }

    /// Adds a file after the others.
    pub fn push(&mut self, source: Source) -> Result<(), AllocError>
        ensures listed { OnOk result
            (spec.files_of self.new ≡ spec.files_of self.old ++ source ∷ []) }
        ensures names { OnOk result (HaveSameNames self.old self.new) }
    {
        self.listed.push(source)?;
        Ok(())
    }

    /// Makes the file at an index that of a name on a side, if no file is that so far.
    #[tactic(auto, using(crate::proofs::Names::of_schema, crate::proofs::Names::of_documents))]
    pub fn put_name(&mut self, side: FileSide, name: FileName, at: usize) -> Result<(), AllocError>
        ensures listed { OnOk result (spec.files_of self.new ≡ spec.files_of self.old) }
        ensures names { OnOk result (IsNamed side name at self.old self.new) }
    {
        match side {
            FileSide::Schema => name_file(&mut self.schema, name, at),
            FileSide::Documents => name_file(&mut self.documents, name, at),
        }
    }

    /// The index of the file of a name on a side, if there is one.
    pub fn index_of(&self, side: FileSide, name: &FileName) -> Option<usize>
        ensures { result ≡ spec.index_of self.now side name.now }
    {
        match side {
            FileSide::Schema => self.schema.get(name).copied(),
            FileSide::Documents => self.documents.get(name).copied(),
        }
    }

    /// A place of a report, as a place in these files. Each file of a report has an index.
    pub fn spot(&self, place: &FilePlace) -> Spot
        ensures { result ≡ spec.spot_of self.now place.now }
    {
        Spot {
            source: self.index_of(place.side, &place.file).unwrap_or(0),
            line: place.place.line,
            column: place.place.column,
            offset: place.place.offset,
        }
    }

    /// The files, in their order.
    pub fn into_files(self) -> Vec<Source>
        ensures { result.items ≡ spec.files_of self }
    {
        self.listed
    }
}
