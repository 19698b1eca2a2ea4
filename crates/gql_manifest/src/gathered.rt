//! The operations and fragments of manifests, as their texts are read one after the other.

ghost use Rattle.std.specs.Prelude.{◌≡◌, [], ◌∷◌, IfOk, IfErr, OnErr, OnOk};
ghost use Rattle.gql_manifest.specs.Gathering.{IsAddFault, IsAdded, IsUnchanged, SaysTwice, operations_of};
ghost use Rattle.gql_manifest.specs.Definitions.{GathersMore, IsPieceFault};
ghost use Rattle.gql_manifest.specs.Entries.{listing_of};
ghost use Rattle.gql_manifest.specs.Origins.{place_of};
ghost use Rattle.gql_manifest.specs.Pieces.{brought_at};
ghost use Rattle.gql_manifest.specs.Reading.{GathersListing, IsEntryFault};

use crate::bucket::bucket_of;
use crate::entries::Entry;
use crate::fault::ManifestFault;
use crate::fragments::KeptFragments;
use crate::origin::Origin;
use crate::packing::with_line_break;
use crate::pieces::{Piece, pieces_of};
use gql_ast::{Operation, Text, Tree};
use indexmap::IndexMap;
use std::alloc::{AllocError, Global};

/// An operation: where it comes from, its bytes with a line break at their end, and the bucket of
/// its name.
#[derive(Drop)]
pub struct GatheredOperation {
    pub origin: Origin,
    pub bytes: Vec<u8>,
    pub bucket: usize,
}

/// The operations of manifests by their names, and their fragments.
#[derive(Drop)]
pub struct Gathered {
    pub operations: IndexMap<Text, GatheredOperation>,
    pub fragments: KeptFragments,
}

/// Two operations have this name.
fn twice(
    alloc: Global,
    name: &Text,
    first: &Origin,
    at: &Origin,
) -> Result<ManifestFault, AllocError>
    ensures { IfOk result (SaysTwice name.now (place_of first.now) (place_of at.now)) }
{
    Ok(ManifestFault::Twice {
        name: String::from_str(alloc, name.as_str())?,
        first: first.copy()?,
        at: at.copy()?,
    })
}

impl Gathered {
    /// No operations and no fragments.
    pub fn new(alloc: Global) -> Gathered
        ensures operations { operations_of result ≡ [] }
        ensures fragments { result.fragments ≡ [] }
    {
        Gathered {
            operations: IndexMap::new(alloc),
            fragments: KeptFragments::new(alloc),
        }
    }

    /// Adds an operation, whose name no other has.
    fn add_operation(
        &mut self,
        alloc: Global,
        at: &Origin,
        operation: &Operation,
        bytes: &[u8],
    ) -> Result<(), ManifestFault>
        ensures ok { OnOk result
            (IsAdded operation.now.name (place_of at.now) bytes.now self.old self.new) }
        ensures err { IfErr result
            (IsAddFault operation.now.name (place_of at.now) (operations_of self.old)) }
        ensures unchanged { OnErr result (IsUnchanged self.old self.new) }
    {
        let Some(name) = &operation.name else {
            return Err(ManifestFault::Unnamed { at: at.copy()? });
        };
        if let Some(first) = self.operations.get(&name.text) {
            return Err(twice(alloc, &name.text, &first.origin, at)?);
        }
        let gathered = GatheredOperation {
            origin: at.copy()?,
            bytes: with_line_break(alloc, bytes)?,
            bucket: bucket_of(name.text.as_str()),
        };
        self.operations.insert(name.text.copy()?, gathered)?;
        Ok(())
    }

    /// Adds a definition of an operation's text.
    fn add_piece(
        &mut self,
        alloc: Global,
        at: &Origin,
        piece: Piece<'_>,
    ) -> Result<(), ManifestFault>
        ensures ok { OnOk result
            (GathersMore (brought_at (place_of at.now) piece.entry ∷ []) self.old self.new) }
        ensures err { IfErr result
            (IsPieceFault self.old (brought_at (place_of at.now) piece.entry)) }
    {
        let Piece {
            tree,
            bytes,
            tokens,
        } = piece;
        match &tree {
            Tree::Operation(operation) => self.add_operation(alloc, at, operation.get(), bytes),
            Tree::Fragment(fragment) => {
                let name = &fragment.get().name.text;
                self.fragments.add(alloc, at, name, bytes, tokens)
            }
            _ => Err(ManifestFault::NotExecutable { at: at.copy()? }),
        }
    }

    /// Adds the definitions of the text of an operation of the manifest at this path.
    pub fn add_entry(
        &mut self,
        alloc: Global,
        path: &str,
        entry: &Entry<'_>,
    ) -> Result<(), ManifestFault>
        ensures ok { OnOk result
            (GathersListing path.now (listing_of entry.now) self.old self.new) }
        ensures err { IfErr result (IsEntryFault path.now (listing_of entry.now) self.old) }
    {
        let at = Origin::new(alloc, path, entry.id)?;
        for piece in pieces_of(alloc, &at, entry.body)? {
            self.add_piece(alloc, &at, piece)?;
        }
        Ok(())
    }
}
