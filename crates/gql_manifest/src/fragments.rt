//! The fragments of a manifest, each kept once.

ghost use Rattle.std.specs.Prelude.{◌≡◌, [], IfOk, IfErr, OnErr, OnOk, length, string_bytes};
ghost use Rattle.gql_manifest.specs.Fragments.{IsAddFault, IsAdded, SaysDiffer, bytes_of, fragment_from};
ghost use Rattle.gql_manifest.specs.Origins.{place_of};
ghost use Rattle.gql_manifest.specs.Packing.{IsPacked, texts_of};

use crate::fault::ManifestFault;
use crate::origin::Origin;
use crate::packing::{packed, with_line_break};
use gql_ast::Text;
use indexmap::IndexMap;
use std::alloc::{AllocError, Global};
use std::marker::Model;

/// A fragment: its tokens, its bytes with a line break at their end, and the operation that brought
/// it first.
#[derive(Drop)]
struct KeptFragment {
    tokens: String,
    bytes: Vec<u8>,
    first: Origin,
}

/// The fragments of a manifest by their names. Contracts see the list of them.
#[derive(Drop)]
pub struct KeptFragments {
    fragments: IndexMap<Text, KeptFragment>,
}

impl Model for KeptFragments {
    ghost use Rattle.std.specs.Prelude.{List};
    ghost use Rattle.gql_manifest.specs.Fragments.{Fragment, fragments_of};

    ghost Value = { List Fragment };

    ghost view = { λ kept. fragments_of kept.fragments.entries };
}

/// Two fragments of this name differ.
fn differ(
    alloc: Global,
    name: &Text,
    first: &Origin,
    at: &Origin,
) -> Result<ManifestFault, AllocError>
    ensures { IfOk result (SaysDiffer name.now (place_of first.now) (place_of at.now)) }
{
    Ok(ManifestFault::Differ {
        name: String::from_str(alloc, name.as_str())?,
        first: first.copy()?,
        at: at.copy()?,
    })
}

impl KeptFragments {
    /// No fragments.
    pub fn new(alloc: Global) -> KeptFragments
        ensures { result ≡ [] }
    {
        KeptFragments {
            fragments: IndexMap::new(alloc),
        }
    }

    /// How many there are.
    pub fn len(&self) -> usize
        ensures { result ≡ length self.now }
    {
        self.fragments.len()
    }

    /// Adds a fragment of an operation's text, unless one of its name and with the same tokens is
    /// kept.
    pub fn add(
        &mut self,
        alloc: Global,
        at: &Origin,
        name: &Text,
        bytes: &[u8],
        tokens: String,
    ) -> Result<(), ManifestFault>
        ensures ok { OnOk result (IsAdded self.old self.new
            (fragment_from name.now (string_bytes tokens) bytes.now (place_of at.now))) }
        ensures err { IfErr result (IsAddFault self.old
            (fragment_from name.now (string_bytes tokens) bytes.now (place_of at.now))) }
        ensures unchanged { OnErr result (self.new ≡ self.old) }
    {
        if let Some(kept) = self.fragments.get(name) {
            if kept.tokens == tokens {
                return Ok(());
            }
            return Err(differ(alloc, name, &kept.first, at)?);
        }
        let fragment = KeptFragment {
            tokens,
            bytes: with_line_break(alloc, bytes)?,
            first: at.copy()?,
        };
        self.fragments.insert(name.copy()?, fragment)?;
        Ok(())
    }

    /// The texts of files that have all fragments, in their order: as few as hold them in this many
    /// bytes each.
    pub fn texts(&self, alloc: Global, most: usize) -> Result<Vec<Vec<u8>>, AllocError>
        ensures { IfOk result
            (λ texts. IsPacked most (bytes_of self.now) (texts_of texts.items)) }
    {
        let mut pieces = Vec::new(alloc);
        for (_name, fragment) in self.fragments.iter() {
            pieces.push(fragment.bytes.as_slice())?;
        }
        packed(alloc, pieces.as_slice(), most)
    }
}
