//! Faults: which rule is broken, where, and about which text.

ghost use Rattle.std.specs.Prelude.{◌≡◌, IfOk};

use crate::file_name::FileName;
use crate::rule::Rule;
use crate::text::Text;
use gql_text::Place;
use sqlite_items::Items;
use std::alloc::{AllocError, Global};

/// Which kind of file a place is in.
#[derive(Clone, Copy, Debug, PartialEq, Eq)]
pub enum FileSide {
    Schema,
    Documents,
}

/// A place in a file.
#[derive(Debug, Drop)]
pub struct FilePlace {
    pub side: FileSide,
    pub file: FileName,
    pub place: Place,
}

impl FilePlace {
    /// An equal place.
    pub fn copy(&self) -> Result<FilePlace, AllocError>
        ensures { IfOk result (λ place. place ≡ self.now) }
    {
        Ok(FilePlace {
            side: self.side,
            file: self.file.copy()?,
            place: self.place,
        })
    }
}

/// A fault: the rule that is broken, the text that it is about, its places (none, one or two), and
/// the definition that owns it. A fault of the schema has no owner.
#[derive(Debug)]
pub struct Fault {
    pub rule: Rule,
    pub about: Text,
    pub places: Items<FilePlace>,
    pub owner: Option<FilePlace>,
}

impl Drop for Fault {
    fn drop(self) {
        let Fault {
            rule: _,
            about: _,
            places: _,
            owner: _,
        } = self;
    }
}

fn copy_owner(owner: &Option<FilePlace>) -> Result<Option<FilePlace>, AllocError>
    ensures { IfOk result (λ copy. copy ≡ owner.now) }
{
    match owner {
        Some(owner) => Ok(Some(owner.copy()?)),
        None => Ok(None),
    }
}

fn copy_places(alloc: Global, places: &[FilePlace]) -> Result<Items<FilePlace>, AllocError>
    ensures { IfOk result (λ copies. copies ≡ places.now) }
{
    let mut copies = Items::new(alloc);
    for place in places {
        copies.push(place.copy()?)?;
    }
    Ok(copies)
}

impl Fault {
    /// An equal fault.
    pub fn copy(&self, alloc: Global) -> Result<Fault, AllocError>
        ensures { IfOk result (λ fault. fault ≡ self.now) }
    {
        Ok(Fault {
            rule: self.rule,
            about: self.about.copy()?,
            places: copy_places(alloc, self.places.as_slice())?,
            owner: copy_owner(&self.owner)?,
        })
    }
}
