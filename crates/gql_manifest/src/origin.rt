//! Where a definition of a manifest comes from.

ghost use Rattle.std.specs.Prelude.{◌≡◌, IfOk, string_bytes};
ghost use Rattle.gql_manifest.specs.Origins.{origin_text, place_of};

use crate::texts::text_from;
use std::alloc::{AllocError, Global};

/// An operation of a manifest: the path of the manifest, and the operation's id there.
#[derive(Debug, Drop)]
pub struct Origin {
    pub path: String,
    pub id: String,
}

impl Origin {
    /// The operation of this id in the manifest at this path.
    pub fn new(alloc: Global, path: &str, id: &str) -> Result<Origin, AllocError>
        ensures { IfOk result (λ o. place_of o ≡ (path.now, id.now)) }
    {
        Ok(Origin {
            path: String::from_str(alloc, path)?,
            id: String::from_str(alloc, id)?,
        })
    }

    /// An equal origin.
    pub fn copy(&self) -> Result<Origin, AllocError>
        ensures { IfOk result (λ o. place_of o ≡ place_of self.now) }
    {
        Ok(Origin {
            path: self.path.clone()?,
            id: self.id.clone()?,
        })
    }

    /// The origin in words, as `operation 7 of web.json`.
    pub fn text(&self, alloc: Global) -> Result<String, AllocError>
        ensures { IfOk result (λ text. string_bytes text ≡ origin_text (place_of self.now)) }
    {
        let (path, id) = (self.path.as_str(), self.id.as_str());
        text_from(alloc, &["operation ", id, " of ", path])
    }
}
