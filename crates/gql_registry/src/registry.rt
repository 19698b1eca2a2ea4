//! The registry, and which revision an edit makes.
use crate::kept::Kept;
use crate::refusal::Refusal;
use gql_ast::Profile;
use gql_stored::StoredData;
use serde_json::{Map, Value};
use std::alloc::{AllocError, Global};

/// The answer to an accepted edit: the new revision, and how many faults the report has now.
#[derive(Clone, Copy, Debug, PartialEq, Eq)]
pub struct Edited {
    pub revision: u64,
    pub faults: u64,
}

/// The files that services and clients have put, a verdict on each definition of the document
/// files, the data that operations are executed on, and how many edits were accepted.
pub struct Registry {
    pub(crate) alloc: Global,
    pub(crate) kept: Kept,
    pub(crate) stored: StoredData,
    pub(crate) revision: u64,
}

impl Drop for Registry {
    fn drop(self) {
        let Registry {
            alloc: _,
            kept: _,
            stored: _,
            revision: _,
        } = self;
    }
}

impl Registry {
    ghost use Rattle.std.specs.Prelude.{◌≡◌, ◌+◌, [], IfErr, IfOk};
    ghost use Rattle.gql_registry.specs.Edits.{IsFirstStop, IsInTime};
    ghost use Rattle.gql_registry.specs.State.{empty, empty_in, pairs_of, shelf_of, state_of};

    /// A registry without files and with data that has no members, at revision 0, under the profile
    /// `Profile::whole_numbers()`.
    pub fn new(alloc: Global) -> Result<Registry, AllocError>
        ensures state { IfOk result (λ r. state_of r ≡ empty) }
        ensures shelf { IfOk result (λ r. shelf_of r ≡ []) }
        ensures pairs { IfOk result (λ r. pairs_of r ≡ []) }
    {
        Registry::with(alloc, Profile::whole_numbers())
    }

    /// The same under this profile. It stays the profile of the registry.
    pub fn with(alloc: Global, profile: Profile) -> Result<Registry, AllocError>
        ensures state { IfOk result (λ r. state_of r ≡ empty_in profile) }
        ensures shelf { IfOk result (λ r. shelf_of r ≡ []) }
        ensures pairs { IfOk result (λ r. pairs_of r ≡ []) }
    {
        let kept = Kept::of(alloc, profile)?;
        Ok(Registry {
            alloc,
            kept,
            stored: StoredData::new(Value::Object(Map::new(alloc))),
            revision: 0,
        })
    }

    /// The revision after the present one, for an edit that expects this revision. The refusals are
    /// 206 and 212.
    pub fn next_revision(&self, expected: Option<u64>) -> Result<u64, Refusal>
        ensures next { IfOk result (λ n. n ≡ (state_of self.now).revision + 1) }
        ensures time { IfOk result (λ _. IsInTime (state_of self.now) expected) }
        ensures err { IfErr result (IsFirstStop (state_of self.now) expected) }
    {
        if let Some(revision) = expected {
            if revision != self.revision {
                return Err(Refusal::Stale {
                    revision: self.revision,
                });
            }
        }
        match self.revision.checked_add(1) {
            Some(next) => Ok(next),
            None => Err(Refusal::Spent),
        }
    }
}
