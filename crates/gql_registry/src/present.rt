//! What is present in a registry: its profile, its files, the verdicts and the report.
ghost use Rattle.std.specs.Prelude.{◌≡◌, ◌↔◌, IfOk, IsTrue};
ghost use Rattle.gql_registry.specs.FilesFacts.{AreFilesFacts};
ghost use Rattle.gql_registry.specs.Keeping.{ArePairsOf, IsShelfOf};
ghost use Rattle.gql_registry.specs.Report as spec;
ghost use Rattle.gql_registry.specs.State.{pairs_of, profile_of, shelf_of, state_of};

use crate::facts::FilesFacts;
use crate::registry::Registry;
use crate::report::copies;
use gql_ast::{Fault, Files, Profile, Shared};
use gql_verdict::Shelf;
use std::alloc::AllocError;

impl Registry {
    ghost use Rattle.std.specs.Prelude.{◌≡◌, ◌↔◌, IfOk, IsTrue};
    ghost use Rattle.gql_registry.specs.FilesFacts.{AreFilesFacts};
    ghost use Rattle.gql_registry.specs.Keeping.{ArePairsOf, IsShelfOf};
    ghost use Rattle.gql_registry.specs.Report as spec;
    ghost use Rattle.gql_registry.specs.State.{pairs_of, profile_of, shelf_of, state_of};

    /// What is served, and how much is taken.
    pub fn profile(&self) -> Profile
        ensures { result ≡ profile_of (state_of self.now) }
    {
        self.kept.files().profile
    }

    /// How many edits were accepted.
    pub fn revision(&self) -> u64
        ensures { result ≡ (state_of self.now).revision }
    {
        self.revision
    }

    /// The files that are present.
    pub fn files(&self) -> &Files
        ensures { result.now ≡ (state_of self.now).files }
    {
        self.kept.files()
    }

    /// The verdicts, one for each definition of the document files that are present, and what is
    /// kept of pairs of fragments. Each verdict holds, and so does each entry for two fragments.
    pub fn shelf(&self) -> &Shelf
        ensures shelf { result.now.verdicts ≡ shelf_of self.now }
        ensures current { IsShelfOf (state_of self.now).files (shelf_of self.now) }
        ensures pairs { result.now.pairs ≡ pairs_of self.now }
        ensures hold { ArePairsOf (state_of self.now).files (pairs_of self.now) }
    {
        self.kept.shelf()
    }

    /// The faults of the files that are present: all of them and no others, each once, by first
    /// place (none first), rule, second place, owner and text. If the schema has faults, these
    /// alone are reported.
    pub fn report(&self) -> Result<Vec<Fault>, AllocError>
        ensures { IfOk result (λ faults. spec.IsReport (state_of self.now).files faults.items) }
    {
        let report = self.kept.report(self.alloc)?;
        let copied = copies(self.alloc, report.as_slice())?;
        Ok(copied)
    }

    /// The same report as `report` returns, which shares its faults with the registry: none is
    /// copied.
    pub fn shared_report(&self) -> Result<Vec<Shared<Fault>>, AllocError>
        ensures { IfOk result (λ faults. spec.IsReport (state_of self.now).files faults.items) }
    {
        self.kept.report(self.alloc)
    }

    /// What the rules may ask of the files that are present: the facts of their schema, and their
    /// fragments. They are shared with the registry: none is copied.
    pub fn facts(&self) -> Result<FilesFacts, AllocError>
        ensures { IfOk result (AreFilesFacts (state_of self.now).files) }
    {
        self.kept.facts()
    }

    /// Whether the schema of the files that are present has no faults.
    pub fn is_sound(&self) -> bool
        ensures { IsTrue result ↔ spec.IsSound (state_of self.now).files }
    {
        self.kept.is_sound()
    }
}
