//! Fragments that are known to be clean: where their selections are merged, nothing clashes.
ghost use Rattle.std.specs.Prelude.{◌≡◌, ℕ, [], List, OnOk, Contains, map, true};
ghost use Rattle.gql_merge.specs.Light as spec;
ghost use Rattle.gql_merge.specs.declared.flat.FlatSet.{FlatSet as AFlatSet};

use crate::flat::FlatSet;
use gql_ast::Text;
use indexmap::IndexSet;
use std::alloc::{AllocError, Global};
use std::marker::Model;

/// The names of fragments that are known to be clean, while a world answers the same. Contracts see
/// the list of them.
pub struct CleanFragments {
    names: IndexSet<Text>,
}

impl Drop for CleanFragments {
    fn drop(self) {
        let CleanFragments { names: _ } = self;
    }
}

impl Model for CleanFragments {
    ghost use Rattle.std.specs.Coded.{codes};
    ghost use Rattle.std.specs.Prelude.{List, ℕ};

    ghost Value = { List (List ℕ) };

    ghost coded = { Prim.hlevel codes };

    ghost view = { λ c. c.names.keys };
}

impl CleanFragments {
    /// No fragment is known to be clean.
    pub fn new(alloc: Global) -> CleanFragments
        ensures { result ≡ [] }
    {
        CleanFragments {
            names: IndexSet::new(alloc),
        }
    }

    /// Whether the fragment of this name is known to be clean.
    pub fn has(&self, name: &Text) -> bool
        ensures yes { result ≡ true → Contains self.now name.now }
        ensures no { Contains self.now name.now → result ≡ true }
    {
        self.names.contains(name)
    }

    /// Adds the name of a clean fragment.
    pub(crate) fn add(&mut self, name: &Text) -> Result<(), AllocError>
        ensures added { spec.MayAdd (λ n. n ≡ name.now) self.old self.new }
        ensures here { OnOk result (Contains self.new name.now) }
    {
        if !self.has(name) {
            self.names.insert(name.copy()?)?;
        }
        Ok(())
    }
}

/// Whether a set has no fields, and spreads no fragment or one that is clean.
fn is_light(clean: &CleanFragments, set: &FlatSet<'_>) -> bool
    ensures { result ≡ true → spec.IsLight clean.now set.now }
{
    if !set.fields.is_empty() {
        return false;
    }
    match set.names.as_slice() {
        [] => true,
        [name] => clean.has(name),
        _ => false,
    }
}

/// Whether all these sets have no fields, and spread no fragment or one that is clean.
pub fn are_light(clean: &CleanFragments, sets: &[FlatSet<'_>]) -> bool
    ensures { result ≡ true → (s : AFlatSet) → Contains sets.now s
        → spec.IsLight clean.now s }
{
    for set in sets {
        if !is_light(clean, set) {
            return false;
        }
    }
    true
}

/// Whether all these names are those of clean fragments.
fn has_names(clean: &CleanFragments, names: &[&Text]) -> bool
    ensures { result ≡ true → (n : List ℕ) → Contains (map (λ n. n.now) names.now) n
        → Contains clean.now n }
{
    for name in names {
        if !clean.has(name) {
            return false;
        }
    }
    true
}

/// Whether all fragments that these sets spread are known to be clean.
pub fn are_settled(clean: &CleanFragments, sets: &[FlatSet<'_>]) -> bool
    ensures { result ≡ true → (s : AFlatSet) → Contains sets.now s
        → spec.IsSettled clean.now s }
{
    for set in sets {
        if !has_names(clean, set.names.as_slice()) {
            return false;
        }
    }
    true
}
