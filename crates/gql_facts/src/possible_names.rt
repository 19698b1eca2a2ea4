//! The names of the possible types of a type (GraphQL specification, 3.7 and 3.8).
ghost use Rattle.std.specs.Prelude.{◌≡◌, ◌↔◌, ◌∷◌, [], IfOk, IsTrue};
ghost use Rattle.std.specs.Option.{option_copied};
ghost use Rattle.gql_facts.specs.Singles.{single};

use gql_ast::{Same, Shared, Text, same_items};
use gql_types::Named;
use std::alloc::{AllocError, Global};
use std::marker::Model;
use std::slice;

/// The names of the possible types of a type, which contracts see as the list of them. A name alone,
/// as that of an object, which stands for itself, is held in place, too: most types are objects, and
/// each edit of a schema file compares the names of all.
pub struct PossibleNames {
    names: Shared<Named<Text>>,
    /// The name, if there is one only.
    only: Option<Text>,
}

impl Drop for PossibleNames {
    fn drop(self) {
        let PossibleNames { names: _, only: _ } = self;
    }
}

impl Model for PossibleNames {
    ghost use Rattle.std.specs.Prelude.{◌≡◌, ℕ, List};
    ghost use Rattle.std.specs.Coded.{codes};
    ghost use Rattle.gql_facts.specs.Singles.{single};

    ghost Value = { List (List ℕ) };

    ghost coded = { Prim.hlevel codes };

    ghost view = { λ p. p.names };

    ghost invariant = { λ p. p.only ≡ single p.names };
}

fn copied_names(alloc: Global, names: &[Text]) -> Result<Named<Text>, AllocError>
    ensures { IfOk result (λ copies. copies ≡ names.now) }
{
    let mut copies = Vec::with_capacity(alloc, names.len())?;
    for name in names {
        copies.push(name.copy()?)?;
    }
    Named::new(alloc, copies)
}

/// The name, if there is one only.
fn only_of(names: &[Text]) -> Result<Option<Text>, AllocError>
    ensures { IfOk result (λ only. only ≡ single names.now) }
{
    match names {
        [name] => Ok(Some(name.copy()?)),
        _ => Ok(None),
    }
}

/// Whether this is the only one of these names.
fn is_only(only: &Text, names: &[Text]) -> bool
    ensures { IsTrue result ↔ (only.now ∷ [] ≡ names.now) }
{
    match names {
        [name] => only.same(name),
        _ => false,
    }
}

impl PossibleNames {
    /// These names.
    pub fn new(alloc: Global, names: &[Text]) -> Result<PossibleNames, AllocError>
        ensures { IfOk result (λ possible. possible ≡ names.now) }
    {
        let only = only_of(names)?;
        let names = copied_names(alloc, names)?;
        let names = Shared::new(alloc, names)?;
        Ok(PossibleNames { names, only })
    }

    /// The names, which are shared.
    pub fn shared(&self) -> Result<Shared<Named<Text>>, AllocError>
        ensures { IfOk result (λ names. names ≡ self.now) }
    {
        self.names.clone()
    }

    /// Whether the names are these.
    pub fn are(&self, names: &[Text]) -> bool
        ensures { IsTrue result ↔ (self.now ≡ names.now) }
    {
        match &self.only {
            Some(only) => is_only(only, names),
            None => same_items(self.names.get().as_slice(), names),
        }
    }
}

impl Same for PossibleNames {
    fn same(&self, other: &PossibleNames) -> bool {
        match &other.only {
            Some(only) => self.are(slice::from_ref(only)),
            None => self.are(other.names.get().as_slice()),
        }
    }
}
