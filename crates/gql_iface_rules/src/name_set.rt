//! A list of names with look-up.
ghost use Rattle.std.specs.Prelude.{◌≡◌, ◌||◌, ℕ, List, IfOk, OnOk, is_some, bytes_eq};
ghost use Rattle.std.specs.HashMap as hash;
ghost use Rattle.gql_types.specs.Covariance.{is_among};

use gql_ast::Name;
use gql_built_in::Sited;
use std::alloc::{AllocError, Global};
use std::collections::HashMap;
use std::marker::Model;

/// How many names are compared one by one at most. Of more, a map keeps them.
const FEW: usize = 16;

/// A list of names with look-up. Contracts see the list.
#[derive(Drop)]
pub struct NameSet<'s> {
    names: &'s [Sited<Name>],
    /// The names; none for few.
    set: Option<HashMap<&'s str, ()>>,
}

impl<'s> Model for NameSet<'s> {
    ghost use Rattle.std.specs.Prelude.{◌≡◌, ℕ, List, IfSome, is_some, bytes_eq};
    ghost use Rattle.std.specs.HashMap as hash;
    ghost use Rattle.gql_ast.specs.declared.text.Name.{Name as TheName};
    ghost use Rattle.gql_built_in.specs.declared.sited.Sited.{Sited as TheSited};
    ghost use Rattle.gql_types.specs.Covariance.{is_among};

    ghost Value = { List (TheSited TheName) };

    ghost view = { λ d. d.names.now };

    ghost invariant = { λ d. (q : List ℕ) → IfSome d.set
        (λ set. is_some (hash.get_by (λ k. bytes_eq q k.now) set) ≡ is_among q d.names.now) };
}

/// The texts of these names.
fn set_of<'s>(alloc: Global, names: &'s [Sited<Name>]) -> Result<HashMap<&'s str, ()>, AllocError>
    ensures { IfOk result
        (λ set. (q : List ℕ) → is_some (hash.get_by (λ k. bytes_eq q k.now) set)
        ≡ is_among q names.now) }
{
    let mut set = HashMap::new(alloc);
    for name in names {
        set.insert(name.node.as_str(), ())?;
    }
    Ok(set)
}

/// Whether a name is one of these, each compared.
fn is_listed(names: &[Sited<Name>], name: &str) -> bool
    ensures { result ≡ is_among name.now names.now }
{
    names.iter().any(|one| name == one.node.as_str())
}

impl<'s> NameSet<'s> {
    /// The names of this list.
    pub fn new(alloc: Global, names: &'s [Sited<Name>]) -> Result<NameSet<'s>, AllocError>
        ensures { IfOk result (λ set. set ≡ names.now) }
    {
        if names.len() <= FEW {
            return Ok(NameSet { names, set: None });
        }
        let set = set_of(alloc, names)?;
        Ok(NameSet {
            names,
            set: Some(set),
        })
    }

    /// Whether a name is one of these.
    pub fn has(&self, name: &str) -> bool
        ensures { result ≡ is_among name.now self.now }
    {
        match &self.set {
            Some(set) => set.contains_key(name),
            None => is_listed(self.names, name),
        }
    }
}
