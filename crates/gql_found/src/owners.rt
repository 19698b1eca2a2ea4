//! The definitions that own faults.

ghost use Rattle.std.specs.Prelude.{◌≡◌, ◌↔◌, [], true, IfOk, OnOk, IsTrue, cond};
ghost use Rattle.gql_ast.specs.declared.definition.Definition.{Definition as ADefinition};
ghost use Rattle.gql_found.specs.Owners.{is_owned_by};
ghost use Rattle.gql_found.specs.Steps.{AreOwners, owns, is_marked};

use gql_ast::{Definition, Fault, FileName, Shared};
use std::alloc::{AllocError, Global};
use std::collections::BTreeSet;

/// The definitions that own faults, each by its file and its offset there.
#[derive(Drop)]
pub struct Owners {
    marks: BTreeSet<(FileName, usize)>,
}

/// Adds the owner of a fault, if it has one.
fn add_owner(marks: &mut BTreeSet<(FileName, usize)>, fault: &Fault) -> Result<(), AllocError>
    ensures { OnOk result ((d : ADefinition) → is_marked marks.new d
        ≡ cond (is_owned_by d fault.now) true (is_marked marks.old d)) }
{
    if let Some(owner) = &fault.owner {
        marks.insert((owner.file.copy()?, owner.place.offset))?;
    }
    Ok(())
}

impl Owners {
    ghost use Rattle.std.specs.Prelude.{◌≡◌, ◌↔◌, [], IfOk, IsTrue};
    ghost use Rattle.gql_found.specs.Steps.{AreOwners, owns};

    /// The definitions that own these faults.
    pub fn new(alloc: Global, faults: &[Shared<Fault>]) -> Result<Owners, AllocError>
        ensures { IfOk result (AreOwners faults.now) }
    {
        let mut marks = BTreeSet::new(alloc);
        for fault in faults {
            add_owner(&mut marks, fault.get())?;
        }
        Ok(Owners { marks })
    }

    /// Whether there are none.
    pub fn is_empty(&self) -> bool
        ensures { IsTrue result ↔ (self.now.marks.keys ≡ []) }
    {
        self.marks.is_empty()
    }

    /// Whether a definition is one of them.
    pub fn has(&self, definition: &Definition) -> Result<bool, AllocError>
        ensures { IfOk result (λ has. has ≡ owns self.now definition.now) }
    {
        let mark = (definition.file.copy()?, definition.tree.place().offset);
        Ok(self.marks.contains(&mark))
    }
}
