//! Lists of definitions in file order.
ghost use Rattle.std.specs.Prelude.{◌≡◌, ◌++◌, [], IfOk, IsTrue, OnOk};
ghost use Rattle.gql_readers.specs.Merged.{above, below, edited, itself, one_if};
ghost use Rattle.gql_readers.specs.Orders as orders;
ghost use Rattle.gql_readers.specs.Orders.{AreInOrder};

use crate::orders::id_order;
use gql_ast::{DefinitionId, Shared};
use std::alloc::{AllocError, Global};

/// Whether two names are of one definition.
pub fn is_same(id: &DefinitionId, other: &DefinitionId) -> bool
    ensures { result ≡ orders.is_id id.now other.now }
{
    id.offset == other.offset && id.file == other.file
}

/// Whether two lists are of the same definitions.
pub fn are_same(ids: &[Shared<DefinitionId>], others: &[Shared<DefinitionId>]) -> bool
    ensures { IsTrue result → ids.now ≡ others.now }
{
    if ids.len() != others.len() {
        return false;
    }
    for i in 0..ids.len() {
        if !is_same(ids[i].get(), others[i].get()) {
            return false;
        }
    }
    true
}

/// Adds handles on names.
pub fn add_handles(
    ids: &[Shared<DefinitionId>],
    all: &mut Vec<Shared<DefinitionId>>,
) -> Result<(), AllocError>
    ensures { OnOk result (all.new.items ≡ all.old.items ++ ids.now) }
{
    for id in ids {
        all.push(id.clone()?)?;
    }
    Ok(())
}

/// The definitions before one, and those after it.
fn split<'i>(
    ids: &'i [Shared<DefinitionId>],
    id: &DefinitionId,
) -> (&'i [Shared<DefinitionId>], &'i [Shared<DefinitionId>])
    requires { AreInOrder ids.now }
    ensures before { result.0.now ≡ below orders.id_order itself id.now ids.now }
    ensures after { result.1.now ≡ above orders.id_order itself id.now ids.now }
{
    let found = ids.binary_search_by(|other| id_order(other.get(), id));
    match found {
        Ok(place) => (&ids[..place], &ids[place + 1..]),
        Err(place) => (&ids[..place], &ids[place..]),
    }
}

/// Adds a definition, if it comes.
fn add_if(
    comes: bool,
    id: &Shared<DefinitionId>,
    all: &mut Vec<Shared<DefinitionId>>,
) -> Result<(), AllocError>
    ensures { OnOk result (all.new.items ≡ all.old.items ++ one_if comes [] id.now) }
{
    if comes {
        all.push(id.clone()?)?;
    }
    Ok(())
}

/// How many definitions there are after a change, where each that comes is new, and each that goes
/// was there.
fn room(count: usize, changed: usize, comes: bool) -> usize {
    if !comes {
        return count.saturating_sub(changed);
    }
    count.saturating_add(changed)
}

/// The definitions, with those that change: all of these come, or all of them go.
pub fn edit(
    alloc: Global,
    ids: &[Shared<DefinitionId>],
    changed: &[Shared<DefinitionId>],
    comes: bool,
) -> Result<Vec<Shared<DefinitionId>>, AllocError>
    requires { AreInOrder ids.now }
    ensures { IfOk result (λ all. all.items ≡ edited comes ids.now changed.now) }
{
    let mut all = Vec::with_capacity(alloc, room(ids.len(), changed.len(), comes))?;
    let mut rest = ids;
    for id in changed {
        let (before, after) = split(rest, id.get());
        add_handles(before, &mut all)?;
        add_if(comes, id, &mut all)?;
        rest = after;
    }
    add_handles(rest, &mut all)?;
    Ok(all)
}
