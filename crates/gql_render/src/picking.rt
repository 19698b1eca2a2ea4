//! Parts of a list, by their places in it.

ghost use Rattle.std.specs.Prelude.{◌≡◌, ◌++◌, map, IfOk, OnOk};
ghost use Rattle.std.specs.Option.{option_copied};
ghost use Rattle.gql_render.specs.Picking.{listed, picked};

use std::alloc::{AllocError, Global};

/// Adds an item, if there is one.
fn push_some<'x, X>(found: &mut Vec<&'x X>, item: Option<&'x X>) -> Result<(), AllocError>
    ensures { OnOk result (map (λ x. x.now) found.new.items
        ≡ map (λ x. x.now) found.old.items ++ listed (option_copied item.entry)) }
{
    if let Some(item) = item {
        found.push(item)?;
    }
    Ok(())
}

/// The items at these places. A place past the end has none.
pub fn picked<'x, X>(
    alloc: Global,
    items: &'x [X],
    places: &[usize],
) -> Result<Vec<&'x X>, AllocError>
    ensures { IfOk result (λ found. map (λ x. x.now) found.items ≡ picked items.now places.now) }
{
    let mut found = Vec::new(alloc);
    for place in places {
        push_some(&mut found, items.get(*place))?;
    }
    Ok(found)
}

/// All items.
pub fn every<'x, X>(alloc: Global, items: &'x [X]) -> Result<Vec<&'x X>, AllocError>
    ensures { IfOk result (λ found. map (λ x. x.now) found.items ≡ items.now) }
{
    let mut found = Vec::new(alloc);
    for item in items {
        found.push(item)?;
    }
    Ok(found)
}
