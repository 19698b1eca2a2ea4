//! The locations that a directive lists (GraphQL 3.13).
ghost use Rattle.std.specs.Prelude.{◌≡◌, ◌||◌, IfOk, OnOk};
ghost use Rattle.gql_ast.specs.declared.type_system.DirectiveLocation.{DirectiveLocation as TheLocation};
ghost use Rattle.gql_node_rules.specs.Applied as spec;

use gql_ast::DirectiveLocation;
use std::alloc::{AllocError, Global};

#[tactic(auto, unfolding(crate::specs::Applied::same_location))]
fn is_same(location: DirectiveLocation, other: DirectiveLocation) -> bool
    ensures { result ≡ spec.same_location location other }
{
    location == other
}

/// Whether the location is among these.
pub fn is_listed(location: DirectiveLocation, locations: &[DirectiveLocation]) -> bool
    ensures { result ≡ spec.is_listed location locations.now }
{
    locations.iter().any(|other| is_same(location, *other))
}

fn add_location(
    location: DirectiveLocation,
    found: &mut Vec<DirectiveLocation>,
) -> Result<(), AllocError>
    ensures { OnOk result ((l : TheLocation) → spec.is_listed l found.new.items
        ≡ (spec.is_listed l found.old.items || spec.same_location l location)) }
{
    if !is_listed(location, found.as_slice()) {
        found.push(location)?;
    }
    Ok(())
}

/// These locations, each once.
pub fn distinct(
    alloc: Global,
    locations: &[DirectiveLocation],
) -> Result<Vec<DirectiveLocation>, AllocError>
    ensures { IfOk result (λ found. (l : TheLocation)
        → spec.is_listed l found.items ≡ spec.is_listed l locations.now) }
{
    let mut found = Vec::new(alloc);
    for location in locations {
        add_location(*location, &mut found)?;
    }
    Ok(found)
}
