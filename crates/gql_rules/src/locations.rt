//! Where directives may be applied (GraphQL specification, 3.13).
ghost use Rattle.std.specs.Prelude.{◌≡◌};
ghost use Rattle.std.specs.List.{list_any};
ghost use Rattle.gql_rules.specs.Locations as spec;

use gql_ast::{DirectiveLocation, OperationKind};

/// The location of an operation's directives.
pub fn location_of(kind: OperationKind) -> DirectiveLocation
    ensures { result ≡ spec.location_of kind }
{
    match kind {
        OperationKind::Query => DirectiveLocation::Query,
        OperationKind::Mutation => DirectiveLocation::Mutation,
        OperationKind::Subscription => DirectiveLocation::Subscription,
    }
}

#[tactic(auto, unfolding(crate::specs::Locations::same_location))]
fn is_same(location: DirectiveLocation, other: DirectiveLocation) -> bool
    ensures { result ≡ spec.same_location location other }
{
    location == other
}

/// Whether the location is among these.
pub fn is_among(location: DirectiveLocation, locations: &[DirectiveLocation]) -> bool
    ensures { result ≡ list_any (spec.same_location location) locations.now }
{
    locations.iter().any(|other| is_same(location, *other))
}
