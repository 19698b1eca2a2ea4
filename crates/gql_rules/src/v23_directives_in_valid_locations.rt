//! V23, Directives Are in Valid Locations: a directive does not list the location.
//! <https://spec.graphql.org/October2021/#sec-Directives-Are-In-Valid-Locations>
//!
//! At fault: `query A @skip(if: true) { dog { name } }`
//! No fault: `query A { dog @skip(if: true) { name } }`
ghost use Rattle.std.specs.Prelude.{◌≡◌, ◌++◌, OnOk};
ghost use Rattle.std.specs.Option.{option_copied};
ghost use Rattle.gql_rules.specs.V23DirectivesInValidLocations as spec;

use crate::faults::add_fault;
use crate::locations::is_among;
use gql_ast::{Directive, DirectiveLocation, Fault, FilePlace, Rule};
use gql_facts::DirectiveFact;
use std::alloc::{AllocError, Global};

/// Adds the fault of a directive at a location, if it is known and does not list that location.
pub fn check(
    alloc: Global,
    owner: &FilePlace,
    location: DirectiveLocation,
    directive: &Directive,
    known: Option<&DirectiveFact>,
    faults: &mut Vec<Fault>,
) -> Result<(), AllocError>
    ensures { OnOk result (faults.new.items ≡ faults.old.items
        ++ spec.faults owner.now location directive.now (option_copied known.entry)) }
{
    let Some(known) = known else {
        return Ok(());
    };
    if !is_among(location, known.locations.as_slice()) {
        let about = &directive.name.text;
        add_fault(alloc, owner, Rule::V23, about, directive.place, faults)?;
    }
    Ok(())
}
