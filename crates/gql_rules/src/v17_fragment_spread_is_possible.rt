//! V17, Fragment Spread Is Possible: no object is possible for both condition and parent.
//! <https://spec.graphql.org/October2021/#sec-Fragment-spread-is-possible>
//!
//! At fault: `{ dog { ... on Cat { lives } } }`
//! No fault: `{ pet { ... on Cat { lives } } }`
ghost use Rattle.std.specs.Prelude.{◌≡◌, ◌++◌, OnOk};
ghost use Rattle.std.specs.Option.{option_copied};
ghost use Rattle.gql_rules.specs.V17FragmentSpreadIsPossible as spec;

use crate::faults::add_fault;
use gql_ast::{Fault, FilePlace, Rule, Text};
use gql_text::Place;
use gql_types::Named;
use std::alloc::{AllocError, Global};

fn is_among(names: &Named<Text>, name: &Text) -> bool
    ensures { result ≡ spec.is_among names.now name.now }
{
    names.get(name.as_str()).is_some()
}

/// Whether some name is among both.
fn share_one(these: &Named<Text>, those: &Named<Text>) -> bool
    ensures { result ≡ spec.share_one these.now those.now }
{
    those.as_slice().iter().any(|name| is_among(these, name))
}

/// Adds the fault of a type condition at a place, by its possible types and those of the parent
/// type, if both are known.
pub fn check(
    alloc: Global,
    owner: &FilePlace,
    condition: &Text,
    place: Place,
    possible: Option<&Named<Text>>,
    around: Option<&Named<Text>>,
    faults: &mut Vec<Fault>,
) -> Result<(), AllocError>
    ensures { OnOk result (faults.new.items ≡ faults.old.items
        ++ spec.faults_by owner.now condition.now place (option_copied possible.entry)
        (option_copied around.entry)) }
{
    let Some(these) = possible else {
        return Ok(());
    };
    let Some(those) = around else {
        return Ok(());
    };
    if !share_one(these, those) {
        add_fault(alloc, owner, Rule::V17, condition, place, faults)?;
    }
    Ok(())
}
