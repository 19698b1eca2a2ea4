//! The faults of the arguments of a field or a directive.
ghost use Rattle.std.specs.Prelude.{◌≡◌, ◌++◌, OnOk};
ghost use Rattle.std.specs.Option.{option_copied};
ghost use Rattle.gql_rules.specs.LocalFaults as spec;

use crate::{v08_argument_names, v09_argument_uniqueness, v10_required_arguments};
use gql_ast::{Argument, Fault, FilePlace};
use gql_facts::InputFact;
use gql_text::Place;
use gql_types::DefinedInputs;
use std::alloc::{AllocError, Global};

/// Adds the faults of the arguments `given` to a field or a directive at this place. It defines the
/// arguments `known`, if it is known.
pub fn check(
    alloc: Global,
    owner: &FilePlace,
    at: Place,
    known: Option<&DefinedInputs<InputFact>>,
    given: &[Argument],
    faults: &mut Vec<Fault>,
) -> Result<(), AllocError>
    ensures { OnOk result (faults.new.items ≡ faults.old.items
        ++ spec.argument_faults owner.now at (option_copied known.entry) given.now) }
{
    v08_argument_names::check(alloc, owner, known, given, faults)?;
    v09_argument_uniqueness::check(alloc, owner, given, faults)?;
    v10_required_arguments::check(alloc, owner, at, known, given, faults)?;
    Ok(())
}
