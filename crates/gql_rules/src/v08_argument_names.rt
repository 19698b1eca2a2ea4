//! V08, Argument Names: an argument of a field or a directive is not defined.
//! <https://spec.graphql.org/October2021/#sec-Argument-Names>
//!
//! At fault: `{ dog { barks(times: 1, loud: true) } }`
//! No fault: `{ dog { barks(times: 1) } }`
ghost use Rattle.std.specs.Prelude.{◌≡◌, ◌++◌, OnOk, flat_map};
ghost use Rattle.std.specs.Option.{option_copied};
ghost use Rattle.gql_rules.specs.V08ArgumentNames as spec;

use crate::faults::add_fault_of;
use gql_ast::{Argument, Fault, FilePlace, Rule};
use gql_facts::InputFact;
use gql_types::DefinedInputs;
use std::alloc::{AllocError, Global};

fn check_argument(
    alloc: Global,
    owner: &FilePlace,
    defined: &DefinedInputs<InputFact>,
    argument: &Argument,
    faults: &mut Vec<Fault>,
) -> Result<(), AllocError>
    ensures { OnOk result (faults.new.items ≡ faults.old.items
        ++ spec.fault_of_argument owner.now defined.now argument.now) }
{
    if defined.get(argument.name.as_str()).is_none() {
        add_fault_of(alloc, owner, Rule::V08, &argument.name, faults)?;
    }
    Ok(())
}

fn check_all(
    alloc: Global,
    owner: &FilePlace,
    defined: &DefinedInputs<InputFact>,
    given: &[Argument],
    faults: &mut Vec<Fault>,
) -> Result<(), AllocError>
    ensures { OnOk result (faults.new.items ≡ faults.old.items
        ++ flat_map (spec.fault_of_argument owner.now defined.now) given.now) }
{
    for argument in given {
        check_argument(alloc, owner, defined, argument, faults)?;
    }
    Ok(())
}

/// Adds the faults of the arguments of a field or a directive that defines these, if it is known.
pub fn check(
    alloc: Global,
    owner: &FilePlace,
    known: Option<&DefinedInputs<InputFact>>,
    given: &[Argument],
    faults: &mut Vec<Fault>,
) -> Result<(), AllocError>
    ensures { OnOk result (faults.new.items ≡ faults.old.items
        ++ spec.faults owner.now (option_copied known.entry) given.now) }
{
    match known {
        Some(defined) => check_all(alloc, owner, defined, given, faults),
        None => Ok(()),
    }
}
