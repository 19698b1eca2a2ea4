//! V28, All Variables Used: neither the operation nor its fragments use a variable.
//! <https://spec.graphql.org/October2021/#sec-All-Variables-Used>
//!
//! At fault: `query A($n: Int!) { dog { name } }`
//! No fault: `query A($n: Int!) { dog { barks(times: $n) } }`
ghost use Rattle.std.specs.Prelude.{◌≡◌, ◌++◌, ℕ, List, OnOk, [], bytes_eq, flat_map, is_some, map, option_map, if◌then◌else◌};
ghost use Rattle.std.specs.HashMap as hash;
ghost use Rattle.std.specs.Option.{option_copied};
ghost use Rattle.gql_vars.specs.Lists as spec;
ghost use Rattle.gql_vars.specs.Variables.{variable_named};

use crate::tables::used_names;
use crate::uses::VariableUse;
use gql_ast::{Fault, FilePlace, Rule, VariableDefinition};
use gql_rules::add_fault;
use std::alloc::{AllocError, Global};
use std::collections::HashMap;

/// Adds the fault of a variable that is not used, at the first of its name.
fn add_unused(
    alloc: Global,
    owner: &FilePlace,
    first: Option<&VariableDefinition>,
    faults: &mut Vec<Fault>,
) -> Result<(), AllocError>
    ensures { OnOk result (faults.new.items ≡ faults.old.items
        ++ spec.unused_first owner.now (option_copied first.entry)) }
{
    match first {
        Some(first) => add_fault(
            alloc,
            owner,
            Rule::V28,
            &first.name.text,
            first.place,
            faults,
        ),
        None => Ok(()),
    }
}

fn check_variable(
    alloc: Global,
    owner: &FilePlace,
    first: &HashMap<&str, &VariableDefinition>,
    used: &HashMap<&str, ()>,
    variable: &VariableDefinition,
    faults: &mut Vec<Fault>,
) -> Result<(), AllocError>
    ensures { OnOk result (faults.new.items ≡ faults.old.items
        ++ (if is_some (hash.get_by (λ k. bytes_eq variable.now.name.text k.now) used.now) then []
        else spec.unused_first owner.now (option_map (λ v. v.now)
        (hash.get_by (λ k. bytes_eq variable.now.name.text k.now) first.now)))) }
{
    let name = variable.name.as_str();
    if used.get(name).is_none() {
        add_unused(alloc, owner, first.get(name).copied(), faults)?;
    }
    Ok(())
}

/// Adds the faults of the variables of an operation. `first` has the first definition of each name.
pub fn check(
    alloc: Global,
    owner: &FilePlace,
    variables: &[VariableDefinition],
    first: &HashMap<&str, &VariableDefinition>,
    uses: &[VariableUse<'_>],
    faults: &mut Vec<Fault>,
) -> Result<(), AllocError>
    ensures { OnOk result (((q : List ℕ) →
        option_map (λ v. v.now) (hash.get_by (λ k. bytes_eq q k.now) first.now)
        ≡ variable_named variables.now q)
        → faults.new.items ≡ faults.old.items
        ++ flat_map (spec.unused owner.now variables.now (map spec.use_of uses.now))
        variables.now) }
{
    let used = used_names(alloc, uses)?;
    for variable in variables {
        check_variable(alloc, owner, first, &used, variable, faults)?;
    }
    Ok(())
}
