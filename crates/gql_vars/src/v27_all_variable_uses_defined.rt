//! V27, All Variable Uses Defined: an operation does not define a variable that it uses.
//! <https://spec.graphql.org/October2021/#sec-All-Variable-Uses-Defined>
//!
//! At fault: `query A { dog { barks(times: $n) } }`
//! No fault: `query A($n: Int!) { dog { barks(times: $n) } }`
ghost use Rattle.std.specs.Prelude.{◌≡◌, ◌++◌, ◌∷◌, [], ℕ, List, OnOk, bytes_eq, flat_map, is_some, option_map, if◌then◌else◌};
ghost use Rattle.std.specs.HashMap as hash;
ghost use Rattle.gql_ast.specs.declared.executable.VariableDefinition.{VariableDefinition as AVariable};
ghost use Rattle.gql_ast.specs.declared.rule.Rule.TheVariants as rule;
ghost use Rattle.gql_vars.specs.Faults.{fault_of_use};
ghost use Rattle.gql_vars.specs.Lists.{undefined, use_of};
ghost use Rattle.gql_vars.specs.Variables.{variable_named};

use crate::faults::add_fault_of_use;
use crate::uses::VariableUse;
use gql_ast::{Fault, FilePlace, Rule, VariableDefinition};
use std::alloc::{AllocError, Global};
use std::collections::HashMap;

fn check_use(
    alloc: Global,
    owner: &FilePlace,
    first: &HashMap<&str, &VariableDefinition>,
    used: &VariableUse<'_>,
    faults: &mut Vec<Fault>,
) -> Result<(), AllocError>
    ensures { OnOk result (faults.new.items ≡ faults.old.items
        ++ (if is_some (hash.get_by (λ k. bytes_eq used.now.name.now k.now) first.now) then []
        else fault_of_use owner.now rule.V27 (use_of used.now) ∷ [])) }
{
    if first.get(used.name.as_str()).is_none() {
        add_fault_of_use(alloc, owner, Rule::V27, used, faults)?;
    }
    Ok(())
}

/// Adds the faults of these uses, by the variables that the operation defines.
pub fn check(
    alloc: Global,
    owner: &FilePlace,
    first: &HashMap<&str, &VariableDefinition>,
    uses: &[VariableUse<'_>],
    faults: &mut Vec<Fault>,
) -> Result<(), AllocError>
    ensures { OnOk result ((variables : List AVariable)
        → ((q : List ℕ) → option_map (λ v. v.now) (hash.get_by (λ k. bytes_eq q k.now) first.now)
        ≡ variable_named variables q)
        → faults.new.items ≡ faults.old.items
        ++ flat_map (λ x. undefined owner.now variables (use_of x)) uses.now) }
{
    for used in uses {
        check_use(alloc, owner, first, used, faults)?;
    }
    Ok(())
}
