//! V25, Variable Uniqueness: an operation has two variables of the same name.
//! <https://spec.graphql.org/October2021/#sec-Variable-Uniqueness>
//!
//! At fault: `query A($n: Int!, $n: Int!) { dog { barks(times: $n) } }`
//! No fault: `query A($n: Int!) { dog { barks(times: $n) } }`
ghost use Rattle.std.specs.Prelude.{◌≡◌, ◌++◌, ◌∷◌, [], OnOk, bytes_eq, nat_lt, unwrap_or, if◌then◌else◌};
ghost use Rattle.std.specs.HashMap as hash;
ghost use Rattle.gql_ast.specs.declared.rule.Rule.TheVariants as rule;
ghost use Rattle.gql_rules.specs.Faults.{fault_at};
ghost use Rattle.gql_vars.specs.V25VariableUniqueness as spec;

use gql_ast::{Fault, FilePlace, Rule, VariableDefinition};
use gql_rules::add_fault;
use gql_rules::counts::{counts, is_repeated};
use std::alloc::{AllocError, Global};
use std::collections::HashMap;

fn check_variable(
    alloc: Global,
    owner: &FilePlace,
    counts: &HashMap<&str, usize>,
    variable: &VariableDefinition,
    faults: &mut Vec<Fault>,
) -> Result<(), AllocError>
    ensures { OnOk result (faults.new.items ≡ faults.old.items
        ++ (if nat_lt 1 (unwrap_or
        (hash.get_by (λ k. bytes_eq variable.now.name.text k.now) counts.now) 0)
        then fault_at owner.now rule.V25 variable.now.name.text variable.now.place ∷ []
        else [])) }
{
    if is_repeated(counts, variable.name.as_str()) {
        let about = &variable.name.text;
        add_fault(alloc, owner, Rule::V25, about, variable.place, faults)?;
    }
    Ok(())
}

/// Adds the faults of the variables of an operation.
pub fn check(
    alloc: Global,
    owner: &FilePlace,
    variables: &[VariableDefinition],
    faults: &mut Vec<Fault>,
) -> Result<(), AllocError>
    ensures { OnOk result (faults.new.items ≡ faults.old.items
        ++ spec.faults owner.now variables.now) }
{
    let counts = counts(alloc, variables)?;
    for variable in variables {
        check_variable(alloc, owner, &counts, variable, faults)?;
    }
    Ok(())
}
