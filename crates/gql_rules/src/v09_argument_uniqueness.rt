//! V09, Argument Uniqueness: an argument is given twice.
//! <https://spec.graphql.org/October2021/#sec-Argument-Uniqueness>
//!
//! At fault: `{ dog { barks(times: 1, times: 1) } }`
//! No fault: `{ dog { barks(times: 1) } }`
ghost use Rattle.std.specs.Prelude.{◌≡◌, ◌++◌, ◌∷◌, [], OnOk, bytes_eq, nat_lt, unwrap_or, if◌then◌else◌};
ghost use Rattle.std.specs.HashMap as hash;
ghost use Rattle.gql_ast.specs.declared.rule.Rule.TheVariants as rule;
ghost use Rattle.gql_rules.specs.Faults.{fault_of};
ghost use Rattle.gql_rules.specs.V09ArgumentUniqueness as spec;

use crate::counts::{counts, is_repeated};
use crate::faults::add_fault_of;
use gql_ast::{Argument, Fault, FilePlace, Rule};
use std::alloc::{AllocError, Global};
use std::collections::HashMap;

fn check_argument(
    alloc: Global,
    owner: &FilePlace,
    counts: &HashMap<&str, usize>,
    argument: &Argument,
    faults: &mut Vec<Fault>,
) -> Result<(), AllocError>
    ensures { OnOk result (faults.new.items ≡ faults.old.items
        ++ (if nat_lt 1 (unwrap_or
        (hash.get_by (λ k. bytes_eq argument.now.name.text k.now) counts.now) 0)
        then fault_of owner.now rule.V09 argument.now.name ∷ [] else [])) }
{
    if is_repeated(counts, argument.name.as_str()) {
        add_fault_of(alloc, owner, Rule::V09, &argument.name, faults)?;
    }
    Ok(())
}

/// Adds the faults of the arguments of a field or a directive.
pub fn check(
    alloc: Global,
    owner: &FilePlace,
    given: &[Argument],
    faults: &mut Vec<Fault>,
) -> Result<(), AllocError>
    ensures { OnOk result (faults.new.items ≡ faults.old.items ++ spec.faults owner.now given.now) }
{
    let counts = counts(alloc, given)?;
    for argument in given {
        check_argument(alloc, owner, &counts, argument, faults)?;
    }
    Ok(())
}
