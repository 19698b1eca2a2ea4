//! The variables of an operation by their names, and the names that are used.
ghost use Rattle.std.specs.Prelude.{◌≡◌, ℕ, List, IfOk, OnOk, bytes_eq, is_some, map, option_map};
ghost use Rattle.std.specs.HashMap as hash;
ghost use Rattle.gql_vars.specs.Lists.{is_used, or_this, use_of};
ghost use Rattle.gql_vars.specs.Variables.{variable_named};

use crate::uses::VariableUse;
use gql_ast::VariableDefinition;
use std::alloc::{AllocError, Global};
use std::collections::HashMap;

/// Keeps a variable, unless there is one of its name.
fn keep_first<'t>(
    first: &mut HashMap<&'t str, &'t VariableDefinition>,
    variable: &'t VariableDefinition,
) -> Result<(), AllocError>
    ensures { OnOk result ((q : List ℕ) →
        option_map (λ v. v.now) (hash.get_by (λ k. bytes_eq q k.now) first.new)
        ≡ or_this (option_map (λ v. v.now) (hash.get_by (λ k. bytes_eq q k.now) first.old))
        variable.now q) }
{
    let name = variable.name.as_str();
    if first.get(name).is_none() {
        first.insert(name, variable)?;
    }
    Ok(())
}

/// The first variable of each name.
pub fn first_variables<'t>(
    alloc: Global,
    variables: &'t [VariableDefinition],
) -> Result<HashMap<&'t str, &'t VariableDefinition>, AllocError>
    ensures { IfOk result (λ first. (q : List ℕ) →
        option_map (λ v. v.now) (hash.get_by (λ k. bytes_eq q k.now) first)
        ≡ variable_named variables.now q) }
{
    let mut first: HashMap<&'t str, &'t VariableDefinition> = HashMap::new(alloc);
    for variable in variables {
        keep_first(&mut first, variable)?;
    }
    Ok(first)
}

/// The names of the variables that are used.
pub fn used_names<'t>(
    alloc: Global,
    uses: &[VariableUse<'t>],
) -> Result<HashMap<&'t str, ()>, AllocError>
    ensures { IfOk result (λ names. (q : List ℕ) →
        is_some (hash.get_by (λ k. bytes_eq q k.now) names) ≡ is_used (map use_of uses.now) q) }
{
    let mut names: HashMap<&'t str, ()> = HashMap::new(alloc);
    for used in uses {
        names.insert(used.name.as_str(), ())?;
    }
    Ok(names)
}
