//! V10, Required Arguments: a required argument is missing or null.
//! <https://spec.graphql.org/October2021/#sec-Required-Arguments>
//!
//! At fault: `{ dog { barks } }`
//! No fault: `{ dog { barks(times: 1) } }`
ghost use Rattle.std.specs.Prelude.{◌≡◌, ◌++◌, ◌∷◌, ◌&&◌, [], ℕ, List, IfOk, OnOk, flat_map, bytes_eq, unwrap_or, true, if◌then◌else◌};
ghost use Rattle.std.specs.HashMap as hash;
ghost use Rattle.std.specs.Option.{option_copied};
ghost use Rattle.gql_ast.specs.declared.rule.Rule.TheVariants as rule;
ghost use Rattle.gql_rules.specs.Answers.{is_required as required};
ghost use Rattle.gql_rules.specs.Faults.{fault_at};
ghost use Rattle.gql_rules.specs.V10RequiredArguments as spec;

use crate::faults::add_fault;
use crate::literals::is_null;
use gql_ast::{Argument, Fault, FilePlace, Rule};
use gql_facts::InputFact;
use gql_text::Place;
use gql_types::DefinedInputs;
use std::alloc::{AllocError, Global};
use std::collections::HashMap;

/// The names of arguments, each with whether it is given as `null`.
fn nulls<'t>(alloc: Global, given: &'t [Argument]) -> Result<HashMap<&'t str, bool>, AllocError>
    ensures { IfOk result (λ nulls. (q : List ℕ) →
        unwrap_or (hash.get_by (λ k. bytes_eq q k.now) nulls) true ≡ spec.is_lacking given.now q) }
{
    let mut nulls = HashMap::new(alloc);
    for argument in given {
        let name = argument.name.as_str();
        let before = nulls.get(name).copied().unwrap_or(false);
        nulls.insert(name, before || is_null(&argument.value))?;
    }
    Ok(nulls)
}

/// Adds the fault about an argument that is required, if it is missing or null.
fn check_input(
    alloc: Global,
    owner: &FilePlace,
    at: Place,
    nulls: &HashMap<&str, bool>,
    input: &InputFact,
    faults: &mut Vec<Fault>,
) -> Result<(), AllocError>
    requires { required input.now ≡ true }
    ensures { OnOk result (faults.new.items ≡ faults.old.items
        ++ (if required input.now
        && unwrap_or (hash.get_by (λ k. bytes_eq input.now.name k.now) nulls.now) true
        then fault_at owner.now rule.V10 input.now.name at ∷ [] else [])) }
{
    if nulls.get(input.name.as_str()).copied().unwrap_or(true) {
        add_fault(alloc, owner, Rule::V10, &input.name, at, faults)?;
    }
    Ok(())
}

/// Checks the arguments that are required. The others have no faults.
fn check_all(
    alloc: Global,
    owner: &FilePlace,
    at: Place,
    defined: &DefinedInputs<InputFact>,
    given: &[Argument],
    faults: &mut Vec<Fault>,
) -> Result<(), AllocError>
    ensures { OnOk result (faults.new.items ≡ faults.old.items
        ++ flat_map (spec.fault_about owner.now at given.now) defined.now) }
{
    let nulls = nulls(alloc, given)?;
    for index in 0..defined.required_count() {
        let input = defined.required_at(index);
        check_input(alloc, owner, at, &nulls, input, faults)?;
    }
    Ok(())
}

/// Adds the faults of a field or a directive at this place that defines these arguments, if it is
/// known.
pub fn check(
    alloc: Global,
    owner: &FilePlace,
    at: Place,
    known: Option<&DefinedInputs<InputFact>>,
    given: &[Argument],
    faults: &mut Vec<Fault>,
) -> Result<(), AllocError>
    ensures { OnOk result (faults.new.items ≡ faults.old.items
        ++ spec.faults owner.now at (option_copied known.entry) given.now) }
{
    match known {
        Some(defined) => check_all(alloc, owner, at, defined, given, faults),
        None => Ok(()),
    }
}
