//! V29, All Variable Usages Are Allowed: a variable is used where its type does not fit.
//! <https://spec.graphql.org/October2021/#sec-All-Variable-Usages-are-Allowed>
//!
//! At fault: `query A($n: Int) { dog { barks(times: $n) } }`
//! No fault: `query A($n: Int!) { dog { barks(times: $n) } }`
ghost use Rattle.std.specs.Prelude.{◌≡◌, ◌++◌, IfOk, OnOk};
ghost use Rattle.std.specs.Option.{option_copied};
ghost use Rattle.gql_vars.specs.Lists.{use_of};
ghost use Rattle.gql_vars.specs.Misuses.{first_named, location_at, misuse_by, misuse_of, usage_of};
ghost use Rattle.gql_vars.specs.V29AllVariableUsagesAreAllowed as spec;

use crate::faults::add_fault_of_use;
use crate::type_fits::{fits, nullable};
use crate::usage_check::{Location, UsageCheck};
use crate::uses::VariableUse;
use gql_ast::{Fault, FilePlace, Literal, Rule, VariableDefinition};
use gql_facts::World;
use gql_faults::named_type;
use gql_inputs::is_non_null;
use gql_rules::{is_null, kind_of};
use std::alloc::{AllocError, Global};

/// Whether there is a default value other than `null`.
fn has_value(default: &Option<Literal>) -> bool
    ensures { result ≡ spec.has_value default.now }
{
    match default {
        Some(value) => !is_null(value),
        None => false,
    }
}

/// Whether a variable is allowed at a location (GraphQL specification, 5.8.5).
fn is_allowed(variable: &VariableDefinition, location: Location<'_>) -> bool
    ensures { result ≡ spec.is_allowed variable.now (location_at location.entry) }
{
    let expected = location.expected;
    let has_default = has_value(&variable.default) || location.has_default;
    if expected.is_non_null() && !is_non_null(&variable.of_type) && has_default {
        fits(&variable.of_type, nullable(expected))
    } else {
        fits(&variable.of_type, expected)
    }
}

/// Whether the type of a variable is known.
fn is_judged<W: World>(
    alloc: Global,
    world: &mut W,
    variable: &VariableDefinition,
) -> Result<bool, AllocError>
    ensures facts { W.facts world.new ≡ W.facts world.old }
    ensures names { W.names world.new ≡ W.names world.old }
    ensures lent { W.lent world.new ≡ W.lent world.old }
    ensures answer { IfOk result (λ is. is ≡ spec.is_judged (W.facts world.old) variable.now) }
{
    let name = named_type(&variable.of_type);
    let kind = kind_of(alloc, world, &name.text)?;
    Ok(kind.is_some())
}

/// Adds the fault of a use of this variable, if it is defined.
fn check_named<W: World>(
    alloc: Global,
    world: &mut W,
    owner: &FilePlace,
    variable: Option<&VariableDefinition>,
    used: &VariableUse<'_>,
    location: Location<'_>,
    faults: &mut Vec<Fault>,
) -> Result<(), AllocError>
    ensures facts { W.facts world.new ≡ W.facts world.old }
    ensures names { W.names world.new ≡ W.names world.old }
    ensures lent { W.lent world.new ≡ W.lent world.old }
    ensures found { OnOk result (faults.new.items ≡ faults.old.items
        ++ misuse_of (W.facts world.old) owner.now (usage_of used.now location.entry)
        (option_copied variable.entry)) }
{
    let Some(variable) = variable else {
        return Ok(());
    };
    if !is_allowed(variable, location) && is_judged(alloc, world, variable)? {
        add_fault_of_use(alloc, owner, Rule::V29, used, faults)?;
    }
    Ok(())
}

/// Adds the fault of a use at a location.
pub fn check<W: World>(
    alloc: Global,
    world: &mut W,
    check: &UsageCheck<'_, '_>,
    used: &VariableUse<'_>,
    location: Location<'_>,
    faults: &mut Vec<Fault>,
) -> Result<(), AllocError>
    ensures facts { W.facts world.new ≡ W.facts world.old }
    ensures names { W.names world.new ≡ W.names world.old }
    ensures lent { W.lent world.new ≡ W.lent world.old }
    ensures found { OnOk result (faults.new.items ≡ faults.old.items
        ++ misuse_by (W.facts world.old) check.now.owner.now (first_named check.now)
        (usage_of used.now location.entry)) }
{
    let variable = check.first.get(used.name.as_str()).copied();
    check_named(alloc, world, check.owner, variable, used, location, faults)?;
    Ok(())
}
