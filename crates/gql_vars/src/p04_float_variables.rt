//! P04, Float Variables: a variable is of type Float, which only --profile october-2021 serves.
//! It is this registry's own rule.
//!
//! At fault: `query A($n: Float) { dog { barks(times: $n) } }`
//! No fault: `query A($n: Int!) { dog { barks(times: $n) } }`
ghost use Rattle.std.specs.Prelude.{◌≡◌, ◌++◌, OnOk};
ghost use Rattle.gql_vars.specs.P04FloatVariables as spec;

use gql_ast::{Fault, FilePlace, Rule, VariableDefinition};
use gql_facts::World;
use gql_faults::named_type;
use gql_rules::{add_fault_of, kind_of};
use std::alloc::{AllocError, Global};

/// Whether this is the name of Float.
pub fn is_float(name: &str) -> bool
    ensures { result ≡ spec.is_float name.now }
{
    name == "Float"
}

/// Adds the fault of a variable.
pub fn check<W: World>(
    alloc: Global,
    world: &mut W,
    owner: &FilePlace,
    variable: &VariableDefinition,
    faults: &mut Vec<Fault>,
) -> Result<(), AllocError>
    ensures facts { W.facts world.new ≡ W.facts world.old }
    ensures names { W.names world.new ≡ W.names world.old }
    ensures lent { W.lent world.new ≡ W.lent world.old }
    ensures found { OnOk result (faults.new.items ≡ faults.old.items
        ++ spec.faults (W.facts world.old) owner.now variable.now) }
{
    let name = named_type(&variable.of_type);
    if is_float(name.as_str()) && kind_of(alloc, world, &name.text)?.is_none() {
        add_fault_of(alloc, owner, Rule::P04, name, faults)?;
    }
    Ok(())
}
