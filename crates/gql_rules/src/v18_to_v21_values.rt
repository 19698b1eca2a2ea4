//! V18, Values of Correct Type: a value does not fit the type that is expected of it.
//! V19, Input Object Field Names: an object value has a field that is not defined.
//! V20, Input Object Field Uniqueness: an object value has two fields of the same name.
//! V21, Input Object Required Fields: a required input field is missing or null.
//! They check the values of arguments and the default values of variables.
//! <https://spec.graphql.org/October2021/#sec-Values-of-Correct-Type>
//! <https://spec.graphql.org/October2021/#sec-Input-Object-Field-Names>
//! <https://spec.graphql.org/October2021/#sec-Input-Object-Field-Uniqueness>
//! <https://spec.graphql.org/October2021/#sec-Input-Object-Required-Fields>
//!
//! At fault by V18: `{ dog { barks(times: "two") } }`
//! No fault by V18: `{ dog { barks(times: 2) } }`
//! At fault by V19: `{ search(filter: { name: "Rex", size: 3 }) { name } }`
//! No fault by V19: `{ search(filter: { name: "Rex", limit: 3 }) { name } }`
//! At fault by V20: `{ search(filter: { name: "Rex", name: "Tom" }) { name } }`
//! No fault by V20: `{ search(filter: { name: "Rex" }) { name } }`
//! At fault by V21: `{ search(filter: { limit: 3 }) { name } }`
//! No fault by V21: `{ search(filter: { name: "Rex" }) { name } }`
ghost use Rattle.std.specs.Prelude.{◌≡◌, ◌++◌, ◌∷◌, [], OnOk, map};
ghost use Rattle.std.specs.Option.{option_copied};
ghost use Rattle.gql_inputs.specs.ExpectedTypes.{written_of};
ghost use Rattle.gql_rules.specs.KnownInputs.{known_inputs};
ghost use Rattle.gql_rules.specs.V18ToV21Values as spec;

use crate::answers::is_required;
use crate::faults::add_fault;
use crate::known_inputs::OfWorld;
use crate::literals::is_null;
use gql_ast::{Argument, Fault, FilePlace, Literal, VariableDefinition};
use gql_facts::{InputFact, World};
use gql_inputs::{BadValue, ExpectedType, add_bad_values, add_repeats};
use gql_types::DefinedInputs;
use std::alloc::{AllocError, Global};

/// Adds the faults of bad values.
fn add_faults(
    alloc: Global,
    owner: &FilePlace,
    found: &[BadValue],
    faults: &mut Vec<Fault>,
) -> Result<(), AllocError>
    ensures { OnOk result (faults.new.items ≡ faults.old.items
        ++ map (spec.fault_of_value owner.now) found.now) }
{
    for bad in found {
        add_fault(alloc, owner, bad.rule, &bad.about, bad.place, faults)?;
    }
    Ok(())
}

/// Adds the faults of a value where this type is expected.
fn check_value<W: World>(
    alloc: Global,
    world: &mut W,
    owner: &FilePlace,
    value: &Literal,
    of_type: ExpectedType<'_>,
    faults: &mut Vec<Fault>,
) -> Result<(), AllocError>
    ensures facts { W.facts world.new ≡ W.facts world.old }
    ensures names { W.names world.new ≡ W.names world.old }
    ensures lent { W.lent world.new ≡ W.lent world.old }
    ensures found { OnOk result (faults.new.items ≡ faults.old.items
        ++ spec.value_faults (known_inputs (W.facts world.old)) owner.now
        (written_of of_type.entry) value.now) }
{
    let mut found = Vec::new(alloc);
    let mut types = OfWorld { world };
    add_bad_values(alloc, &mut types, value, of_type, &mut found)?;
    add_faults(alloc, owner, found.as_slice(), faults)?;
    Ok(())
}

/// Adds the faults of a value where no type is known.
fn check_repeats(
    alloc: Global,
    owner: &FilePlace,
    value: &Literal,
    faults: &mut Vec<Fault>,
) -> Result<(), AllocError>
    ensures { OnOk result (faults.new.items ≡ faults.old.items
        ++ spec.repeat_faults owner.now value.now) }
{
    let mut found = Vec::new(alloc);
    add_repeats(alloc, value, &mut found)?;
    add_faults(alloc, owner, found.as_slice(), faults)?;
    Ok(())
}

/// The definition of an argument among these, if they are known.
fn definition_of<'i>(
    known: Option<&'i DefinedInputs<InputFact>>,
    name: &str,
) -> Option<&'i InputFact>
    ensures { option_copied result ≡ spec.definition_of (option_copied known.entry) name.now }
{
    match known {
        Some(inputs) => inputs.get(name),
        None => None,
    }
}

fn check_argument<W: World>(
    alloc: Global,
    world: &mut W,
    owner: &FilePlace,
    known: Option<&DefinedInputs<InputFact>>,
    argument: &Argument,
    faults: &mut Vec<Fault>,
) -> Result<(), AllocError>
    ensures facts { W.facts world.new ≡ W.facts world.old }
    ensures names { W.names world.new ≡ W.names world.old }
    ensures lent { W.lent world.new ≡ W.lent world.old }
    ensures found { OnOk result (faults.new.items ≡ faults.old.items
        ++ spec.faults_of_argument (known_inputs (W.facts world.old)) owner.now
        (option_copied known.entry) argument.now) }
{
    match definition_of(known, argument.name.as_str()) {
        Some(input) => {
            if !(is_null(&argument.value) && is_required(input)) {
                let of_type = ExpectedType::of_fact(&input.of_type);
                check_value(alloc, world, owner, &argument.value, of_type, faults)?;
            }
        }
        None => check_repeats(alloc, owner, &argument.value, faults)?,
    }
    Ok(())
}

/// Adds the faults of the arguments of a field or a directive that defines these, if it is known.
pub fn check<W: World>(
    alloc: Global,
    world: &mut W,
    owner: &FilePlace,
    known: Option<&DefinedInputs<InputFact>>,
    given: &[Argument],
    faults: &mut Vec<Fault>,
) -> Result<(), AllocError>
    ensures facts { W.facts world.new ≡ W.facts world.old }
    ensures names { W.names world.new ≡ W.names world.old }
    ensures lent { W.lent world.new ≡ W.lent world.old }
    ensures found { OnOk result (faults.new.items ≡ faults.old.items
        ++ spec.faults (W.facts world.old) owner.now (option_copied known.entry) given.now) }
{
    for argument in given {
        check_argument(alloc, world, owner, known, argument, faults)?;
    }
    Ok(())
}

/// Adds the faults of the default value of a variable.
pub fn check_default<W: World>(
    alloc: Global,
    world: &mut W,
    owner: &FilePlace,
    variable: &VariableDefinition,
    faults: &mut Vec<Fault>,
) -> Result<(), AllocError>
    ensures facts { W.facts world.new ≡ W.facts world.old }
    ensures names { W.names world.new ≡ W.names world.old }
    ensures lent { W.lent world.new ≡ W.lent world.old }
    ensures found { OnOk result (faults.new.items ≡ faults.old.items
        ++ spec.faults_of_variable (W.facts world.old) owner.now variable.now) }
{
    if let Some(value) = &variable.default {
        let of_type = ExpectedType::Placed(&variable.of_type);
        check_value(alloc, world, owner, value, of_type, faults)?;
    }
    Ok(())
}
