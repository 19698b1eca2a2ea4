//! The usages of variables in values, in arguments and in directives, checked one by one.
ghost use Rattle.std.specs.Prelude.{◌≡◌, ◌++◌, IfOk, OnOk, flat_map, map, option_map};
ghost use Rattle.std.specs.Option.{option_copied};
ghost use Rattle.gql_ast.specs.declared.literal.Literal.{Literal as AValue};
ghost use Rattle.gql_inputs.specs.ExpectedTypes.{written_of};
ghost use Rattle.gql_inputs.specs.Lookups.{fields_in};
ghost use Rattle.gql_inputs.specs.Values.{fields_of, given_field, may_be_list as may_be_a_list, value_of, values_of, variable};
ghost use Rattle.gql_rules.specs.LocalFaults.{of_directive};
ghost use Rattle.gql_rules.specs.KnownInputs as known;
ghost use Rattle.gql_rules.specs.V18ToV21Values as values;
ghost use Rattle.gql_vars.specs.Misuses as spec;

use crate::usage_check::{Location, UsageCheck};
use crate::uses::VariableUse;
use crate::v29_all_variable_usages_are_allowed;
use gql_ast::{Argument, Directive, Fault, Literal, ObjectField, Text};
use gql_facts::{DirectiveFact, InputFact, World};
use gql_inputs::{ExpectedType, InputType, InputTypes};
use gql_rules::{KnownInputType, OfWorld, ask_directive, directive_in};
use gql_text::Place;
use gql_types::DefinedInputs;
use std::alloc::{AllocError, Global};

/// Whether a value may be an item where lists are expected: a list, `null` or a variable.
#[tactic(auto, using(gql_inputs::proofs::ValueForms::value_variable, gql_inputs::proofs::ValueForms::value_int, gql_inputs::proofs::ValueForms::value_float, gql_inputs::proofs::ValueForms::value_string, gql_inputs::proofs::ValueForms::value_boolean, gql_inputs::proofs::ValueForms::value_null, gql_inputs::proofs::ValueForms::value_enum, gql_inputs::proofs::ValueForms::value_list, gql_inputs::proofs::ValueForms::value_object))]
fn may_be_list(value: &Literal) -> bool
    ensures { result ≡ may_be_a_list (value_of value.now) }
{
    match value {
        Literal::List { .. } | Literal::Null { .. } | Literal::Variable { .. } => true,
        Literal::Int { .. }
        | Literal::Float { .. }
        | Literal::String { .. }
        | Literal::Boolean { .. }
        | Literal::Enum { .. }
        | Literal::Object { .. } => false,
    }
}

/// The input type of a name, if it is known.
fn input_type<W: World>(
    alloc: Global,
    world: &mut W,
    name: &Text,
) -> Result<Option<KnownInputType>, AllocError>
    ensures facts { W.facts world.new ≡ W.facts world.old }
    ensures names { W.names world.new ≡ W.names world.old }
    ensures lent { W.lent world.new ≡ W.lent world.old }
    ensures answer { IfOk result (λ t. option_map known.form_of t
        ≡ known.known_inputs (W.facts world.old) name.now) }
{
    let mut types = OfWorld { world };
    types.input_type(alloc, name)
}

/// Adds the fault of a variable at a location.
fn check_variable<W: World>(
    alloc: Global,
    world: &mut W,
    check: &UsageCheck<'_, '_>,
    place: Place,
    name: &Text,
    location: Location<'_>,
    faults: &mut Vec<Fault>,
) -> Result<(), AllocError>
    ensures facts { W.facts world.new ≡ W.facts world.old }
    ensures names { W.names world.new ≡ W.names world.old }
    ensures lent { W.lent world.new ≡ W.lent world.old }
    ensures found { OnOk result (faults.new.items ≡ faults.old.items
        ++ spec.value_misuses (W.facts world.old) check.now (spec.location_at location.entry)
        (variable place name.now)) }
{
    let file = check.file;
    let used = VariableUse { file, place, name };
    v29_all_variable_usages_are_allowed::check(alloc, world, check, &used, location, faults)?;
    Ok(())
}

/// Adds the faults of the variables in a value at a location.
#[cycle(usages)]
#[tactic(auto, using(crate::proofs::ValueUsages::in_variable, crate::proofs::ValueUsages::in_int, crate::proofs::ValueUsages::in_float, crate::proofs::ValueUsages::in_string, crate::proofs::ValueUsages::in_boolean, crate::proofs::ValueUsages::in_null, crate::proofs::ValueUsages::in_enum, crate::proofs::ValueUsages::in_list, crate::proofs::ValueUsages::in_object, crate::proofs::ValueUsages::no_misuses))]
fn check_value<W: World>(
    alloc: Global,
    value: &Literal,
    world: &mut W,
    check: &UsageCheck<'_, '_>,
    location: Location<'_>,
    faults: &mut Vec<Fault>,
) -> Result<(), AllocError>
    ensures facts { W.facts world.new ≡ W.facts world.old }
    ensures names { W.names world.new ≡ W.names world.old }
    ensures lent { W.lent world.new ≡ W.lent world.old }
    ensures found { OnOk result (faults.new.items ≡ faults.old.items
        ++ spec.value_misuses (W.facts world.old) check.now (spec.location_at location.entry)
        (value_of value.now)) }
{
    match value {
        Literal::Variable { place, name } => {
            check_variable(alloc, world, check, *place, name, location, faults)
        }
        Literal::List { items, .. } => {
            let items = items.as_slice();
            check_list(alloc, items, world, check, location.expected, faults)
        }
        Literal::Object { fields, .. } => {
            let fields = fields.as_slice();
            check_object(alloc, fields, world, check, location.expected, faults)
        }
        Literal::Int { .. }
        | Literal::Float { .. }
        | Literal::String { .. }
        | Literal::Boolean { .. }
        | Literal::Null { .. }
        | Literal::Enum { .. } => Ok(()),
    }
}

/// Adds the usages of variables in a list. If no list is expected, there are none.
#[cycle(usages)]
#[tactic(auto, using(crate::proofs::ValueUsages::no_list))]
fn check_list<W: World>(
    alloc: Global,
    items: &[Literal],
    world: &mut W,
    check: &UsageCheck<'_, '_>,
    expected: ExpectedType<'_>,
    faults: &mut Vec<Fault>,
) -> Result<(), AllocError>
    ensures facts { W.facts world.new ≡ W.facts world.old }
    ensures names { W.names world.new ≡ W.names world.old }
    ensures lent { W.lent world.new ≡ W.lent world.old }
    ensures found { OnOk result (faults.new.items ≡ faults.old.items
        ++ spec.list_misuses (W.facts world.old) check.now (written_of expected.entry)
        (values_of (map value_of items.now))) }
{
    match expected.item() {
        Some(item) => check_items(alloc, items, world, check, item, faults),
        None => Ok(()),
    }
}

/// Adds those in the items of a list, by their type.
#[cycle(usages)]
fn check_items<W: World>(
    alloc: Global,
    items: &[Literal],
    world: &mut W,
    check: &UsageCheck<'_, '_>,
    expected: ExpectedType<'_>,
    faults: &mut Vec<Fault>,
) -> Result<(), AllocError>
    ensures facts { W.facts world.new ≡ W.facts world.old }
    ensures names { W.names world.new ≡ W.names world.old }
    ensures lent { W.lent world.new ≡ W.lent world.old }
    ensures found { OnOk result (faults.new.items ≡ faults.old.items
        ++ flat_map (λ (x : AValue). spec.item_misuses (W.facts world.old) check.now
        (written_of expected.entry) (value_of x)) items.now) }
{
    for item in items {
        check_item(alloc, item, world, check, expected, faults)?;
    }
    Ok(())
}

/// Adds those in one item. An item that is refused as a whole, since it is not a list, has none.
#[cycle(usages)]
fn check_item<W: World>(
    alloc: Global,
    item: &Literal,
    world: &mut W,
    check: &UsageCheck<'_, '_>,
    expected: ExpectedType<'_>,
    faults: &mut Vec<Fault>,
) -> Result<(), AllocError>
    ensures facts { W.facts world.new ≡ W.facts world.old }
    ensures names { W.names world.new ≡ W.names world.old }
    ensures lent { W.lent world.new ≡ W.lent world.old }
    ensures found { OnOk result (faults.new.items ≡ faults.old.items
        ++ spec.item_misuses (W.facts world.old) check.now (written_of expected.entry)
        (value_of item.now)) }
{
    if expected.is_list() && !may_be_list(item) {
        Ok(())
    } else {
        let has_default = false;
        let location = Location {
            expected,
            has_default,
        };
        check_value(alloc, item, world, check, location, faults)
    }
}

/// Adds those in an object. If no input object is expected, there are none.
#[cycle(usages)]
#[tactic(auto, using(crate::proofs::ValueUsages::in_known, crate::proofs::ValueUsages::in_unknown))]
fn check_object<W: World>(
    alloc: Global,
    fields: &[ObjectField],
    world: &mut W,
    check: &UsageCheck<'_, '_>,
    expected: ExpectedType<'_>,
    faults: &mut Vec<Fault>,
) -> Result<(), AllocError>
    ensures facts { W.facts world.new ≡ W.facts world.old }
    ensures names { W.names world.new ≡ W.names world.old }
    ensures lent { W.lent world.new ≡ W.lent world.old }
    ensures found { OnOk result (faults.new.items ≡ faults.old.items
        ++ spec.object_misuses (W.facts world.old) check.now (written_of expected.entry)
        (fields_of (map given_field fields.now))) }
{
    match input_type(alloc, world, expected.name())? {
        Some(of_type) => check_fields(alloc, fields, world, check, &of_type, faults),
        None => Ok(()),
    }
}

/// Adds those in the fields of an object, by the fields of its type.
#[cycle(usages)]
fn check_fields<W: World>(
    alloc: Global,
    fields: &[ObjectField],
    world: &mut W,
    check: &UsageCheck<'_, '_>,
    of_type: &KnownInputType,
    faults: &mut Vec<Fault>,
) -> Result<(), AllocError>
    ensures facts { W.facts world.new ≡ W.facts world.old }
    ensures names { W.names world.new ≡ W.names world.old }
    ensures lent { W.lent world.new ≡ W.lent world.old }
    ensures found { OnOk result (faults.new.items ≡ faults.old.items
        ++ flat_map (spec.field_misuses (W.facts world.old) check.now
        (fields_in (known.form_of of_type.now))) (map given_field fields.now)) }
{
    for field in fields {
        check_field(alloc, field, world, check, of_type, faults)?;
    }
    Ok(())
}

/// Adds those in one field, if its type has it.
#[cycle(usages)]
fn check_field<W: World>(
    alloc: Global,
    field: &ObjectField,
    world: &mut W,
    check: &UsageCheck<'_, '_>,
    of_type: &KnownInputType,
    faults: &mut Vec<Fault>,
) -> Result<(), AllocError>
    ensures facts { W.facts world.new ≡ W.facts world.old }
    ensures names { W.names world.new ≡ W.names world.old }
    ensures lent { W.lent world.new ≡ W.lent world.old }
    ensures found { OnOk result (faults.new.items ≡ faults.old.items
        ++ spec.field_misuses (W.facts world.old) check.now
        (fields_in (known.form_of of_type.now)) (given_field field.now)) }
{
    match of_type.field(field.name.as_str()) {
        Some(definition) => {
            let location = Location {
                expected: definition.of_type,
                has_default: definition.has_default,
            };
            check_value(alloc, &field.value, world, check, location, faults)
        }
        None => Ok(()),
    }
}

/// The definition of an argument among these, if they are known.
fn definition_of<'i>(
    known: Option<&'i DefinedInputs<InputFact>>,
    name: &str,
) -> Option<&'i InputFact>
    ensures { option_copied result ≡ values.definition_of (option_copied known.entry) name.now }
{
    match known {
        Some(inputs) => inputs.get(name),
        None => None,
    }
}

/// Adds the faults of the variables in an argument, if it is defined.
fn check_argument<W: World>(
    alloc: Global,
    world: &mut W,
    check: &UsageCheck<'_, '_>,
    known: Option<&DefinedInputs<InputFact>>,
    argument: &Argument,
    faults: &mut Vec<Fault>,
) -> Result<(), AllocError>
    ensures facts { W.facts world.new ≡ W.facts world.old }
    ensures names { W.names world.new ≡ W.names world.old }
    ensures lent { W.lent world.new ≡ W.lent world.old }
    ensures found { OnOk result (faults.new.items ≡ faults.old.items
        ++ spec.misuses_of_argument (W.facts world.old) check.now (option_copied known.entry)
        argument.now) }
{
    match definition_of(known, argument.name.as_str()) {
        Some(input) => {
            let location = Location {
                expected: ExpectedType::of_fact(&input.of_type),
                has_default: input.has_default,
            };
            check_value(alloc, &argument.value, world, check, location, faults)?;
        }
        None => {}
    }
    Ok(())
}

/// Adds the faults of the variables in the arguments of a field or a directive that defines these,
/// if it is known.
pub fn check_arguments<W: World>(
    alloc: Global,
    world: &mut W,
    check: &UsageCheck<'_, '_>,
    known: Option<&DefinedInputs<InputFact>>,
    given: &[Argument],
    faults: &mut Vec<Fault>,
) -> Result<(), AllocError>
    ensures facts { W.facts world.new ≡ W.facts world.old }
    ensures names { W.names world.new ≡ W.names world.old }
    ensures lent { W.lent world.new ≡ W.lent world.old }
    ensures found { OnOk result (faults.new.items ≡ faults.old.items
        ++ spec.argument_misuses (W.facts world.old) check.now (option_copied known.entry)
        given.now) }
{
    for argument in given {
        check_argument(alloc, world, check, known, argument, faults)?;
    }
    Ok(())
}

/// The arguments that a directive defines, if it is known.
fn arguments_of(known: Option<&DirectiveFact>) -> Option<&DefinedInputs<InputFact>>
    ensures { option_copied result ≡ of_directive (option_copied known.entry) }
{
    match known {
        Some(known) => Some(&known.arguments),
        None => None,
    }
}

/// Adds the faults of the variables in a directive that is applied.
fn check_directive<W: World>(
    alloc: Global,
    world: &mut W,
    check: &UsageCheck<'_, '_>,
    directive: &Directive,
    faults: &mut Vec<Fault>,
) -> Result<(), AllocError>
    ensures facts { W.facts world.new ≡ W.facts world.old }
    ensures names { W.names world.new ≡ W.names world.old }
    ensures lent { W.lent world.new ≡ W.lent world.old }
    ensures found { OnOk result (faults.new.items ≡ faults.old.items
        ++ spec.misuses_of_directive (W.facts world.old) check.now directive.now) }
{
    let fact = ask_directive(alloc, world, &directive.name.text)?;
    let known = arguments_of(directive_in(&fact));
    check_arguments(
        alloc,
        world,
        check,
        known,
        directive.arguments.as_slice(),
        faults,
    )?;
    Ok(())
}

/// Adds the faults of the variables in directives that are applied.
pub fn check_directives<W: World>(
    alloc: Global,
    world: &mut W,
    check: &UsageCheck<'_, '_>,
    all: &[Directive],
    faults: &mut Vec<Fault>,
) -> Result<(), AllocError>
    ensures facts { W.facts world.new ≡ W.facts world.old }
    ensures names { W.names world.new ≡ W.names world.old }
    ensures lent { W.lent world.new ≡ W.lent world.old }
    ensures found { OnOk result (faults.new.items ≡ faults.old.items
        ++ spec.directive_misuses (W.facts world.old) check.now all.now) }
{
    for directive in all {
        check_directive(alloc, world, check, directive, faults)?;
    }
    Ok(())
}
