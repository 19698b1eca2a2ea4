//! S19, Default Value Cycles: the default value of an input field needs itself.
//! It is this registry's own rule.
//!
//! At fault: `type Query { a(i: I): Int } input I { i: I = {} }`
//! No fault: `type Query { a(i: I): Int } input I { i: I = null }`
ghost use Rattle.std.specs.Prelude.{◌≡◌, ◌↔◌, ◌⊎◌, ◌++◌, ℕ, IfOk, OnOk, IsTrue, Contains, map, flat_map};
ghost use Rattle.std.specs.List.{All};
ghost use Rattle.gql_ast.specs.declared.fault.Fault.{Fault as TheFault};
ghost use Rattle.gql_iface_rules.specs.S19DefaultValueCycles as spec;
ghost use Rattle.gql_iface_rules.specs.S19Plain.{TypeNeedsNone};

use crate::s19_ends::{all_ends, end_rows};
use crate::s19_inputs::{Input, all_inputs};
use crate::s19_plain::may_types_need;
use crate::s19_ranges::all_ranges;
use gql_ast::{Fault, Rule};
use gql_cycles::nodes_on_cycles_over_ranges;
use gql_faults::{NamePlace, add_fault_of};
use gql_types::{Batched, Schema, SchemaType};
use std::alloc::{AllocError, Global};

/// Adds a fault at the input field of a number.
fn add_at_input(
    alloc: Global,
    fields: &[&Input],
    number: usize,
    faults: &mut Vec<Fault>,
) -> Result<(), AllocError>
    ensures { OnOk result (faults.new.items ≡ faults.old.items
        ++ spec.fault_at_number (map (λ f. f.now) fields.now) number) }
{
    match fields.get(number) {
        Some(field) => { add_fault_of(alloc, Rule::S19, &NamePlace::of_node(field), faults) }
        None => Ok(()),
    }
}

/// Adds a fault at the input field of each number.
fn add_at_inputs(
    alloc: Global,
    fields: &[&Input],
    numbers: &[usize],
    faults: &mut Vec<Fault>,
) -> Result<(), AllocError>
    ensures { OnOk result (faults.new.items ≡ faults.old.items
        ++ flat_map (spec.fault_at_number (map (λ f. f.now) fields.now)) numbers.now) }
{
    for number in numbers {
        add_at_input(alloc, fields, *number, faults)?;
    }
    Ok(())
}

/// Adds the faults of all input fields whose default values need themselves.
fn check_all(alloc: Global, schema: &Schema, faults: &mut Vec<Fault>) -> Result<(), AllocError>
    ensures { OnOk result ((f : TheFault)
        → Contains faults.new.items f ↔ (Contains faults.old.items f ⊎ spec.IsFault schema.now f)) }
{
    let inputs = all_inputs(alloc, schema)?;
    let fields = inputs.fields.as_slice();
    let ranges = all_ranges(alloc, fields, &inputs.objects)?;
    let needed = all_ends(alloc, &inputs.objects)?;
    let ends = end_rows(alloc, fields.len(), needed.as_slice())?;
    let numbers = nodes_on_cycles_over_ranges(alloc, ranges.as_slice(), ends.as_slice())?;
    add_at_inputs(alloc, fields, numbers.as_slice(), faults)?;
    Ok(())
}

/// Adds the faults by S19, if a default value of these types may hold an object: of all others it is
/// known that none does. The result is whether none does.
pub fn check(
    alloc: Global,
    schema: &Schema,
    types: &[Batched<SchemaType>],
    faults: &mut Vec<Fault>,
) -> Result<bool, AllocError>
    ensures faults { OnOk result ((All TypeNeedsNone types.now → All TypeNeedsNone schema.now.types)
        → (f : TheFault) → Contains faults.new.items f
        ↔ (Contains faults.old.items f ⊎ spec.IsFault schema.now f)) }
    ensures none { IfOk result (λ finds_none. IsTrue finds_none → All TypeNeedsNone types.now) }
{
    if !may_types_need(types) {
        return Ok(true);
    }
    check_all(alloc, schema, faults)?;
    Ok(false)
}
