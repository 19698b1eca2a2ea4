//! A value that does not fit the type of its argument or input field (GraphQL 5.6).
ghost use Rattle.std.specs.Prelude.{◌≡◌, ◌++◌, OnOk};
ghost use Rattle.gql_faults.specs.Places.{spot};
ghost use Rattle.gql_node_rules.specs.Borrowed.{value};
ghost use Rattle.gql_node_rules.specs.ValueFaults as spec;

use gql_ast::{Fault, FileName, InputValueDefinition, Literal, Rule};
use gql_faults::{Spot, add_fault};
use gql_inputs::{fits, place_of};
use gql_types::Schema;
use std::alloc::{AllocError, Global};

/// A value and its file. Built-in definitions are in no file.
#[derive(Clone, Copy)]
pub struct ValuePlace<'t> {
    pub file: Option<&'t FileName>,
    pub value: &'t Literal,
}

impl<'t> ValuePlace<'t> {
    fn spot(&self) -> Spot<'t>
        ensures { spot result ≡ spec.start_of (value self.now) }
    {
        Spot {
            file: self.file,
            place: place_of(self.value),
        }
    }
}

/// Adds a fault at the start of a value, about its argument or input field, unless it fits the
/// type.
pub fn add_unless_fits(
    alloc: Global,
    rule: Rule,
    schema: &Schema,
    definition: &InputValueDefinition,
    given: &ValuePlace<'_>,
    faults: &mut Vec<Fault>,
) -> Result<(), AllocError>
    ensures { OnOk result (faults.new.items ≡ faults.old.items
        ++ spec.fault_unless_fit rule schema.now definition.now (value given.now)) }
{
    if !fits(alloc, schema, given.value, &definition.of_type)? {
        let name = definition.name.as_str();
        add_fault(alloc, rule, name, &given.spot(), faults)?;
    }
    Ok(())
}
