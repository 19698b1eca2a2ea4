//! The names to which types and directives lead, for S26.
ghost use Rattle.std.specs.Prelude.{◌≡◌, ◌++◌, IfOk, OnOk, map, flat_map};
ghost use Rattle.gql_faults.specs.Directives.{first_directives as firsts_of};
ghost use Rattle.gql_iface_rules.specs.Borrowed.{steps};
ghost use Rattle.gql_iface_rules.specs.S26DirectiveCycles as spec;

use crate::s26_parts::{
    add_applied, add_extensions, add_fields, add_input_fields, add_inputs, add_values, at_sign,
};
use gql_ast::{DirectiveDefinition, Items, Shared, Text};
use gql_built_in::Sited;
use gql_faults::first_directives;
use gql_types::{Batched, Schema, SchemaType};
use std::alloc::{AllocError, Global};

/// A type or a directive, and the names to which it leads.
#[derive(Drop)]
pub struct OwnedRow {
    pub name: Text,
    pub leads: Items<Text>,
}

/// The row of a type.
pub fn type_row(alloc: Global, of_type: &SchemaType) -> Result<OwnedRow, AllocError>
    ensures { IfOk result (λ row. steps row ≡ spec.type_row of_type.now) }
{
    let definition = of_type.definition.node.get();
    let mut leads = Items::new(alloc);
    add_applied(alloc, definition.directives.as_slice(), &mut leads)?;
    add_extensions(alloc, of_type.extensions.as_slice(), &mut leads)?;
    add_fields(alloc, of_type.fields.as_slice(), &mut leads)?;
    add_values(alloc, of_type.values.as_slice(), &mut leads)?;
    add_input_fields(alloc, of_type.input_fields.as_slice(), &mut leads)?;
    let name = definition.name.text.copy()?;
    Ok(OwnedRow { name, leads })
}

/// The row of a directive.
fn directive_row(
    alloc: Global,
    directive: &Sited<Shared<DirectiveDefinition>>,
) -> Result<OwnedRow, AllocError>
    ensures { IfOk result (λ row. steps row ≡ spec.directive_row directive.now) }
{
    let definition = directive.node.get();
    let mut leads = Items::new(alloc);
    add_inputs(alloc, definition.arguments.as_slice(), &mut leads)?;
    let name = at_sign(alloc, definition.name.as_str())?;
    Ok(OwnedRow { name, leads })
}

/// Adds the rows of types.
fn add_type_rows(
    alloc: Global,
    types: &[Batched<SchemaType>],
    rows: &mut Vec<OwnedRow>,
) -> Result<(), AllocError>
    ensures { OnOk result (map steps rows.new.items ≡ map steps rows.old.items
        ++ map spec.type_row types.now) }
{
    for of_type in types {
        rows.push(type_row(alloc, of_type.get())?)?;
    }
    Ok(())
}

/// Adds the rows of directives.
pub fn add_directive_rows(
    alloc: Global,
    directives: &[&Sited<Shared<DirectiveDefinition>>],
    rows: &mut Vec<OwnedRow>,
) -> Result<(), AllocError>
    ensures { OnOk result (map steps rows.new.items ≡ map steps rows.old.items
        ++ map spec.directive_row (map (λ d. d.now) directives.now)) }
{
    for directive in directives {
        rows.push(directive_row(alloc, directive)?)?;
    }
    Ok(())
}

/// The rows of all types and directives.
pub fn definition_rows(alloc: Global, schema: &Schema) -> Result<Vec<OwnedRow>, AllocError>
    ensures { IfOk result (λ rows. map steps rows.items ≡ spec.definition_rows schema.now) }
{
    let mut rows = Vec::new(alloc);
    add_type_rows(alloc, schema.types(), &mut rows)?;
    let firsts = first_directives(alloc, schema.directives())?;
    add_directive_rows(alloc, firsts.as_slice(), &mut rows)?;
    Ok(rows)
}
