//! S17, Input Object Cycles: an input object refers to itself through Non-Null fields.
//! <https://spec.graphql.org/October2021/#sec-Input-Objects>
//!
//! At fault: `type Query { a(i: I): Int } input I { i: I! }`
//! No fault: `type Query { a(i: I): Int } input I { i: [I!]! }`
ghost use Rattle.std.specs.Prelude.{◌≡◌, ◌↔◌, ◌⊎◌, ◌++◌, ◌∷◌, [], ℕ, List, IfOk, OnOk, IsTrue, Contains, map, flat_map};
ghost use Rattle.std.specs.Option.{option_copied};
ghost use Rattle.gql_ast.specs.declared.fault.Fault.{Fault as TheFault};
ghost use Rattle.gql_cycles.specs.Names.{Leads, row_of};
ghost use Rattle.gql_iface_rules.specs.Checked.{HasRowsOf};
ghost use Rattle.gql_iface_rules.specs.S17InputObjectCycles as spec;
ghost use Rattle.gql_types.specs.Written.{written};

use gql_ast::{Fault, InputValueDefinition, Rule, Shared, TypeRef};
use gql_built_in::Sited;
use gql_cycles::{Row, names_on_cycles};
use gql_faults::{NamePlace, add_fault_of};
use gql_types::{Batched, HasName, Schema, SchemaType, TypeKind, is_same_name};
use std::alloc::{AllocError, Global};

/// The name of a type, unless it is a list or Non-Null.
#[tactic(auto, using(gql_types::specs::Written::written_named, gql_types::specs::Written::written_list, gql_types::specs::Written::written_non_null))]
fn name_itself(of_type: &TypeRef) -> Option<&str>
    ensures { option_copied result ≡ spec.name_itself (written of_type.now) }
{
    match of_type {
        TypeRef::Named(name) => Some(name.as_str()),
        TypeRef::List { .. } | TypeRef::NonNull(_) => None,
    }
}

/// The name that a field of this type needs.
#[tactic(auto, using(gql_types::specs::Written::written_named, gql_types::specs::Written::written_list, gql_types::specs::Written::written_non_null))]
fn needed_name(of_type: &TypeRef) -> Option<&str>
    ensures { option_copied result ≡ spec.needed_name (written of_type.now) }
{
    match of_type {
        TypeRef::NonNull(of_type) => name_itself(of_type.get()),
        TypeRef::Named(_) | TypeRef::List { .. } => None,
    }
}

/// Adds the name that a field needs.
fn add_needed<'s>(
    field: &'s Sited<Shared<InputValueDefinition>>,
    names: &mut Vec<&'s str>,
) -> Result<(), AllocError>
    ensures { OnOk result (map (λ n. n.now) names.new.items ≡ map (λ n. n.now) names.old.items
        ++ spec.needed_by field.now) }
{
    if let Some(name) = needed_name(&field.node.get().of_type) {
        names.push(name)?;
    }
    Ok(())
}

/// The names that these fields need.
fn needs(
    alloc: Global,
    fields: &[Sited<Shared<InputValueDefinition>>],
) -> Result<Vec<&str>, AllocError>
    ensures { IfOk result (λ names. map (λ n. n.now) names.items ≡ spec.needs fields.now) }
{
    let mut names = Vec::new(alloc);
    for field in fields {
        add_needed(field, &mut names)?;
    }
    Ok(names)
}

/// Adds the row of a type, if it is an input object.
fn add_input_row<'s>(
    alloc: Global,
    of_type: &'s SchemaType,
    rows: &mut Vec<Row<'s>>,
) -> Result<(), AllocError>
    ensures { OnOk result (map row_of rows.new.items ≡ map row_of rows.old.items
        ++ spec.input_row of_type.now.kind of_type.now) }
{
    match of_type.kind {
        TypeKind::InputObject => {
            let name = of_type.name();
            let leads = needs(alloc, of_type.input_fields.as_slice())?;
            rows.push(Row { name, leads })?;
            Ok(())
        }
        TypeKind::Scalar
        | TypeKind::Object
        | TypeKind::Interface
        | TypeKind::Union
        | TypeKind::Enum => Ok(()),
    }
}

/// The rows of all input objects.
fn input_rows(alloc: Global, schema: &Schema) -> Result<Vec<Row<'_>>, AllocError>
    ensures { IfOk result (λ rows. map row_of rows.items ≡ spec.input_rows schema.now) }
{
    let mut rows = Vec::new(alloc);
    for of_type in schema.types() {
        add_input_row(alloc, of_type.get(), &mut rows)?;
    }
    Ok(rows)
}

/// Adds a fault at the first definition of the type of a name.
fn add_at_type(
    alloc: Global,
    schema: &Schema,
    name: &str,
    faults: &mut Vec<Fault>,
) -> Result<(), AllocError>
    ensures { OnOk result (faults.new.items ≡ faults.old.items
        ++ spec.fault_at_type schema.now name.now) }
{
    match schema.get(name) {
        Some(of_type) => {
            let name = NamePlace::of_node(&of_type.definition);
            add_fault_of(alloc, Rule::S17, &name, faults)
        }
        None => Ok(()),
    }
}

/// Adds a fault at the first definition of the type of each name.
fn add_at_types(
    alloc: Global,
    schema: &Schema,
    names: &[&str],
    faults: &mut Vec<Fault>,
) -> Result<(), AllocError>
    ensures { OnOk result (faults.new.items ≡ faults.old.items
        ++ flat_map (spec.fault_at_type schema.now) (map (λ n. n.now) names.now)) }
{
    for name in names {
        add_at_type(alloc, schema, name, faults)?;
    }
    Ok(())
}

/// The names of the input objects that lead back to themselves.
fn input_cycles(alloc: Global, schema: &Schema) -> Result<Vec<&str>, AllocError>
    ensures sound { IfOk result
        (λ names. (n : List ℕ) → Contains (map (λ m. m.now) names.items) n
        → Leads (spec.input_rows schema.now) n n) }
    ensures complete { IfOk result
        (λ names. (n : List ℕ) → Leads (spec.input_rows schema.now) n n
        → Contains (map (λ m. m.now) names.items) n) }
{
    let rows = input_rows(alloc, schema)?;
    names_on_cycles(alloc, rows.as_slice())
}

/// Whether two names are the same.
fn is_same(name: &str, other: &str) -> bool
    ensures { IsTrue result → name.now ≡ other.now }
{
    is_same_name(name, other)
}

/// Whether two lists have the same names in the same order.
fn have_same_names(names: &[&str], others: &[&str]) -> bool
    ensures { IsTrue result → map (λ n. n.now) names.now ≡ map (λ n. n.now) others.now }
{
    if names.len() != others.len() {
        return false;
    }
    for i in 0..names.len() {
        if !is_same(names[i], others[i]) {
            return false;
        }
    }
    true
}

/// Whether two input objects of one name need the same types.
fn needs_the_same(
    alloc: Global,
    of_type: &SchemaType,
    other: &SchemaType,
) -> Result<bool, AllocError>
    ensures { IfOk result (λ is_same. IsTrue is_same
        → spec.needs of_type.now.input_fields ≡ spec.needs other.now.input_fields) }
{
    let names = needs(alloc, of_type.input_fields.as_slice())?;
    let others = needs(alloc, other.input_fields.as_slice())?;
    Ok(have_same_names(names.as_slice(), others.as_slice()))
}

/// Whether a type is no input object, or one that its name was before, which needs the same.
fn has_kept_row(alloc: Global, before: &Schema, of_type: &SchemaType) -> Result<bool, AllocError>
    ensures { IfOk result (λ is_kept. IsTrue is_kept → HasRowsOf before.now (of_type.now ∷ [])) }
{
    if !of_type.kind.is(TypeKind::InputObject) {
        return Ok(true);
    }
    match before.get(of_type.name()) {
        Some(its) => {
            if !its.kind.is(TypeKind::InputObject) {
                return Ok(false);
            }
            let is_same = needs_the_same(alloc, of_type, its)?;
            Ok(is_same && is_same_name(of_type.name(), its.name()))
        }
        None => Ok(false),
    }
}

/// Whether each input object among these types was one before, which needed the same.
pub fn keeps_rows(
    alloc: Global,
    before: &Schema,
    types: &[Batched<SchemaType>],
) -> Result<bool, AllocError>
    ensures { IfOk result (λ keeps. IsTrue keeps → HasRowsOf before.now types.now) }
{
    for of_type in types {
        if !has_kept_row(alloc, before, of_type.get())? {
            return Ok(false);
        }
    }
    Ok(true)
}

/// Adds the faults by S17. The result is whether it finds nothing.
pub fn check(alloc: Global, schema: &Schema, faults: &mut Vec<Fault>) -> Result<bool, AllocError>
    ensures faults { OnOk result ((f : TheFault)
        → Contains faults.new.items f ↔ (Contains faults.old.items f ⊎ spec.IsFault schema.now f)) }
    ensures none { IfOk result (λ finds_none. IsTrue finds_none → (n : List ℕ)
        → Leads (spec.input_rows schema.now) n n → ⊥) }
{
    let names = input_cycles(alloc, schema)?;
    add_at_types(alloc, schema, names.as_slice(), faults)?;
    Ok(names.is_empty())
}
