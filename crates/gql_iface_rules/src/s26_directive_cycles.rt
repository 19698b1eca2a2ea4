//! S26, Directive Cycles: the definition of a directive refers to the directive itself.
//! <https://spec.graphql.org/October2021/#sec-Type-System.Directives>
//!
//! At fault: `type Query { a: Int } directive @d(a: Int @d) on ARGUMENT_DEFINITION`
//! No fault: `type Query { a(b: Int @d): Int } directive @d(a: Int) on ARGUMENT_DEFINITION`
ghost use Rattle.std.specs.Prelude.{◌≡◌, ◌↔◌, ◌⊎◌, ◌++◌, ℕ, List, IfOk, OnOk, IsTrue, Contains, map, flat_map};
ghost use Rattle.std.specs.List.{All};
ghost use Rattle.std.specs.Option.{option_copied};
ghost use Rattle.gql_ast.specs.declared.fault.Fault.{Fault as TheFault};
ghost use Rattle.gql_cycles.specs.Names.{Leads, row_of};
ghost use Rattle.gql_iface_rules.specs.Borrowed.{steps};
ghost use Rattle.gql_iface_rules.specs.Quiet.{DirectivesEnd};
ghost use Rattle.gql_iface_rules.specs.S26DirectiveCycles as spec;
ghost use Rattle.gql_iface_rules.specs.S26Leads.{LeadsNowhere, directive_leads};

use crate::s26_leads::may_cycle;
use crate::s26_rows::{OwnedRow, definition_rows};
use gql_ast::{Fault, Rule, Text};
use gql_cycles::{Row, names_on_cycles};
use gql_faults::{NamePlace, add_fault_of};
use gql_types::{Batched, Schema, SchemaType};
use std::alloc::{AllocError, Global};

/// These names, borrowed.
fn borrowed_names(alloc: Global, names: &[Text]) -> Result<Vec<&str>, AllocError>
    ensures { IfOk result (λ found. map (λ n. n.now) found.items ≡ names.now) }
{
    let mut found = Vec::with_capacity(alloc, names.len())?;
    for name in names {
        found.push(name.as_str())?;
    }
    Ok(found)
}

/// A row, borrowed.
fn borrowed_row<'n>(alloc: Global, owned: &'n OwnedRow) -> Result<Row<'n>, AllocError>
    ensures { IfOk result (λ row. row_of row ≡ steps owned.now) }
{
    let name = owned.name.as_str();
    let leads = borrowed_names(alloc, owned.leads.as_slice())?;
    Ok(Row { name, leads })
}

/// These rows, borrowed.
fn borrowed_rows(alloc: Global, owned: &[OwnedRow]) -> Result<Vec<Row<'_>>, AllocError>
    ensures { IfOk result (λ rows. map row_of rows.items ≡ map steps owned.now) }
{
    let mut rows = Vec::with_capacity(alloc, owned.len())?;
    for row in owned {
        rows.push(borrowed_row(alloc, row)?)?;
    }
    Ok(rows)
}

/// The name of the directive, if this is the name of one with `@` before it.
pub fn without_sign(name: &str) -> Option<&str>
    ensures { option_copied result ≡ spec.without_sign name.now }
{
    name.strip_prefix('@')
}

/// Adds a fault at the first definition of the directive of a name.
fn add_at_directive(
    alloc: Global,
    schema: &Schema,
    name: &str,
    faults: &mut Vec<Fault>,
) -> Result<(), AllocError>
    ensures { OnOk result (faults.new.items
        ≡ faults.old.items ++ spec.fault_at_directive schema.now name.now) }
{
    match schema.directive(name) {
        Some(directive) => add_fault_of(alloc, Rule::S26, &NamePlace::of_node(directive), faults),
        None => Ok(()),
    }
}

/// Adds a fault at the first definition of the directive of a name with `@`.
fn add_at_name(
    alloc: Global,
    schema: &Schema,
    name: &str,
    faults: &mut Vec<Fault>,
) -> Result<(), AllocError>
    ensures { OnOk result (faults.new.items ≡ faults.old.items
        ++ spec.fault_at_name schema.now name.now) }
{
    match without_sign(name) {
        Some(name) => add_at_directive(alloc, schema, name, faults),
        None => Ok(()),
    }
}

/// The same for each of these names.
fn add_at_names(
    alloc: Global,
    schema: &Schema,
    names: &[&str],
    faults: &mut Vec<Fault>,
) -> Result<(), AllocError>
    ensures { OnOk result (faults.new.items ≡ faults.old.items
        ++ flat_map (spec.fault_at_name schema.now) (map (λ n. n.now) names.now)) }
{
    for name in names {
        add_at_name(alloc, schema, name, faults)?;
    }
    Ok(())
}

/// The names that lead back to themselves.
fn cycle_names<'n>(alloc: Global, owned: &'n [OwnedRow]) -> Result<Vec<&'n str>, AllocError>
    ensures sound { IfOk result
        (λ names. (n : List ℕ) → Contains (map (λ m. m.now) names.items) n
        → Leads (map steps owned.now) n n) }
    ensures complete { IfOk result
        (λ names. (n : List ℕ) → Leads (map steps owned.now) n n
        → Contains (map (λ m. m.now) names.items) n) }
{
    let rows = borrowed_rows(alloc, owned)?;
    names_on_cycles(alloc, rows.as_slice())
}

/// Adds the faults of all directives that lead back to themselves.
fn check_all(alloc: Global, schema: &Schema, faults: &mut Vec<Fault>) -> Result<(), AllocError>
    ensures { OnOk result ((f : TheFault)
        → Contains faults.new.items f ↔ (Contains faults.old.items f ⊎ spec.IsFault schema.now f)) }
{
    let owned = definition_rows(alloc, schema)?;
    let names = cycle_names(alloc, owned.as_slice())?;
    add_at_names(alloc, schema, names.as_slice(), faults)?;
    Ok(())
}

/// Adds the faults by S26, if a directive may lead back to itself by these types: of all others it is
/// known that they lead nowhere. The result is whether none may.
pub fn check(
    alloc: Global,
    schema: &Schema,
    types: &[Batched<SchemaType>],
    faults: &mut Vec<Fault>,
) -> Result<bool, AllocError>
    ensures faults { OnOk result ((All (LeadsNowhere (directive_leads schema.now)) types.now
        → All (LeadsNowhere (directive_leads schema.now)) schema.now.types)
        → (f : TheFault) → Contains faults.new.items f
        ↔ (Contains faults.old.items f ⊎ spec.IsFault schema.now f)) }
    ensures none { IfOk result (λ finds_none. IsTrue finds_none
        → (All (LeadsNowhere (directive_leads schema.now)) types.now
        → All (LeadsNowhere (directive_leads schema.now)) schema.now.types)
        → DirectivesEnd schema.now) }
{
    let may = may_cycle(alloc, schema, types)?;
    if !may {
        return Ok(true);
    }
    check_all(alloc, schema, faults)?;
    Ok(false)
}
