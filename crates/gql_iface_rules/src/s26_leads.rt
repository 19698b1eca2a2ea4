//! Whether directives lead to anything that leads on. Mostly none does, and no directive is then on
//! a cycle.
ghost use Rattle.std.specs.Prelude.{◌≡◌, ◌++◌, ℕ, List, false, map, flat_map, find, bytes_eq, is_some, IfOk, OnOk};
ghost use Rattle.std.specs.List.{All, list_any};
ghost use Rattle.gql_iface_rules.specs.Borrowed.{steps};
ghost use Rattle.gql_iface_rules.specs.S26DirectiveCycles.{without_sign};
ghost use Rattle.gql_iface_rules.specs.S26Leads as spec;

use crate::s26_directive_cycles::without_sign;
use crate::s26_rows::{OwnedRow, add_directive_rows, type_row};
use gql_ast::Text;
use gql_faults::first_directives;
use gql_types::{Batched, HasName, Named, Schema, SchemaType};
use std::alloc::{AllocError, Global};

/// Adds these names.
fn add_names(names: &[Text], found: &mut Vec<Text>) -> Result<(), AllocError>
    ensures { OnOk result (found.new.items ≡ found.old.items ++ names.now) }
{
    for name in names {
        found.push(name.copy()?)?;
    }
    Ok(())
}

/// The names to which these rows lead.
fn lead_names(alloc: Global, rows: &[OwnedRow]) -> Result<Named<Text>, AllocError>
    ensures { IfOk result (λ names. names ≡ flat_map (λ row. row.leads) (map steps rows.now)) }
{
    let mut found = Vec::new(alloc);
    for row in rows {
        add_names(row.leads.as_slice(), &mut found)?;
    }
    Named::new(alloc, found)
}

/// Whether a name begins with `@`.
fn has_sign(name: &str) -> bool
    ensures { result ≡ is_some (without_sign name.now) }
{
    without_sign(name).is_some()
}

/// Whether one of these names begins with `@`.
fn any_has_sign(names: &[Text]) -> bool
    ensures { result ≡ list_any (λ n. is_some (without_sign n)) names.now }
{
    names.iter().any(|name| has_sign(name.as_str()))
}

/// Whether a name is one of these.
fn is_listed(names: &Named<Text>, name: &str) -> bool
    ensures { result ≡ is_some (find (λ n. bytes_eq name.now n) names.now) }
{
    names.get(name).is_some()
}

/// Whether a type has a name with `@`, or one of these names and leads on.
fn is_led_on(alloc: Global, of_type: &SchemaType, names: &Named<Text>) -> Result<bool, AllocError>
    ensures { IfOk result (λ on. on ≡ false → spec.LeadsNowhere names.now of_type.now) }
{
    if has_sign(of_type.name()) {
        return Ok(true);
    }
    if !is_listed(names, of_type.name()) {
        return Ok(false);
    }
    let row = type_row(alloc, of_type)?;
    Ok(!row.leads.is_empty())
}

/// The same for one of these types.
fn is_any_led_on(
    alloc: Global,
    types: &[Batched<SchemaType>],
    names: &Named<Text>,
) -> Result<bool, AllocError>
    ensures { IfOk result (λ on. on ≡ false → All (spec.LeadsNowhere names.now) types.now) }
{
    for of_type in types {
        if is_led_on(alloc, of_type.get(), names)? {
            return Ok(true);
        }
    }
    Ok(false)
}

/// The names to which the directives lead.
fn directive_leads(alloc: Global, schema: &Schema) -> Result<Named<Text>, AllocError>
    ensures { IfOk result (λ names. names ≡ spec.directive_leads schema.now) }
{
    let firsts = first_directives(alloc, schema.directives())?;
    let mut rows = Vec::new(alloc);
    add_directive_rows(alloc, firsts.as_slice(), &mut rows)?;
    lead_names(alloc, rows.as_slice())
}

/// Whether a directive may lead back to itself: by these types, as all others lead nowhere.
pub fn may_cycle(
    alloc: Global,
    schema: &Schema,
    types: &[Batched<SchemaType>],
) -> Result<bool, AllocError>
    ensures unsigned { IfOk result (λ may. may ≡ false
        → list_any (λ n. is_some (without_sign n)) (spec.directive_leads schema.now) ≡ false) }
    ensures nowhere { IfOk result (λ may. may ≡ false
        → All (spec.LeadsNowhere (spec.directive_leads schema.now)) types.now) }
{
    let names = directive_leads(alloc, schema)?;
    if any_has_sign(names.as_slice()) {
        return Ok(true);
    }
    let on = is_any_led_on(alloc, types, &names)?;
    Ok(on)
}
