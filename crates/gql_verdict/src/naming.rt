//! Definitions with their names, and names that occur more than once.
ghost use Rattle.std.specs.Prelude.{◌≡◌, ◌++◌, ◌∷◌, ◌||◌, [], ℕ, List, false, IfOk, OnOk, map, option_map, bytes_eq, is_some, nat_lt, unwrap_or, if◌then◌else◌};
ghost use Rattle.std.specs.HashMap as hash;
ghost use Rattle.gql_verdict.specs.Borrowed.{named};
ghost use Rattle.gql_verdict.specs.Definitions.{operation_name as name_of_operation, fragment_name as name_of_fragment};
ghost use Rattle.gql_verdict.specs.Naming as spec;

use crate::definitions::{fragment_name, operation_name};
use gql_ast::{Definition, Fault, Name, Rule};
use gql_rules::counts::{IsNamed, counts, is_repeated};
use gql_rules::{add_fault_of, owner_of};
use std::alloc::{AllocError, Global};
use std::collections::HashMap;

/// A definition and its name.
#[derive(Drop)]
pub struct NamedDefinition<'t> {
    pub definition: &'t Definition,
    pub name: &'t Name,
}

impl IsNamed for NamedDefinition<'_> {
    ghost name = { λ n. n.name.now.text };

    fn name(&self) -> &str {
        self.name.as_str()
    }
}

/// Adds a definition with this name, if it has one.
fn add_named<'t>(
    definition: &'t Definition,
    name: Option<&'t Name>,
    found: &mut Vec<NamedDefinition<'t>>,
) -> Result<(), AllocError>
    ensures { OnOk result (map named found.new.items ≡ map named found.old.items
        ++ spec.with_name definition.now (option_map (λ n. n.now) name.entry)) }
{
    if let Some(name) = name {
        found.push(NamedDefinition { definition, name })?;
    }
    Ok(())
}

/// The operations that have a name.
pub fn named_operations<'t>(
    alloc: Global,
    definitions: &[&'t Definition],
) -> Result<Vec<NamedDefinition<'t>>, AllocError>
    ensures { IfOk result (λ found. map named found.items
        ≡ spec.named_by name_of_operation (map (λ d. d.now) definitions.now)) }
{
    let mut found = Vec::new(alloc);
    for definition in definitions {
        add_named(definition, operation_name(&definition.tree), &mut found)?;
    }
    Ok(found)
}

/// The fragments with their names.
pub fn named_fragments<'t>(
    alloc: Global,
    definitions: &[&'t Definition],
) -> Result<Vec<NamedDefinition<'t>>, AllocError>
    ensures { IfOk result (λ found. map named found.items
        ≡ spec.named_by name_of_fragment (map (λ d. d.now) definitions.now)) }
{
    let mut found = Vec::new(alloc);
    for definition in definitions {
        add_named(definition, fragment_name(&definition.tree), &mut found)?;
    }
    Ok(found)
}

/// Adds a fault at the name of a definition, which owns it.
pub fn add_fault_of_name(
    alloc: Global,
    rule: Rule,
    one: &NamedDefinition<'_>,
    faults: &mut Vec<Fault>,
) -> Result<(), AllocError>
    ensures { OnOk result (faults.new.items ≡ faults.old.items
        ++ spec.fault_of_name rule (named one.now) ∷ []) }
{
    let owner = owner_of(one.definition)?;
    add_fault_of(alloc, &owner, rule, one.name, faults)
}

/// Adds a name to a set. Returns whether the set had it.
fn put_name<'t>(set: &mut HashMap<&'t str, ()>, name: &'t str) -> Result<bool, AllocError>
    ensures had { IfOk result (λ had.
        had ≡ is_some (hash.get_by (λ k. bytes_eq name.now k.now) set.old)) }
    ensures names { OnOk result ((q : List ℕ) →
        is_some (hash.get_by (λ k. bytes_eq q k.now) set.new)
        ≡ (is_some (hash.get_by (λ k. bytes_eq q k.now) set.old) || bytes_eq q name.now)) }
{
    let old = set.insert(name, ())?;
    Ok(old.is_some())
}

/// Whether some name occurs more than once. It is looked up once for each definition.
fn has_repeated(alloc: Global, all: &[NamedDefinition<'_>]) -> Result<bool, AllocError>
    ensures { IfOk result (λ repeated.
        repeated ≡ false → spec.IsEachOnce (map named all.now)) }
{
    let mut set: HashMap<&str, ()> = HashMap::with_capacity(alloc, all.len())?;
    for one in all {
        let had = put_name(&mut set, one.name.as_str())?;
        if had {
            return Ok(true);
        }
    }
    Ok(false)
}

/// Adds the fault of a definition whose name occurs more than once, by these counts.
fn add_if_repeated(
    alloc: Global,
    rule: Rule,
    counts: &HashMap<&str, usize>,
    one: &NamedDefinition<'_>,
    faults: &mut Vec<Fault>,
) -> Result<(), AllocError>
    ensures { OnOk result (faults.new.items ≡ faults.old.items
        ++ (if nat_lt 1 (unwrap_or
        (hash.get_by (λ k. bytes_eq one.now.name.now.text k.now) counts.now) 0)
        then spec.fault_of_name rule (named one.now) ∷ []
        else [])) }
{
    if is_repeated(counts, one.name.as_str()) {
        add_fault_of_name(alloc, rule, one, faults)?;
    }
    Ok(())
}

/// Adds a fault at each name that occurs more than once. Names are counted only if there is one.
pub fn add_repeated(
    alloc: Global,
    rule: Rule,
    all: &[NamedDefinition<'_>],
    faults: &mut Vec<Fault>,
) -> Result<(), AllocError>
    ensures { OnOk result (faults.new.items ≡ faults.old.items
        ++ spec.repeated_faults rule (map named all.now)) }
{
    let repeated = has_repeated(alloc, all)?;
    if !repeated {
        return Ok(());
    }
    let counts = counts(alloc, all)?;
    for one in all {
        add_if_repeated(alloc, rule, &counts, one, faults)?;
    }
    Ok(())
}
