//! V14, Fragments Must Be Used: no spread of the document names the fragment.
//! <https://spec.graphql.org/October2021/#sec-Fragments-Must-Be-Used>
//!
//! At fault: `{ dog { name } } fragment F on Dog { name }`
//! No fault: `{ dog { ...F } } fragment F on Dog { name }`
ghost use Rattle.std.specs.Prelude.{◌≡◌, ◌++◌, ◌∷◌, [], ℕ, List, OnOk, bytes_eq, flat_map, is_some, map, if◌then◌else◌};
ghost use Rattle.std.specs.HashMap as hash;
ghost use Rattle.gql_ast.specs.declared.rule.Rule.TheVariants as rule;
ghost use Rattle.gql_verdict.specs.Borrowed.{named};
ghost use Rattle.gql_verdict.specs.Naming.{fault_of_name};
ghost use Rattle.gql_verdict.specs.Spreads.{Names};
ghost use Rattle.gql_verdict.specs.V14FragmentsMustBeUsed as spec;

use crate::naming::{NamedDefinition, add_fault_of_name, named_fragments};
use crate::spreads::spread_names;
use gql_ast::{Definition, Fault, Rule};
use std::alloc::{AllocError, Global};
use std::collections::HashMap;

fn check_fragment(
    alloc: Global,
    spread: &HashMap<&str, ()>,
    fragment: &NamedDefinition<'_>,
    faults: &mut Vec<Fault>,
) -> Result<(), AllocError>
    ensures { OnOk result (faults.new.items ≡ faults.old.items
        ++ (if is_some (hash.get_by
        (λ k. bytes_eq fragment.now.name.now.text k.now) spread.now) then []
        else fault_of_name rule.V14 (named fragment.now) ∷ [])) }
{
    if spread.get(fragment.name.as_str()).is_none() {
        add_fault_of_name(alloc, Rule::V14, fragment, faults)?;
    }
    Ok(())
}

/// Adds the faults of these fragments, by the names that are spread.
fn check_fragments(
    alloc: Global,
    spread: &HashMap<&str, ()>,
    fragments: &[NamedDefinition<'_>],
    faults: &mut Vec<Fault>,
) -> Result<(), AllocError>
    ensures { OnOk result ((names : Names)
        → ((q : List ℕ) → is_some (hash.get_by (λ k. bytes_eq q k.now) spread.now)
        ≡ spec.is_spread names q)
        → faults.new.items ≡ faults.old.items
        ++ flat_map (spec.fault_of_fragment names) (map named fragments.now)) }
{
    for fragment in fragments {
        check_fragment(alloc, spread, fragment, faults)?;
    }
    Ok(())
}

/// Adds the faults by V14.
pub fn check(
    alloc: Global,
    definitions: &[&Definition],
    faults: &mut Vec<Fault>,
) -> Result<(), AllocError>
    ensures { OnOk result (faults.new.items ≡ faults.old.items
        ++ spec.faults (map (λ d. d.now) definitions.now)) }
{
    let spread = spread_names(alloc, definitions)?;
    let fragments = named_fragments(alloc, definitions)?;
    check_fragments(alloc, &spread, fragments.as_slice(), faults)?;
    Ok(())
}
