//! Lists of names, and the names that occur more than once.
ghost use Rattle.std.specs.Prelude.{◌≡◌, ◌+◌, ◌++◌, ◌∷◌, [], ℕ, List, IfOk, OnOk, map, bytes_eq, nat_lt, unwrap_or, filter, if◌then◌else◌};
ghost use Rattle.std.specs.HashMap as hash;
ghost use Rattle.gql_faults.specs.Apart as apart;
ghost use Rattle.gql_faults.specs.Names as spec;
ghost use Rattle.gql_faults.specs.Faults.{own_name_of};
ghost use Rattle.gql_faults.specs.Places.{named};

use crate::fault::add_faults;
use crate::place::{HasOwnName, NamePlace};
use gql_ast::{Fault, Name, Rule, Shared};
use gql_built_in::Sited;
use gql_types::is_same_name;
use std::alloc::{AllocError, Global};
use std::collections::HashMap;

/// These names of the schema.
pub fn name_places<'t>(
    alloc: Global,
    names: &'t [Sited<Name>],
) -> Result<Vec<NamePlace<'t>>, AllocError>
    ensures { IfOk result (λ places. map named places.items ≡ names.now) }
{
    let mut places = Vec::with_capacity(alloc, names.len())?;
    for name in names {
        places.push(NamePlace::of(name))?;
    }
    Ok(places)
}

/// The names of these nodes of the schema.
pub fn own_names<'t, T: HasOwnName>(
    alloc: Global,
    nodes: &'t [Sited<Shared<T>>],
) -> Result<Vec<NamePlace<'t>>, AllocError>
    ensures { IfOk result
        (λ places. map named places.items ≡ map (own_name_of T.own_name) nodes.now) }
{
    let mut places = Vec::with_capacity(alloc, nodes.len())?;
    for node in nodes {
        places.push(NamePlace::of_node(node))?;
    }
    Ok(places)
}

/// How often each text occurs among these names.
#[tactic(auto, using(crate::proofs::Counting::count_named))]
pub fn counts<'t>(
    alloc: Global,
    names: &[NamePlace<'t>],
) -> Result<HashMap<&'t str, usize>, AllocError>
    ensures { IfOk result (λ counts. (q : List ℕ) →
        unwrap_or (hash.get_by (λ k. bytes_eq q k.now) counts) 0
        ≡ spec.count_of q (map named names.now)) }
{
    let mut counts = HashMap::new(alloc);
    for name in names {
        let text = name.name.as_str();
        let seen = counts.get(text).copied().unwrap_or(0);
        counts.insert(text, seen + 1)?;
    }
    Ok(counts)
}

fn add_if_repeated<'t>(
    counts: &HashMap<&str, usize>,
    name: &NamePlace<'t>,
    found: &mut Vec<NamePlace<'t>>,
) -> Result<(), AllocError>
    ensures { OnOk result (map named found.new.items ≡ map named found.old.items
        ++ (if nat_lt 1 (unwrap_or (hash.get_by
        (λ k. bytes_eq name.now.name.now.text k.now) counts.now) 0) then named name.now ∷ []
        else [])) }
{
    if counts.get(name.name.as_str()).copied().unwrap_or(0) > 1 {
        found.push(*name)?;
    }
    Ok(())
}

/// How many names are compared each with each at most.
const FEW: usize = 32;

/// Whether one of these names has this text.
fn is_there(text: &str, names: &[NamePlace<'_>]) -> bool
    ensures { result ≡ apart.is_there text.now (map named names.now) }
{
    match names {
        [first, rest @ ..] => is_same_name(text, first.name.as_str()) || is_there(text, rest),
        [] => false,
    }
}

/// Whether no text occurs twice among these names.
fn are_apart(names: &[NamePlace<'_>]) -> bool
    ensures { result ≡ apart.are_apart (map named names.now) }
{
    match names {
        [first, rest @ ..] => !is_there(first.name.as_str(), rest) && are_apart(rest),
        [] => true,
    }
}

/// The names whose text occurs more than once among these, each of them.
pub fn repeated<'t>(
    alloc: Global,
    names: &[NamePlace<'t>],
) -> Result<Vec<NamePlace<'t>>, AllocError>
    ensures { IfOk result (λ found. map named found.items ≡ spec.repeated (map named names.now)) }
{
    if names.len() <= FEW && are_apart(names) {
        return Ok(Vec::new(alloc));
    }
    let counts = counts(alloc, names)?;
    let mut found = Vec::new(alloc);
    for name in names {
        add_if_repeated(&counts, name, &mut found)?;
    }
    Ok(found)
}

/// Adds a fault at each name that occurs more than once, about it.
pub fn add_repeated(
    alloc: Global,
    rule: Rule,
    names: &[NamePlace<'_>],
    faults: &mut Vec<Fault>,
) -> Result<(), AllocError>
    ensures { OnOk result (faults.new.items ≡ faults.old.items
        ++ spec.repeated_faults rule (map named names.now)) }
{
    let found = repeated(alloc, names)?;
    add_faults(alloc, rule, found.as_slice(), faults)
}

/// Adds a fault at each of these nodes whose name occurs more than once among them, about it.
pub fn add_repeated_nodes<T: HasOwnName>(
    alloc: Global,
    rule: Rule,
    nodes: &[Sited<Shared<T>>],
    faults: &mut Vec<Fault>,
) -> Result<(), AllocError>
    ensures { OnOk result (faults.new.items ≡ faults.old.items
        ++ spec.repeated_faults rule (map (own_name_of T.own_name) nodes.now)) }
{
    if nodes.len() < 2 {
        // one name is not repeated
        return Ok(());
    }
    let names = own_names(alloc, nodes)?;
    add_repeated(alloc, rule, names.as_slice(), faults)
}

/// Adds a fault at each of these names that occurs more than once among them, about it.
pub fn add_repeated_names(
    alloc: Global,
    rule: Rule,
    names: &[Sited<Name>],
    faults: &mut Vec<Fault>,
) -> Result<(), AllocError>
    ensures { OnOk result (faults.new.items ≡ faults.old.items
        ++ spec.repeated_faults rule names.now) }
{
    if names.len() < 2 {
        // one name is not repeated
        return Ok(());
    }
    let places = name_places(alloc, names)?;
    add_repeated(alloc, rule, places.as_slice(), faults)
}
