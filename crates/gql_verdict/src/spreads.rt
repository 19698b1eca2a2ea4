//! The names of fragments that are spread.
ghost use Rattle.std.specs.Prelude.{◌↔◌, ◌≡◌, ◌||◌, ◌++◌, ℕ, List, IfOk, IsTrue, OnOk, bytes_eq, is_some, map};
ghost use Rattle.std.specs.HashMap as hash;
ghost use Rattle.gql_ast.specs.declared.executable.Selection.TheVariants as selections;
ghost use Rattle.gql_verdict.specs.Spreads as spec;
ghost use Rattle.gql_verdict.specs.V14FragmentsMustBeUsed.{is_spread};

use gql_ast::{Definition, Name, Selection, Tree};
use gql_types::is_same_name;
use std::alloc::{AllocError, Global};
use std::collections::HashMap;

#[cycle(selections)]
#[tactic(auto, using(crate::proofs::SpreadForms::in_field, crate::proofs::SpreadForms::in_spread, crate::proofs::SpreadForms::in_inline))]
fn add_selection_spreads<'t>(
    selection: &'t Selection,
    names: &mut Vec<&'t Name>,
) -> Result<(), AllocError>
    ensures { OnOk result (map (λ n. n.now.text) names.new.items
        ≡ map (λ n. n.now.text) names.old.items
        ++ spec.selection_spreads selection.now) }
{
    match selection {
        Selection::Field(field) => add_set_spreads(field.selections.as_slice(), names)?,
        Selection::Spread(spread) => names.push(&spread.name)?,
        Selection::InlineFragment(inline) => add_set_spreads(inline.selections.as_slice(), names)?,
    }
    Ok(())
}

#[cycle(selections)]
fn add_set_spreads<'t>(set: &'t [Selection], names: &mut Vec<&'t Name>) -> Result<(), AllocError>
    ensures { OnOk result (map (λ n. n.now.text) names.new.items
        ≡ map (λ n. n.now.text) names.old.items
        ++ spec.set_spreads set.now) }
{
    for selection in set {
        add_selection_spreads(selection, names)?;
    }
    Ok(())
}

/// Adds the names that are spread in a definition.
fn add_tree_spreads<'t>(tree: &'t Tree, names: &mut Vec<&'t Name>) -> Result<(), AllocError>
    ensures { OnOk result (map (λ n. n.now.text) names.new.items
        ≡ map (λ n. n.now.text) names.old.items
        ++ spec.tree_spreads tree.now) }
{
    match tree {
        Tree::Operation(operation) => add_set_spreads(operation.get().selections.as_slice(), names),
        Tree::Fragment(fragment) => add_set_spreads(fragment.get().selections.as_slice(), names),
        _ => Ok(()),
    }
}

/// The names that are spread in a definition, in their order.
fn tree_spreads<'t>(alloc: Global, tree: &'t Tree) -> Result<Vec<&'t Name>, AllocError>
    ensures { IfOk result (λ names. map (λ n. n.now.text) names.items
        ≡ spec.tree_spreads tree.now) }
{
    let mut names = Vec::new(alloc);
    add_tree_spreads(tree, &mut names)?;
    Ok(names)
}

/// Whether these are the same names, in the same order.
fn are_same(names: &[&Name], others: &[&Name]) -> bool
    ensures { IsTrue result
        ↔ (map (λ n. n.now.text) names.now ≡ map (λ n. n.now.text) others.now) }
{
    if names.len() != others.len() {
        return false;
    }
    for i in 0..names.len() {
        if !is_same_name(names[i].as_str(), others[i].as_str()) {
            return false;
        }
    }
    true
}

/// Whether two definitions spread the same names, in the same order.
pub fn has_same_spreads(alloc: Global, tree: &Tree, other: &Tree) -> Result<bool, AllocError>
    ensures { IfOk result (λ same.
        IsTrue same ↔ (spec.tree_spreads tree.now ≡ spec.tree_spreads other.now)) }
{
    let names = tree_spreads(alloc, tree)?;
    let others = tree_spreads(alloc, other)?;
    Ok(are_same(names.as_slice(), others.as_slice()))
}

/// The names that are spread in these definitions, in their order.
fn all_spreads<'t>(
    alloc: Global,
    definitions: &[&'t Definition],
) -> Result<Vec<&'t Name>, AllocError>
    ensures { IfOk result (λ names. map (λ n. n.now.text) names.items
        ≡ spec.spreads_in (map (λ d. d.now) definitions.now)) }
{
    let mut names = Vec::new(alloc);
    for definition in definitions {
        add_tree_spreads(&definition.tree, &mut names)?;
    }
    Ok(names)
}

/// Adds a name to a set.
pub fn add_name<'t>(set: &mut HashMap<&'t str, ()>, name: &'t str) -> Result<(), AllocError>
    ensures { OnOk result ((q : List ℕ) →
        is_some (hash.get_by (λ k. bytes_eq q k.now) set.new)
        ≡ (is_some (hash.get_by (λ k. bytes_eq q k.now) set.old) || bytes_eq q name.now)) }
{
    set.insert(name, ())?;
    Ok(())
}

/// These names, each once.
fn name_set<'t>(alloc: Global, names: &[&'t Name]) -> Result<HashMap<&'t str, ()>, AllocError>
    ensures { IfOk result (λ set. (q : List ℕ) →
        is_some (hash.get_by (λ k. bytes_eq q k.now) set)
        ≡ is_spread (map (λ n. n.now.text) names.now) q) }
{
    let mut set: HashMap<&'t str, ()> = HashMap::with_capacity(alloc, names.len())?;
    for name in names {
        add_name(&mut set, name.as_str())?;
    }
    Ok(set)
}

/// The names that are spread in these definitions, each once.
pub fn spread_names<'t>(
    alloc: Global,
    definitions: &[&'t Definition],
) -> Result<HashMap<&'t str, ()>, AllocError>
    ensures { IfOk result (λ set. (q : List ℕ) →
        is_some (hash.get_by (λ k. bytes_eq q k.now) set)
        ≡ is_spread (spec.spreads_in (map (λ d. d.now) definitions.now)) q) }
{
    let names = all_spreads(alloc, definitions)?;
    name_set(alloc, names.as_slice())
}
