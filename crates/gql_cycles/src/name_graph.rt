//! The graph of the names of rows: a node for each name, and its edges.

ghost use Rattle.std.specs.Prelude.{◌≡◌, ◌++◌, ◌<◌, ◌↔◌, ℕ, List, [], Some, map, IfOk, OnOk, length, flat_map, replicate, bytes_eq, Contains, is_some};
ghost use Rattle.std.specs.List.{list_any};
ghost use Rattle.std.specs.Option.{option_to_list};
ghost use Rattle.std.specs.HashMap as hash;
ghost use Rattle.gql_cycles.specs.Names.{row_of};
ghost use Rattle.gql_cycles.specs.NameGraph.{AddsRow, AreApart, IsMarked, IsNodeOf, Joins, MarksApart, Nodes, names_of};

use crate::names::Row;
use std::alloc::{AllocError, Global};
use std::collections::HashMap;

/// The node of each name, which is the index of one of its rows.
pub fn nodes_of<'n>(alloc: Global, rows: &[Row<'n>]) -> Result<HashMap<&'n str, usize>, AllocError>
    ensures { IfOk result
        (λ nodes. Nodes (names_of (map row_of rows.now))
        (λ q. hash.get_by (λ k. bytes_eq q k.now) nodes)) }
{
    let mut nodes = HashMap::with_capacity(alloc, rows.len())?;
    for (node, row) in rows.iter().enumerate() {
        nodes.insert(row.name, node)?;
    }
    Ok(nodes)
}

/// A graph of this many nodes, without edges.
fn no_edges(alloc: Global, count: usize) -> Result<Vec<Vec<usize>>, AllocError>
    ensures { IfOk result (λ edges. map (λ v. v.items) edges.items ≡ replicate count []) }
{
    let mut edges = Vec::with_capacity(alloc, count)?;
    for _ in 0..count {
        edges.push(Vec::new(alloc))?;
    }
    Ok(edges)
}

/// Adds the nodes of these names.
fn add_leads(
    leads: &[&str],
    nodes: &HashMap<&str, usize>,
    found: &mut Vec<usize>,
) -> Result<(), AllocError>
    ensures { OnOk result (found.new.items ≡ found.old.items
        ++ flat_map (λ b. option_to_list
        (hash.get_by (λ k. bytes_eq b.now k.now) nodes.now)) leads.now) }
{
    for lead in leads {
        if let Some(node) = nodes.get(*lead) {
            found.push(*node)?;
        }
    }
    Ok(())
}

/// Adds the edges of a row.
fn add_row(
    row: &Row<'_>,
    nodes: &HashMap<&str, usize>,
    edges: &mut Vec<Vec<usize>>,
) -> Result<(), AllocError>
    requires { (i : ℕ) → hash.get_by (λ k. bytes_eq row.now.name.now k.now) nodes.now ≡ Some i
        → i < length edges.old.items }
    ensures { OnOk result (AddsRow
        (λ q. hash.get_by (λ k. bytes_eq q k.now) nodes.now) (row_of row.now)
        (map (λ v. v.items) edges.old.items) (map (λ v. v.items) edges.new.items)) }
{
    if let Some(node) = nodes.get(row.name) {
        let found = &mut edges[*node];
        add_leads(&row.leads, nodes, found)?;
    }
    Ok(())
}

/// Whether one of the names has a node.
fn is_any_node(leads: &[&str], nodes: &HashMap<&str, usize>) -> bool
    ensures { result ≡ list_any (λ b. is_some
        (hash.get_by (λ k. bytes_eq b.now k.now) nodes.now)) leads.now }
{
    leads.iter().any(|lead| nodes.contains_key(*lead))
}

/// Whether a row leads to a name that has a node.
pub fn is_any_edge(rows: &[Row<'_>], nodes: &HashMap<&str, usize>) -> bool
    ensures { result ≡ list_any (λ row. list_any (λ b. is_some
        (hash.get_by (λ k. bytes_eq b.now k.now) nodes.now)) row.leads.items) rows.now }
{
    rows.iter().any(|row| is_any_node(&row.leads, nodes))
}

/// The edges that the rows make between these nodes.
pub fn edges_of(
    alloc: Global,
    rows: &[Row<'_>],
    nodes: &HashMap<&str, usize>,
) -> Result<Vec<Vec<usize>>, AllocError>
    requires { Nodes (names_of (map row_of rows.now))
        (λ q. hash.get_by (λ k. bytes_eq q k.now) nodes.now) }
    ensures length { IfOk result (λ edges. length edges.items ≡ length rows.now) }
    ensures joins { IfOk result
        (λ edges. Joins
        (λ q. hash.get_by (λ k. bytes_eq q k.now) nodes.now) (map row_of rows.now)
        (map (λ v. v.items) edges.items)) }
{
    let mut edges = no_edges(alloc, rows.len())?;
    for row in rows {
        add_row(row, nodes, &mut edges)?;
    }
    Ok(edges)
}

/// The names of the marked nodes.
pub fn marked_names<'n>(
    alloc: Global,
    rows: &[Row<'n>],
    marks: &[bool],
) -> Result<Vec<&'n str>, AllocError>
    requires length { length marks.now ≡ length rows.now }
    requires apart { MarksApart (names_of (map row_of rows.now)) marks.now }
    ensures once { IfOk result (λ names. AreApart (map (λ m. m.now) names.items)) }
    ensures names { IfOk result
        (λ names. (q : List ℕ) → Contains (map (λ m. m.now) names.items) q
        ↔ IsMarked (names_of (map row_of rows.now)) marks.now q) }
{
    let mut names = Vec::new(alloc);
    for (node, row) in rows.iter().enumerate() {
        if marks[node] {
            names.push(row.name)?;
        }
    }
    Ok(names)
}
