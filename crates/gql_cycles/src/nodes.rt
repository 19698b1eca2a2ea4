//! The nodes that lead back to themselves.
ghost use Rattle.std.specs.Prelude.{◌≡◌, ◌++◌, ◌↔◌, ℕ, true, false, map, flat_map, IfOk, OnOk, slice_index_or, Contains};
ghost use Rattle.gql_cycles.specs.Nodes.{MarksCycles, Trail};
ghost use Rattle.gql_cycles.specs.Inside as spec;
ghost use Rattle.gql_cycles.specs.Path.{Rises};

use crate::walk::cycle_marks;
use std::alloc::{AllocError, Global};

/// Adds the end of an edge, if it is a node of the graph.
fn add_inside(end: usize, count: usize, ends: &mut Vec<usize>) -> Result<(), AllocError>
    ensures { OnOk result (ends.new.items ≡ ends.old.items ++ spec.if_inside count end) }
{
    if end < count {
        ends.push(end)?;
    }
    Ok(())
}

/// The ends that are nodes of the graph.
fn ends_inside(alloc: Global, ends: &[usize], count: usize) -> Result<Vec<usize>, AllocError>
    ensures { IfOk result (λ found. found.items ≡ spec.ends_inside count ends.now) }
{
    let mut found = Vec::with_capacity(alloc, ends.len())?;
    for end in ends {
        add_inside(*end, count, &mut found)?;
    }
    Ok(found)
}

/// The edges that end inside the graph.
fn edges_inside(
    alloc: Global,
    edges: &[Vec<usize>],
    count: usize,
) -> Result<Vec<Vec<usize>>, AllocError>
    ensures { IfOk result
        (λ found. map (λ v. v.items) found.items
        ≡ map (spec.ends_inside count) (map (λ v. v.items) edges.now)) }
{
    let mut found = Vec::with_capacity(alloc, edges.len())?;
    for ends in edges {
        found.push(ends_inside(alloc, ends, count)?)?;
    }
    Ok(found)
}

/// The marked nodes, from the first to the last.
fn marked_nodes(alloc: Global, marks: &[bool]) -> Result<Vec<usize>, AllocError>
    ensures once { IfOk result (λ nodes. Rises nodes.items) }
    ensures marked { IfOk result
        (λ nodes. (i : ℕ) → Contains nodes.items i ↔ (slice_index_or marks.now i false ≡ true)) }
{
    let mut nodes = Vec::new(alloc);
    for (node, mark) in marks.iter().enumerate() {
        if *mark {
            nodes.push(node)?;
        }
    }
    Ok(nodes)
}

/// The nodes that lead back to themselves, each once, from the first to the last. `edges` has for
/// each node those to which it leads; an edge to a number that is not a node is ignored.
pub fn nodes_on_cycles(alloc: Global, edges: &[Vec<usize>]) -> Result<Vec<usize>, AllocError>
    ensures once { IfOk result (λ nodes. Rises nodes.items) }
    ensures sound { IfOk result
        (λ nodes. (i : ℕ) → Contains nodes.items i → Trail (map (λ v. v.items) edges.now) i i) }
    ensures complete { IfOk result
        (λ nodes. (i : ℕ) → Trail (map (λ v. v.items) edges.now) i i → Contains nodes.items i) }
{
    let inside = edges_inside(alloc, edges, edges.len())?;
    let marks = cycle_marks(alloc, &inside)?;
    let nodes = marked_nodes(alloc, &marks)?;
    Ok(nodes)
}
