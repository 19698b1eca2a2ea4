//! Nodes that lead to ranges of numbers, and numbers that lead to nodes, as one graph.
//!
//! In the graph the segments of the tree come first, twice as many as there are numbers, and then
//! the nodes.
ghost use Rattle.std.specs.Prelude.{◌≡◌, ◌<◌, ◌*◌, ◌+◌, ◌^◌, ◌++◌, ◌↔◌, ℕ, List, map, flat_map, length, IfOk, OnOk, Contains, slice_index_or, [], ◌==◌};
ghost use Rattle.std.specs.List.{list_all};
ghost use Rattle.gql_cycles.specs.Ranges.{RangeTrail};
ghost use Rattle.gql_cycles.specs.SegmentTree.{IsCover, IsTree, node_row, node_rows, inner_rows, node_at};

use crate::cover::{Range, cover};
use crate::nodes::nodes_on_cycles;
use std::alloc::{AllocError, Global};

/// Whether no node leads to a range.
fn are_empty(ranges: &[Vec<Range>]) -> bool
    ensures { result ≡ list_all (λ v. length v.items == 0) ranges.now }
{
    ranges.iter().all(|ranges_there| ranges_there.is_empty())
}

/// The edges of the first segments: each leads to the two segments below it.
fn inner_rows(alloc: Global, count: usize) -> Result<Vec<Vec<usize>>, AllocError>
    requires { 2 * count < 2 ^ 64 }
    ensures { IfOk result (λ rows. map (λ v. v.items) rows.items ≡ inner_rows count) }
{
    let mut rows = Vec::with_capacity(alloc, count)?;
    for segment in 0..count {
        let mut row = Vec::with_capacity(alloc, 2)?;
        row.push(2 * segment)?;
        row.push(2 * segment + 1)?;
        rows.push(row)?;
    }
    Ok(rows)
}

/// Adds the node in the graph, if there is a node of this number.
fn add_node(first: usize, nodes: usize, node: usize, row: &mut Vec<usize>) -> Result<(), AllocError>
    requires { first + nodes < 2 ^ 64 }
    ensures { OnOk result (row.new.items ≡ row.old.items ++ node_row first nodes node) }
{
    if node < nodes {
        row.push(first + node)?;
    }
    Ok(())
}

/// The nodes to which a number leads.
fn node_row(
    alloc: Global,
    first: usize,
    nodes: usize,
    ends: &[usize],
) -> Result<Vec<usize>, AllocError>
    requires { first + nodes < 2 ^ 64 }
    ensures { IfOk result (λ row. row.items ≡ flat_map (node_row first nodes) ends.now) }
{
    let mut row = Vec::with_capacity(alloc, ends.len())?;
    for node in ends {
        add_node(first, nodes, *node, &mut row)?;
    }
    Ok(row)
}

/// The nodes to which each number leads.
fn node_rows(
    alloc: Global,
    first: usize,
    nodes: usize,
    ends: &[Vec<usize>],
) -> Result<Vec<Vec<usize>>, AllocError>
    requires { first + nodes < 2 ^ 64 }
    ensures { IfOk result
        (λ rows. map (λ v. v.items) rows.items
        ≡ node_rows first nodes (map (λ v. v.items) ends.now)) }
{
    let mut rows = Vec::with_capacity(alloc, ends.len())?;
    for nodes_there in ends {
        rows.push(node_row(alloc, first, nodes, nodes_there)?)?;
    }
    Ok(rows)
}

/// The segments that cover the ranges of each node.
fn covers(alloc: Global, count: usize, ranges: &[Vec<Range>]) -> Result<Vec<Vec<usize>>, AllocError>
    requires { 2 * count < 2 ^ 64 }
    ensures length { IfOk result (λ rows. length rows.items ≡ length ranges.now) }
    ensures rows { IfOk result (λ rows. (i : ℕ) → i < length ranges.now
        → IsCover count (slice_index_or (map (λ v. v.items) ranges.now) i [])
        (slice_index_or (map (λ v. v.items) rows.items) i [])) }
{
    let mut rows = Vec::with_capacity(alloc, ranges.len())?;
    for ranges_there in ranges {
        rows.push(cover(alloc, count, ranges_there)?)?;
    }
    Ok(rows)
}

/// The graph of the segments and the nodes.
fn tree(
    alloc: Global,
    ranges: &[Vec<Range>],
    ends: &[Vec<usize>],
) -> Result<Vec<Vec<usize>>, AllocError>
    ensures { IfOk result
        (λ graph. IsTree (map (λ v. v.items) ranges.now) (map (λ v. v.items) ends.now)
        (map (λ v. v.items) graph.items)) }
{
    let count = ends.len();
    let mut graph = inner_rows(alloc, count)?;
    let mut leaves = node_rows(alloc, 2 * count, ranges.len(), ends)?;
    let mut nodes = covers(alloc, count, ranges)?;
    graph.append(&mut leaves)?;
    graph.append(&mut nodes)?;
    Ok(graph)
}

/// Adds the node of this number in the graph, if it has one.
fn add_behind(first: usize, number: usize, nodes: &mut Vec<usize>) -> Result<(), AllocError>
    ensures { OnOk result (nodes.new.items ≡ nodes.old.items ++ node_at first number) }
{
    if first <= number {
        nodes.push(number - first)?;
    }
    Ok(())
}

/// The nodes among the segments and nodes of the graph.
fn nodes_at(alloc: Global, first: usize, numbers: &[usize]) -> Result<Vec<usize>, AllocError>
    ensures { IfOk result (λ nodes. nodes.items ≡ flat_map (node_at first) numbers.now) }
{
    let mut nodes = Vec::new(alloc);
    for number in numbers {
        add_behind(first, *number, &mut nodes)?;
    }
    Ok(nodes)
}

/// The nodes that lead back to themselves. `ranges` has for each node the ranges of numbers to
/// which it leads, and `ends` for each number the nodes to which it leads; other numbers are
/// ignored.
pub fn nodes_on_cycles_over_ranges(
    alloc: Global,
    ranges: &[Vec<Range>],
    ends: &[Vec<usize>],
) -> Result<Vec<usize>, AllocError>
    ensures sound { IfOk result (λ nodes. (i : ℕ) → Contains nodes.items i
        → RangeTrail (map (λ v. v.items) ranges.now) (map (λ v. v.items) ends.now) i i) }
    ensures complete { IfOk result (λ nodes. (i : ℕ)
        → RangeTrail (map (λ v. v.items) ranges.now) (map (λ v. v.items) ends.now) i i
        → Contains nodes.items i) }
{
    if are_empty(ranges) {
        return Ok(Vec::new(alloc));
    }
    let graph = tree(alloc, ranges, ends)?;
    let numbers = nodes_on_cycles(alloc, graph.as_slice())?;
    let nodes = nodes_at(alloc, 2 * ends.len(), numbers.as_slice())?;
    Ok(nodes)
}
