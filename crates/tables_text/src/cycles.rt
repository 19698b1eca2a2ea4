//! Names and nodes that lead to one another, and those of them that are on cycles.
use gql_cycles::{Row, names_on_cycles, nodes_on_cycles};
use serde_json::Value;
use std::alloc::{AllocError, Global};
use table_rows::join;

/// The row that a text is: `NAME -> NAME NAME`.
fn row_in(alloc: Global, text: &str) -> Option<Row<'_>> {
    let (name, leads) = text.split_once(" ->")?;
    let mut row = Row {
        name,
        leads: Vec::new(alloc),
    };
    for lead in leads.split_whitespace() {
        row.leads.push(lead).ok()?;
    }
    Some(row)
}

fn rows_in(alloc: Global, text: &str) -> Option<Vec<Row<'_>>> {
    let mut rows = Vec::new(alloc);
    if text.is_empty() {
        return Some(rows);
    }
    for row in text.split(", ") {
        rows.push(row_in(alloc, row)?).ok()?;
    }
    Some(rows)
}

fn joined(alloc: Global, names: &[&str]) -> Result<String, AllocError> {
    let mut joined = String::new(alloc);
    for name in names {
        join(&mut joined, " ", name)?;
    }
    Ok(joined)
}

/// The names on cycles, in the order of their bytes: `NAME -> NAME NAME, NAME -> NAME`.
pub fn names_on_cycles_answer(alloc: Global, question: &str) -> Option<String> {
    let rows = rows_in(alloc, question)?;
    let mut names = names_on_cycles(alloc, rows.as_slice()).ok()?;
    names.sort().ok()?;
    joined(alloc, names.as_slice()).ok()
}

fn nodes_in(alloc: Global, value: &Value) -> Option<Vec<usize>> {
    let mut nodes = Vec::new(alloc);
    for node in value.as_array()? {
        nodes.push(usize::try_from(node.as_u64()?).ok()?).ok()?;
    }
    Some(nodes)
}

fn edges_in(alloc: Global, value: &Value) -> Option<Vec<Vec<usize>>> {
    let mut edges = Vec::new(alloc);
    for nodes in value.as_array()? {
        edges.push(nodes_in(alloc, nodes)?).ok()?;
    }
    Some(edges)
}

/// The nodes on cycles, in their order; a list of JSON has for each node the list of the nodes to
/// which it leads.
pub fn nodes_on_cycles_answer(alloc: Global, question: &str) -> Option<String> {
    let value = Value::from_str(alloc, question).ok()?;
    let edges = edges_in(alloc, &value)?;
    let nodes = nodes_on_cycles(alloc, edges.as_slice()).ok()?;
    format!(in alloc; "{nodes:?}").ok()
}
