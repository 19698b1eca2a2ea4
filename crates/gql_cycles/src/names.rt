//! The names that lead back to themselves.

ghost use Rattle.std.specs.Prelude.{ℕ, List, map, IfOk, Contains};
ghost use Rattle.gql_cycles.specs.Names.{Leads, row_of};
ghost use Rattle.gql_cycles.specs.NameGraph.{AreApart};

use crate::name_graph::{edges_of, is_any_edge, marked_names, nodes_of};
use crate::walk::cycle_marks;
use std::alloc::{AllocError, Global};

/// A name, and the names to which it leads. Several rows of one name count together, and a name
/// without a row leads nowhere.
#[derive(Drop)]
pub struct Row<'n> {
    pub name: &'n str,
    pub leads: Vec<&'n str>,
}

/// The names that lead back to themselves, each once.
pub fn names_on_cycles<'n>(alloc: Global, rows: &[Row<'n>]) -> Result<Vec<&'n str>, AllocError>
    ensures once { IfOk result (λ names. AreApart (map (λ m. m.now) names.items)) }
    ensures sound { IfOk result
        (λ names. (n : List ℕ) → Contains (map (λ m. m.now) names.items) n
        → Leads (map row_of rows.now) n n) }
    ensures complete { IfOk result
        (λ names. (n : List ℕ) → Leads (map row_of rows.now) n n
        → Contains (map (λ m. m.now) names.items) n) }
{
    let nodes = nodes_of(alloc, rows)?;
    if !is_any_edge(rows, &nodes) {
        return Ok(Vec::new(alloc));
    }
    let edges = edges_of(alloc, rows, &nodes)?;
    let marks = cycle_marks(alloc, &edges)?;
    let names = marked_names(alloc, rows, &marks)?;
    Ok(names)
}
