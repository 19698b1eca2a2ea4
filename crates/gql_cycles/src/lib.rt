//! Which names and which nodes of a graph lead back to themselves.
//!
//! Names are those of input objects that need themselves, of directives whose definitions use them,
//! and of fragments that spread themselves. Nodes are numbers. They may lead to ranges of numbers:
//! a segment tree over the numbers covers the ranges, so that a range costs a few edges however
//! long it is. One walk with stacks of its own finds the cycles, in time linear in the nodes and
//! edges.
#![tactic(auto)]

mod cover;
mod name_graph;
mod names;
mod nodes;
mod ranges;
mod walk;

pub use cover::Range;
pub use names::{Row, names_on_cycles};
pub use nodes::nodes_on_cycles;
pub use ranges::nodes_on_cycles_over_ranges;
