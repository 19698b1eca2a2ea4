//! The execution of values that are deep within others, and of nodes of introspection, by a loop with
//! a stack of its own (GraphQL specification, 6.4): data and introspection may nest without a limit.
#![tactic(auto)]

mod below;
mod data_lists;
mod data_values;
mod deep;
mod done;
mod field_values;
mod fields;
mod frames;
mod machine;
mod node_lists;
mod node_values;
mod nodes;
mod place;

pub use deep::complete_deep;
pub use nodes::call_node;
