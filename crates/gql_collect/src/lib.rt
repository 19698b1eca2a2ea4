//! The fields of selection sets in groups, as execution visits them (GraphQL specification, 6.3.2).
#![tactic(auto)]

mod collecting;
mod conditions;
mod context;
mod group;
pub mod laws;
mod node;
mod plain;
mod unfold;
mod visit;

pub use collecting::collect;
pub use context::Context;
pub use group::{Group, Groups};
pub use node::{FieldNode, SelectionSet};
pub use plain::is_plain;
