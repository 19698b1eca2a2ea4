//! Introspection (GraphQL specification, 4): what each field of the introspection types resolves
//! to. Answers borrow the schema, and copy nothing.
#![tactic(auto)]

mod answer;
mod applied;
mod edited_names;
mod edited_runs;
pub mod laws;
mod made;
mod meta_fields;
mod named_type;
mod names;
mod node;
mod nodes;
mod outlined;
mod parts;
mod references;
mod resolve;
mod runs;
mod sorted_names;

pub use answer::{IntroAnswer, IntroArguments};
pub use made::{IntroSchema, intro_schema, intro_schema_after_edit};
pub use names::location_name;
pub use node::IntroNode;
pub use nodes::IntroNodes;
pub use resolve::intro_resolve;
pub use sorted_names::SortedNames;
