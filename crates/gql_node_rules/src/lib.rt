//! The rules on the nodes of schema files: what their names, types and directives may be (GraphQL
//! 3.3 to 3.13). The nodes themselves, and the fault of a value that does not fit its type.
//!
//! A function that adds to a list may have added a part of it if an allocation fails.
#![tactic(auto)]

mod applied;
mod defined_names;
mod directive_use;
mod file_check;
mod file_definitions;
mod file_faults;
pub mod laws;
mod locations;
mod node;
mod nodes;
mod other_trees;
mod p01_float_references;
mod references;
mod resolved;
mod rules;
mod s03_reserved_names;
mod s16_non_input_types;
mod s20_unknown_types;
mod s21_non_output_types;
mod s22_non_object_members;
mod s29_unknown_directives;
mod s30_bad_locations;
mod s31_repeated_directives;
mod s32_bad_arguments;
mod s33_bad_argument_values;
mod s35_deprecated_required_inputs;
mod s36_misplaced_appends;
mod same_input;
mod schema_change;
mod signature;
mod trees;
mod value_faults;

pub use defined_names::names_of;
pub use file_check::FileCheck;
pub use file_faults::{joint_schema_faults, joint_type_faults};
pub use node::Node;
pub use nodes::{Nodes, definition_nodes};
pub use other_trees::{define_types, other_nodes};
pub use p01_float_references::is_float;
pub use schema_change::SchemaChange;
pub use value_faults::{ValuePlace, add_unless_fits};
