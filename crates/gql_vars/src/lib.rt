//! The rules on the variables of an operation (GraphQL specification, 5.8), over what a world
//! answers.
//!
//! A function that adds to a list may have added a part of it if an allocation fails.
#![tactic(auto)]

mod faults;
pub mod laws;
mod operation;
mod p04_float_variables;
mod parents;
mod selections;
mod tables;
mod type_fits;
mod usage_check;
mod usage_nodes;
mod usages;
mod uses;
mod v25_variable_uniqueness;
mod v26_variables_are_input_types;
mod v27_all_variable_uses_defined;
mod v28_all_variables_used;
mod v29_all_variable_usages_are_allowed;

pub use operation::variable_faults;
