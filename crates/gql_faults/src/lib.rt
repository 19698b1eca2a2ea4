//! What the rules on schemas have in common: faults at places of schema files, names that occur
//! more than once, first definitions of directives, and the name within a type.
//!
//! If a call that adds to a list fails, the list may hold a part of what is added.
#![tactic(auto)]

mod directives;
mod fault;
mod names;
mod place;
mod type_name;

pub use directives::first_directives;
pub use fault::{add_fault, add_fault_between, add_fault_of, add_faults};
pub use names::{
    add_repeated, add_repeated_names, add_repeated_nodes, counts, name_places, own_names, repeated,
};
pub use place::{HasOwnName, NamePlace, Spot};
pub use type_name::{is_required, named_type};
