//! The rules on one operation or fragment (GraphQL specification, 5), over what a world answers.
//!
//! A function that adds to a list may have added a part of it if an allocation fails.
#![tactic(auto)]

mod answers;
mod arguments;
mod asking;
mod conditions;
pub mod counts;
mod definition;
mod directives;
mod faults;
mod fields;
mod fragments;
mod known_inputs;
pub mod laws;
mod literals;
mod locations;
mod operations;
mod p03_subscriptions;
mod p05_mutations_without_a_root;
mod parts;
mod v04_field_selections;
mod v07_leaf_field_selections;
mod v08_argument_names;
mod v09_argument_uniqueness;
mod v10_required_arguments;
mod v12_fragment_spread_type_existence;
mod v13_fragments_on_composite_types;
mod v15_fragment_spread_target_defined;
mod v16_fragment_spreads_must_not_form_cycles;
mod v17_fragment_spread_is_possible;
mod v18_to_v21_values;
mod v22_directives_are_defined;
mod v23_directives_in_valid_locations;
mod v24_directives_unique_per_location;
mod visit;

pub use answers::{directive_in, field_in};
pub use asking::{ask_directive, ask_field, kind_of};
pub use definition::{local_faults, owner_of};
pub use faults::{add_fault, add_fault_of};
pub use known_inputs::{KnownInputType, OfWorld};
pub use literals::is_null;
