//! The rules on what types and the interfaces that they implement have (GraphQL 3.6 and 3.7), and
//! the three rules on cycles: of input objects and of their default values (3.10), and of
//! directives (3.13).
//!
//! A function that adds to a list may have added a part of it if an allocation fails.
#![tactic(auto)]

mod alike;
mod arguments;
mod implementing;
mod known_names;
mod name_set;
mod pairing;
mod quiet;
mod rules;
mod s09_bad_interface_names;
mod s10_self_implementation;
mod s11_undeclared_interfaces;
mod s12_missing_fields;
mod s13_missing_arguments;
mod s14_extra_required_arguments;
mod s15_incompatible_field_types;
mod s17_input_object_cycles;
mod s19_default_value_cycles;
mod s19_ends;
mod s19_inputs;
mod s19_object_values;
mod s19_plain;
mod s19_ranges;
mod s26_directive_cycles;
mod s26_leads;
mod s26_parts;
mod s26_rows;

pub use quiet::{Found, Quiet};
pub use rules::{iface_faults, iface_faults_after_edit, iface_faults_of};
