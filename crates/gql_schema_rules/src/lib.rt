//! The faults of a schema, by each rule on schemas: those of the crates below, and the rules on
//! definitions, types, root operation types and extensions.
//!
//! A function that adds to a list may have added a part of it if an allocation fails.
#![tactic(auto)]

mod distinct_names;
mod file_checks;
mod kept_faults;
mod nodes_to_check;
mod operation_kinds;
mod other_faults;
mod p02_subscription_roots;
mod rules;
mod s01_duplicate_types;
mod s02_duplicate_directives;
mod s04_built_in_names;
mod s05_empty_types;
mod s06_duplicate_fields;
mod s07_duplicate_values;
mod s08_duplicate_arguments;
mod s18_bad_default_values;
mod s23_missing_query_root;
mod s24_non_object_roots;
mod s25_shared_root_types;
mod s27_extensions_of_unknown_types;
mod s28_extensions_of_another_kind;
mod s34_duplicate_schemas;
mod types_among;

pub use kept_faults::{SchemaFaults, schema_faults};
