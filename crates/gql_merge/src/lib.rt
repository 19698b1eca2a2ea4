//! The rules on the merging of fields (GraphQL specification, 5.3.2), over what a world answers.
//!
//! A function that adds to a list may have added a part of it if an allocation fails. Several
//! definitions are best checked with one `CleanFragments`: then each fragment is searched once.
#![tactic(auto)]

mod bad_pair;
mod checking;
mod clean;
mod columns;
mod faults;
mod flat;
mod flatten;
mod known;
pub mod laws;
mod merging;
mod numbers;
mod once;
mod orders;
mod own_fragment;
mod parents;
mod searching;
mod shapes;
mod spread_names;
mod spreading;
mod texts;
mod two_fragments;
mod v05_different_calls;
mod v06_different_shapes;

pub use bad_pair::BadPair;
pub use clean::CleanFragments;
pub use merging::{merge_faults, merge_faults_with};
pub use spreading::{SpreadSet, spread_sets};
pub use two_fragments::{FragmentClash, fragment_clashes};
