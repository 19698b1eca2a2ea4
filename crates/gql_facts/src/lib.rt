//! The questions that rules on operations ask about a schema and fragments, the keys that a
//! definition reads, and records of the answers.
#![tactic(auto)]

mod edited_facts;
mod fact;
mod float;
mod fragments;
mod key;
pub mod laws;
mod meta_fields;
mod possible_names;
mod present;
mod scan;
mod schema_facts;
mod walk;
mod world;

pub use fact::{DirectiveFact, Fact, FieldFact, FragmentFact, InputFact};
pub use float::{float_read, is_open};
pub use fragments::{Fragments, have_same_fragments};
pub use key::Key;
pub use possible_names::PossibleNames;
pub use present::Present;
pub use schema_facts::SchemaFacts;
pub use walk::{Walk, walk_reads};
pub use world::{Recorder, World};
