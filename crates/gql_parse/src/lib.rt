//! Executable GraphQL documents: from tokens to syntax trees (GraphQL specification, October 2021,
//! section 2).
#![tactic(auto)]

mod applied;
mod calls;
mod document;
mod executable;
pub mod laws;
mod literal;
mod names;
mod operations;
mod selections;
mod types;

pub use calls::{definition, directives, name, optional_default, set, type_ref, value};
pub use document::{one_answer, parse, parse_tokens};
pub use literal::ValueForm;
