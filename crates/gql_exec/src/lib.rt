//! The execution of operations (GraphQL specification, 6).
#![tactic(auto)]

mod fields;
pub mod laws;
mod lists;
mod mutation;
mod objects;
mod sets;
mod values;
mod whole;

pub use gql_steps::outcome::{Outcome, ResponseError, Step};
pub use gql_steps::refusal::ExecRefusal;
pub use gql_steps::strings::write_string;
pub use gql_steps::values::{write_integer, write_unsigned, write_value};
pub use gql_stored::Effect;
pub use whole::execute;
