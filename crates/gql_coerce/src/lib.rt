//! The values of inputs: literals, values of JSON, variables and arguments are coerced to their
//! types (GraphQL specification, 3.5 to 3.12, 6.1.2, 6.4.1). A refusal has its path into the input.
#![tactic(auto)]

mod calls;
mod coerced;
mod coerced_object;
mod coerced_parts;
mod coerced_value;
mod copies;
mod entry;
mod expected;
mod fault;
mod forms;
mod frame;
mod json;
mod json_entries;
pub mod laws;
mod lists;
mod literal_entries;
mod literals;
mod members;
mod objects;
mod ones;
mod part;
mod path;
mod refusal;
mod requests;
mod single;
mod taking_apart;
mod walk;

pub use calls::{coerce_json, coerce_literal};
pub use coerced_object::CoercedObject;
pub use coerced_value::CoercedValue;
pub use fault::CoerceFault;
pub use gql_inputs::fits;
pub use path::path_text;
pub use refusal::{Reason, Refusal, Segment};
pub use requests::{coerce_arguments, coerce_variables};
pub use taking_apart::take_apart;
