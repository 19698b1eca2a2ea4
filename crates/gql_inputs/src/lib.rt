//! What of a literal does not fit a type, and where it is (GraphQL specification, 5.6). Types come
//! from a schema, or from anything else that knows input types.
#![tactic(auto)]

mod bad_value;
mod expected_type;
mod fitting;
mod forms;
mod input_types;
pub mod laws;
mod misfits;
mod missing;
mod numbers;
mod of_schema;
mod repeats;
mod scalar;
mod singles;
mod steps;
mod texts;
mod types;
mod value_fits;
mod within;

pub use bad_value::BadValue;
pub use expected_type::ExpectedType;
pub use fitting::{add_bad_values, bad_values, fits};
pub use forms::place_of;
pub use input_types::{InputField, InputKind, InputType, InputTypes};
pub use numbers::{real_of, whole_number};
pub use of_schema::{OfSchema, SchemaInputType};
pub use repeats::add_repeats;
pub use scalar::{Scalar, custom_scalar, is_open, scalar_in, scalar_named};
pub use types::{input_type, is_custom_scalar, is_list, is_non_null, item_of, name_in};
