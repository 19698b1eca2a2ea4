//! Schema files and document files: the grammar of type-system definitions (GraphQL specification,
//! 3), its parsers, and where files are refused.
#![tactic(auto)]

mod description;
mod directive_definition;
mod document_file;
mod enums;
mod extensions;
mod fields;
mod input_values;
mod schema;
mod schema_file;
mod type_body;
mod type_keyword;
mod type_system;
mod types;
mod unions;

pub use document_file::{one_document_answer, parse_any, parse_any_within};
pub use schema_file::{one_answer, parse_sdl, parse_sdl_within};
