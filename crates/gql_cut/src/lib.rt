//! Schema files without one part, which is cut out of them: a type, a directive, a member of a type, or
//! an argument. What refers to the part stays.
#![tactic(auto)]

mod copies;
mod document;
mod members;
mod trees;

pub use document::document_left;
