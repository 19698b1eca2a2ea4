//! Tables of tests: files of rows, which are texts and questions about them, each with the answer
//! that is expected. A program says by a type of its own, a `Row`, what the questions ask; it is
//! called for each of them, and its answers are compared.
#![tactic(auto)]

mod joined;
mod json_strings;
mod lines;
mod row;
mod table;
mod tally;

pub use joined::{join, text_of};
pub use json_strings::{quoted, unquoted};
pub use row::{Given, NamedText, Row};
pub use table::Table;
pub use tally::Tally;
