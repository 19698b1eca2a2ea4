//! Grammars over the tokens of GraphQL texts: what a grammar derives, where it fails, and a cursor
//! that reads by it.
#![tactic(auto)]

mod cursor;
mod error;
mod fault;
mod file;
pub mod laws;

pub use cursor::Cursor;
pub use error::{ParseError, Unexpected};
pub use fault::{SyntaxFault, SyntaxRefusal};
pub use file::{MAX_LEVELS, levels_law, looked_at, placed};
