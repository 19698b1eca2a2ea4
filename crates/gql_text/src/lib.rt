//! The lexical tokens of a GraphQL text, each with its place (GraphQL specification, October 2021,
//! section 2.1).
#![tactic(auto)]

mod blanks;
mod block;
mod ends;
mod front;
pub mod laws;
mod lexer;
mod number;
mod pieces;
mod place;
mod token;
mod value;

pub use lexer::{TEXT_LIMIT, end_place, lex, lex_within};
pub use place::Place;
pub use token::{Kind, LexFault, LexRefusal, Token};
pub use value::text_value;
