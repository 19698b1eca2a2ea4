//! The tokens that a parser visits, up to the one that opens the 101st bracket, and the places of
//! its refusals.
use crate::parsers::written_fault;
use gql_grammar::{Cursor, ParseError, looked_at, placed};
use gql_text::{end_place, lex};
use std::alloc::Global;

/// The error of that name, and how many tokens are left when it occurs.
fn error_named(name: &str) -> Option<(ParseError, usize)> {
    if name == "memory" {
        return Some((ParseError::Memory, 0));
    }
    Some((ParseError::Unexpected, name.parse().ok()?))
}

/// How many tokens of a text a parser visits.
pub fn visited_answer(alloc: Global, text: &str) -> Option<String> {
    let tokens = lex(alloc, text).ok()?;
    let count = looked_at(tokens.as_slice());
    format!(in alloc; "{count}").ok()
}

/// The refusal of a text if this many tokens are left, or if an allocation fails.
pub fn placed_answer(alloc: Global, text: &str, name: &str) -> Option<String> {
    if text.len() > 65_536 {
        return None;
    }
    let tokens = lex(alloc, text).ok()?;
    let (error, left) = error_named(name)?;
    let looked = looked_at(tokens.as_slice());
    let mut cursor = Cursor::new(&tokens.as_slice()[..looked]);
    for _ in left..looked {
        cursor.take_if(true).ok()?;
    }
    let fault = placed(error, &cursor, tokens.as_slice(), end_place(text));
    written_fault(alloc, &fault).ok()
}
