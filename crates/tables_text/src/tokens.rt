//! Tokens as the table writes them (GraphQL specification, 2.1).
use crate::trees::{Written, write_quoted};
use gql_text::{LexFault, Place, Token, end_place, lex, lex_within, text_value};
use std::alloc::{AllocError, Global};

/// Adds a place as its line, its column and its offset.
fn write_place(text: &mut String, place: &Place) -> Result<(), AllocError> {
    let line = place.line;
    let column = place.column;
    let offset = place.offset;
    write!(text, "{line}:{column} {offset}")
}

fn written_refusal(alloc: Global, fault: &LexFault) -> Result<String, AllocError> {
    match fault {
        LexFault::At { number, place } => {
            let number = number.number();
            let mut text = format!(in alloc; "{number} at ")?;
            write_place(&mut text, place)?;
            Ok(text)
        }
        LexFault::Memory => String::from_str(alloc, "memory"),
    }
}

/// A token as its kind, its text and its place.
impl Written for Token<'_> {
    fn write_to(&self, text: &mut String) -> Result<(), AllocError> {
        let kind = self.kind;
        write!(text, "{kind:?} ")?;
        write_quoted(text, self.text)?;
        text.push_str(" at ")?;
        write_place(text, &self.place)
    }
}

fn written_tokens(alloc: Global, tokens: &[Token<'_>]) -> Result<String, AllocError> {
    let mut text = String::new(alloc);
    let mut between = "";
    for token in tokens {
        text.push_str(between)?;
        token.write_to(&mut text)?;
        between = ", ";
    }
    Ok(text)
}

/// The kind and the value of the one token that a text is.
fn written_value(alloc: Global, text: &str, tokens: &[Token<'_>]) -> Result<String, AllocError> {
    match tokens {
        [token] if token.text == text => {
            let kind = token.kind;
            let value = text_value(alloc, token)?;
            let mut text = format!(in alloc; "{kind:?} ")?;
            write_quoted(&mut text, value.as_str())?;
            Ok(text)
        }
        _ => String::from_str(alloc, "not one token"),
    }
}

/// The tokens of a text.
pub fn tokens_answer(alloc: Global, text: &str) -> Result<String, AllocError> {
    match lex(alloc, text) {
        Ok(tokens) => written_tokens(alloc, tokens.as_slice()),
        Err(fault) => written_refusal(alloc, &fault),
    }
}

/// How many tokens there are, or why there are none.
fn written_count(
    alloc: Global,
    lexed: Result<Vec<Token<'_>>, LexFault>,
) -> Result<String, AllocError> {
    match lexed {
        Ok(tokens) => {
            let count = tokens.len();
            format!(in alloc; "{count}")
        }
        Err(fault) => written_refusal(alloc, &fault),
    }
}

/// How many tokens a text has.
pub fn count_answer(alloc: Global, text: &str) -> Result<String, AllocError> {
    written_count(alloc, lex(alloc, text))
}

/// How many tokens a text of at most so many bytes has.
pub fn count_within_answer(alloc: Global, text: &str, limit: &str) -> Option<String> {
    let limit = limit.parse::<usize>().ok()?;
    if limit > 16_777_216 {
        return None;
    }
    written_count(alloc, lex_within(alloc, text, limit)).ok()
}

/// The value of the one token that a text is.
pub fn value_answer(alloc: Global, text: &str) -> Result<String, AllocError> {
    match lex(alloc, text) {
        Ok(tokens) => written_value(alloc, text, tokens.as_slice()),
        Err(fault) => written_refusal(alloc, &fault),
    }
}

/// The place after a text.
pub fn end_answer(alloc: Global, text: &str) -> Result<String, AllocError> {
    if text.len() > 65_536 {
        return String::from_str(alloc, "too long");
    }
    let mut place = String::new(alloc);
    write_place(&mut place, &end_place(text))?;
    Ok(place)
}
