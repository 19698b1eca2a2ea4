//! What parsers answer, as the table writes it.
use crate::file_names::{LONGEST, file_name};
use gql_ast::{Document, FileName};
use gql_grammar::SyntaxFault;
use gql_parse::{parse, parse_tokens};
use gql_parse_sdl::{parse_any, parse_sdl};
use gql_text::{end_place, lex};
use std::alloc::{AllocError, Global};

/// What the parser of executable documents answers to the tokens of a text.
fn parsed_tokens(alloc: Global, file: &FileName, text: &str) -> Result<Document, SyntaxFault> {
    let tokens = match lex(alloc, text) {
        Ok(tokens) => tokens,
        Err(fault) => return Err(SyntaxFault::of(fault)),
    };
    if text.len() > 65_536 {
        return Err(SyntaxFault::Memory);
    }
    parse_tokens(alloc, tokens.as_slice(), file, end_place(text))
}

/// What a parser answers to a text: `doc`, of executable documents, or `doc-tokens`, of the tokens
/// of one; `sdl`, of schema files; `any`, of files of any definitions.
pub fn parsed(alloc: Global, parser: &str, text: &str) -> Option<Result<Document, SyntaxFault>> {
    let file = file_name(alloc, "s", LONGEST)?;
    match parser {
        "doc" => Some(parse(alloc, file, text)),
        "doc-tokens" => Some(parsed_tokens(alloc, &file, text)),
        "sdl" => Some(parse_sdl(alloc, file, text)),
        "any" => Some(parse_any(alloc, file, text)),
        _ => None,
    }
}

/// A refusal as its number and its place.
pub fn written_fault(alloc: Global, fault: &SyntaxFault) -> Result<String, AllocError> {
    match fault {
        SyntaxFault::At { number, place } => {
            let number = number.number();
            let line = place.line;
            let column = place.column;
            format!(in alloc; "{number} at {line}:{column}")
        }
        SyntaxFault::Memory => String::from_str(alloc, "memory"),
    }
}

/// What a parser answers to a text: `accepted`, or its refusal.
pub fn parser_answer(alloc: Global, parser: &str, text: &str) -> Option<String> {
    match parsed(alloc, parser, text)? {
        Ok(_) => String::from_str(alloc, "accepted").ok(),
        Err(fault) => written_fault(alloc, &fault).ok(),
    }
}
