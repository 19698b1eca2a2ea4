//! Whole documents: their copies, their comparison, and their beginnings.
use crate::parsers::parsed;
use gql_ast::{Definition, Document, Same};
use gql_grammar::SyntaxFault;
use std::alloc::Global;

fn document_of(alloc: Global, parser: &str, text: &str) -> Option<Document> {
    parsed(alloc, parser, text)?.ok()
}

/// Whether two texts have the same definitions at the same places: `PARSER TEXT`.
pub fn same_answer(alloc: Global, text: &str, question: &str) -> Option<String> {
    let (parser, other) = question.split_once(" ")?;
    let its = document_of(alloc, parser, text)?;
    let theirs = document_of(alloc, parser, other)?;
    let answer = if its.same(&theirs) { "yes" } else { "no" };
    String::from_str(alloc, answer).ok()
}

/// Adds what names the copy of a definition: its file and the offset of its first token there.
fn write_copy(text: &mut String, definition: &Definition) -> Option<()> {
    let copy = definition.copy().ok()?;
    if !copy.same(definition) {
        return text.push_str("another").ok();
    }
    let id = copy.id().ok()?;
    let file = id.file.as_str();
    let offset = id.offset;
    write!(text, "{file} {offset}").ok()
}

fn written_copies(alloc: Global, definitions: &[Definition]) -> Option<String> {
    let mut written = String::new(alloc);
    let mut between = "";
    for definition in definitions {
        written.push_str(between).ok()?;
        write_copy(&mut written, definition)?;
        between = ", ";
    }
    Some(written)
}

/// What names the copies of a text's definitions.
pub fn copies_answer(alloc: Global, text: &str, parser: &str) -> Option<String> {
    let document = document_of(alloc, parser, text)?;
    written_copies(alloc, document.definitions.as_slice())
}

/// The number of what a parser answers, which is 0 if a text is accepted.
fn parsed_number(alloc: Global, parser: &str, text: &str) -> Option<u16> {
    match parsed(alloc, parser, text)? {
        Ok(_) => Some(0),
        Err(SyntaxFault::At { number, .. }) => Some(number.number()),
        Err(SyntaxFault::Memory) => Some(1),
    }
}

/// The numbers of the answers to a text that is cut after each character, the empty one first,
/// each number if it differs from that of the text before: `OFFSET NUMBER`.
pub fn cuts_answer(alloc: Global, text: &str, parser: &str) -> Option<String> {
    let mut written = String::new(alloc);
    let mut last = None;
    for (offset, _) in text.char_indices() {
        let number = parsed_number(alloc, parser, text.get(..offset)?)?;
        if last != Some(number) {
            write!(written, "{offset} {number}, ").ok()?;
            last = Some(number);
        }
    }
    let number = parsed_number(alloc, parser, text)?;
    write!(written, "whole {number}").ok()?;
    Some(written)
}
