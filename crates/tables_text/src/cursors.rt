//! A cursor over the tokens of a text that is read step after step.
use crate::steps::{Stepped, parts_of, steps_answer, yes_or_no};
use crate::trees::{Written, written_text};
use gql_grammar::{Cursor, ParseError, Unexpected};
use gql_parse::{ValueForm, definition, directives, name, optional_default, set, type_ref, value};
use gql_text::{Kind, lex};
use std::alloc::{AllocError, Global};
use table_rows::quoted;

/// The kind of a token's text, and that of the end if the text is empty.
fn kind_of(alloc: Global, text: &str) -> Option<Kind> {
    match lex(alloc, text).ok()?.first() {
        Some(token) => Some(token.kind),
        None => Some(Kind::EndOfText),
    }
}

/// A refusal, with the number of tokens left from the one that is refused.
fn refused(alloc: Global, cursor: &Cursor<'_>) -> Result<String, AllocError> {
    let left = cursor.left();
    format!(in alloc; "refused {left}")
}

/// What was read, or why nothing was.
fn written_read<T: Written + Drop>(
    alloc: Global,
    read: Result<T, ParseError>,
    cursor: &Cursor<'_>,
) -> Option<String> {
    match read {
        Ok(read) => written_text(alloc, &read).ok(),
        Err(ParseError::Unexpected) => refused(alloc, cursor).ok(),
        Err(ParseError::Memory) => String::from_str(alloc, "memory").ok(),
    }
}

/// What a step that reads nothing answers.
fn inspect(alloc: Global, cursor: &Cursor<'_>, word: &str, rest: &str) -> Option<String> {
    match word {
        "left" => {
            let left = cursor.left();
            format!(in alloc; "{left}").ok()
        }
        "kind" => {
            let kind = cursor.kind();
            format!(in alloc; "{kind:?}").ok()
        }
        "text" => quoted(alloc, cursor.text()).ok(),
        "sees" => yes_or_no(alloc, cursor.sees(kind_of(alloc, rest)?)),
        "before" => yes_or_no(alloc, cursor.before(kind_of(alloc, rest)?)),
        "sees-word" => yes_or_no(alloc, cursor.sees_word(rest)),
        "place" => match cursor.place() {
            Some(place) => format!(in alloc; "{}:{}", place.line, place.column).ok(),
            None => String::from_str(alloc, "none").ok(),
        },
        "end" => match cursor.end() {
            Ok(()) => String::from_str(alloc, "end").ok(),
            Err(Unexpected) => refused(alloc, cursor).ok(),
        },
        _ => None,
    }
}

/// What a step that takes a token answers.
fn take(alloc: Global, cursor: &mut Cursor<'_>, word: &str, rest: &str) -> Option<String> {
    let read = match word {
        "take" => cursor.take_if(true),
        "leave" => cursor.take_if(false),
        "expect" => cursor.expect(kind_of(alloc, rest)?),
        "expect-word" => cursor.expect_word(rest),
        _ => return None,
    };
    match read {
        Ok(token) => written_text(alloc, &token).ok(),
        Err(Unexpected) => refused(alloc, cursor).ok(),
    }
}

/// What a step that reads a part of a document answers.
fn part(alloc: Global, cursor: &mut Cursor<'_>, word: &str) -> Option<String> {
    match word {
        "name" => written_read(alloc, name(alloc, cursor), cursor),
        "type" => written_read(alloc, type_ref(alloc, cursor), cursor),
        "default" => written_read(alloc, optional_default(alloc, cursor), cursor),
        "directives" => written_read(
            alloc,
            directives(alloc, cursor, ValueForm::Constant),
            cursor,
        ),
        "set" => written_read(alloc, set(alloc, cursor), cursor),
        "value" => written_read(
            alloc,
            value(alloc, cursor, ValueForm::WithVariables),
            cursor,
        ),
        "constant" => written_read(alloc, value(alloc, cursor, ValueForm::Constant), cursor),
        "definition" => written_read(alloc, definition(alloc, cursor), cursor),
        _ => None,
    }
}

#[derive(Drop)]
struct Reader<'a> {
    cursor: Cursor<'a>,
}

impl Stepped for Reader<'_> {
    fn step(&mut self, alloc: Global, step: &str) -> Option<String> {
        let (word, rest) = parts_of(step);
        if let Some(answer) = inspect(alloc, &self.cursor, word, rest) {
            return Some(answer);
        }
        if let Some(answer) = take(alloc, &mut self.cursor, word, rest) {
            return Some(answer);
        }
        part(alloc, &mut self.cursor, word)
    }
}

/// What the steps of a cursor over the tokens of a text answer.
pub fn cursor_answer(alloc: Global, text: &str, steps: &str) -> Option<String> {
    let tokens = lex(alloc, text).ok()?;
    let mut reader = Reader {
        cursor: Cursor::new(tokens.as_slice()),
    };
    steps_answer(alloc, &mut reader, steps)
}
