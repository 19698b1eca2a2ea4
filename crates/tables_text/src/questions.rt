//! Questions about a text, and about no text.
use crate::clashing_fields::clashes_answer;
use crate::commands::{command_answer, command_text};
use crate::cursors::cursor_answer;
use crate::cycles::{names_on_cycles_answer, nodes_on_cycles_answer};
use crate::documents::{copies_answer, cuts_answer, same_answer};
use crate::file_maps::files_answer;
use crate::file_names::name_answer;
use crate::levels::{placed_answer, visited_answer};
use crate::parsers::parser_answer;
use crate::peers::{device_answer, peer_answer};
use crate::streams::requests_answer;
use crate::tokens::{count_answer, count_within_answer, end_answer, tokens_answer, value_answer};
use crate::trees::trees_answer;
use std::alloc::{AllocError, Global};
use table_rows::{Given, Row};

/// The answer to a question about a text of GraphQL, by its first word; `None` if there is no such
/// question, or where it is not well written.
fn text_answer(alloc: Global, text: &str, word: &str, rest: &str) -> Option<String> {
    match word {
        "doc" | "sdl" | "any" | "doc-tokens" => parser_answer(alloc, word, text),
        "tokens" => tokens_answer(alloc, text).ok(),
        "count" => count_answer(alloc, text).ok(),
        "count-within" => count_within_answer(alloc, text, rest),
        "value" => value_answer(alloc, text).ok(),
        "end" => end_answer(alloc, text).ok(),
        "visited" => visited_answer(alloc, text),
        "placed" => placed_answer(alloc, text, rest),
        "name" => name_answer(alloc, text, rest),
        "same" => same_answer(alloc, text, rest),
        "trees" => trees_answer(alloc, text, rest),
        "copies" => copies_answer(alloc, text, rest),
        "cuts" => cuts_answer(alloc, text, rest),
        "cursor" => cursor_answer(alloc, text, rest),
        _ => None,
    }
}

/// The answer to a question about nodes that are numbers or names.
fn numbered_answer(alloc: Global, text: &str, word: &str, rest: &str) -> Option<String> {
    match word {
        "clashes" => clashes_answer(alloc, text, rest),
        "names-on-cycles" => names_on_cycles_answer(alloc, rest),
        "nodes-on-cycles" => nodes_on_cycles_answer(alloc, rest),
        _ => None,
    }
}

/// The answer to a question about a stream of bytes, or about no text.
fn other_answer(alloc: Global, text: &str, word: &str, rest: &str) -> Option<String> {
    match word {
        "files" => files_answer(alloc, rest),
        "requests" => requests_answer(alloc, text, rest),
        "peer" => peer_answer(alloc, text, rest),
        "device" => device_answer(alloc, text, rest),
        "command" => command_answer(alloc, rest),
        "told" => command_text(alloc, rest),
        _ => numbered_answer(alloc, text, word, rest),
    }
}

/// A row that is one text.
#[derive(Drop)]
pub struct TextRow {
    alloc: Global,
}

impl Row for TextRow {
    fn new(alloc: Global) -> TextRow {
        TextRow { alloc }
    }

    fn answer(
        &mut self,
        _rt: &HostRuntime,
        given: &Given,
        question: &str,
    ) -> Result<String, AllocError> {
        let text = match given.texts.last() {
            Some(named) => named.text.as_str(),
            None => "",
        };
        let (word, rest) = question.split_once(" ").unwrap_or((question, ""));
        if let Some(answer) = text_answer(self.alloc, text, word, rest) {
            return Ok(answer);
        }
        match other_answer(self.alloc, text, word, rest) {
            Some(answer) => Ok(answer),
            None => String::from_str(self.alloc, "no such question"),
        }
    }
}
