//! Trees as the table writes them: as in GraphQL, and after a node `/LINE:COLUMN` where it starts.

mod executables;
mod literals;
mod type_refs;
mod type_systems;

use crate::parsers::parsed;
use gql_ast::{Definition, Directive, Items, Name, Text, Tree};
use gql_text::Place;
use std::alloc::{AllocError, Global};
use table_rows::quoted;

/// What the table writes.
pub trait Written {
    /// Adds it to a text.
    fn write_to(&self, text: &mut String) -> Result<(), AllocError>;
}

/// The text of an item.
pub fn written_text<T: Written>(alloc: Global, item: &T) -> Result<String, AllocError> {
    let mut text = String::new(alloc);
    item.write_to(&mut text)?;
    Ok(text)
}

/// Adds a blank before an item that is not the first.
pub fn write_blank_between(text: &mut String, is_first: bool) -> Result<(), AllocError> {
    if is_first {
        return Ok(());
    }
    text.push_str(" ")
}

/// Adds the items between two texts, each but the first after a blank, or nothing if there are
/// none.
pub fn write_enclosed<T: Written>(
    text: &mut String,
    before: &str,
    items: &Items<T>,
    after: &str,
) -> Result<(), AllocError> {
    let items = items.as_slice();
    let mut between = before;
    for item in items {
        text.push_str(between)?;
        item.write_to(text)?;
        between = " ";
    }
    text.push_str(if items.is_empty() { "" } else { after })
}

/// Adds what is there between two texts, or nothing.
pub fn write_optional<T: Written>(
    text: &mut String,
    before: &str,
    item: &Option<T>,
    after: &str,
) -> Result<(), AllocError> {
    match item {
        Some(item) => {
            text.push_str(before)?;
            item.write_to(text)?;
            text.push_str(after)
        }
        None => Ok(()),
    }
}

/// Adds directives, each after a blank.
pub fn write_directives(
    text: &mut String,
    directives: &Items<Directive>,
) -> Result<(), AllocError> {
    write_enclosed(text, " ", directives, "")
}

/// Adds a word with the place where it is.
pub fn write_placed(text: &mut String, word: &str, place: &Place) -> Result<(), AllocError> {
    text.push_str(word)?;
    place.write_to(text)
}

/// Adds a word with its place, and the name after it.
pub fn write_named(
    text: &mut String,
    word: &str,
    place: &Place,
    between: &str,
    name: &Name,
) -> Result<(), AllocError> {
    write_placed(text, word, place)?;
    text.push_str(between)?;
    name.write_to(text)
}

/// Adds a text as a string of JSON.
pub fn write_quoted(text: &mut String, value: &str) -> Result<(), AllocError> {
    let value = quoted(*text.allocator(), value)?;
    text.push_str(value.as_str())
}

impl<T: Written> Written for Items<T> {
    fn write_to(&self, text: &mut String) -> Result<(), AllocError> {
        write_enclosed(text, "", self, "")
    }
}

impl<T: Written> Written for Option<T> {
    fn write_to(&self, text: &mut String) -> Result<(), AllocError> {
        write_optional(text, "", self, "")
    }
}

impl Written for Place {
    fn write_to(&self, text: &mut String) -> Result<(), AllocError> {
        let line = self.line;
        let column = self.column;
        write!(text, "/{line}:{column}")
    }
}

/// A description, as a string of JSON.
impl Written for Text {
    fn write_to(&self, text: &mut String) -> Result<(), AllocError> {
        write_quoted(text, self.as_str())
    }
}

impl Written for Name {
    fn write_to(&self, text: &mut String) -> Result<(), AllocError> {
        write_placed(text, self.as_str(), &self.place)
    }
}

impl Written for Tree {
    fn write_to(&self, text: &mut String) -> Result<(), AllocError> {
        match self {
            Tree::Operation(operation) => operation.get().write_to(text),
            Tree::Fragment(fragment) => fragment.get().write_to(text),
            Tree::Schema(definition) => definition.get().write_to(text),
            Tree::Type(definition) => definition.get().write_to(text),
            Tree::Directive(definition) => definition.get().write_to(text),
            Tree::SchemaExtension(extension) => extension.get().write_to(text),
            Tree::TypeExtension(extension) => extension.get().write_to(text),
        }
    }
}

/// The trees of definitions.
fn written_trees(alloc: Global, definitions: &[Definition]) -> Result<String, AllocError> {
    let mut text = String::new(alloc);
    let mut between = "";
    for definition in definitions {
        text.push_str(between)?;
        definition.tree.write_to(&mut text)?;
        between = "; ";
    }
    Ok(text)
}

/// The trees of a text's definitions.
pub fn trees_answer(alloc: Global, text: &str, parser: &str) -> Option<String> {
    let document = parsed(alloc, parser, text)?.ok()?;
    written_trees(alloc, document.definitions.as_slice()).ok()
}
