//! The answer to the question for the built-in definitions.

use gql_ast::Tree;
use gql_built_in::{Sited, built_in_definitions};
use std::alloc::Global;
use table_rows::join;

/// The name of a type, or the name of a directive after `@`; the file of a definition that is in
/// one.
fn written_name(alloc: Global, definition: &Sited<Tree>) -> Option<String> {
    if let Some(file) = &definition.file {
        return String::from_str(alloc, file.as_str()).ok();
    }
    match &definition.node {
        Tree::Type(definition) => String::from_str(alloc, definition.get().name.as_str()).ok(),
        Tree::Directive(definition) => {
            let name = definition.get().name.as_str();
            format!(in alloc; "@{name}").ok()
        }
        _ => None,
    }
}

/// The names of the definitions that every schema has, with `Float` or without it.
pub fn built_in_answer(alloc: Global, floats: bool) -> Option<String> {
    let mut names = String::new(alloc);
    for definition in built_in_definitions(alloc, floats).ok()?.as_slice() {
        let name = written_name(alloc, definition)?;
        join(&mut names, " ", name.as_str()).ok()?;
    }
    Some(names)
}
