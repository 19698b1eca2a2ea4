//! Look-ups in a schema (GraphQL specification, 3.3 to 3.13). Each answer is `None` if the
//! question is not well written.
use crate::inputs::type_in;
use gql_ast::OperationKind;
use gql_built_in::SourceFile;
use gql_text::Place;
use gql_types::{HasName, Root, Schema};
use std::alloc::Global;
use table_rows::join;

/// The answer if nothing is found.
fn nothing(alloc: Global) -> Option<String> {
    String::from_str(alloc, "none").ok()
}

/// The place of a name in a file, or `built-in`.
fn site(alloc: Global, file: &SourceFile, place: &Place) -> Option<String> {
    match file {
        Some(file) => {
            let file = file.as_str();
            let line = place.line;
            let column = place.column;
            format!(in alloc; "{file} {line}:{column}").ok()
        }
        None => String::from_str(alloc, "built-in").ok(),
    }
}

fn names<T: HasName>(alloc: Global, things: &[T]) -> Option<String> {
    let mut names = String::new(alloc);
    for thing in things {
        join(&mut names, " ", thing.name()).ok()?;
    }
    Some(names)
}

/// The names of a type's parts.
fn names_answer(alloc: Global, schema: &Schema, word: &str, of_type: &str) -> Option<String> {
    match word {
        "fields" => match schema.get(of_type) {
            Some(found) => names(alloc, found.fields.as_slice()),
            None => nothing(alloc),
        },
        "inputs" => match schema.input(of_type) {
            Some(inputs) => names(alloc, inputs.as_slice()),
            None => nothing(alloc),
        },
        "values" => match schema.enum_of(of_type) {
            Some(values) => names(alloc, values.as_slice()),
            None => nothing(alloc),
        },
        "possible" => match schema.possible(of_type) {
            Some(possible) => names(alloc, possible),
            None => nothing(alloc),
        },
        _ => None,
    }
}

/// The place of a part of a type: `TYPE NAME`.
fn part_answer(alloc: Global, schema: &Schema, word: &str, question: &str) -> Option<String> {
    let (of_type, name) = question.split_once(" ")?;
    match word {
        "field" => match schema.field(of_type, name) {
            Some(field) => site(alloc, &field.file, &field.node.get().name.place),
            None => nothing(alloc),
        },
        "input" => match schema.input(of_type) {
            Some(inputs) => match inputs.get(name) {
                Some(input) => site(alloc, &input.file, &input.node.get().name.place),
                None => nothing(alloc),
            },
            None => nothing(alloc),
        },
        "enum-value" => match schema.enum_of(of_type) {
            Some(values) => match values.get(name) {
                Some(value) => site(alloc, &value.file, &value.node.get().name.place),
                None => nothing(alloc),
            },
            None => nothing(alloc),
        },
        _ => None,
    }
}

/// The place of a directive, and the names of its arguments.
fn directive_answer(alloc: Global, schema: &Schema, name: &str) -> Option<String> {
    let Some(directive) = schema.directive(name) else {
        return nothing(alloc);
    };
    let mut written = site(alloc, &directive.file, &directive.node.get().name.place)?;
    for argument in directive.node.get().arguments.as_slice() {
        join(&mut written, " ", argument.get().name.as_str()).ok()?;
    }
    Some(written)
}

/// The kind of a type, the place of its name, and where each of its extensions starts.
fn type_answer(alloc: Global, schema: &Schema, name: &str) -> Option<String> {
    let Some(found) = schema.get(name) else {
        return nothing(alloc);
    };
    let kind = schema.kind(name)?;
    let definition = site(
        alloc,
        &found.definition.file,
        &found.definition.node.get().name.place,
    )?;
    let mut written = format!(in alloc; "{kind:?} {definition}").ok()?;
    for extension in found.extensions.as_slice() {
        let place = site(alloc, &extension.file, &extension.node.get().place)?;
        join(&mut written, ", ", place.as_str()).ok()?;
    }
    Some(written)
}

fn written_root(alloc: Global, root: &Root) -> Option<String> {
    let kind = root.kind;
    let name = root.name.node.as_str();
    match &root.entry {
        Some(place) => {
            let place = site(alloc, &root.name.file, place)?;
            format!(in alloc; "{kind:?} {name} {place}").ok()
        }
        None => format!(in alloc; "{kind:?} {name}").ok(),
    }
}

/// The root operation types, each with the place of its entry, if it has one.
fn roots_answer(alloc: Global, schema: &Schema) -> Option<String> {
    let mut written = String::new(alloc);
    for root in schema.roots() {
        let root = written_root(alloc, root)?;
        join(&mut written, ", ", root.as_str()).ok()?;
    }
    Some(written)
}

/// The root operation type of a kind.
fn root_answer(alloc: Global, schema: &Schema, kind: &str) -> Option<String> {
    let kind = match kind {
        "query" => OperationKind::Query,
        "mutation" => OperationKind::Mutation,
        "subscription" => OperationKind::Subscription,
        _ => return None,
    };
    match schema.root(kind) {
        Some(root) => String::from_str(alloc, root.name.node.as_str()).ok(),
        None => nothing(alloc),
    }
}

/// Whether a type is covariant with another: `TYPE TYPE`.
fn covariant_answer(alloc: Global, schema: &Schema, question: &str) -> Option<String> {
    let (of_type, base) = question.split_once(" ")?;
    let of_type = type_in(alloc, of_type)?;
    let base = type_in(alloc, base)?;
    let answer = match schema.is_covariant(&of_type, &base) {
        Some(true) => "yes",
        Some(false) => "no",
        None => "unknown",
    };
    String::from_str(alloc, answer).ok()
}

/// The answer to a question about a schema, by its first word.
pub fn look_up_answer(alloc: Global, schema: &Schema, question: &str) -> Option<String> {
    let (word, rest) = question.split_once(" ").unwrap_or((question, ""));
    match word {
        "type" => type_answer(alloc, schema, rest),
        "types" => names(alloc, schema.types()),
        "directive" => directive_answer(alloc, schema, rest),
        "directives" => names(alloc, schema.directives()),
        "root" => root_answer(alloc, schema, rest),
        "roots" => roots_answer(alloc, schema),
        "covariant" => covariant_answer(alloc, schema, rest),
        "field" | "input" | "enum-value" => part_answer(alloc, schema, word, rest),
        _ => names_answer(alloc, schema, word, rest),
    }
}
