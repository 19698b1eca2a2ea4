//! Keys and facts as the tables write them.
use gql_ast::{OperationKind, Text};
use gql_facts::{DirectiveFact, Fact, FieldFact, InputFact, Key};
use gql_types::{Named, Wrapper, WrittenType};
use std::alloc::Global;
use table_rows::join;

fn kind_word(kind: OperationKind) -> &'static str {
    match kind {
        OperationKind::Query => "query",
        OperationKind::Mutation => "mutation",
        OperationKind::Subscription => "subscription",
    }
}

/// The kind of operations of this name.
pub fn kind_in(word: &str) -> Option<OperationKind> {
    match word {
        "query" => Some(OperationKind::Query),
        "mutation" => Some(OperationKind::Mutation),
        "subscription" => Some(OperationKind::Subscription),
        _ => None,
    }
}

/// A key: its word, and the names that it asks about.
pub fn written_key(alloc: Global, key: &Key) -> Option<String> {
    let (word, name) = match key {
        Key::KindOf(name) => ("kind-of", name.as_str()),
        Key::FieldOf { of_type, .. } => ("field-of", of_type.as_str()),
        Key::PossibleOf(name) => ("possible-of", name.as_str()),
        Key::InputOf(name) => ("input-of", name.as_str()),
        Key::EnumOf(name) => ("enum-of", name.as_str()),
        Key::DirectiveOf(name) => ("directive-of", name.as_str()),
        Key::RootOf(kind) => ("root-of", kind_word(*kind)),
        Key::FragmentOf(name) => ("fragment-of", name.as_str()),
    };
    let mut written = format!(in alloc; "{word} {name}").ok()?;
    if let Key::FieldOf { field, .. } = key {
        join(&mut written, " ", field.as_str()).ok()?;
    }
    Some(written)
}

/// A type as it is written.
fn written_type(alloc: Global, of_type: &WrittenType) -> Option<String> {
    let mut written = String::from_str(alloc, of_type.name.as_str()).ok()?;
    for wrapper in of_type.wrappers.as_slice().iter().rev() {
        let inner = written.as_str();
        written = match wrapper {
            Wrapper::List => format!(in alloc; "[{inner}]").ok()?,
            Wrapper::NonNull => format!(in alloc; "{inner}!").ok()?,
        };
    }
    Some(written)
}

/// Arguments or input fields, `NAME:TYPE` each, with `=` if there is a default.
fn add_inputs(alloc: Global, inputs: &[InputFact], written: &mut String) -> Option<()> {
    for input in inputs {
        let name = input.name.as_str();
        let of_type = written_type(alloc, &input.of_type)?;
        let mark = if input.has_default { "=" } else { "" };
        let text = format!(in alloc; "{name}:{of_type}{mark}").ok()?;
        join(written, " ", text.as_str()).ok()?;
    }
    Some(())
}

fn written_names(alloc: Global, word: &str, names: &Named<Text>) -> Option<String> {
    let mut written = String::from_str(alloc, word).ok()?;
    for name in names.as_slice() {
        join(&mut written, " ", name.as_str()).ok()?;
    }
    Some(written)
}

fn written_field(alloc: Global, field: &FieldFact) -> Option<String> {
    let mut written = written_type(alloc, &field.of_type)?;
    add_inputs(alloc, field.arguments.as_slice(), &mut written)?;
    Some(written)
}

fn written_directive(alloc: Global, directive: &DirectiveFact) -> Option<String> {
    let mut written = String::from_str(alloc, "on").ok()?;
    for location in directive.locations.as_slice() {
        let location = format!(in alloc; "{location:?}").ok()?;
        join(&mut written, " ", location.as_str()).ok()?;
    }
    if directive.is_repeatable {
        join(&mut written, " ", "repeatable").ok()?;
    }
    add_inputs(alloc, directive.arguments.as_slice(), &mut written)?;
    Some(written)
}

/// A fact.
pub fn written_fact(alloc: Global, fact: &Fact) -> Option<String> {
    match fact {
        Fact::Absent => String::from_str(alloc, "absent").ok(),
        Fact::Kind(kind) => format!(in alloc; "{kind:?}").ok(),
        Fact::Field(field) => written_field(alloc, field.get()),
        Fact::Possible(names) => written_names(alloc, "objects", names.get()),
        Fact::Input(fields) => {
            let mut written = String::from_str(alloc, "fields").ok()?;
            add_inputs(alloc, fields.get().as_slice(), &mut written)?;
            Some(written)
        }
        Fact::Enum(values) => written_names(alloc, "values", values.get()),
        Fact::Directive(directive) => written_directive(alloc, directive.get()),
        Fact::Root(name) => {
            let name = name.get().as_str();
            format!(in alloc; "type {name}").ok()
        }
        Fact::Fragment(found) => {
            let file = found.file.as_str();
            let line = found.fragment.get().place.line;
            let column = found.fragment.get().place.column;
            format!(in alloc; "{file} {line}:{column}").ok()
        }
    }
}
