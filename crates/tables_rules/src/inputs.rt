//! The parts of questions: types, literals, values of JSON, operations and schema files.
use gql_ast::{
    Document, Field, FileName, Files, Literal, Operation, Profile, Selection, Shared, Tree, TypeRef,
};
use gql_grammar::Cursor;
use gql_parse::{ValueForm, parse, type_ref, value};
use gql_parse_sdl::parse_sdl;
use gql_text::{Kind, lex};
use serde_json::Value;
use std::alloc::Global;

/// The type that a text writes.
pub fn type_in(alloc: Global, text: &str) -> Option<TypeRef> {
    let tokens = lex(alloc, text).ok()?;
    let mut cursor = Cursor::new(tokens.as_slice());
    let found = type_ref(alloc, &mut cursor).ok()?;
    if cursor.sees(Kind::EndOfText) {
        Some(found)
    } else {
        None
    }
}

/// The literal that a text writes.
pub fn literal_in(alloc: Global, text: &str) -> Option<Literal> {
    let tokens = lex(alloc, text).ok()?;
    let mut cursor = Cursor::new(tokens.as_slice());
    let found = value(alloc, &mut cursor, ValueForm::WithVariables).ok()?;
    if cursor.sees(Kind::EndOfText) {
        Some(found)
    } else {
        None
    }
}

/// The value of JSON that a text writes.
pub fn json_in(alloc: Global, text: &str) -> Option<Value> {
    Value::from_str(alloc, text).ok()
}

/// The text as the name of a file, if it is one.
pub fn file_name(alloc: Global, text: &str) -> Option<FileName> {
    FileName::read(alloc, text, Profile::whole_numbers().limits.name).ok()?
}

/// The executable document that a text writes.
pub fn document_in(alloc: Global, text: &str) -> Option<Document> {
    parse(alloc, file_name(alloc, "q")?, text).ok()
}

/// The first definition of a document, if it is an operation.
pub fn operation_of(document: &Document) -> Option<&Operation> {
    match &document.definitions.as_slice().first()?.tree {
        Tree::Operation(operation) => Some(operation.get()),
        _ => None,
    }
}

/// The first selection of an operation, if it is a field.
pub fn field_of(operation: &Operation) -> Option<&Field> {
    match operation.selections.as_slice().first()? {
        Selection::Field(field) => Some(field),
        _ => None,
    }
}

/// Puts a schema file; `None` if its text is not one.
pub fn put_file(alloc: Global, files: &mut Files, name: &FileName, text: &str) -> Option<()> {
    let document = parse_sdl(alloc, name.copy().ok()?, text).ok()?;
    let document = Shared::new(alloc, document).ok()?;
    files.schema.put(name.copy().ok()?, document).ok()
}
