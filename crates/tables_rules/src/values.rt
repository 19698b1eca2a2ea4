//! Questions about values (GraphQL specification, 3.5 to 3.12, 5.6, 6.1.2, 6.4.1). Each answer is
//! `None` if the question is not well written.
use crate::coerced::{written_misfits, written_object, written_option, written_value};
use crate::inputs::{document_in, field_of, json_in, literal_in, operation_of, type_in};
use gql_ast::Shared;
use gql_coerce::{
    CoercedObject, CoercedValue, coerce_arguments, coerce_json, coerce_literal, coerce_variables,
};
use gql_inputs::{bad_values, fits};
use gql_types::Schema;
use serde_json::Map;
use std::alloc::Global;

/// A question, and the object of the variables' values after its word `with`.
fn with_variables(question: &str) -> (&str, &str) {
    question.split_once(" with ").unwrap_or((question, "{}"))
}

/// The values of variables, as they are in an object of JSON.
fn variables_in(alloc: Global, text: &str) -> Option<CoercedObject> {
    let values = json_in(alloc, text)?;
    let mut members = Map::new(alloc);
    for (name, value) in values.as_object()?.iter() {
        let value = CoercedValue::new(value.clone().ok()?);
        let value = Shared::new(alloc, value).ok()?;
        members.insert(name.clone().ok()?, value).ok()?;
    }
    Some(CoercedObject::new(members))
}

/// The result of coercing a literal: `TYPE LITERAL`.
fn literal_answer(alloc: Global, schema: &Schema, question: &str) -> Option<String> {
    let (question, variables) = with_variables(question);
    let (of_type, literal) = question.split_once(" ")?;
    let of_type = type_in(alloc, of_type)?;
    let literal = literal_in(alloc, literal)?;
    let variables = variables_in(alloc, variables)?;
    let coerced = coerce_literal(alloc, schema, &literal, &of_type, &variables);
    written_option(alloc, &coerced).ok()
}

/// The result of coercing a value of JSON: `TYPE JSON`.
fn json_answer(alloc: Global, schema: &Schema, question: &str) -> Option<String> {
    let (of_type, value) = question.split_once(" ")?;
    let of_type = type_in(alloc, of_type)?;
    let value = json_in(alloc, value)?;
    written_value(alloc, &coerce_json(alloc, schema, &value, &of_type)).ok()
}

/// The parts of a literal that do not fit: `TYPE LITERAL`.
fn misfits_answer(alloc: Global, schema: &Schema, question: &str) -> Option<String> {
    let (of_type, literal) = question.split_once(" ")?;
    let of_type = type_in(alloc, of_type)?;
    let literal = literal_in(alloc, literal)?;
    let misfits = bad_values(alloc, schema, &literal, &of_type).ok()?;
    if fits(alloc, schema, &literal, &of_type).ok()? == misfits.is_empty() {
        written_misfits(alloc, misfits.as_slice()).ok()
    } else {
        String::from_str(alloc, "whether it fits differs").ok()
    }
}

/// The values of variables: `(DEFINITIONS)`.
fn variables_answer(alloc: Global, schema: &Schema, question: &str) -> Option<String> {
    let (definitions, values) = with_variables(question);
    let text = format!(in alloc; "query {definitions} {{ a }}").ok()?;
    let document = document_in(alloc, text.as_str())?;
    let operation = operation_of(&document)?;
    let values = json_in(alloc, values)?;
    let coerced = coerce_variables(alloc, schema, operation.variables.as_slice(), &values);
    written_object(alloc, &coerced).ok()
}

/// The values of the arguments of a field of the type Query: `FIELD(ARGUMENTS)`.
fn arguments_answer(alloc: Global, schema: &Schema, question: &str) -> Option<String> {
    let (field, variables) = with_variables(question);
    let text = format!(in alloc; "{{ {field} }}").ok()?;
    let document = document_in(alloc, text.as_str())?;
    let field = field_of(operation_of(&document)?)?;
    let defined = schema.field("Query", field.name.as_str())?.node.get();
    let variables = variables_in(alloc, variables)?;
    let coerced = coerce_arguments(
        alloc,
        schema,
        defined.arguments.as_slice(),
        field.arguments.as_slice(),
        &variables,
    );
    written_object(alloc, &coerced).ok()
}

/// The answer to a question about values of a schema, by its first word.
pub fn value_answer(alloc: Global, schema: &Schema, question: &str) -> Option<String> {
    let (word, question) = question.split_once(" ")?;
    match word {
        "literal" => literal_answer(alloc, schema, question),
        "json" => json_answer(alloc, schema, question),
        "misfits" => misfits_answer(alloc, schema, question),
        "variables" => variables_answer(alloc, schema, question),
        "arguments" => arguments_answer(alloc, schema, question),
        _ => None,
    }
}
