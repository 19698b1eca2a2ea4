//! Parts that a schema does not have, in words.

use gql_ast::Text;
use gql_removal::Subject;
use gql_types::{Schema, TypeKind};
use std::alloc::{AllocError, Global};

/// What a member of a type of this kind is called.
fn member_word(kind: TypeKind) -> &'static str {
    match kind {
        TypeKind::Enum => "value",
        TypeKind::Object | TypeKind::Interface | TypeKind::InputObject => "field",
        TypeKind::Scalar | TypeKind::Union => "member",
    }
}

/// That a field has no such argument, or a type no such field, in words.
fn no_argument_text(
    alloc: Global,
    folder: &str,
    schema: &Schema,
    of_type: &Text,
    field: &Text,
    name: &Text,
) -> Result<String, AllocError> {
    let (of_type, field, name) = (of_type.as_str(), field.as_str(), name.as_str());
    if schema.kind(of_type).is_none() {
        return format!(in alloc; "the schema of {folder} has no type `{of_type}`");
    }
    match schema.field(of_type, field) {
        Some(_) => {
            format!(in alloc; "field `{of_type}.{field}` of {folder} has no argument `{name}`")
        }
        None => format!(in alloc; "type `{of_type}` of {folder} has no field `{field}`"),
    }
}

/// That a word names no part of a schema, and how an argument is written, in words.
pub fn misspelt_text(alloc: Global, word: &str) -> Result<String, AllocError> {
    let example = "`Query.users(first:)`";
    format!(in alloc;
        "`{word}` is no part of a schema: an argument is written as {example}, that of a directive as `@beta(since:)`"
    )
}

/// That the schema of this folder has no such part, in words, without a line break at the end.
pub fn no_part_text(
    alloc: Global,
    folder: &str,
    schema: &Schema,
    subject: &Subject,
) -> Result<String, AllocError> {
    match subject {
        Subject::Type(name) => {
            let name = name.as_str();
            format!(in alloc; "the schema of {folder} has no type `{name}`")
        }
        Subject::Member { of_type, name } => {
            let (of_type, name) = (of_type.as_str(), name.as_str());
            match schema.kind(of_type) {
                Some(kind) => {
                    let word = member_word(kind);
                    format!(in alloc; "type `{of_type}` of {folder} has no {word} `{name}`")
                }
                None => format!(in alloc; "the schema of {folder} has no type `{of_type}`"),
            }
        }
        Subject::Argument {
            of_type,
            field,
            name,
        } => no_argument_text(alloc, folder, schema, of_type, field, name),
        Subject::Directive(name) => {
            let name = name.as_str();
            format!(in alloc; "the schema of {folder} has no directive `@{name}`")
        }
        Subject::DirectiveArgument { directive, name } => {
            let (directive, name) = (directive.as_str(), name.as_str());
            match schema.directive(directive) {
                Some(_) => {
                    format!(in alloc;
                        "directive `@{directive}` of {folder} has no argument `{name}`"
                    )
                }
                None => format!(in alloc; "the schema of {folder} has no directive `@{directive}`"),
            }
        }
    }
}
