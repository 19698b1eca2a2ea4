//! A credit for comparisons of selections: each name and each value costs one, and a long text
//! more. Comparisons that cost more than is left are not made.
//! It bounds time alone: no result of an execution depends on it.

use gql_ast::{
    Argument, Directive, Field, InlineFragment, Literal, ObjectField, Selection, Spread,
};
use gql_collect::SelectionSet;

/// What is left of a credit after a text.
fn after_text(text: &str, credit: usize) -> usize {
    credit.saturating_sub(1 + text.len() / 16)
}

/// What is left of a credit after these values.
#[cycle(literals)]
fn after_literals(literals: &[Literal], credit: usize) -> usize {
    let mut left = credit;
    for literal in literals {
        if left == 0 {
            return 0;
        }
        left = after_literal(literal, left);
    }
    left
}

/// What is left of a credit after these fields of an object.
#[cycle(literals)]
fn after_fields(fields: &[ObjectField], credit: usize) -> usize {
    let mut left = credit;
    for field in fields {
        if left == 0 {
            return 0;
        }
        left = after_literal(&field.value, after_text(field.name.as_str(), left));
    }
    left
}

/// What is left of a credit after a value.
#[cycle(literals)]
fn after_literal(literal: &Literal, credit: usize) -> usize {
    match literal {
        Literal::Variable { name, .. } => after_text(name.as_str(), credit),
        Literal::Int { text, .. } => after_text(text.as_str(), credit),
        Literal::Float { text, .. } => after_text(text.as_str(), credit),
        Literal::String { value, .. } => after_text(value.as_str(), credit),
        Literal::Boolean { .. } => credit.saturating_sub(1),
        Literal::Null { .. } => credit.saturating_sub(1),
        Literal::Enum { name, .. } => after_text(name.as_str(), credit),
        Literal::List { items, .. } => after_literals(items.as_slice(), credit.saturating_sub(1)),
        Literal::Object { fields, .. } => after_fields(fields.as_slice(), credit.saturating_sub(1)),
    }
}

/// What is left of a credit after these arguments.
fn after_arguments(arguments: &[Argument], credit: usize) -> usize {
    let mut left = credit;
    for argument in arguments {
        if left == 0 {
            return 0;
        }
        left = after_literal(&argument.value, after_text(argument.name.as_str(), left));
    }
    left
}

/// What is left of a credit after these directives.
fn after_directives(directives: &[Directive], credit: usize) -> usize {
    let mut left = credit;
    for directive in directives {
        if left == 0 {
            return 0;
        }
        let named = after_text(directive.name.as_str(), left);
        left = after_arguments(directive.arguments.as_slice(), named);
    }
    left
}

/// What is left of a credit after a field.
#[cycle(selections)]
fn after_field(field: &Field, credit: usize) -> usize {
    let aliased = match &field.alias {
        Some(alias) => after_text(alias.as_str(), credit),
        None => credit,
    };
    let named = after_text(field.name.as_str(), aliased);
    let called = after_arguments(field.arguments.as_slice(), named);
    let directed = after_directives(field.directives.as_slice(), called);
    after_selections(field.selections.as_slice(), directed)
}

/// What is left of a credit after a spread.
fn after_spread(spread: &Spread, credit: usize) -> usize {
    let named = after_text(spread.name.as_str(), credit);
    after_directives(spread.directives.as_slice(), named)
}

/// What is left of a credit after an inline fragment.
#[cycle(selections)]
fn after_inline(fragment: &InlineFragment, credit: usize) -> usize {
    let named = match &fragment.condition {
        Some(condition) => after_text(condition.as_str(), credit),
        None => credit.saturating_sub(1),
    };
    let directed = after_directives(fragment.directives.as_slice(), named);
    after_selections(fragment.selections.as_slice(), directed)
}

/// What is left of a credit after these selections.
#[cycle(selections)]
fn after_selections(selections: &[Selection], credit: usize) -> usize {
    let mut left = credit;
    for selection in selections {
        if left == 0 {
            return 0;
        }
        left = match selection {
            Selection::Field(field) => after_field(field, left),
            Selection::Spread(spread) => after_spread(spread, left),
            Selection::InlineFragment(fragment) => after_inline(fragment, left),
        };
    }
    left
}

/// What is left of a credit after these selection sets; 0 if they cost more.
pub fn after_sets(sets: &[SelectionSet<'_>], credit: usize) -> usize {
    let mut left = credit;
    for set in sets {
        left = after_selections(set.selections, after_text(set.file.as_str(), left));
    }
    left
}
