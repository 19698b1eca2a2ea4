//! Which selections of a set count (GraphQL specification, 3.13.1, 3.13.2 and 6.3.2).
ghost use Rattle.std.specs.Prelude.{◌≡◌, Some, codes, find, bytes_eq};
ghost use Rattle.std.specs.List.{list_any};
ghost use Rattle.std.specs.Option.{option_copied};
ghost use Rattle.serde_json.specs.View.{view};
ghost use Rattle.gql_collect.specs.Contexts.{given};
ghost use Rattle.gql_collect.specs.Conditions as spec;
ghost use Rattle.gql_collect.specs.Unfolding.{applies};

use crate::context::Context;
use gql_ast::{Argument, Directive, Literal, Name, Text};
use gql_coerce::CoercedObject;
use gql_types::Schema;

/// Whether a variable has the value true; the object `values` has the values of the variables.
fn is_true_variable(values: &CoercedObject, name: &str) -> bool
    ensures { result ≡ spec.is_true_variable (view values.now) name.now }
{
    match values.get(name) {
        Some(value) => match value.as_bool() {
            Some(truth) => truth,
            None => false,
        },
        None => false,
    }
}

/// Whether a literal is true, or a variable with the value true.
fn is_true(values: &CoercedObject, literal: &Literal) -> bool
    ensures { result ≡ spec.is_true (view values.now) literal.now }
{
    match literal {
        Literal::Boolean { value, .. } => *value,
        Literal::Variable { name, .. } => is_true_variable(values, name.as_str()),
        Literal::Int { .. } => false,
        Literal::Float { .. } => false,
        Literal::String { .. } => false,
        Literal::Null { .. } => false,
        Literal::Enum { .. } => false,
        Literal::List { .. } => false,
        Literal::Object { .. } => false,
    }
}

/// The argument `if` of these; if there are several, the first.
fn if_argument(arguments: &[Argument]) -> Option<&Argument>
    ensures { option_copied result
        ≡ find (λ a. bytes_eq a.name.text (codes "if")) arguments.now }
{
    for argument in arguments {
        if argument.name.as_str() == "if" {
            return Some(argument);
        }
    }
    None
}

/// Whether a directive has an argument `if` that is true.
fn is_if_true(values: &CoercedObject, arguments: &[Argument]) -> bool
    ensures { result ≡ spec.is_if_true (view values.now) arguments.now }
{
    match if_argument(arguments) {
        Some(argument) => is_true(values, &argument.value),
        None => false,
    }
}

/// Whether a directive leaves its selection out: `@skip` with an `if` that is true, or `@include`
/// with an `if` that is not.
fn leaves_out(values: &CoercedObject, directive: &Directive) -> bool
    ensures { result ≡ spec.leaves_out (view values.now) directive.now }
{
    let name = directive.name.as_str();
    let is_on = is_if_true(values, directive.arguments.as_slice());
    (name == "skip" && is_on) || (name == "include" && !is_on)
}

/// Whether a selection with these directives is left out.
pub fn is_left_out(values: &CoercedObject, directives: &[Directive]) -> bool
    ensures { result ≡ spec.is_left_out (view values.now) directives.now }
{
    for directive in directives {
        if leaves_out(values, directive) {
            return true;
        }
    }
    false
}

/// Whether a name is among these.
fn has_name(names: &[Text], name: &str) -> bool
    ensures { result ≡ list_any (λ n. bytes_eq n name.now) names.now }
{
    for possible in names {
        if possible.as_str() == name {
            return true;
        }
    }
    false
}

/// Whether a type is a possible type of the type of that name.
pub fn is_possible(schema: &Schema, of_type: &str, condition: &str) -> bool
    ensures { result ≡ spec.is_possible schema.now of_type.now condition.now }
{
    match schema.possible(condition) {
        Some(types) => has_name(types, of_type),
        None => false,
    }
}

/// Whether an inline fragment applies to objects of a type; one without a condition always does.
pub fn has_condition_met(context: &Context<'_, '_>, of_type: &str, condition: &Option<Name>) -> bool
    ensures { result ≡ applies (given context.now) of_type.now condition.now }
{
    match condition {
        Some(condition) => is_possible(context.schema, of_type, condition.as_str()),
        None => true,
    }
}
