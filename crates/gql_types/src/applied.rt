//! Applied directives, their arguments, and strings in these (GraphQL specification, 2.9.4, 2.12).
ghost use Rattle.std.specs.Prelude.{◌≡◌};
ghost use Rattle.std.specs.Option.{option_copied};
ghost use Rattle.gql_types.specs.Applied as spec;

use gql_ast::{Argument, Directive, Literal};

/// The value of a literal, if it is a string.
#[tactic(auto, using(crate::specs::Applied::string_is, crate::specs::Applied::null_is_none, crate::specs::Applied::variable_is_none, crate::specs::Applied::int_is_none, crate::specs::Applied::float_is_none, crate::specs::Applied::boolean_is_none, crate::specs::Applied::enum_is_none, crate::specs::Applied::list_is_none, crate::specs::Applied::object_is_none))]
pub fn string_of(literal: &Literal) -> Option<&str>
    ensures { option_copied result ≡ spec.string_of literal.now }
{
    match literal {
        Literal::String { value, .. } => Some(value.as_str()),
        Literal::Null { .. }
        | Literal::Variable { .. }
        | Literal::Int { .. }
        | Literal::Float { .. }
        | Literal::Boolean { .. }
        | Literal::Enum { .. }
        | Literal::List { .. }
        | Literal::Object { .. } => None,
    }
}

/// The first directive of that name.
pub fn directive_of<'d>(name: &str, directives: &'d [Directive]) -> Option<&'d Directive>
    ensures { option_copied result ≡ spec.directive_of name.now directives.now }
{
    for directive in directives {
        if name == directive.name.as_str() {
            return Some(directive);
        }
    }
    None
}

/// The first argument of that name.
pub fn argument_of<'d>(name: &str, directive: &'d Directive) -> Option<&'d Argument>
    ensures { option_copied result ≡ spec.argument_of name.now directive.now }
{
    for argument in directive.arguments.as_slice() {
        if name == argument.name.as_str() {
            return Some(argument);
        }
    }
    None
}

/// The list to which a field with these directives appends: the argument `to` of its `@append`.
pub fn append_in(directives: &[Directive]) -> Option<&str>
    ensures { option_copied result ≡ spec.append_in directives.now }
{
    let directive = directive_of("append", directives)?;
    let argument = argument_of("to", directive)?;
    string_of(&argument.value)
}
