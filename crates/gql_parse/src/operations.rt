//! Operations (GraphQL specification, 2.3), their variables (2.10), and fragments (2.8).
ghost use Rattle.std.specs.Prelude.{◌≡◌, ◌<◌, ◌≤◌, length, OnOk};
ghost use Rattle.gql_text.specs.declared.token.Kind.TheVariants as k;
ghost use Rattle.gql_grammar.specs.Symbol.{Gives, IsRest, Reads, before};
ghost use Rattle.gql_text.specs.Lexeme.{lexeme};
ghost use Rattle.gql_grammar.specs.Repetition.{some_while};
ghost use Rattle.gql_parse.specs.Operations as spec;

use crate::applied::directives;
use crate::literal::{ValueForm, value};
use crate::names::{name, optional_name};
use crate::selections::{fragment_name, selections, set, type_condition};
use crate::types::type_ref;
use gql_ast::{Fragment, Items, Literal, Operation, OperationKind, Shared, VariableDefinition};
use gql_grammar::{Cursor, ParseError, Unexpected};
use gql_text::{Kind, Token};
use std::alloc::Global;

/// The default of a variable or of an input value, which is constant, or none (2.10).
#[tactic(auto, using(gql_grammar::proofs::Rests::rests), unfolding(crate::specs::Operations::default))]
pub fn optional_default(
    alloc: Global,
    cursor: &mut Cursor<'_>,
) -> Result<Option<Literal>, ParseError>
    ensures value { Reads (spec.optional_default.read cursor.old) result cursor.new }
    ensures shorter { OnOk result (length cursor.new ≤ length cursor.old) }
    ensures rest { IsRest cursor.new cursor.old }
{
    if !cursor.sees(Kind::Equals) {
        return Ok(None);
    }
    cursor.expect(Kind::Equals)?;
    Ok(Some(value(alloc, cursor, ValueForm::Constant)?))
}

#[tactic(auto, using(gql_grammar::proofs::Rests::rests), unfolding(crate::specs::Operations::variable_definition))]
fn variable_definition(
    alloc: Global,
    cursor: &mut Cursor<'_>,
) -> Result<VariableDefinition, ParseError>
    ensures value { Reads (spec.variable_definition.read cursor.old) result cursor.new }
    ensures shorter { OnOk result (length cursor.new < length cursor.old) }
    ensures rest { IsRest cursor.new cursor.old }
{
    let mark = cursor.expect(Kind::Dollar)?;
    let name = name(alloc, cursor)?;
    cursor.expect(Kind::Colon)?;
    let of_type = type_ref(alloc, cursor)?;
    let default = optional_default(alloc, cursor)?;
    let directives = directives(alloc, cursor, ValueForm::Constant)?;
    Ok(VariableDefinition {
        place: mark.place,
        name,
        of_type,
        default,
        directives,
    })
}

#[tactic(auto, using(gql_grammar::proofs::Rests::rests, gql_grammar::proofs::Loops::going_init, gql_grammar::proofs::Loops::going_on))]
fn variable_list(
    alloc: Global,
    cursor: &mut Cursor<'_>,
) -> Result<Items<VariableDefinition>, ParseError>
    ensures value { Reads
        ((some_while (before k.RightParenthesis) spec.variable_definition).read cursor.old)
        result cursor.new }
    ensures shorter { OnOk result (length cursor.new < length cursor.old) }
    ensures rest { IsRest cursor.new cursor.old }
{
    let mut found = Items::new(alloc);
    found.push(variable_definition(alloc, cursor)?)?;
    'variables: while cursor.before(Kind::RightParenthesis) {
        found.push(variable_definition(alloc, cursor)?)?;
    }
    Ok(found)
}

#[tactic(auto, using(gql_grammar::proofs::Rests::rests), unfolding(crate::specs::Operations::variable_definitions))]
fn optional_variables(
    alloc: Global,
    cursor: &mut Cursor<'_>,
) -> Result<Items<VariableDefinition>, ParseError>
    ensures value { Reads (spec.optional_variables.read cursor.old) result cursor.new }
    ensures shorter { OnOk result (length cursor.new ≤ length cursor.old) }
    ensures rest { IsRest cursor.new cursor.old }
{
    if !cursor.sees(Kind::LeftParenthesis) {
        return Ok(Items::new(alloc));
    }
    cursor.expect(Kind::LeftParenthesis)?;
    let found = variable_list(alloc, cursor)?;
    cursor.expect(Kind::RightParenthesis)?;
    Ok(found)
}

/// Whether this text is the keyword of an operation.
fn is_operation_type(text: &str) -> bool
    ensures { result ≡ spec.is_operation_type text.now }
{
    text == "query" || text == "mutation" || text == "subscription"
}

fn operation_kind(text: &str) -> OperationKind
    ensures { result ≡ spec.operation_kind text.now }
{
    if text == "query" {
        OperationKind::Query
    } else if text == "mutation" {
        OperationKind::Mutation
    } else {
        OperationKind::Subscription
    }
}

#[tactic(auto, using(gql_grammar::proofs::Rests::rests), unfolding(crate::specs::Operations::operation_word, gql_grammar::specs::Symbol::name_where, gql_grammar::specs::Symbol::sees_name))]
fn operation_word<'a>(cursor: &mut Cursor<'a>) -> Result<Token<'a>, Unexpected>
    ensures value { Gives lexeme (spec.operation_word.read cursor.old) result cursor.new }
    ensures shorter { OnOk result (length cursor.new < length cursor.old) }
    ensures rest { IsRest cursor.new cursor.old }
{
    let fits = cursor.sees(Kind::Name) && is_operation_type(cursor.text());
    cursor.take_if(fits)
}

#[tactic(auto, using(gql_grammar::proofs::Rests::rests), unfolding(crate::specs::Operations::named_operation))]
fn named_operation(alloc: Global, cursor: &mut Cursor<'_>) -> Result<Shared<Operation>, ParseError>
    ensures value { Reads (spec.named_operation.read cursor.old) result cursor.new }
    ensures shorter { OnOk result (length cursor.new < length cursor.old) }
    ensures rest { IsRest cursor.new cursor.old }
{
    let word = operation_word(cursor)?;
    let name = optional_name(alloc, cursor)?;
    let variables = optional_variables(alloc, cursor)?;
    let directives = directives(alloc, cursor, ValueForm::WithVariables)?;
    let selections = set(alloc, cursor)?;
    let operation = Operation {
        place: word.place,
        kind: operation_kind(word.text),
        name,
        variables,
        directives,
        selections,
    };
    Ok(Shared::new(alloc, operation)?)
}

#[tactic(auto, using(gql_grammar::proofs::Rests::rests), unfolding(crate::specs::Operations::shorthand))]
fn shorthand(alloc: Global, cursor: &mut Cursor<'_>) -> Result<Shared<Operation>, ParseError>
    ensures value { Reads (spec.shorthand.read cursor.old) result cursor.new }
    ensures shorter { OnOk result (length cursor.new < length cursor.old) }
    ensures rest { IsRest cursor.new cursor.old }
{
    let mark = cursor.expect(Kind::LeftBrace)?;
    let selections = selections(alloc, cursor)?;
    cursor.expect(Kind::RightBrace)?;
    let operation = Operation {
        place: mark.place,
        kind: OperationKind::Query,
        name: None,
        variables: Items::new(alloc),
        directives: Items::new(alloc),
        selections,
    };
    Ok(Shared::new(alloc, operation)?)
}

/// An operation (GraphQL specification, 2.3).
#[tactic(auto, using(gql_grammar::proofs::Rests::rests))]
pub fn operation(alloc: Global, cursor: &mut Cursor<'_>) -> Result<Shared<Operation>, ParseError>
    ensures value { Reads (spec.operation.read cursor.old) result cursor.new }
    ensures shorter { OnOk result (length cursor.new < length cursor.old) }
    ensures rest { IsRest cursor.new cursor.old }
{
    if cursor.sees(Kind::LeftBrace) {
        shorthand(alloc, cursor)
    } else {
        named_operation(alloc, cursor)
    }
}

/// A fragment with a name (GraphQL specification, 2.8).
#[tactic(auto, using(gql_grammar::proofs::Rests::rests), unfolding(crate::specs::Operations::fragment))]
pub fn fragment(alloc: Global, cursor: &mut Cursor<'_>) -> Result<Shared<Fragment>, ParseError>
    ensures value { Reads (spec.fragment.read cursor.old) result cursor.new }
    ensures shorter { OnOk result (length cursor.new < length cursor.old) }
    ensures rest { IsRest cursor.new cursor.old }
{
    let mark = cursor.expect_word("fragment")?;
    let name = fragment_name(alloc, cursor)?;
    let condition = type_condition(alloc, cursor)?;
    let directives = directives(alloc, cursor, ValueForm::WithVariables)?;
    let selections = set(alloc, cursor)?;
    let fragment = Fragment {
        place: mark.place,
        name,
        condition,
        directives,
        selections,
    };
    Ok(Shared::new(alloc, fragment)?)
}
