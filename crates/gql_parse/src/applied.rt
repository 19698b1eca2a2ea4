//! Arguments and directives (GraphQL specification, 2.6 and 2.12), whose values may have to be
//! constant.
ghost use Rattle.std.specs.Prelude.{◌<◌, ◌≤◌, length, OnOk};
ghost use Rattle.gql_text.specs.declared.token.Kind.TheVariants as k;
ghost use Rattle.gql_grammar.specs.Symbol.{IsRest, Reads, before};
ghost use Rattle.gql_grammar.specs.Repetition.{some_while};
ghost use Rattle.gql_parse.specs.Directives as spec;
ghost use Rattle.gql_parse.specs.Values.{is_constant};

use crate::literal::{ValueForm, value};
use crate::names::name;
use gql_ast::{Argument, Directive, Items};
use gql_grammar::{Cursor, ParseError};
use gql_text::Kind;
use std::alloc::Global;

#[tactic(auto, using(gql_grammar::proofs::Rests::rests), unfolding(crate::specs::Directives::argument))]
fn argument(alloc: Global, cursor: &mut Cursor<'_>, form: ValueForm) -> Result<Argument, ParseError>
    ensures value { Reads ((spec.argument (is_constant form)).read cursor.old) result cursor.new }
    ensures shorter { OnOk result (length cursor.new < length cursor.old) }
    ensures rest { IsRest cursor.new cursor.old }
{
    let name = name(alloc, cursor)?;
    cursor.expect(Kind::Colon)?;
    let value = value(alloc, cursor, form)?;
    Ok(Argument { name, value })
}

#[tactic(auto, using(gql_grammar::proofs::Rests::rests, gql_grammar::proofs::Loops::going_init, gql_grammar::proofs::Loops::going_on))]
fn argument_list(
    alloc: Global,
    cursor: &mut Cursor<'_>,
    form: ValueForm,
) -> Result<Items<Argument>, ParseError>
    ensures value { Reads
        ((some_while (before k.RightParenthesis)
        (spec.argument (is_constant form))).read cursor.old) result cursor.new }
    ensures shorter { OnOk result (length cursor.new < length cursor.old) }
    ensures rest { IsRest cursor.new cursor.old }
{
    let mut found = Items::new(alloc);
    found.push(argument(alloc, cursor, form)?)?;
    'arguments: while cursor.before(Kind::RightParenthesis) {
        found.push(argument(alloc, cursor, form)?)?;
    }
    Ok(found)
}

#[tactic(auto, using(gql_grammar::proofs::Rests::rests), unfolding(crate::specs::Directives::arguments))]
fn arguments(
    alloc: Global,
    cursor: &mut Cursor<'_>,
    form: ValueForm,
) -> Result<Items<Argument>, ParseError>
    ensures value { Reads ((spec.arguments (is_constant form)).read cursor.old) result cursor.new }
    ensures shorter { OnOk result (length cursor.new < length cursor.old) }
    ensures rest { IsRest cursor.new cursor.old }
{
    cursor.expect(Kind::LeftParenthesis)?;
    let found = argument_list(alloc, cursor, form)?;
    cursor.expect(Kind::RightParenthesis)?;
    Ok(found)
}

/// The arguments of a field or a directive, or none (2.6). Their values are of this form.
#[tactic(auto, using(gql_grammar::proofs::Rests::rests))]
pub fn optional_arguments(
    alloc: Global,
    cursor: &mut Cursor<'_>,
    form: ValueForm,
) -> Result<Items<Argument>, ParseError>
    ensures value { Reads
        ((spec.optional_arguments (is_constant form)).read cursor.old) result cursor.new }
    ensures shorter { OnOk result (length cursor.new ≤ length cursor.old) }
    ensures rest { IsRest cursor.new cursor.old }
{
    if !cursor.sees(Kind::LeftParenthesis) {
        return Ok(Items::new(alloc));
    }
    arguments(alloc, cursor, form)
}

#[tactic(auto, using(gql_grammar::proofs::Rests::rests), unfolding(crate::specs::Directives::directive))]
fn directive(
    alloc: Global,
    cursor: &mut Cursor<'_>,
    form: ValueForm,
) -> Result<Directive, ParseError>
    ensures value { Reads ((spec.directive (is_constant form)).read cursor.old) result cursor.new }
    ensures shorter { OnOk result (length cursor.new < length cursor.old) }
    ensures rest { IsRest cursor.new cursor.old }
{
    let mark = cursor.expect(Kind::At)?;
    let name = name(alloc, cursor)?;
    let arguments = optional_arguments(alloc, cursor, form)?;
    Ok(Directive {
        place: mark.place,
        name,
        arguments,
    })
}

#[tactic(auto, unfolding(crate::specs::Directives::directives), using(gql_grammar::proofs::Rests::rests, gql_grammar::proofs::Loops::going_init, gql_grammar::proofs::Loops::going_on))]
fn directive_list(
    alloc: Global,
    cursor: &mut Cursor<'_>,
    form: ValueForm,
) -> Result<Items<Directive>, ParseError>
    ensures value { Reads ((spec.directives (is_constant form)).read cursor.old) result cursor.new }
    ensures shorter { OnOk result (length cursor.new ≤ length cursor.old) }
    ensures rest { IsRest cursor.new cursor.old }
{
    let mut found = Items::new(alloc);
    'directives: while cursor.sees(Kind::At) {
        found.push(directive(alloc, cursor, form)?)?;
    }
    Ok(found)
}

/// The directives that follow, possibly none (2.12). Values of their arguments are of this form.
/// Most places have none, so that is tested first.
#[tactic(auto, unfolding(crate::specs::Directives::directives, gql_grammar::specs::Repetition::while_from), using(gql_grammar::proofs::Rests::rests))]
pub fn directives(
    alloc: Global,
    cursor: &mut Cursor<'_>,
    form: ValueForm,
) -> Result<Items<Directive>, ParseError>
    ensures value { Reads ((spec.directives (is_constant form)).read cursor.old) result cursor.new }
    ensures shorter { OnOk result (length cursor.new ≤ length cursor.old) }
    ensures rest { IsRest cursor.new cursor.old }
{
    if !cursor.sees(Kind::At) {
        return Ok(Items::new(alloc));
    }
    directive_list(alloc, cursor, form)
}
