//! Values (GraphQL specification, 2.9).
ghost use Rattle.std.specs.Prelude.{◌<◌, ◌≤◌, length, OnOk};
ghost use Rattle.gql_text.specs.declared.token.Kind.TheVariants as k;
ghost use Rattle.gql_grammar.specs.Symbol.{IsRest, Reads, before};
ghost use Rattle.gql_grammar.specs.Repetition.{any_while};
ghost use Rattle.gql_parse.specs.Values as spec;

use crate::names::name;
use gql_ast::{Items, Literal, ObjectField, Text};
use gql_grammar::{Cursor, ParseError};
use gql_text::{Kind, text_value};
use std::alloc::Global;

/// Whether a value may have variables in it (GraphQL specification, 2.9).
#[derive(Clone, Copy, Debug, PartialEq, Eq)]
pub enum ValueForm {
    /// The value has no variables.
    Constant,
    /// The value may be a variable, or have variables in its items and fields.
    WithVariables,
}

#[tactic(auto, using(gql_grammar::proofs::Rests::rests), unfolding(crate::specs::Values::variable))]
fn variable(alloc: Global, cursor: &mut Cursor<'_>) -> Result<Literal, ParseError>
    ensures value { Reads (spec.variable.read cursor.old) result cursor.new }
    ensures shorter { OnOk result (length cursor.new < length cursor.old) }
    ensures rest { IsRest cursor.new cursor.old }
{
    let mark = cursor.expect(Kind::Dollar)?;
    let name = name(alloc, cursor)?;
    Ok(Literal::Variable {
        place: mark.place,
        name: name.into_text(),
    })
}

#[tactic(auto, using(gql_grammar::proofs::Rests::rests), unfolding(crate::specs::Values::int))]
fn int(alloc: Global, cursor: &mut Cursor<'_>) -> Result<Literal, ParseError>
    ensures value { Reads (spec.int.read cursor.old) result cursor.new }
    ensures shorter { OnOk result (length cursor.new < length cursor.old) }
    ensures rest { IsRest cursor.new cursor.old }
{
    let token = cursor.expect(Kind::IntValue)?;
    Ok(Literal::Int {
        place: token.place,
        text: Text::from_str(alloc, token.text)?,
    })
}

#[tactic(auto, using(gql_grammar::proofs::Rests::rests), unfolding(crate::specs::Values::float))]
fn float(alloc: Global, cursor: &mut Cursor<'_>) -> Result<Literal, ParseError>
    ensures value { Reads (spec.float.read cursor.old) result cursor.new }
    ensures shorter { OnOk result (length cursor.new < length cursor.old) }
    ensures rest { IsRest cursor.new cursor.old }
{
    let token = cursor.expect(Kind::FloatValue)?;
    Ok(Literal::Float {
        place: token.place,
        text: Text::from_str(alloc, token.text)?,
    })
}

#[tactic(auto, using(gql_grammar::proofs::Rests::rests), unfolding(crate::specs::Values::string))]
fn string(alloc: Global, cursor: &mut Cursor<'_>) -> Result<Literal, ParseError>
    ensures value { Reads (spec.string.read cursor.old) result cursor.new }
    ensures shorter { OnOk result (length cursor.new < length cursor.old) }
    ensures rest { IsRest cursor.new cursor.old }
{
    let token = cursor.expect(Kind::StringValue)?;
    let value = text_value(alloc, &token)?;
    Ok(Literal::String {
        place: token.place,
        value: Text::from_str(alloc, value.as_str())?,
    })
}

#[tactic(auto, using(gql_grammar::proofs::Rests::rests), unfolding(crate::specs::Values::block_string))]
fn block_string(alloc: Global, cursor: &mut Cursor<'_>) -> Result<Literal, ParseError>
    ensures value { Reads (spec.block_string.read cursor.old) result cursor.new }
    ensures shorter { OnOk result (length cursor.new < length cursor.old) }
    ensures rest { IsRest cursor.new cursor.old }
{
    let token = cursor.expect(Kind::BlockString)?;
    let value = text_value(alloc, &token)?;
    Ok(Literal::String {
        place: token.place,
        value: Text::from_str(alloc, value.as_str())?,
    })
}

#[tactic(auto, using(gql_grammar::proofs::Rests::rests), unfolding(crate::specs::Values::word_literal))]
fn word(alloc: Global, cursor: &mut Cursor<'_>) -> Result<Literal, ParseError>
    ensures value { Reads (spec.word_literal.read cursor.old) result cursor.new }
    ensures shorter { OnOk result (length cursor.new < length cursor.old) }
    ensures rest { IsRest cursor.new cursor.old }
{
    let token = cursor.expect(Kind::Name)?;
    let place = token.place;
    if token.text == "true" {
        return Ok(Literal::Boolean { place, value: true });
    }
    if token.text == "false" {
        return Ok(Literal::Boolean {
            place,
            value: false,
        });
    }
    if token.text == "null" {
        return Ok(Literal::Null { place });
    }
    Ok(Literal::Enum {
        place,
        name: Text::from_str(alloc, token.text)?,
    })
}

/// A variable, if values of this form may have one.
#[tactic(auto, using(gql_grammar::proofs::Rests::rests))]
fn allowed_variable(
    alloc: Global,
    cursor: &mut Cursor<'_>,
    form: ValueForm,
) -> Result<Literal, ParseError>
    ensures value { Reads
        ((spec.variable_unless (spec.is_constant form)).read cursor.old) result cursor.new }
    ensures shorter { OnOk result (length cursor.new < length cursor.old) }
    ensures rest { IsRest cursor.new cursor.old }
{
    match form {
        ValueForm::Constant => Err(ParseError::Unexpected),
        ValueForm::WithVariables => variable(alloc, cursor),
    }
}

/// A value of this form (GraphQL specification, 2.9).
#[cycle(value)]
#[tactic(auto, using(gql_grammar::proofs::Rests::rests, crate::proofs::Rules::value_is))]
pub fn value(alloc: Global, cursor: &mut Cursor<'_>, form: ValueForm) -> Result<Literal, ParseError>
    ensures value { Reads
        ((spec.value (spec.is_constant form)).read cursor.old) result cursor.new }
    ensures shorter { OnOk result (length cursor.new < length cursor.old) }
    ensures rest { IsRest cursor.new cursor.old }
{
    match cursor.kind() {
        Kind::Dollar => allowed_variable(alloc, cursor, form),
        Kind::IntValue => int(alloc, cursor),
        Kind::FloatValue => float(alloc, cursor),
        Kind::StringValue => string(alloc, cursor),
        Kind::BlockString => block_string(alloc, cursor),
        Kind::Name => word(alloc, cursor),
        Kind::LeftBracket => list(alloc, cursor, form),
        Kind::LeftBrace => object(alloc, cursor, form),
        _ => Err(ParseError::Unexpected),
    }
}

#[cycle(value)]
#[tactic(auto, using(gql_grammar::proofs::Rests::rests), unfolding(crate::specs::Values::list_of))]
fn list(alloc: Global, cursor: &mut Cursor<'_>, form: ValueForm) -> Result<Literal, ParseError>
    ensures value { Reads
        ((spec.list_of (spec.value (spec.is_constant form))).read cursor.old) result cursor.new }
    ensures shorter { OnOk result (length cursor.new < length cursor.old) }
    ensures rest { IsRest cursor.new cursor.old }
{
    let mark = cursor.expect(Kind::LeftBracket)?;
    let items = items(alloc, cursor, form)?;
    cursor.expect(Kind::RightBracket)?;
    Ok(Literal::List {
        place: mark.place,
        items,
    })
}

#[cycle(value)]
#[tactic(auto, using(gql_grammar::proofs::Rests::rests, gql_grammar::proofs::Loops::going_init, gql_grammar::proofs::Loops::going_on))]
fn items(
    alloc: Global,
    cursor: &mut Cursor<'_>,
    form: ValueForm,
) -> Result<Items<Literal>, ParseError>
    ensures value { Reads
        ((any_while (before k.RightBracket) (spec.value (spec.is_constant form))).read cursor.old)
        result cursor.new }
    ensures shorter { OnOk result (length cursor.new ≤ length cursor.old) }
    ensures rest { IsRest cursor.new cursor.old }
{
    let mut items = Items::new(alloc);
    'items: while cursor.before(Kind::RightBracket) {
        items.push(value(alloc, cursor, form)?)?;
    }
    Ok(items)
}

#[cycle(value)]
#[tactic(auto, using(gql_grammar::proofs::Rests::rests), unfolding(crate::specs::Values::object_of))]
fn object(alloc: Global, cursor: &mut Cursor<'_>, form: ValueForm) -> Result<Literal, ParseError>
    ensures value { Reads
        ((spec.object_of (spec.value (spec.is_constant form))).read cursor.old)
        result cursor.new }
    ensures shorter { OnOk result (length cursor.new < length cursor.old) }
    ensures rest { IsRest cursor.new cursor.old }
{
    let mark = cursor.expect(Kind::LeftBrace)?;
    let fields = fields(alloc, cursor, form)?;
    cursor.expect(Kind::RightBrace)?;
    Ok(Literal::Object {
        place: mark.place,
        fields,
    })
}

#[cycle(value)]
#[tactic(auto, using(gql_grammar::proofs::Rests::rests, gql_grammar::proofs::Loops::going_init, gql_grammar::proofs::Loops::going_on))]
fn fields(
    alloc: Global,
    cursor: &mut Cursor<'_>,
    form: ValueForm,
) -> Result<Items<ObjectField>, ParseError>
    ensures value { Reads
        ((any_while (before k.RightBrace)
        (spec.object_field_of (spec.value (spec.is_constant form)))).read cursor.old)
        result cursor.new }
    ensures shorter { OnOk result (length cursor.new ≤ length cursor.old) }
    ensures rest { IsRest cursor.new cursor.old }
{
    let mut fields = Items::new(alloc);
    'fields: while cursor.before(Kind::RightBrace) {
        fields.push(object_field(alloc, cursor, form)?)?;
    }
    Ok(fields)
}

#[cycle(value)]
#[tactic(auto, using(gql_grammar::proofs::Rests::rests), unfolding(crate::specs::Values::object_field_of))]
fn object_field(
    alloc: Global,
    cursor: &mut Cursor<'_>,
    form: ValueForm,
) -> Result<ObjectField, ParseError>
    ensures value { Reads
        ((spec.object_field_of (spec.value (spec.is_constant form))).read cursor.old)
        result cursor.new }
    ensures shorter { OnOk result (length cursor.new < length cursor.old) }
    ensures rest { IsRest cursor.new cursor.old }
{
    let name = name(alloc, cursor)?;
    cursor.expect(Kind::Colon)?;
    let value = value(alloc, cursor, form)?;
    Ok(ObjectField { name, value })
}
