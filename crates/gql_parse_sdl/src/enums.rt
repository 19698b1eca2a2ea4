//! The values of enums (GraphQL specification, 3.9).
ghost use Rattle.std.specs.Prelude.{◌≡◌, ◌<◌, ◌≤◌, length, OnOk};
ghost use Rattle.gql_text.specs.declared.token.Kind.TheVariants as k;
ghost use Rattle.gql_grammar.specs.Symbol.{IsRest, Reads, before};
ghost use Rattle.gql_grammar.specs.Repetition.{some_while};
ghost use Rattle.gql_parse_sdl.specs.Enums as spec;

use crate::description::{optional_description, text_of};
use gql_ast::{EnumValueDefinition, Items, Name, Shared, Text};
use gql_grammar::{Cursor, ParseError};
use gql_parse::{ValueForm, directives};
use gql_text::Kind;
use std::alloc::Global;

/// Whether this name may be an enum value.
fn is_enum_value(text: &str) -> bool
    ensures { result ≡ spec.is_enum_value text.now }
{
    !(text == "true" || text == "false" || text == "null")
}

#[tactic(auto, using(gql_grammar::proofs::Rests::rests), unfolding(crate::specs::Enums::enum_name, gql_grammar::specs::Symbol::name_where, gql_grammar::specs::Symbol::sees_name))]
fn enum_name(alloc: Global, cursor: &mut Cursor<'_>) -> Result<Name, ParseError>
    ensures value { Reads (spec.enum_name.read cursor.old) result cursor.new }
    ensures shorter { OnOk result (length cursor.new < length cursor.old) }
    ensures rest { IsRest cursor.new cursor.old }
{
    let fits = cursor.sees(Kind::Name) && is_enum_value(cursor.text());
    let token = cursor.take_if(fits)?;
    Ok(Name {
        place: token.place,
        text: Text::from_str(alloc, token.text)?,
    })
}

#[tactic(auto, using(gql_grammar::proofs::Rests::rests), unfolding(crate::specs::Enums::enum_value))]
fn enum_value(
    alloc: Global,
    cursor: &mut Cursor<'_>,
) -> Result<Shared<EnumValueDefinition>, ParseError>
    ensures value { Reads (spec.enum_value.read cursor.old) result cursor.new }
    ensures shorter { OnOk result (length cursor.new < length cursor.old) }
    ensures rest { IsRest cursor.new cursor.old }
{
    let description = optional_description(alloc, cursor)?;
    let name = enum_name(alloc, cursor)?;
    let directives = directives(alloc, cursor, ValueForm::Constant)?;
    let definition = EnumValueDefinition {
        description: text_of(description),
        name,
        directives,
    };
    Ok(Shared::new(alloc, definition)?)
}

#[tactic(auto, using(gql_grammar::proofs::Rests::rests, gql_grammar::proofs::Loops::going_init, gql_grammar::proofs::Loops::going_on))]
fn enum_value_list(
    alloc: Global,
    cursor: &mut Cursor<'_>,
) -> Result<Items<Shared<EnumValueDefinition>>, ParseError>
    ensures value { Reads
        ((some_while (before k.RightBrace) spec.enum_value).read cursor.old) result cursor.new }
    ensures shorter { OnOk result (length cursor.new < length cursor.old) }
    ensures rest { IsRest cursor.new cursor.old }
{
    let mut found = Items::new(alloc);
    found.push(enum_value(alloc, cursor)?)?;
    'values: while cursor.before(Kind::RightBrace) {
        found.push(enum_value(alloc, cursor)?)?;
    }
    Ok(found)
}

/// The values of an enum, or none if no `{` follows.
#[tactic(auto, using(gql_grammar::proofs::Rests::rests), unfolding(crate::specs::Enums::enum_values))]
pub fn optional_enum_values(
    alloc: Global,
    cursor: &mut Cursor<'_>,
) -> Result<Items<Shared<EnumValueDefinition>>, ParseError>
    ensures value { Reads (spec.optional_enum_values.read cursor.old) result cursor.new }
    ensures shorter { OnOk result (length cursor.new ≤ length cursor.old) }
    ensures rest { IsRest cursor.new cursor.old }
{
    if !cursor.sees(Kind::LeftBrace) {
        return Ok(Items::new(alloc));
    }
    cursor.expect(Kind::LeftBrace)?;
    let found = enum_value_list(alloc, cursor)?;
    cursor.expect(Kind::RightBrace)?;
    Ok(found)
}
