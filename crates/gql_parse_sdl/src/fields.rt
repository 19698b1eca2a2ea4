//! The interfaces and fields of objects (GraphQL specification, 3.6) and of interfaces (3.7).
ghost use Rattle.std.specs.Prelude.{◌<◌, ◌≤◌, length, OnOk};
ghost use Rattle.gql_text.specs.declared.token.Kind.TheVariants as k;
ghost use Rattle.gql_grammar.specs.Symbol.{Gives, IsRest, Reads, before};
ghost use Rattle.gql_grammar.specs.Repetition.{some_while};
ghost use Rattle.gql_parse_sdl.specs.Fields as spec;

use crate::description::{optional_description, text_of};
use crate::input_values::optional_argument_definitions;
use gql_ast::{FieldDefinition, Items, Name, Shared};
use gql_grammar::{Cursor, ParseError, Unexpected};
use gql_parse::{ValueForm, directives, name, type_ref};
use gql_text::Kind;
use std::alloc::Global;

#[tactic(auto, using(gql_grammar::proofs::Rests::rests), unfolding(crate::specs::Fields::ampersand))]
fn optional_ampersand(cursor: &mut Cursor<'_>) -> Result<(), Unexpected>
    ensures value { Gives (λ found. found)
        (spec.optional_ampersand.read cursor.old) result cursor.new }
    ensures shorter { OnOk result (length cursor.new ≤ length cursor.old) }
    ensures rest { IsRest cursor.new cursor.old }
{
    if cursor.sees(Kind::Ampersand) {
        cursor.expect(Kind::Ampersand)?;
    }
    Ok(())
}

#[tactic(auto, using(gql_grammar::proofs::Rests::rests), unfolding(crate::specs::Fields::further_interface))]
fn further_interface(alloc: Global, cursor: &mut Cursor<'_>) -> Result<Name, ParseError>
    ensures value { Reads (spec.further_interface.read cursor.old) result cursor.new }
    ensures shorter { OnOk result (length cursor.new < length cursor.old) }
    ensures rest { IsRest cursor.new cursor.old }
{
    cursor.expect(Kind::Ampersand)?;
    name(alloc, cursor)
}

#[tactic(auto, using(gql_grammar::proofs::Rests::rests, gql_grammar::proofs::Loops::going_init, gql_grammar::proofs::Loops::going_on))]
fn interface_names(alloc: Global, cursor: &mut Cursor<'_>) -> Result<Items<Name>, ParseError>
    ensures value { Reads (spec.interface_names.read cursor.old) result cursor.new }
    ensures shorter { OnOk result (length cursor.new < length cursor.old) }
    ensures rest { IsRest cursor.new cursor.old }
{
    let mut found = Items::new(alloc);
    found.push(name(alloc, cursor)?)?;
    'names: while cursor.sees(Kind::Ampersand) {
        found.push(further_interface(alloc, cursor)?)?;
    }
    Ok(found)
}

/// The interfaces that a type implements, or none.
#[tactic(auto, using(gql_grammar::proofs::Rests::rests), unfolding(crate::specs::Fields::implements))]
pub fn optional_interfaces(
    alloc: Global,
    cursor: &mut Cursor<'_>,
) -> Result<Items<Name>, ParseError>
    ensures value { Reads (spec.optional_interfaces.read cursor.old) result cursor.new }
    ensures shorter { OnOk result (length cursor.new ≤ length cursor.old) }
    ensures rest { IsRest cursor.new cursor.old }
{
    if !cursor.sees_word("implements") {
        return Ok(Items::new(alloc));
    }
    cursor.expect_word("implements")?;
    optional_ampersand(cursor)?;
    interface_names(alloc, cursor)
}

#[tactic(auto, using(gql_grammar::proofs::Rests::rests), unfolding(crate::specs::Fields::field))]
fn field(alloc: Global, cursor: &mut Cursor<'_>) -> Result<Shared<FieldDefinition>, ParseError>
    ensures value { Reads (spec.field.read cursor.old) result cursor.new }
    ensures shorter { OnOk result (length cursor.new < length cursor.old) }
    ensures rest { IsRest cursor.new cursor.old }
{
    let description = optional_description(alloc, cursor)?;
    let name = name(alloc, cursor)?;
    let arguments = optional_argument_definitions(alloc, cursor)?;
    cursor.expect(Kind::Colon)?;
    let of_type = type_ref(alloc, cursor)?;
    let directives = directives(alloc, cursor, ValueForm::Constant)?;
    let definition = FieldDefinition {
        description: text_of(description),
        name,
        arguments,
        of_type,
        directives,
    };
    Ok(Shared::new(alloc, definition)?)
}

#[tactic(auto, using(gql_grammar::proofs::Rests::rests, gql_grammar::proofs::Loops::going_init, gql_grammar::proofs::Loops::going_on))]
fn field_list(
    alloc: Global,
    cursor: &mut Cursor<'_>,
) -> Result<Items<Shared<FieldDefinition>>, ParseError>
    ensures value { Reads
        ((some_while (before k.RightBrace) spec.field).read cursor.old) result cursor.new }
    ensures shorter { OnOk result (length cursor.new < length cursor.old) }
    ensures rest { IsRest cursor.new cursor.old }
{
    let mut found = Items::new(alloc);
    found.push(field(alloc, cursor)?)?;
    'fields: while cursor.before(Kind::RightBrace) {
        found.push(field(alloc, cursor)?)?;
    }
    Ok(found)
}

/// The fields of an object or an interface, or none if no `{` follows.
#[tactic(auto, using(gql_grammar::proofs::Rests::rests), unfolding(crate::specs::Fields::fields))]
pub fn optional_fields(
    alloc: Global,
    cursor: &mut Cursor<'_>,
) -> Result<Items<Shared<FieldDefinition>>, ParseError>
    ensures value { Reads (spec.optional_fields.read cursor.old) result cursor.new }
    ensures shorter { OnOk result (length cursor.new ≤ length cursor.old) }
    ensures rest { IsRest cursor.new cursor.old }
{
    if !cursor.sees(Kind::LeftBrace) {
        return Ok(Items::new(alloc));
    }
    cursor.expect(Kind::LeftBrace)?;
    let found = field_list(alloc, cursor)?;
    cursor.expect(Kind::RightBrace)?;
    Ok(found)
}
