//! What follows the name of a type, in its definition and in its extensions (GraphQL specification,
//! 3.5 to 3.10).
ghost use Rattle.std.specs.Prelude.{◌≤◌, length, OnOk};
ghost use Rattle.gql_grammar.specs.Symbol.{IsRest, Reads};
ghost use Rattle.gql_parse_sdl.specs.Types as spec;

use crate::enums::optional_enum_values;
use crate::fields::{optional_fields, optional_interfaces};
use crate::input_values::optional_input_fields;
use crate::type_keyword::TypeKeyword;
use crate::unions::optional_members;
use gql_ast::{Directive, Items, TypeParts};
use gql_grammar::{Cursor, ParseError};
use gql_parse::{ValueForm, directives};
use std::alloc::Global;

/// The directives and the parts of a type.
#[derive(Drop)]
pub struct TypeBody {
    pub directives: Items<Directive>,
    pub parts: TypeParts,
}

#[tactic(auto, using(gql_grammar::proofs::Rests::rests), unfolding(crate::specs::Types::scalar_body))]
fn scalar_body(alloc: Global, cursor: &mut Cursor<'_>) -> Result<TypeBody, ParseError>
    ensures value { Reads (spec.scalar_body.read cursor.old) result cursor.new }
    ensures shorter { OnOk result (length cursor.new ≤ length cursor.old) }
    ensures rest { IsRest cursor.new cursor.old }
{
    let directives = directives(alloc, cursor, ValueForm::Constant)?;
    Ok(TypeBody {
        directives,
        parts: TypeParts::Scalar,
    })
}

#[tactic(auto, using(gql_grammar::proofs::Rests::rests), unfolding(crate::specs::Types::object_body))]
fn object_body(alloc: Global, cursor: &mut Cursor<'_>) -> Result<TypeBody, ParseError>
    ensures value { Reads (spec.object_body.read cursor.old) result cursor.new }
    ensures shorter { OnOk result (length cursor.new ≤ length cursor.old) }
    ensures rest { IsRest cursor.new cursor.old }
{
    let interfaces = optional_interfaces(alloc, cursor)?;
    let directives = directives(alloc, cursor, ValueForm::Constant)?;
    let fields = optional_fields(alloc, cursor)?;
    Ok(TypeBody {
        directives,
        parts: TypeParts::Object { interfaces, fields },
    })
}

#[tactic(auto, using(gql_grammar::proofs::Rests::rests), unfolding(crate::specs::Types::interface_body))]
fn interface_body(alloc: Global, cursor: &mut Cursor<'_>) -> Result<TypeBody, ParseError>
    ensures value { Reads (spec.interface_body.read cursor.old) result cursor.new }
    ensures shorter { OnOk result (length cursor.new ≤ length cursor.old) }
    ensures rest { IsRest cursor.new cursor.old }
{
    let interfaces = optional_interfaces(alloc, cursor)?;
    let directives = directives(alloc, cursor, ValueForm::Constant)?;
    let fields = optional_fields(alloc, cursor)?;
    Ok(TypeBody {
        directives,
        parts: TypeParts::Interface { interfaces, fields },
    })
}

#[tactic(auto, using(gql_grammar::proofs::Rests::rests), unfolding(crate::specs::Types::union_body))]
fn union_body(alloc: Global, cursor: &mut Cursor<'_>) -> Result<TypeBody, ParseError>
    ensures value { Reads (spec.union_body.read cursor.old) result cursor.new }
    ensures shorter { OnOk result (length cursor.new ≤ length cursor.old) }
    ensures rest { IsRest cursor.new cursor.old }
{
    let directives = directives(alloc, cursor, ValueForm::Constant)?;
    let members = optional_members(alloc, cursor)?;
    Ok(TypeBody {
        directives,
        parts: TypeParts::Union { members },
    })
}

#[tactic(auto, using(gql_grammar::proofs::Rests::rests), unfolding(crate::specs::Types::enum_body))]
fn enum_body(alloc: Global, cursor: &mut Cursor<'_>) -> Result<TypeBody, ParseError>
    ensures value { Reads (spec.enum_body.read cursor.old) result cursor.new }
    ensures shorter { OnOk result (length cursor.new ≤ length cursor.old) }
    ensures rest { IsRest cursor.new cursor.old }
{
    let directives = directives(alloc, cursor, ValueForm::Constant)?;
    let values = optional_enum_values(alloc, cursor)?;
    Ok(TypeBody {
        directives,
        parts: TypeParts::Enum { values },
    })
}

#[tactic(auto, using(gql_grammar::proofs::Rests::rests), unfolding(crate::specs::Types::input_object_body))]
fn input_object_body(alloc: Global, cursor: &mut Cursor<'_>) -> Result<TypeBody, ParseError>
    ensures value { Reads (spec.input_object_body.read cursor.old) result cursor.new }
    ensures shorter { OnOk result (length cursor.new ≤ length cursor.old) }
    ensures rest { IsRest cursor.new cursor.old }
{
    let directives = directives(alloc, cursor, ValueForm::Constant)?;
    let fields = optional_input_fields(alloc, cursor)?;
    Ok(TypeBody {
        directives,
        parts: TypeParts::InputObject { fields },
    })
}

/// What follows the name of a type of this kind. Each part of it may be absent.
#[tactic(auto, using(gql_grammar::proofs::Rests::rests))]
pub fn body(
    alloc: Global,
    cursor: &mut Cursor<'_>,
    keyword: TypeKeyword,
) -> Result<TypeBody, ParseError>
    ensures value { Reads ((spec.body keyword).read cursor.old) result cursor.new }
    ensures shorter { OnOk result (length cursor.new ≤ length cursor.old) }
    ensures rest { IsRest cursor.new cursor.old }
{
    match keyword {
        TypeKeyword::Scalar => scalar_body(alloc, cursor),
        TypeKeyword::Object => object_body(alloc, cursor),
        TypeKeyword::Interface => interface_body(alloc, cursor),
        TypeKeyword::Union => union_body(alloc, cursor),
        TypeKeyword::Enum => enum_body(alloc, cursor),
        TypeKeyword::InputObject => input_object_body(alloc, cursor),
    }
}
