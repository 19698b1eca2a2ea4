//! Tables of fields, from which the fields of the types of introspection are made.
ghost use Rattle.std.specs.Prelude.{◌≡◌, map, IfOk, OnOk, [], ◌∷◌, ◌++◌};
ghost use Rattle.gql_built_in.specs.BuiltInTables as spec;
ghost use Rattle.gql_built_in.specs.BuiltIn.{include_deprecated as include_deprecated_of};

use crate::words::{
    boolean_value, field, field_with, list_of, named, one_argument, required_list_of,
    required_named,
};
use gql_ast::{FieldDefinition, InputValueDefinition, Items, Shared, TypeRef};
use std::alloc::{AllocError, Global};

/// A type, by the name within it.
#[derive(Clone, Copy)]
pub enum TypeWord<'w> {
    /// `T`
    Named(&'w str),
    /// `T!`
    Required(&'w str),
    /// `[T!]`
    List(&'w str),
    /// `[T!]!`
    RequiredList(&'w str),
}

/// A row of a table of fields: a name and a type.
#[derive(Clone, Copy)]
pub enum FieldRow<'w> {
    /// A field without arguments.
    Plain(&'w str, TypeWord<'w>),
    /// A field with the argument `includeDeprecated`.
    ShowsDeprecated(&'w str, TypeWord<'w>),
}

/// (includeDeprecated: Boolean = false)
#[tactic(auto, unfolding(crate::specs::BuiltIn::include_deprecated))]
fn include_deprecated(alloc: Global) -> Result<Items<Shared<InputValueDefinition>>, AllocError>
    ensures { IfOk result (λ xs. xs ≡ include_deprecated_of) }
{
    let of_type = named(alloc, "Boolean")?;
    one_argument(
        alloc,
        "includeDeprecated",
        of_type,
        Some(boolean_value(false)),
    )
}

fn type_of_word(alloc: Global, word: &TypeWord<'_>) -> Result<TypeRef, AllocError>
    ensures { IfOk result (λ x. x ≡ spec.type_of_word word.now) }
{
    match word {
        TypeWord::Named(name) => named(alloc, name),
        TypeWord::Required(name) => required_named(alloc, name),
        TypeWord::List(name) => list_of(alloc, name),
        TypeWord::RequiredList(name) => required_list_of(alloc, name),
    }
}

fn add_row(
    alloc: Global,
    fields: &mut Items<Shared<FieldDefinition>>,
    row: &FieldRow<'_>,
) -> Result<(), AllocError>
    ensures { OnOk result (fields.new ≡ fields.old ++ spec.field_of_row row.now ∷ []) }
{
    match row {
        FieldRow::Plain(name, word) => field(alloc, fields, name, type_of_word(alloc, word)?),
        FieldRow::ShowsDeprecated(name, word) => {
            let arguments = include_deprecated(alloc)?;
            field_with(alloc, fields, name, arguments, type_of_word(alloc, word)?)
        }
    }
}

/// The fields that the rows of a table define, in their order.
pub fn fields_of(
    alloc: Global,
    rows: &[FieldRow<'_>],
) -> Result<Items<Shared<FieldDefinition>>, AllocError>
    ensures { IfOk result (λ fs. fs ≡ map spec.field_of_row rows.now) }
{
    let mut fields = Items::new(alloc);
    'rows: for row in rows {
        add_row(alloc, &mut fields, row)?;
    }
    Ok(fields)
}
