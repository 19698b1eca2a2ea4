//! The members that an object is to have, from an object of JSON (GraphQL specification, 3.10).
ghost use Rattle.std.specs.Prelude.{◌≡◌, IfOk, map, option_map};
ghost use Rattle.std.specs.Option.{option_copied};
ghost use Rattle.gql_types.specs.Written.{written};
ghost use Rattle.serde_json.specs.Find.{get_member};
ghost use Rattle.serde_json.specs.View.{view, members_view};
ghost use Rattle.gql_coerce.specs.Coercion as spec;
ghost use Rattle.gql_coerce.specs.Inputs.{Field};
ghost use Rattle.gql_coerce.specs.JsonEntries.{entry_of, fields_in, first_unknown};
ghost use Rattle.gql_coerce.specs.Parts.{entries_of};

use crate::entry::{Entries, FoundEntries};
use gql_ast::{InputValueDefinition, Shared, TypeRef};
use gql_inputs::{input_type, is_custom_scalar};
use gql_types::{HasName, Schema, SchemaType, Sited, TypeKind};
use serde_json::{Map, Value};
use std::alloc::{AllocError, Global};

/// A member that an object is to have: its name, the definition of the field unless it is within a
/// custom scalar, and the value if one is given.
#[derive(Drop)]
pub struct JsonEntry<'v> {
    pub name: &'v str,
    pub definition: Option<&'v InputValueDefinition>,
    pub given: Option<&'v Value>,
}

fn member<'v>(members: &'v Map<String, Value>, name: &str) -> Option<&'v Value>
    ensures { option_map (λ v. view v.now) result
        ≡ get_member name.now (members_view members.now.entries) }
{
    members.get(name)
}

/// The member for a field that is defined.
pub fn field_entry<'v>(
    members: &'v Map<String, Value>,
    definition: &'v Sited<Shared<InputValueDefinition>>,
) -> JsonEntry<'v>
    ensures { entry_of result ≡ spec.defined_entry (fields_in members.now.entries) definition.now }
{
    let name = definition.name();
    JsonEntry {
        name,
        definition: Some(definition.node.get()),
        given: member(members, name),
    }
}

fn unknown_member<'v>(members: &'v Map<String, Value>, of_type: &SchemaType) -> Option<&'v str>
    ensures { option_map (λ n. n.now) result ≡ option_map (λ (f : Field). f.name)
        (first_unknown of_type.now.input_fields (fields_in members.now.entries)) }
{
    for (name, _value) in members.iter() {
        if of_type.input_fields.get(name.as_str()).is_none() {
            return Some(name.as_str());
        }
    }
    None
}

fn entries_in<'v>(
    alloc: Global,
    members: &'v Map<String, Value>,
) -> Result<Vec<JsonEntry<'v>>, AllocError>
    ensures { IfOk result (λ found. map entry_of found.items
        ≡ map spec.any_entry (fields_in members.now.entries)) }
{
    let mut found = Vec::new(alloc);
    for (name, value) in members.iter() {
        found.push(JsonEntry {
            name: name.as_str(),
            definition: None,
            given: Some(value),
        })?;
    }
    Ok(found)
}

fn any_entries<'v>(
    alloc: Global,
    members: &'v Map<String, Value>,
) -> Result<FoundEntries<'v>, AllocError>
    ensures { IfOk result (λ es. entries_of es ≡ spec.any_entries (fields_in members.now.entries)) }
{
    let found = entries_in(alloc, members)?;
    Ok(FoundEntries::Are(Entries::Json(found)))
}

fn entries_of_input<'v>(
    members: &'v Map<String, Value>,
    of_type: &'v SchemaType,
) -> FoundEntries<'v>
    ensures { entries_of result
        ≡ spec.defined_entries (fields_in members.now.entries) of_type.now.input_fields }
{
    match unknown_member(members, of_type) {
        Some(name) => FoundEntries::Unknown(name),
        None => FoundEntries::Are(Entries::JsonFields(of_type.input_fields.as_slice(), members)),
    }
}

fn entries_at<'v>(
    alloc: Global,
    members: &'v Map<String, Value>,
    of_type: &'v SchemaType,
) -> Result<FoundEntries<'v>, AllocError>
    ensures { IfOk result (λ es. entries_of es
        ≡ spec.entries_at_kind (fields_in members.now.entries) of_type.now of_type.now.kind) }
{
    match of_type.kind {
        TypeKind::InputObject => Ok(entries_of_input(members, of_type)),
        TypeKind::Scalar => {
            if is_custom_scalar(of_type) {
                any_entries(alloc, members)
            } else {
                Ok(FoundEntries::NoObject)
            }
        }
        TypeKind::Enum | TypeKind::Object | TypeKind::Interface | TypeKind::Union => {
            Ok(FoundEntries::NoObject)
        }
    }
}

/// What an object of these members is made of.
pub fn json_entries<'v>(
    alloc: Global,
    members: &'v Map<String, Value>,
    schema: &'v Schema,
    expected: Option<&TypeRef>,
) -> Result<FoundEntries<'v>, AllocError>
    ensures { IfOk result (λ es. entries_of es
        ≡ spec.entries_for schema.now (fields_in members.now.entries)
        (option_map written (option_copied expected.entry))) }
{
    match expected {
        None => any_entries(alloc, members),
        Some(of_type) => match input_type(schema, of_type) {
            Some(found) => entries_at(alloc, members, found),
            None => Ok(FoundEntries::NoObject),
        },
    }
}
