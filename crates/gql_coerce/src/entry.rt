//! The members that an object is to have.
ghost use Rattle.std.specs.Prelude.{◌≡◌, ◌<◌, ◌+◌, ◌^◌, OnSome, IfOk, map, option_map, slice_get};
ghost use Rattle.std.specs.Option.{option_copied};
ghost use Rattle.gql_types.specs.Written.{written};
ghost use Rattle.serde_json.specs.View.{view};
ghost use Rattle.gql_coerce.specs.Coercion as spec;
ghost use Rattle.gql_coerce.specs.JsonEntries.{entry_of as json_entry, fields_in};
ghost use Rattle.gql_coerce.specs.LiteralEntries.{entry_of as literal_entry, fields_in as literal_fields};
ghost use Rattle.gql_coerce.specs.Parts.{entry_of, entries_in, entries_of, fields_of};
ghost use Rattle.gql_coerce.specs.Scopes.{values_in};

use crate::coerced_object::CoercedObject;
use crate::json_entries::{self, JsonEntry, json_entries};
use crate::literal_entries::{self, LiteralEntry, literal_entries};
use crate::part::{ObjectFields, Part};
use gql_ast::{InputValueDefinition, ObjectField, Shared, TypeRef};
use gql_types::{Schema, Sited};
use serde_json::{Map, Value};
use std::alloc::{AllocError, Global};

/// A member that an object is to have: its name, the definition of the field unless it is within a
/// custom scalar, and the value if one is given.
#[derive(Clone, Copy)]
pub struct Entry<'v> {
    pub name: &'v str,
    pub definition: Option<&'v InputValueDefinition>,
    pub given: Option<Part<'v>>,
}

/// The members that an object is to have.
#[derive(Drop)]
pub enum Entries<'v> {
    /// Those of a literal, and the object with the values of the variables, if there may be some.
    Literals(Vec<LiteralEntry<'v>>, Option<&'v CoercedObject>),
    /// Those that a type defines, from the fields of a literal, which are few.
    LiteralFields(
        &'v [Sited<Shared<InputValueDefinition>>],
        &'v [ObjectField],
        Option<&'v CoercedObject>,
    ),
    Json(Vec<JsonEntry<'v>>),
    /// Those that a type defines, from an object of JSON.
    JsonFields(&'v [Sited<Shared<InputValueDefinition>>], &'v Map<String, Value>),
}

/// What an object is made of.
#[derive(Drop)]
pub enum FoundEntries<'v> {
    Are(Entries<'v>),
    /// The type has no field of that name.
    Unknown(&'v str),
    /// No object is expected.
    NoObject,
}

fn of_literal<'v>(entry: &LiteralEntry<'v>, variables: Option<&'v CoercedObject>) -> Entry<'v>
    ensures { entry_of result
        ≡ literal_entry (values_in (option_map (λ v. view v.now) variables.entry)) entry.now }
{
    let given = match entry.given {
        Some(value) => Some(Part::Literal(value, variables)),
        None => None,
    };
    Entry {
        name: entry.name,
        definition: entry.definition,
        given,
    }
}

fn of_json<'v>(entry: &JsonEntry<'v>) -> Entry<'v>
    ensures { entry_of result ≡ json_entry entry.now }
{
    let given = match entry.given {
        Some(value) => Some(Part::Json(value)),
        None => None,
    };
    Entry {
        name: entry.name,
        definition: entry.definition,
        given,
    }
}

#[tactic(auto, using(std::proofs::lemmas::Option::gets, crate::proofs::Found::get_map))]
fn literal_entry_at<'v>(
    entries: &[LiteralEntry<'v>],
    variables: Option<&'v CoercedObject>,
    index: usize,
) -> Option<Entry<'v>>
    ensures entry { option_map entry_of result
        ≡ slice_get (map (literal_entry
        (values_in (option_map (λ v. view v.now) variables.entry))) entries.now) index }
    ensures within { OnSome result (index + 1 < 2 ^ 64) }
{
    if index < entries.len() {
        Some(of_literal(&entries[index], variables))
    } else {
        None
    }
}

#[tactic(auto, using(std::proofs::lemmas::Option::gets, crate::proofs::Found::get_map))]
fn literal_field_at<'v>(
    definitions: &'v [Sited<Shared<InputValueDefinition>>],
    fields: &'v [ObjectField],
    variables: Option<&'v CoercedObject>,
    index: usize,
) -> Option<Entry<'v>>
    ensures entry { option_map entry_of result
        ≡ slice_get (map (spec.defined_entry (literal_fields
        (values_in (option_map (λ v. view v.now) variables.entry)) fields.now))
        definitions.now) index }
    ensures within { OnSome result (index + 1 < 2 ^ 64) }
{
    if index < definitions.len() {
        let entry = literal_entries::field_entry(fields, &definitions[index]);
        Some(of_literal(&entry, variables))
    } else {
        None
    }
}

#[tactic(auto, using(std::proofs::lemmas::Option::gets, crate::proofs::Found::get_map))]
fn json_entry_at<'v>(entries: &[JsonEntry<'v>], index: usize) -> Option<Entry<'v>>
    ensures entry { option_map entry_of result ≡ slice_get (map json_entry entries.now) index }
    ensures within { OnSome result (index + 1 < 2 ^ 64) }
{
    if index < entries.len() {
        Some(of_json(&entries[index]))
    } else {
        None
    }
}

#[tactic(auto, using(std::proofs::lemmas::Option::gets, crate::proofs::Found::get_map))]
fn json_field_at<'v>(
    definitions: &'v [Sited<Shared<InputValueDefinition>>],
    members: &'v Map<String, Value>,
    index: usize,
) -> Option<Entry<'v>>
    ensures entry { option_map entry_of result
        ≡ slice_get (map (spec.defined_entry (fields_in members.now.entries))
        definitions.now) index }
    ensures within { OnSome result (index + 1 < 2 ^ 64) }
{
    if index < definitions.len() {
        let entry = json_entries::field_entry(members, &definitions[index]);
        Some(of_json(&entry))
    } else {
        None
    }
}

impl<'v> Entries<'v> {
    /// The member at an index.
    pub fn get(&self, index: usize) -> Option<Entry<'v>>
        ensures entry { option_map entry_of result ≡ slice_get (entries_in self.now) index }
        ensures within { OnSome result (index + 1 < 2 ^ 64) }
    {
        match self {
            Entries::Literals(entries, variables) => {
                literal_entry_at(entries.as_slice(), *variables, index)
            }
            Entries::LiteralFields(definitions, fields, variables) => {
                literal_field_at(definitions, fields, *variables, index)
            }
            Entries::Json(entries) => json_entry_at(entries.as_slice(), index),
            Entries::JsonFields(definitions, members) => {
                json_field_at(definitions, members, index)
            }
        }
    }
}

/// What an object of these fields is made of.
pub fn found_entries<'v>(
    alloc: Global,
    schema: &'v Schema,
    fields: ObjectFields<'v>,
    expected: Option<&TypeRef>,
) -> Result<FoundEntries<'v>, AllocError>
    ensures { IfOk result (λ found. entries_of found ≡ spec.entries_for schema.now
        (fields_of fields.entry) (option_map written (option_copied expected.entry))) }
{
    match fields {
        ObjectFields::Literal(fields, variables) => {
            literal_entries(alloc, fields, variables, schema, expected)
        }
        ObjectFields::Json(members) => json_entries(alloc, members, schema, expected),
    }
}
