//! The members that an object is to have, from an object literal (GraphQL specification, 3.10).
ghost use Rattle.std.specs.Prelude.{◌≡◌, ◌++◌, ◌∷◌, [], ◌||◌, ℕ, List, IfOk, OnOk, map, find, is_some, bytes_eq, option_map, if◌then◌else◌};
ghost use Rattle.std.specs.HashMap as hash;
ghost use Rattle.std.specs.Option.{option_copied};
ghost use Rattle.gql_types.specs.Written.{written};
ghost use Rattle.serde_json.specs.Data.{Data};
ghost use Rattle.serde_json.specs.View.{view};
ghost use Rattle.gql_coerce.specs.Coercion as spec;
ghost use Rattle.gql_coerce.specs.Inputs.{literal_field, firsts_by};
ghost use Rattle.gql_coerce.specs.LiteralEntries.{entry_of, fields_in, name_of, first_unknown};
ghost use Rattle.gql_coerce.specs.Parts.{entries_in as members_in, entries_of};
ghost use Rattle.gql_coerce.specs.Scopes.{values_in};

use crate::coerced_object::CoercedObject;
use crate::entry::{Entries, FoundEntries};
use gql_ast::{InputValueDefinition, Literal, ObjectField, Shared, TypeRef};
use gql_inputs::{input_type, is_custom_scalar};
use gql_types::{HasName, Named, Schema, SchemaType, Sited, TypeKind};
use std::alloc::{AllocError, Global};
use std::collections::HashMap;

/// A member that an object is to have: its name, the definition of the field unless it is within a
/// custom scalar, and the value if one is given.
#[derive(Drop)]
pub struct LiteralEntry<'v> {
    pub name: &'v str,
    pub definition: Option<&'v InputValueDefinition>,
    pub given: Option<&'v Literal>,
}

/// How many fields of a literal are compared one by one at most. Of more, a map is made.
const FEW: usize = 16;

/// A field, which a look-up finds by its name.
#[derive(Drop)]
struct GivenField<'v> {
    field: &'v ObjectField,
}

impl HasName for GivenField<'_> {
    ghost name = { λ g. g.field.now.name.text };

    fn name(&self) -> &str {
        self.field.name.as_str()
    }
}

fn given_fields<'v>(
    alloc: Global,
    fields: &[&'v ObjectField],
) -> Result<Vec<GivenField<'v>>, AllocError>
    ensures { IfOk result (λ found. map (λ g. g.field.now) found.items
        ≡ map (λ f. f.now) fields.now) }
{
    let mut found = Vec::new(alloc);
    for field in fields {
        found.push(GivenField { field })?;
    }
    Ok(found)
}

fn value_of<'v>(given: &Named<GivenField<'v>>, name: &str) -> Option<&'v Literal>
    ensures { option_map (λ x. x.now) result
        ≡ option_map (λ f. f.value)
        (find (λ f. bytes_eq name.now f.name.text) (map (λ g. g.field.now) given.now)) }
{
    match given.get(name) {
        Some(found) => Some(&found.field.value),
        None => None,
    }
}

fn defined_entry<'v>(
    given: &Named<GivenField<'v>>,
    definition: &'v Sited<Shared<InputValueDefinition>>,
) -> LiteralEntry<'v>
    ensures { (vs : Data) → entry_of vs result ≡ spec.defined_entry
        (map (literal_field vs) (map (λ g. g.field.now) given.now)) definition.now }
{
    let name = definition.name();
    LiteralEntry {
        name,
        definition: Some(definition.node.get()),
        given: value_of(given, name),
    }
}

fn defined_entries<'v>(
    alloc: Global,
    fields: &[&'v ObjectField],
    definitions: &'v [Sited<Shared<InputValueDefinition>>],
) -> Result<Vec<LiteralEntry<'v>>, AllocError>
    ensures { IfOk result (λ found. (vs : Data) → map (entry_of vs) found.items
        ≡ map (spec.defined_entry (map (literal_field vs) (map (λ f. f.now) fields.now)))
        definitions.now) }
{
    let given = Named::new(alloc, given_fields(alloc, fields)?)?;
    let mut found = Vec::new(alloc);
    for definition in definitions {
        found.push(defined_entry(&given, definition))?;
    }
    Ok(found)
}

/// The first value that is given for a name. Each field is compared.
fn first_value<'v>(fields: &'v [ObjectField], name: &str) -> Option<&'v Literal>
    ensures { option_map (λ x. x.now) result
        ≡ option_map (λ f. f.value) (find (λ f. bytes_eq name.now f.name.text) fields.now) }
{
    for field in fields {
        if name == field.name.as_str() {
            return Some(&field.value);
        }
    }
    None
}

/// The member for a field that is defined, from the fields of a literal.
pub fn field_entry<'v>(
    fields: &'v [ObjectField],
    definition: &'v Sited<Shared<InputValueDefinition>>,
) -> LiteralEntry<'v>
    ensures { (vs : Data)
        → entry_of vs result ≡ spec.defined_entry (fields_in vs fields.now) definition.now }
{
    let name = definition.name();
    LiteralEntry {
        name,
        definition: Some(definition.node.get()),
        given: first_value(fields, name),
    }
}

fn unknown_field<'v>(fields: &'v [ObjectField], of_type: &SchemaType) -> Option<&'v str>
    ensures { option_map (λ n. n.now) result ≡ option_map name_of
        (first_unknown of_type.now.input_fields fields.now) }
{
    for field in fields {
        if of_type.input_fields.get(field.name.as_str()).is_none() {
            return Some(field.name.as_str());
        }
    }
    None
}

/// Adds a field, unless an earlier one has its name.
fn add_first<'v>(
    seen: &mut HashMap<&'v str, ()>,
    field: &'v ObjectField,
    firsts: &mut Vec<&'v ObjectField>,
) -> Result<(), AllocError>
    ensures names { OnOk result ((q : List ℕ)
        → is_some (hash.get_by (λ k. bytes_eq q k.now) seen.new)
        ≡ (is_some (hash.get_by (λ k. bytes_eq q k.now) seen.old)
        || bytes_eq q field.now.name.text)) }
    ensures firsts { OnOk result (map (λ f. f.now) firsts.new.items
        ≡ map (λ f. f.now) firsts.old.items
        ++ (if is_some (hash.get_by (λ k. bytes_eq field.now.name.text k.now) seen.old)
        then [] else field.now ∷ [])) }
{
    let name = field.name.as_str();
    if !seen.contains_key(name) {
        seen.insert(name, ())?;
        firsts.push(field)?;
    }
    Ok(())
}

/// The first field of each name, in their order.
fn first_fields<'v>(
    alloc: Global,
    fields: &'v [ObjectField],
) -> Result<Vec<&'v ObjectField>, AllocError>
    ensures { IfOk result (λ firsts. map (λ f. f.now) firsts.items ≡ firsts_by name_of fields.now) }
{
    let mut seen = HashMap::new(alloc);
    let mut firsts = Vec::new(alloc);
    for field in fields {
        add_first(&mut seen, field, &mut firsts)?;
    }
    Ok(firsts)
}

fn entries_in<'v>(
    alloc: Global,
    fields: &[&'v ObjectField],
) -> Result<Vec<LiteralEntry<'v>>, AllocError>
    ensures { IfOk result (λ found. (vs : Data) → map (entry_of vs) found.items
        ≡ map spec.any_entry (map (literal_field vs) (map (λ f. f.now) fields.now))) }
{
    let mut found = Vec::new(alloc);
    for field in fields {
        found.push(LiteralEntry {
            name: field.name.as_str(),
            definition: None,
            given: Some(&field.value),
        })?;
    }
    Ok(found)
}

fn any_entries<'v>(
    alloc: Global,
    fields: &'v [ObjectField],
) -> Result<Vec<LiteralEntry<'v>>, AllocError>
    ensures { IfOk result (λ found. (vs : Data) → map (entry_of vs) found.items
        ≡ map spec.any_entry (fields_in vs fields.now)) }
{
    let firsts = first_fields(alloc, fields)?;
    let found = entries_in(alloc, firsts.as_slice())?;
    Ok(found)
}

/// The members that a type defines, from many fields.
fn entries_of_many<'v>(
    alloc: Global,
    fields: &'v [ObjectField],
    definitions: &'v [Sited<Shared<InputValueDefinition>>],
) -> Result<Vec<LiteralEntry<'v>>, AllocError>
    ensures { IfOk result (λ found. (vs : Data) → map (entry_of vs) found.items
        ≡ map (spec.defined_entry (fields_in vs fields.now)) definitions.now) }
{
    let firsts = first_fields(alloc, fields)?;
    let found = defined_entries(alloc, firsts.as_slice(), definitions)?;
    Ok(found)
}

/// The members that a type defines.
fn members_of_input<'v>(
    alloc: Global,
    fields: &'v [ObjectField],
    variables: Option<&'v CoercedObject>,
    definitions: &'v [Sited<Shared<InputValueDefinition>>],
) -> Result<Entries<'v>, AllocError>
    ensures { IfOk result (λ es. members_in es ≡ map (spec.defined_entry
        (fields_in (values_in (option_map (λ v. view v.now) variables.entry)) fields.now))
        definitions.now) }
{
    if fields.len() <= FEW {
        return Ok(Entries::LiteralFields(definitions, fields, variables));
    }
    let found = entries_of_many(alloc, fields, definitions)?;
    Ok(Entries::Literals(found, variables))
}

fn entries_of_input<'v>(
    alloc: Global,
    fields: &'v [ObjectField],
    variables: Option<&'v CoercedObject>,
    of_type: &'v SchemaType,
) -> Result<FoundEntries<'v>, AllocError>
    ensures { IfOk result (λ es. entries_of es ≡ spec.defined_entries
        (fields_in (values_in (option_map (λ v. view v.now) variables.entry)) fields.now)
        of_type.now.input_fields) }
{
    match unknown_field(fields, of_type) {
        Some(name) => Ok(FoundEntries::Unknown(name)),
        None => {
            let definitions = of_type.input_fields.as_slice();
            let found = members_of_input(alloc, fields, variables, definitions)?;
            Ok(FoundEntries::Are(found))
        }
    }
}

fn entries_of_any<'v>(
    alloc: Global,
    fields: &'v [ObjectField],
    variables: Option<&'v CoercedObject>,
) -> Result<FoundEntries<'v>, AllocError>
    ensures { IfOk result (λ es. entries_of es ≡ spec.any_entries
        (fields_in (values_in (option_map (λ v. view v.now) variables.entry)) fields.now)) }
{
    let found = any_entries(alloc, fields)?;
    Ok(FoundEntries::Are(Entries::Literals(found, variables)))
}

fn entries_at<'v>(
    alloc: Global,
    fields: &'v [ObjectField],
    variables: Option<&'v CoercedObject>,
    of_type: &'v SchemaType,
) -> Result<FoundEntries<'v>, AllocError>
    ensures { IfOk result (λ es. entries_of es ≡ spec.entries_at_kind
        (fields_in (values_in (option_map (λ v. view v.now) variables.entry)) fields.now)
        of_type.now of_type.now.kind) }
{
    match of_type.kind {
        TypeKind::InputObject => entries_of_input(alloc, fields, variables, of_type),
        TypeKind::Scalar => {
            if is_custom_scalar(of_type) {
                entries_of_any(alloc, fields, variables)
            } else {
                Ok(FoundEntries::NoObject)
            }
        }
        TypeKind::Enum | TypeKind::Object | TypeKind::Interface | TypeKind::Union => {
            Ok(FoundEntries::NoObject)
        }
    }
}

/// What an object of these fields is made of. Of fields of one name, the first counts.
pub fn literal_entries<'v>(
    alloc: Global,
    fields: &'v [ObjectField],
    variables: Option<&'v CoercedObject>,
    schema: &'v Schema,
    expected: Option<&TypeRef>,
) -> Result<FoundEntries<'v>, AllocError>
    ensures { IfOk result (λ es. entries_of es ≡ spec.entries_for schema.now
        (fields_in (values_in (option_map (λ v. view v.now) variables.entry)) fields.now)
        (option_map written (option_copied expected.entry))) }
{
    match expected {
        None => entries_of_any(alloc, fields, variables),
        Some(of_type) => match input_type(schema, of_type) {
            Some(found) => entries_at(alloc, fields, variables, found),
            None => Ok(FoundEntries::NoObject),
        },
    }
}
