//! What is made once for a schema (GraphQL specification, 4.2.1).
ghost use Rattle.std.specs.Prelude.{◌≡◌, ◌++◌, map, filter, IfOk};
ghost use Rattle.std.specs.Option.{option_copied};
ghost use Rattle.gql_ast.specs.declared.files.Files.{Files as TheFiles};
ghost use Rattle.gql_types.specs.Edits.{KeepsOthers};
ghost use Rattle.gql_types.specs.Outlines.{IsOutline};
ghost use Rattle.gql_types.specs.Possible.{name_of};
ghost use Rattle.gql_intro.specs.Made as spec;
ghost use Rattle.gql_intro.specs.MetaFields.{meta_field};

use crate::edited_names::{are_none, names_only_in};
use crate::meta_fields::MetaFields;
use crate::outlined::outlined_description;
use crate::references::refer;
use crate::sorted_names::SortedNames;
use gql_ast::{
    Definition, Document, FieldDefinition, FileMap, Files, SchemaDefinition, Shared, Text, Tree,
};
use gql_types::{Batched, HasName, Named, Outline, Schema, SchemaType};
use std::alloc::{AllocError, Global};

/// The schema as introspection shows it. It is made once for a schema, and is valid as long as the
/// schema is.
pub struct IntroSchema {
    /// The names of the types, in the order of their bytes.
    types: Shared<SortedNames>,
    /// Whether the schema files refer to Int, to ID, and to Float.
    has_int: bool,
    has_id: bool,
    has_float: bool,
    description: Option<Text>,
    meta: MetaFields,
}

impl Drop for IntroSchema {
    fn drop(self) {
        let IntroSchema {
            types: _,
            has_int: _,
            has_id: _,
            has_float: _,
            description: _,
            meta: _,
        } = self;
    }
}

/// Whether introspection shows a type of that name.
pub(crate) fn is_shown(has_int: bool, has_id: bool, has_float: bool, name: &str) -> bool
    ensures { result ≡ spec.is_shown has_int has_id has_float name.now }
{
    if name == "Int" {
        has_int
    } else if name == "ID" {
        has_id
    } else if name == "Float" {
        has_float
    } else {
        true
    }
}

/// The names of the types that introspection shows.
fn shown_names(
    alloc: Global,
    types: &[Batched<SchemaType>],
    has_int: bool,
    has_id: bool,
    has_float: bool,
) -> Result<Vec<&str>, AllocError>
    ensures { IfOk result (λ names. map (λ n. n.now) names.items
        ≡ filter (spec.is_shown has_int has_id has_float) (map name_of types.now)) }
{
    let mut names = Vec::new(alloc);
    for of_type in types {
        let name = of_type.get().name();
        if is_shown(has_int, has_id, has_float, name) {
            names.push(name)?;
        }
    }
    Ok(names)
}

/// The names of the types that introspection shows, in the order of their bytes.
fn shown_types(
    alloc: Global,
    schema: &Schema,
    has_int: bool,
    has_id: bool,
    has_float: bool,
) -> Result<SortedNames, AllocError>
    ensures { IfOk result (λ names. names
        ≡ spec.shown_types schema.now has_int has_id has_float) }
{
    let names = shown_names(alloc, schema.types(), has_int, has_id, has_float)?;
    SortedNames::new(alloc, names)
}

/// The first schema definition in a file.
fn schema_in(definitions: &[Definition]) -> Option<&SchemaDefinition>
    ensures { option_copied result ≡ spec.schema_in definitions.now }
{
    for definition in definitions {
        if let Tree::Schema(found) = &definition.tree {
            return Some(found.get());
        }
    }
    None
}

/// The first schema definition in these files.
fn first_schema(files: &FileMap<Shared<Document>>) -> Option<&SchemaDefinition>
    ensures { option_copied result ≡ spec.first_schema files.now }
{
    for (_file, document) in files.entries().iter() {
        if let Some(found) = schema_in(document.get().definitions.as_slice()) {
            return Some(found);
        }
    }
    None
}

/// An equal text, if there is one.
pub(crate) fn copied(text: &Option<Text>) -> Result<Option<Text>, AllocError>
    ensures { IfOk result (λ copy. copy ≡ text.now) }
{
    match text {
        Some(text) => Ok(Some(text.copy()?)),
        None => Ok(None),
    }
}

/// The description of the schema, which is that of its definition.
fn description(files: &FileMap<Shared<Document>>) -> Result<Option<Text>, AllocError>
    ensures { IfOk result (λ text. text ≡ spec.description_of files.now) }
{
    match first_schema(files) {
        Some(definition) => copied(&definition.description),
        None => Ok(None),
    }
}

/// The schema of these files as introspection shows it. `schema` is what `gql_types::assemble`
/// returns for them. It is made once for a schema.
pub fn intro_schema(
    alloc: Global,
    files: &Files,
    schema: &Schema,
) -> Result<IntroSchema, AllocError>
    ensures { IfOk result (λ made. made ≡ spec.made_of files.now schema.now) }
{
    let has_int = refer(&files.schema, "Int");
    let has_id = refer(&files.schema, "ID");
    let has_float = refer(&files.schema, "Float");
    let types = shown_types(alloc, schema, has_int, has_id, has_float)?;
    Ok(IntroSchema {
        types: Shared::new(alloc, types)?,
        has_int,
        has_id,
        has_float,
        description: description(&files.schema)?,
        meta: MetaFields::new(alloc)?,
    })
}

/// The names of the types that introspection shows after an edit that changed types of these names
/// alone, by what was made of the schema before it. If no type came or went, all are shared.
fn types_after_edit(
    alloc: Global,
    schema: &Schema,
    has_int: bool,
    has_id: bool,
    has_float: bool,
    edited: &Named<Text>,
    before: &Schema,
    made: &IntroSchema,
) -> Result<Shared<SortedNames>, AllocError>
    ensures { IfOk result (λ names. KeepsOthers edited.now before.now schema.now
        → KeepsOthers edited.now schema.now before.now
        → made.now.types ≡ spec.shown_types before.now made.now.has_int made.now.has_id
        made.now.has_float
        → names ≡ spec.shown_types schema.now has_int has_id has_float) }
{
    if has_int != made.has_int || has_id != made.has_id || has_float != made.has_float {
        let names = shown_types(alloc, schema, has_int, has_id, has_float)?;
        let names = Shared::new(alloc, names)?;
        return Ok(names);
    }
    let gone = names_only_in(alloc, before, schema, edited.as_slice())?;
    let came = names_only_in(alloc, schema, before, edited.as_slice())?;
    if are_none(gone.as_slice()) && are_none(came.as_slice()) {
        let same = made.types.clone()?;
        return Ok(same);
    }
    let gone = Named::new(alloc, gone)?;
    let names = made
        .types()
        .after_edit(alloc, &gone, came.as_slice(), has_int, has_id, has_float)?;
    let names = Shared::new(alloc, names)?;
    Ok(names)
}

/// The schema of these files as introspection shows it, after an edit of a schema file that changed
/// types of these names alone, where `outline` is the outline of the files. `made` is what was made of
/// the schema before it. Names of types are sorted only where types came or went.
pub fn intro_schema_after_edit(
    alloc: Global,
    files: &Files,
    schema: &Schema,
    outline: &Outline,
    edited: &Named<Text>,
    before: &Schema,
    made: &IntroSchema,
) -> Result<IntroSchema, AllocError>
    requires { IsOutline files.now outline.now }
    ensures { IfOk result (λ after. (old : TheFiles) → KeepsOthers edited.now before.now schema.now
        → KeepsOthers edited.now schema.now before.now → made.now ≡ spec.made_of old before.now
        → after ≡ spec.made_of files.now schema.now) }
{
    let has_int = refer(&files.schema, "Int");
    let has_id = refer(&files.schema, "ID");
    let has_float = refer(&files.schema, "Float");
    let types = types_after_edit(
        alloc, schema, has_int, has_id, has_float, edited, before, made,
    )?;
    Ok(IntroSchema {
        types,
        has_int,
        has_id,
        has_float,
        description: outlined_description(outline)?,
        meta: MetaFields::new(alloc)?,
    })
}

impl IntroSchema {
    /// The definition of `__typename`, `__schema` or `__type` (4.1, 4.2): the first is a field of
    /// every composite type, the others are fields of the query root, and no type lists them.
    pub fn meta_field(&self, name: &str) -> Option<&FieldDefinition>
        ensures { option_copied result ≡ meta_field self.now.meta name.now }
    {
        self.meta.get(name)
    }

    /// The names of the types, in the order of their bytes.
    pub(crate) fn types(&self) -> &SortedNames
        ensures { result.now ≡ self.now.types }
    {
        self.types.get()
    }

    /// The description of the schema.
    pub(crate) fn description(&self) -> &Option<Text>
        ensures { result.now ≡ self.now.description }
    {
        &self.description
    }

    /// Whether introspection shows a type of that name.
    pub(crate) fn shows(&self, name: &str) -> bool
        ensures { result
            ≡ spec.is_shown self.now.has_int self.now.has_id self.now.has_float name.now }
    {
        is_shown(self.has_int, self.has_id, self.has_float, name)
    }
}
