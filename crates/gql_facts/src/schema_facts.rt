//! The facts of a schema, made once and shared.
ghost use Rattle.std.specs.Prelude.{◌≡◌, ◌++◌, IfOk, OnOk, map, take};
ghost use Rattle.std.specs.Option.{option_copied};
ghost use Rattle.std.specs.Prelude.{option_map};
ghost use Rattle.gql_types.specs.Schemas.{possible_named, inputs_by, values_by};
ghost use Rattle.gql_facts.specs.Facts as spec;
ghost use Rattle.gql_facts.specs.Tables as tables;

use crate::fact::{DirectiveFact, Fact, FieldFact, InputFact};
use crate::meta_fields::MetaFields;
use crate::possible_names::PossibleNames;
use gql_ast::{
    DirectiveDefinition, DirectiveLocation, EnumValueDefinition, FieldDefinition,
    InputValueDefinition, Items, OperationKind, Shared, Text,
};
use gql_types::{
    BatchList, Batched, DefinedInputs, HasName, Named, Root, Schema, SchemaType, Sited, TypeKind,
    WrittenType,
};
use std::alloc::{AllocError, Global};

/// A field of a type, with its fact.
#[derive(Drop)]
pub struct FieldEntry {
    pub name: Text,
    pub fact: Shared<FieldFact>,
}

/// A type, with the facts of its parts.
#[derive(Drop)]
pub struct TypeEntry {
    pub name: Text,
    pub kind: TypeKind,
    pub fields: Named<FieldEntry>,
    pub possible: Option<PossibleNames>,
    pub inputs: Option<Shared<DefinedInputs<InputFact>>>,
    pub values: Option<Shared<Named<Text>>>,
}

/// A directive, with its fact.
#[derive(Drop)]
pub struct DirectiveEntry {
    pub name: Text,
    pub fact: Shared<DirectiveFact>,
}

/// A root operation type, with its name.
#[derive(Drop)]
pub struct RootEntry {
    pub kind: OperationKind,
    pub name: Shared<Text>,
}

impl HasName for FieldEntry {
    ghost name = { λ e. e.name };

    fn name(&self) -> &str {
        self.name.as_str()
    }
}

impl HasName for TypeEntry {
    ghost name = { λ e. e.name };

    fn name(&self) -> &str {
        self.name.as_str()
    }
}

impl HasName for DirectiveEntry {
    ghost name = { λ e. e.name };

    fn name(&self) -> &str {
        self.name.as_str()
    }
}

/// The facts of a schema. They are made once; an answer is a look-up, and shares the fact. The entry
/// of a type is shared with the facts after an edit that leaves the type as it is.
pub struct SchemaFacts {
    pub types: Named<Batched<TypeEntry>>,
    pub directives: Named<DirectiveEntry>,
    pub roots: Items<RootEntry>,
    pub meta: MetaFields,
}

impl Drop for SchemaFacts {
    fn drop(self) {
        let SchemaFacts {
            types: _,
            directives: _,
            roots: _,
            meta: _,
        } = self;
    }
}

fn input_fact(alloc: Global, definition: &InputValueDefinition) -> Result<InputFact, AllocError>
    ensures { IfOk result (λ f. f ≡ spec.input_fact definition.now) }
{
    Ok(InputFact {
        name: definition.name.text.copy()?,
        of_type: WrittenType::of(alloc, &definition.of_type)?,
        has_default: definition.default.is_some(),
    })
}

fn argument_facts(
    alloc: Global,
    arguments: &[Shared<InputValueDefinition>],
) -> Result<DefinedInputs<InputFact>, AllocError>
    ensures { IfOk result (λ facts. facts ≡ map spec.input_fact arguments.now) }
{
    let mut facts = Vec::with_capacity(alloc, arguments.len())?;
    for argument in arguments {
        facts.push(input_fact(alloc, argument.get())?)?;
    }
    DefinedInputs::new(alloc, facts)
}

fn input_facts(
    alloc: Global,
    fields: &[Sited<Shared<InputValueDefinition>>],
) -> Result<DefinedInputs<InputFact>, AllocError>
    ensures { IfOk result (λ facts. facts ≡ spec.input_facts fields.now) }
{
    let mut facts = Vec::with_capacity(alloc, fields.len())?;
    for field in fields {
        facts.push(input_fact(alloc, field.node.get())?)?;
    }
    DefinedInputs::new(alloc, facts)
}

fn value_names(
    alloc: Global,
    values: &[Sited<Shared<EnumValueDefinition>>],
) -> Result<Named<Text>, AllocError>
    ensures { IfOk result (λ names. names ≡ spec.value_names values.now) }
{
    let mut names = Vec::with_capacity(alloc, values.len())?;
    for value in values {
        names.push(value.node.get().name.text.copy()?)?;
    }
    Named::new(alloc, names)
}

fn copied_locations(
    alloc: Global,
    locations: &[DirectiveLocation],
) -> Result<Items<DirectiveLocation>, AllocError>
    ensures { IfOk result (λ copies. copies ≡ locations.now) }
{
    let mut copies = Items::new(alloc);
    for location in locations {
        copies.push(*location)?;
    }
    Ok(copies)
}

fn field_entry(
    alloc: Global,
    field: &Sited<Shared<FieldDefinition>>,
) -> Result<FieldEntry, AllocError>
    ensures { IfOk result (λ e. e ≡ tables.field_entry field.now) }
{
    let definition = field.node.get();
    let fact = FieldFact {
        of_type: WrittenType::of(alloc, &definition.of_type)?,
        arguments: argument_facts(alloc, definition.arguments.as_slice())?,
    };
    Ok(FieldEntry {
        name: definition.name.text.copy()?,
        fact: Shared::new(alloc, fact)?,
    })
}

fn field_entries(
    alloc: Global,
    fields: &[Sited<Shared<FieldDefinition>>],
) -> Result<Vec<FieldEntry>, AllocError>
    ensures { IfOk result (λ entries. entries.items ≡ map tables.field_entry fields.now) }
{
    let mut entries = Vec::with_capacity(alloc, fields.len())?;
    for field in fields {
        entries.push(field_entry(alloc, field)?)?;
    }
    Ok(entries)
}

fn possible_names(
    alloc: Global,
    schema: &Schema,
    name: &str,
) -> Result<Option<PossibleNames>, AllocError>
    ensures { IfOk result (λ o. o ≡ possible_named schema.now name.now) }
{
    match schema.possible(name) {
        Some(names) => Ok(Some(PossibleNames::new(alloc, names)?)),
        None => Ok(None),
    }
}

fn shared_inputs(
    alloc: Global,
    of_type: &SchemaType,
) -> Result<Option<Shared<DefinedInputs<InputFact>>>, AllocError>
    ensures { IfOk result (λ o. o
        ≡ option_map spec.input_facts (inputs_by of_type.now.kind of_type.now)) }
{
    match of_type.kind {
        TypeKind::InputObject => Ok(Some(Shared::new(
            alloc,
            input_facts(alloc, of_type.input_fields.as_slice())?,
        )?)),
        _ => Ok(None),
    }
}

fn shared_values(
    alloc: Global,
    of_type: &SchemaType,
) -> Result<Option<Shared<Named<Text>>>, AllocError>
    ensures { IfOk result (λ o. o
        ≡ option_map spec.value_names (values_by of_type.now.kind of_type.now)) }
{
    match of_type.kind {
        TypeKind::Enum => Ok(Some(Shared::new(
            alloc,
            value_names(alloc, of_type.values.as_slice())?,
        )?)),
        _ => Ok(None),
    }
}

/// The entry of a type.
pub fn type_entry(
    alloc: Global,
    schema: &Schema,
    of_type: &SchemaType,
) -> Result<TypeEntry, AllocError>
    ensures { IfOk result (λ e. e ≡ tables.type_entry schema.now of_type.now) }
{
    let name = of_type.name();
    let fields = field_entries(alloc, of_type.fields.as_slice())?;
    Ok(TypeEntry {
        name: Text::from_str(alloc, name)?,
        kind: of_type.kind,
        fields: Named::new(alloc, fields)?,
        possible: possible_names(alloc, schema, name)?,
        inputs: shared_inputs(alloc, of_type)?,
        values: shared_values(alloc, of_type)?,
    })
}

/// The entries of the types, as one batch.
fn type_entries(alloc: Global, schema: &Schema) -> Result<Vec<Batched<TypeEntry>>, AllocError>
    ensures { IfOk result (λ entries. entries.items
        ≡ map (tables.type_entry schema.now) schema.now.types) }
{
    let mut entries = BatchList::with_capacity(alloc, schema.types().len())?;
    for of_type in schema.types() {
        entries.add(type_entry(alloc, schema, of_type.get())?)?;
    }
    entries.finish(alloc)
}

fn directive_entry(
    alloc: Global,
    directive: &Sited<Shared<DirectiveDefinition>>,
) -> Result<DirectiveEntry, AllocError>
    ensures { IfOk result (λ e. e ≡ tables.directive_entry directive.now) }
{
    let definition = directive.node.get();
    let fact = DirectiveFact {
        locations: copied_locations(alloc, definition.locations.as_slice())?,
        is_repeatable: definition.is_repeatable,
        arguments: argument_facts(alloc, definition.arguments.as_slice())?,
    };
    Ok(DirectiveEntry {
        name: definition.name.text.copy()?,
        fact: Shared::new(alloc, fact)?,
    })
}

/// The entries of the directives.
pub fn directive_entries(alloc: Global, schema: &Schema) -> Result<Vec<DirectiveEntry>, AllocError>
    ensures { IfOk result (λ entries. entries.items
        ≡ map tables.directive_entry schema.now.directives) }
{
    let mut entries = Vec::new(alloc);
    for directive in schema.directives() {
        entries.push(directive_entry(alloc, directive)?)?;
    }
    Ok(entries)
}

/// The entries of the root operation types.
pub fn root_entries(alloc: Global, roots: &[Root]) -> Result<Items<RootEntry>, AllocError>
    ensures { IfOk result (λ entries. entries ≡ map tables.root_entry roots.now) }
{
    let mut entries = Items::new(alloc);
    for root in roots {
        entries.push(RootEntry {
            kind: root.kind,
            name: Shared::new(alloc, root.name.node.text.copy()?)?,
        })?;
    }
    Ok(entries)
}

impl SchemaFacts {
    /// The facts of this schema.
    pub fn new(alloc: Global, schema: &Schema) -> Result<SchemaFacts, AllocError>
        ensures { IfOk result (λ facts. facts ≡ tables.tables_of schema.now) }
    {
        let entries = type_entries(alloc, schema)?;
        let types = Named::of_names(alloc, entries, schema.named_types())?;
        let directives = Named::new(alloc, directive_entries(alloc, schema)?)?;
        let roots = root_entries(alloc, schema.roots())?;
        let meta = MetaFields::new(alloc)?;
        Ok(SchemaFacts {
            types,
            directives,
            roots,
            meta,
        })
    }
}
