//! The world of a schema and of the fragments of document files.
ghost use Rattle.std.specs.Prelude.{◌≡◌, ℕ, List, None, Some, IfOk, Bool, find, bytes_eq, option_and_then};
ghost use Rattle.std.specs.Option.{option_copied};
ghost use Rattle.gql_types.specs.Kinds.{same_operation};
ghost use Rattle.gql_facts.specs.Facts as spec;
ghost use Rattle.gql_facts.specs.Facts.{answer, fact_in};
ghost use Rattle.gql_facts.specs.Tables.{type_in, field_in, is_composite_in, is_query_root_in, kept_field, directive_in, root_in, fragment_in, tables_of};
ghost use Rattle.gql_facts.specs.Worlds.{Facts};
ghost use Rattle.gql_facts.specs.declared.fact.Fact.TheVariants as fact;
ghost use Rattle.gql_facts.specs.declared.schema_facts.SchemaFacts.{SchemaFacts};
ghost use Rattle.gql_facts.specs.declared.schema_facts.TypeEntry.{TypeEntry as TheTypeEntry};
ghost use Rattle.gql_facts.specs.declared.schema_facts.FieldEntry.{FieldEntry};
ghost use Rattle.gql_facts.specs.declared.schema_facts.DirectiveEntry.{DirectiveEntry};
ghost use Rattle.gql_facts.specs.declared.schema_facts.RootEntry.{RootEntry};

use crate::fact::{Fact, FieldFact};
use crate::fragments::Fragments;
use crate::key::Key;
use crate::schema_facts::{FieldEntry, RootEntry, SchemaFacts, TypeEntry};
use crate::world::World;
use gql_ast::{OperationKind, Shared};
use std::alloc::{AllocError, Global};

/// The entry of the type of that name.
fn type_entry<'s>(schema: &'s SchemaFacts, of_type: &str) -> Option<&'s TypeEntry>
    ensures { option_copied result ≡ type_in schema.entry.now of_type.now }
{
    match schema.types.get(of_type) {
        Some(entry) => Some(entry.get()),
        None => None,
    }
}

fn field_entry<'s>(schema: &'s SchemaFacts, of_type: &str, name: &str) -> Option<&'s FieldEntry>
    ensures { option_copied result ≡ field_in schema.entry.now of_type.now name.now }
{
    match type_entry(schema, of_type) {
        Some(entry) => entry.fields.get(name),
        None => None,
    }
}

/// Whether two kinds of operations are the same.
#[tactic(auto, unfolding(gql_types::specs::Kinds::same_operation))]
fn is_operation(kind: OperationKind, other: OperationKind) -> bool
    ensures { result ≡ same_operation kind other }
{
    kind == other
}

fn root_entry(schema: &SchemaFacts, kind: OperationKind) -> Option<&RootEntry>
    ensures { option_copied result ≡ root_in schema.now kind }
{
    for root in schema.roots.as_slice() {
        if is_operation(kind, root.kind) {
            return Some(root);
        }
    }
    None
}

fn kind_of(schema: &SchemaFacts, of_type: &str) -> Fact
    ensures { result ≡ answer (λ (e : TheTypeEntry). fact.Kind e.kind)
        (type_in schema.now of_type.now) }
{
    match type_entry(schema, of_type) {
        Some(entry) => Fact::Kind(entry.kind),
        None => Fact::Absent,
    }
}

/// Whether the type of that name is composite.
fn is_composite(schema: &SchemaFacts, of_type: &str) -> bool
    ensures { result ≡ is_composite_in schema.now of_type.now }
{
    match type_entry(schema, of_type) {
        Some(entry) => entry.kind.is_composite(),
        None => false,
    }
}

/// Whether the query root has that name.
fn is_query_root(schema: &SchemaFacts, of_type: &str) -> bool
    ensures { result ≡ is_query_root_in schema.now of_type.now }
{
    match root_entry(schema, OperationKind::Query) {
        Some(root) => of_type == root.name.get().as_str(),
        None => false,
    }
}

/// The fact of a field if the condition holds, else absent.
fn fact_if(holds: bool, field: &Shared<FieldFact>) -> Result<Fact, AllocError>
    ensures { IfOk result (λ f. f ≡ spec.fact_if holds (fact.Field field.now)) }
{
    if holds {
        Ok(Fact::Field(field.clone()?))
    } else {
        Ok(Fact::Absent)
    }
}

/// The fact of a field that the type lists.
fn own_field(schema: &SchemaFacts, of_type: &str, name: &str) -> Result<Fact, AllocError>
    ensures { IfOk result (λ f. f ≡ answer (λ (e : FieldEntry). fact.Field e.fact)
        (field_in schema.now of_type.now name.now)) }
{
    match field_entry(schema, of_type, name) {
        Some(entry) => Ok(Fact::Field(entry.fact.clone()?)),
        None => Ok(Fact::Absent),
    }
}

fn field_of(schema: &SchemaFacts, of_type: &str, name: &str) -> Result<Fact, AllocError>
    ensures { IfOk result (λ f. f ≡ kept_field schema.now of_type.now name.now) }
{
    if name == "__typename" {
        fact_if(is_composite(schema, of_type), &schema.meta.typename)
    } else if name == "__schema" && is_query_root(schema, of_type) {
        Ok(Fact::Field(schema.meta.schema.clone()?))
    } else if name == "__type" && is_query_root(schema, of_type) {
        Ok(Fact::Field(schema.meta.of_type.clone()?))
    } else {
        own_field(schema, of_type, name)
    }
}

fn possible_of(schema: &SchemaFacts, of_type: &str) -> Result<Fact, AllocError>
    ensures { IfOk result (λ f. f ≡ answer fact.Possible
        (option_and_then (λ (e : TheTypeEntry). e.possible) (type_in schema.now of_type.now))) }
{
    let Some(entry) = type_entry(schema, of_type) else {
        return Ok(Fact::Absent);
    };
    match &entry.possible {
        Some(names) => Ok(Fact::Possible(names.shared()?)),
        None => Ok(Fact::Absent),
    }
}

fn input_of(schema: &SchemaFacts, of_type: &str) -> Result<Fact, AllocError>
    ensures { IfOk result (λ f. f ≡ answer fact.Input
        (option_and_then (λ (e : TheTypeEntry). e.inputs) (type_in schema.now of_type.now))) }
{
    let Some(entry) = type_entry(schema, of_type) else {
        return Ok(Fact::Absent);
    };
    match &entry.inputs {
        Some(fields) => Ok(Fact::Input(fields.clone()?)),
        None => Ok(Fact::Absent),
    }
}

fn enum_of(schema: &SchemaFacts, of_type: &str) -> Result<Fact, AllocError>
    ensures { IfOk result (λ f. f ≡ answer fact.Enum
        (option_and_then (λ (e : TheTypeEntry). e.values) (type_in schema.now of_type.now))) }
{
    let Some(entry) = type_entry(schema, of_type) else {
        return Ok(Fact::Absent);
    };
    match &entry.values {
        Some(values) => Ok(Fact::Enum(values.clone()?)),
        None => Ok(Fact::Absent),
    }
}

fn directive_of(schema: &SchemaFacts, name: &str) -> Result<Fact, AllocError>
    ensures { IfOk result (λ f. f ≡ answer (λ (d : DirectiveEntry). fact.Directive d.fact)
        (directive_in schema.now name.now)) }
{
    match schema.directives.get(name) {
        Some(entry) => Ok(Fact::Directive(entry.fact.clone()?)),
        None => Ok(Fact::Absent),
    }
}

fn root_of(schema: &SchemaFacts, kind: OperationKind) -> Result<Fact, AllocError>
    ensures { IfOk result (λ f. f ≡ answer (λ (r : RootEntry). fact.Root r.name)
        (root_in schema.now kind)) }
{
    match root_entry(schema, kind) {
        Some(entry) => Ok(Fact::Root(entry.name.clone()?)),
        None => Ok(Fact::Absent),
    }
}

fn fragment_of(fragments: &Fragments, name: &str) -> Result<Fact, AllocError>
    ensures { IfOk result (λ f. f ≡ answer fact.Fragment (fragment_in fragments.now.all name.now)) }
{
    match fragments.get(name) {
        Some(fragment) => Ok(Fact::Fragment(fragment.copy()?)),
        None => Ok(Fact::Absent),
    }
}

/// The world of a schema and of the fragments of document files, as they are present.
#[derive(Clone, Copy)]
pub struct Present<'p> {
    schema: &'p SchemaFacts,
    fragments: &'p Fragments,
}

impl<'p> Present<'p> {
    ghost use Rattle.std.specs.Prelude.{List, ℕ};
    ghost use Rattle.gql_ast.specs.declared.definition.Document.{Document};
    ghost use Rattle.gql_types.specs.declared.schema.Schema.{Schema};
    ghost use Rattle.gql_facts.specs.Presents.{facts_of_present};

    /// The world of this schema and these fragments. Its answers are those of the schema and of the
    /// document files from which they were made.
    pub fn new(schema: &'p SchemaFacts, fragments: &'p Fragments) -> Present<'p>
        ensures schema { result.schema.now ≡ schema.now }
        ensures fragments { result.fragments.now ≡ fragments.now }
        ensures answers { (s : Schema) → (documents : List (List ℕ × Document))
            → schema.now ≡ tables_of s → fragments.now.all ≡ spec.fragments documents
            → facts_of_present result ≡ fact_in s documents }
    {
        Present { schema, fragments }
    }
}

impl<'p> World for Present<'p> {
    ghost use Rattle.gql_facts.specs.Presents.{facts_of_present, names_of_present, present_is_world};

    ghost facts = { facts_of_present };

    ghost names = { names_of_present };

    ghost asked = { λ _. None };

    ghost lent = { λ _. (0, 0) };

    fn fact(&mut self, alloc: Global, key: &Key) -> Result<Fact, AllocError> {
        match key {
            Key::KindOf(name) => Ok(kind_of(self.schema, name.as_str())),
            Key::FieldOf { of_type, field } => {
                field_of(self.schema, of_type.as_str(), field.as_str())
            }
            Key::PossibleOf(name) => possible_of(self.schema, name.as_str()),
            Key::InputOf(name) => input_of(self.schema, name.as_str()),
            Key::EnumOf(name) => enum_of(self.schema, name.as_str()),
            Key::DirectiveOf(name) => directive_of(self.schema, name.as_str()),
            Key::RootOf(kind) => root_of(self.schema, *kind),
            Key::FragmentOf(name) => fragment_of(self.fragments, name.as_str()),
        }
    }

    ghost is_world = { present_is_world };
}
