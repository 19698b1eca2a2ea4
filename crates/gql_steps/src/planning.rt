//! What a selection set asks of the objects of a type.
ghost use Rattle.std.specs.Prelude.{◌≡◌, ◌++◌, ◌∷◌, [], bytes_eq, codes, false, List, option_map, string_bytes, IfOk, OnOk};
ghost use Rattle.std.specs.Option.{option_map_or};
ghost use Rattle.json.specs.Print.{quoted};
ghost use Rattle.serde_json.specs.Data.{Data};
ghost use Rattle.serde_json.specs.View.{view};
ghost use Rattle.gql_coerce.specs.Comes.{Outcome as AnOutcome};
ghost use Rattle.gql_coerce.specs.Requests.{ArgumentsCome};
ghost use Rattle.gql_collect.specs.Alone.{groups_alone};
ghost use Rattle.gql_collect.specs.Borrowed.{all_selections, selections_of};
ghost use Rattle.gql_collect.specs.BorrowedGroups.{nodes_in};
ghost use Rattle.gql_collect.specs.Groups.{Group as AGroup};
ghost use Rattle.gql_collect.specs.Nodes.{in_file};
ghost use Rattle.gql_intro.specs.Introspection.{root_name};
ghost use Rattle.gql_steps.specs.Objects.{basis, field_in};
ghost use Rattle.gql_steps.specs.Plans as plans;
ghost use Rattle.gql_steps.specs.Tables.{Hold, Planning, StandFor, called_of, PlansGroup};

use crate::kinds::{ValueKind, value_kind};
use crate::setting::Setting;
use crate::strings::write_string;
use gql_ast::{Field, FieldDefinition, FileName, OperationKind, Selection, Text, TypeRef};
use gql_coerce::{CoerceFault, CoercedObject, Refusal, coerce_arguments, laws, path_text};
use gql_collect::{Context, FieldNode, Group, SelectionSet, collect, is_plain};
use gql_inputs::name_in;
use gql_text::Place;
use gql_types::Schema;
use std::alloc::{AllocError, Global};

/// What a field is called with: its arguments as an object, or the message of their refusal.
#[derive(Drop)]
pub enum Called {
    Given(CoercedObject),
    Refused(String),
}

/// Where objects of a type have the value of a field (GraphQL specification, 4.1, 4.2).
#[derive(Drop)]
pub enum Source {
    /// In the data.
    Stored,
    /// It is the name of their type.
    TypeName(Text),
    /// Introspection answers it, from the query root.
    Root,
}

/// The definition of a field that objects of a type have, and where they have its value.
#[derive(Drop)]
pub struct DefinedField<'d> {
    pub definition: &'d FieldDefinition,
    pub source: Source,
}

/// A field of an answer, for the objects of some type (GraphQL specification, 6.3).
#[derive(Drop)]
pub struct FieldPlan<'d> {
    /// The response name in quotes, and a colon.
    pub label: Vec<u8>,
    pub response_name: &'d str,
    /// Where its first node starts.
    pub place: Place,
    pub name: &'d str,
    pub source: Source,
    pub arguments: Called,
    pub of_type: &'d TypeRef,
    /// What the values of the type's name are.
    pub kind: ValueKind,
    /// The selection sets of its nodes, which are collected as one.
    pub sets: Vec<SelectionSet<'d>>,
}

/// The message of a refusal, after the text for what was refused.
pub fn refusal_text(alloc: Global, what: &str, refusal: &Refusal) -> Result<String, AllocError>
    ensures { IfOk result (λ message. string_bytes message
        ≡ plans.refusal_text what.now refusal.now.reason refusal.now.path) }
{
    let path = path_text(alloc, refusal.path.as_slice())?;
    let mut message = String::from_str(alloc, what)?;
    message.push_str(path.as_str())?;
    message.push_str(": ")?;
    message.push_str(refusal.reason.text())?;
    Ok(message)
}

/// What a field is called with.
fn called_with(
    alloc: Global,
    context: &Context<'_, '_>,
    definition: &FieldDefinition,
    field: &Field,
) -> Result<Called, AllocError>
    ensures { IfOk result (λ c. (o : AnOutcome Data)
        → ArgumentsCome context.now.schema.now definition.now.arguments field.now.arguments
        (view context.now.values.now) o → called_of c ≡ plans.arguments_of o) }
{
    laws::one_of_arguments();
    let definitions = definition.arguments.as_slice();
    let given = field.arguments.as_slice();
    match coerce_arguments(alloc, context.schema, definitions, given, context.values) {
        Ok(arguments) => Ok(Called::Given(arguments)),
        Err(CoerceFault::Refused(refusal)) => {
            Ok(Called::Refused(refusal_text(alloc, "argument ", &refusal)?))
        }
        Err(CoerceFault::Memory) => Err(AllocError),
    }
}

/// A name in quotes, and a colon.
fn label(alloc: Global, name: &str) -> Result<Vec<u8>, AllocError>
    ensures { IfOk result (λ label. label.items ≡ quoted name.now ++ codes ":") }
{
    let mut label = Vec::with_capacity(alloc, name.len().saturating_add(3))?;
    write_string(name, &mut label)?;
    label.push(b':')?;
    Ok(label)
}

/// Whether this is the type of the query root.
fn is_query_root(schema: &Schema, of_type: &str) -> bool
    ensures { result ≡ option_map_or (bytes_eq of_type.now) (root_name schema.now) false }
{
    match schema.root(OperationKind::Query) {
        Some(root) => of_type == root.name.node.as_str(),
        None => false,
    }
}

/// Where objects of a type have the value of a field that no type lists.
fn meta_source(
    alloc: Global,
    schema: &Schema,
    of_type: &str,
    name: &str,
) -> Result<Option<Source>, AllocError>
    ensures { IfOk result (λ o. o ≡ plans.meta_source schema.now of_type.now name.now) }
{
    if name == "__typename" {
        return Ok(Some(Source::TypeName(Text::from_str(alloc, of_type)?)));
    }
    if is_query_root(schema, of_type) {
        Ok(Some(Source::Root))
    } else {
        Ok(None)
    }
}

/// The field of that name that no type lists, if objects of a type have it.
fn meta_field<'d>(
    alloc: Global,
    setting: &Setting<'d, '_>,
    of_type: &str,
    name: &str,
) -> Result<Option<DefinedField<'d>>, AllocError>
    ensures { IfOk result (λ o. option_map field_in o
        ≡ plans.meta_field_of (basis setting.now) of_type.now name.now) }
{
    let Some(source) = meta_source(alloc, setting.context.schema, of_type, name)? else {
        return Ok(None);
    };
    match setting.made.meta_field(name) {
        Some(definition) => Ok(Some(DefinedField { definition, source })),
        None => Ok(None),
    }
}

/// The field of that name that objects of a type have.
fn field_of<'d>(
    alloc: Global,
    setting: &Setting<'d, '_>,
    of_type: &str,
    name: &str,
) -> Result<Option<DefinedField<'d>>, AllocError>
    ensures { IfOk result (λ o. option_map field_in o
        ≡ plans.field_of (basis setting.now) of_type.now name.now) }
{
    match setting.context.schema.field(of_type, name) {
        Some(found) => Ok(Some(DefinedField {
            definition: found.node.get(),
            source: Source::Stored,
        })),
        None => meta_field(alloc, setting, of_type, name),
    }
}

/// The field of a group, whose first node has this field.
fn field_plan<'d>(
    alloc: Global,
    setting: &Setting<'d, '_>,
    field: DefinedField<'d>,
    name: &'d str,
    group: &Group<'d>,
) -> Result<FieldPlan<'d>, AllocError>
    ensures { IfOk result (λ f. PlansGroup (basis setting.now) (field_in field.entry)
        (record { key = name.now; nodes = nodes_in group.now }) f) }
{
    let DefinedField { definition, source } = field;
    let node = group.first;
    let arguments = called_with(alloc, &setting.context, definition, node.field)?;
    let label = label(alloc, name)?;
    let sets = group.selection_sets(alloc)?;
    Ok(FieldPlan {
        label,
        response_name: name,
        place: node.place(),
        name: node.field.name.as_str(),
        source,
        arguments,
        of_type: &definition.of_type,
        kind: value_kind(
            setting.context.schema,
            name_in(&definition.of_type).as_str(),
        ),
        sets,
    })
}

/// Adds the field of a group, if objects of the type have it.
fn add_field<'d>(
    alloc: Global,
    setting: &Setting<'d, '_>,
    of_type: &str,
    name: &'d str,
    group: &Group<'d>,
    fields: &mut Vec<FieldPlan<'d>>,
) -> Result<(), AllocError>
    ensures { OnOk result ((groups : List AGroup)
        → Planning (basis setting.now) of_type.now groups fields.old.items
        → Planning (basis setting.now) of_type.now
        (groups ++ record { key = name.now; nodes = nodes_in group.now } ∷ []) fields.new.items) }
{
    let first = group.first.field.name.as_str();
    let Some(found) = field_of(alloc, setting, of_type, first)? else {
        return Ok(());
    };
    let field = field_plan(alloc, setting, found, name, group)?;
    fields.push(field)?;
    Ok(())
}

/// Adds the field of a selection that is a group of its own.
fn add_alone<'d>(
    alloc: Global,
    setting: &Setting<'d, '_>,
    of_type: &str,
    file: &'d FileName,
    selection: &'d Selection,
    fields: &mut Vec<FieldPlan<'d>>,
) -> Result<(), AllocError>
    ensures { OnOk result ((groups : List AGroup)
        → Planning (basis setting.now) of_type.now groups fields.old.items
        → Planning (basis setting.now) of_type.now
        (groups ++ groups_alone (in_file file.now (selection.now ∷ []))) fields.new.items) }
{
    match selection {
        Selection::Field(field) => {
            let node = FieldNode { file, field };
            let name = node.response_name();
            let group = Group::alone(alloc, node);
            add_field(alloc, setting, of_type, name, &group, fields)
        }
        Selection::Spread(_) => Ok(()),
        Selection::InlineFragment(_) => Ok(()),
    }
}

/// What a plain selection set asks of the objects of a type.
fn plain_fields<'d>(
    alloc: Global,
    setting: &Setting<'d, '_>,
    of_type: &str,
    set: SelectionSet<'d>,
) -> Result<Vec<FieldPlan<'d>>, AllocError>
    ensures { IfOk result (λ fields. Planning (basis setting.now) of_type.now
        (groups_alone (selections_of set.entry)) fields.items) }
{
    let mut fields = Vec::with_capacity(alloc, set.selections.len())?;
    for selection in set.selections {
        add_alone(alloc, setting, of_type, set.file, selection, &mut fields)?;
    }
    Ok(fields)
}

/// What these selection sets, taken as one, ask of the objects of a type.
pub fn planned_fields<'d>(
    alloc: Global,
    setting: &Setting<'d, '_>,
    of_type: &str,
    sets: &[SelectionSet<'d>],
) -> Result<Vec<FieldPlan<'d>>, AllocError>
    ensures { IfOk result (λ fields. Hold (basis setting.now) of_type.now
        (all_selections sets.now) fields.items) }
{
    if let [set] = sets {
        if is_plain(set) {
            return plain_fields(alloc, setting, of_type, *set);
        }
    }
    let groups = collect(alloc, &setting.context, of_type, sets)?;
    let mut fields = Vec::with_capacity(alloc, groups.len())?;
    for (name, group) in groups.iter() {
        add_field(alloc, setting, of_type, *name, group, &mut fields)?;
    }
    Ok(fields)
}
