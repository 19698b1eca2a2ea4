//! The execution of a field of an object of the data (GraphQL specification, 6.4): it is resolved
//! with its arguments, its value is completed, and a null stays at the first nullable place (6.4.4).
//! `objects`, `fields`, `values` and `lists` recurse through each other.
ghost use Rattle.std.specs.Prelude.{OnOk};
ghost use Rattle.serde_json.specs.View.{view};
ghost use Rattle.gql_steps.specs.Columns.{AreColumnsOf};
ghost use Rattle.gql_steps.specs.Objects.{basis, object_of};
ghost use Rattle.gql_steps.specs.Plans.{types_of};
ghost use Rattle.gql_steps.specs.States.{Executes, path_of};
ghost use Rattle.gql_steps.specs.Tables.{IsRight, Pair, StandsFor};
ghost use Rattle.gql_steps.specs.ValueParts as part;
ghost use Rattle.gql_steps.specs.ValueParts.{IsAt, Keeps};

use crate::values::complete_resolved;
use gql_coerce::CoercedObject;
use gql_deep::call_node;
use gql_inputs::is_non_null;
use gql_intro::IntroNode;
use gql_steps::columns::Columns;
use gql_steps::direct::write_direct;
use gql_steps::direct_field::direct_field;
use gql_steps::ended::Ended;
use gql_steps::introspection::write_name;
use gql_steps::outcome::Step;
use gql_steps::planning::{Called, FieldPlan, Source};
use gql_steps::refusal::ExecRefusal;
use gql_steps::resolve::resolve_by_columns;
use gql_steps::run::{Reason, Run};
use gql_steps::setting::Setting;
use gql_steps::site::Site;
use gql_steps::steps::{count, cut_to_null, raise, write, write_comma};
use gql_steps::table::{Slot, Table};
use serde_json::Value;
use std::alloc::Global;

/// Executes a field, with its comma and its name.
#[cycle(execute)]
pub fn execute_field<'d>(
    alloc: Global,
    setting: &Setting<'d, '_>,
    table: &mut Table<'d>,
    slot: Slot,
    field: &FieldPlan<'d>,
    object: &Value,
    columns: &mut Columns,
    run: &mut Run<'d>,
) -> Result<Ended, ExecRefusal>
    requires right { IsRight (basis setting.now) table.old }
    requires at { IsAt table.old slot field.now }
    requires columns { AreColumnsOf (view object.now) columns.old }
    ensures keeps { OnOk result (Keeps (basis setting.now) table.old table.new run.old run.new) }
    ensures does { (q : Pair) → StandsFor (basis setting.now) field.now q
        → Executes (part.field_part (types_of (basis setting.now)) (object_of object.entry)
        (path_of run.old) slot.field q) result run.old run.new }
    ensures columns { OnOk result (AreColumnsOf (view object.now) columns.new) }
{
    write_comma(run, slot.field)?;
    count(run)?;
    write(run, field.label.as_slice())?;
    if let Some(found) = direct_field(field, object) {
        return write_direct(run, found);
    }
    execute_content(alloc, setting, table, slot, field, object, columns, run)
}

/// The value of a field, at its path. It has its own errors.
#[cycle(execute)]
fn execute_content<'d>(
    alloc: Global,
    setting: &Setting<'d, '_>,
    table: &mut Table<'d>,
    slot: Slot,
    field: &FieldPlan<'d>,
    object: &Value,
    columns: &mut Columns,
    run: &mut Run<'d>,
) -> Result<Ended, ExecRefusal>
    requires right { IsRight (basis setting.now) table.old }
    requires at { IsAt table.old slot field.now }
    requires columns { AreColumnsOf (view object.now) columns.old }
    ensures keeps { OnOk result (Keeps (basis setting.now) table.old table.new run.old run.new) }
    ensures does { (q : Pair) → StandsFor (basis setting.now) field.now q
        → Executes (part.content_part (types_of (basis setting.now)) (object_of object.entry) q
        (path_of run.old)) result run.old run.new }
    ensures columns { OnOk result (AreColumnsOf (view object.now) columns.new) }
{
    let outer = run.raised;
    let depth = run.path.len();
    run.raised = false;
    run.path.push(Step::Key(field.response_name))?;
    let ended = place_field(alloc, setting, table, slot, field, object, columns, run)?;
    run.path.truncate(depth);
    run.raised = outer;
    Ok(ended)
}

/// The value of a field at its place. Where a null bubbles up to a nullable place, it stays there.
#[cycle(execute)]
fn place_field<'d>(
    alloc: Global,
    setting: &Setting<'d, '_>,
    table: &mut Table<'d>,
    slot: Slot,
    field: &FieldPlan<'d>,
    object: &Value,
    columns: &mut Columns,
    run: &mut Run<'d>,
) -> Result<Ended, ExecRefusal>
    requires right { IsRight (basis setting.now) table.old }
    requires at { IsAt table.old slot field.now }
    requires columns { AreColumnsOf (view object.now) columns.old }
    ensures keeps { OnOk result (Keeps (basis setting.now) table.old table.new run.old run.new) }
    ensures does { (q : Pair) → StandsFor (basis setting.now) field.now q
        → Executes (part.placed_part q.0.of_type (part.called_part
        (types_of (basis setting.now)) (object_of object.entry) q (path_of run.old)))
        result run.old run.new }
    ensures columns { OnOk result (AreColumnsOf (view object.now) columns.new) }
{
    if is_non_null(field.of_type) {
        return call_field(alloc, setting, table, slot, field, object, columns, run);
    }
    let mark = run.out.len();
    match call_field(alloc, setting, table, slot, field, object, columns, run)? {
        Ended::Written => Ok(Ended::Written),
        Ended::Bubbled => {
            cut_to_null(run, mark)?;
            Ok(Ended::Written)
        }
    }
}

/// The value of a field, called with its arguments; arguments that are refused are an error.
#[cycle(execute)]
fn call_field<'d>(
    alloc: Global,
    setting: &Setting<'d, '_>,
    table: &mut Table<'d>,
    slot: Slot,
    field: &FieldPlan<'d>,
    object: &Value,
    columns: &mut Columns,
    run: &mut Run<'d>,
) -> Result<Ended, ExecRefusal>
    requires right { IsRight (basis setting.now) table.old }
    requires at { IsAt table.old slot field.now }
    requires columns { AreColumnsOf (view object.now) columns.old }
    ensures keeps { OnOk result (Keeps (basis setting.now) table.old table.new run.old run.new) }
    ensures does { (q : Pair) → StandsFor (basis setting.now) field.now q
        → Executes (part.called_part (types_of (basis setting.now)) (object_of object.entry) q
        (path_of run.old)) result run.old run.new }
    ensures columns { OnOk result (AreColumnsOf (view object.now) columns.new) }
{
    match &field.arguments {
        Called::Refused(message) => {
            raise(alloc, run, field.place, Reason::Refused(message.as_str()))
        }
        Called::Given(arguments) => call_stored(
            alloc, setting, table, slot, field, arguments, object, columns, run,
        ),
    }
}

/// The value of a field of an object of the data, called with these arguments.
#[cycle(execute)]
fn call_stored<'d>(
    alloc: Global,
    setting: &Setting<'d, '_>,
    table: &mut Table<'d>,
    slot: Slot,
    field: &FieldPlan<'d>,
    arguments: &CoercedObject,
    value: &Value,
    columns: &mut Columns,
    run: &mut Run<'d>,
) -> Result<Ended, ExecRefusal>
    requires right { IsRight (basis setting.now) table.old }
    requires at { IsAt table.old slot field.now }
    requires columns { AreColumnsOf (view value.now) columns.old }
    ensures keeps { OnOk result (Keeps (basis setting.now) table.old table.new run.old run.new) }
    ensures does { (q : Pair) → StandsFor (basis setting.now) field.now q
        → Executes (part.source_part (types_of (basis setting.now)) (view arguments.now)
        (view value.now) q (path_of run.old)) result run.old run.new }
    ensures columns { OnOk result (AreColumnsOf (view value.now) columns.new) }
{
    match &field.source {
        Source::Stored => {
            let of_type = field.of_type;
            let resolved = resolve_by_columns(
                alloc, field.name, of_type, arguments, value, columns,
            )?;
            let site = Site {
                slot,
                place: field.place,
                kind: field.kind,
            };
            complete_resolved(alloc, setting, table, site, of_type, &resolved, run)
        }
        Source::TypeName(name) => write_name(run, name.as_str()),
        Source::Root => {
            let root = IntroNode::QueryRoot;
            call_node(alloc, setting, table, slot, field, arguments, root, run)
        }
    }
}
