//! The execution of the root fields of a mutation, one after the other (GraphQL specification,
//! 6.2.2). A field with `@append` adds its arguments, as an object, to a list of the data.
ghost use Rattle.std.specs.Prelude.{◌≡◌, ◌<◌, ◌++◌, List, length, Some, OnOk, IfOk};
ghost use Rattle.serde_json.specs.View.{view};
ghost use Rattle.gql_steps.specs.Columns.{AreColumnsOf};
ghost use Rattle.gql_steps.specs.Execution as spec;
ghost use Rattle.gql_steps.specs.Execution.{given};
ghost use Rattle.gql_steps.specs.Objects.{basis};
ghost use Rattle.gql_stored.specs.Rooms.{effect_of as effect_seen};
ghost use Rattle.gql_steps.specs.Plans.{types_of};
ghost use Rattle.gql_exec.specs.RootParts as part;
ghost use Rattle.gql_exec.specs.RootParts.{seen, effect_in, effects_in, root_of};
ghost use Rattle.gql_steps.specs.States.{Executes, path_of};
ghost use Rattle.gql_steps.specs.Tables.{IsRight, Pair, StandFor, StandsFor, fields_at};
ghost use Rattle.gql_steps.specs.Texts.{value_part};
ghost use Rattle.gql_steps.specs.ValueParts.{IsAt, Keeps, site_of};
ghost use Rattle.gql_steps.specs.ValueParts as values;

use crate::fields::execute_field;
use crate::values::complete;
use gql_coerce::CoercedObject;
use gql_inputs::is_non_null;
use gql_steps::columns::Columns;
use gql_steps::ended::Ended;
use gql_steps::outcome::Step;
use gql_steps::planning::{Called, FieldPlan};
use gql_steps::refusal::ExecRefusal;
use gql_steps::run::{Reason, Run};
use gql_steps::setting::Setting;
use gql_steps::site::Site;
use gql_steps::steps::{count, cut_to_null, raise, write, write_byte, write_comma};
use gql_steps::table::{Slot, Table};
use gql_stored::{Effect, has_list};
use serde_json::Value;
use std::alloc::{AllocError, Global};

/// What the root fields of a mutation are executed on: the name of the root type, the data, and the
/// initial value.
#[derive(Clone, Copy)]
pub struct Root<'v> {
    pub of_type: &'v str,
    pub stored: &'v Value,
    pub initial: &'v Value,
}

/// What a root field adds: its arguments, to the list of this name.
#[derive(Clone, Copy)]
struct Addition<'d, 'v> {
    to: &'d str,
    arguments: &'v CoercedObject,
}

/// The effect of an addition.
fn effect(alloc: Global, addition: Addition<'_, '_>) -> Result<Effect, AllocError>
    ensures { IfOk result (λ e. effect_seen e
        ≡ record { to = addition.entry.to.now; value = view addition.entry.arguments.now }) }
{
    Ok(Effect {
        to: String::from_str(alloc, addition.to)?,
        value: addition.arguments.copied(alloc)?,
    })
}

/// The value of a field that adds its arguments to a list of the data: these, if there is the list.
fn add<'d>(
    alloc: Global,
    setting: &Setting<'d, '_>,
    table: &mut Table<'d>,
    slot: Slot,
    field: &FieldPlan<'d>,
    addition: Addition<'d, '_>,
    stored: &Value,
    run: &mut Run<'d>,
    effects: &mut Vec<Effect>,
) -> Result<Ended, ExecRefusal>
    requires right { IsRight (basis setting.now) table.old }
    requires at { IsAt table.old slot field.now }
    ensures keeps { OnOk result (Keeps (basis setting.now) table.old table.new run.old run.new) }
    ensures does { (q : Pair) → StandsFor (basis setting.now) field.now q
        → Executes (value_part (spec.added (site_of (types_of (basis setting.now)) q.0.place q.1)
        (view stored.now) q.0 addition.entry.to.now (view addition.entry.arguments.now) (path_of run.old)))
        result run.old run.new }
    ensures effects { OnOk result (seen effects.new.items ≡ seen effects.old.items
        ++ spec.effect_of (view stored.now) (Some addition.entry.to.now)
        (given (view addition.entry.arguments.now))) }
{
    if !has_list(stored, addition.to) {
        return raise(alloc, run, field.place, Reason::NoList(addition.to));
    }
    let effect = effect(alloc, addition)?;
    let site = Site {
        slot,
        place: field.place,
        kind: field.kind,
    };
    let value = effect.value.get();
    let ended = complete(alloc, setting, table, site, field.of_type, value, run)?;
    effects.push(effect)?;
    Ok(ended)
}

/// The value of such a field at its place. Where a null bubbles up to a nullable place, it stays.
fn place_added<'d>(
    alloc: Global,
    setting: &Setting<'d, '_>,
    table: &mut Table<'d>,
    slot: Slot,
    field: &FieldPlan<'d>,
    addition: Addition<'d, '_>,
    stored: &Value,
    run: &mut Run<'d>,
    effects: &mut Vec<Effect>,
) -> Result<Ended, ExecRefusal>
    requires right { IsRight (basis setting.now) table.old }
    requires at { IsAt table.old slot field.now }
    ensures keeps { OnOk result (Keeps (basis setting.now) table.old table.new run.old run.new) }
    ensures does { (q : Pair) → StandsFor (basis setting.now) field.now q
        → Executes (values.placed_part q.0.of_type (value_part (spec.added
        (site_of (types_of (basis setting.now)) q.0.place q.1)
        (view stored.now) q.0 addition.entry.to.now (view addition.entry.arguments.now) (path_of run.old))))
        result run.old run.new }
    ensures effects { OnOk result (seen effects.new.items ≡ seen effects.old.items
        ++ spec.effect_of (view stored.now) (Some addition.entry.to.now)
        (given (view addition.entry.arguments.now))) }
{
    let mark = run.out.len();
    let ended = add(
        alloc, setting, table, slot, field, addition, stored, run, effects,
    )?;
    if is_non_null(field.of_type) {
        return Ok(ended);
    }
    match ended {
        Ended::Written => Ok(Ended::Written),
        Ended::Bubbled => {
            cut_to_null(run, mark)?;
            Ok(Ended::Written)
        }
    }
}

/// The value of such a field, at its path. It has its own errors.
fn added_content<'d>(
    alloc: Global,
    setting: &Setting<'d, '_>,
    table: &mut Table<'d>,
    slot: Slot,
    field: &FieldPlan<'d>,
    addition: Addition<'d, '_>,
    stored: &Value,
    run: &mut Run<'d>,
    effects: &mut Vec<Effect>,
) -> Result<Ended, ExecRefusal>
    requires right { IsRight (basis setting.now) table.old }
    requires at { IsAt table.old slot field.now }
    ensures keeps { OnOk result (Keeps (basis setting.now) table.old table.new run.old run.new) }
    ensures does { (q : Pair) → StandsFor (basis setting.now) field.now q
        → Executes (part.added_content (types_of (basis setting.now)) (view stored.now)
        addition.entry.to.now (view addition.entry.arguments.now) q (path_of run.old)) result run.old run.new }
    ensures effects { OnOk result (seen effects.new.items ≡ seen effects.old.items
        ++ spec.effect_of (view stored.now) (Some addition.entry.to.now)
        (given (view addition.entry.arguments.now))) }
{
    let outer = run.raised;
    let depth = run.path.len();
    run.raised = false;
    run.path.push(Step::Key(field.response_name))?;
    let ended = place_added(
        alloc, setting, table, slot, field, addition, stored, run, effects,
    )?;
    run.path.truncate(depth);
    run.raised = outer;
    Ok(ended)
}

/// Executes such a field, with its comma and its name.
fn added_field<'d>(
    alloc: Global,
    setting: &Setting<'d, '_>,
    table: &mut Table<'d>,
    slot: Slot,
    field: &FieldPlan<'d>,
    addition: Addition<'d, '_>,
    stored: &Value,
    run: &mut Run<'d>,
    effects: &mut Vec<Effect>,
) -> Result<Ended, ExecRefusal>
    requires right { IsRight (basis setting.now) table.old }
    requires at { IsAt table.old slot field.now }
    ensures keeps { OnOk result (Keeps (basis setting.now) table.old table.new run.old run.new) }
    ensures does { (q : Pair) → StandsFor (basis setting.now) field.now q
        → Executes (part.added_field (types_of (basis setting.now)) (view stored.now)
        addition.entry.to.now (view addition.entry.arguments.now) (path_of run.old) slot.field q)
        result run.old run.new }
    ensures effects { OnOk result (seen effects.new.items ≡ seen effects.old.items
        ++ spec.effect_of (view stored.now) (Some addition.entry.to.now)
        (given (view addition.entry.arguments.now))) }
{
    write_comma(run, slot.field)?;
    count(run)?;
    write(run, field.label.as_slice())?;
    added_content(
        alloc, setting, table, slot, field, addition, stored, run, effects,
    )
}

/// What a root field adds: nothing, if it has no `@append`, or if its arguments are refused.
fn addition_of<'d, 'v>(
    setting: &Setting<'d, '_>,
    root: &str,
    field: &'v FieldPlan<'d>,
) -> Option<Addition<'d, 'v>>
    ensures { part.IsAddition (basis setting.now) root.now field.now result }
{
    let schema = setting.context.schema;
    let to = schema.append_of(root, field.name)?;
    match &field.arguments {
        Called::Given(arguments) => Some(Addition { to, arguments }),
        Called::Refused(_) => None,
    }
}

/// Executes a root field.
fn root_field<'d>(
    alloc: Global,
    setting: &Setting<'d, '_>,
    table: &mut Table<'d>,
    slot: Slot,
    field: &FieldPlan<'d>,
    root: Root<'_>,
    columns: &mut Columns,
    run: &mut Run<'d>,
    effects: &mut Vec<Effect>,
) -> Result<Ended, ExecRefusal>
    requires right { IsRight (basis setting.now) table.old }
    requires at { IsAt table.old slot field.now }
    requires columns { AreColumnsOf (view root.initial.now) columns.old }
    ensures keeps { OnOk result (Keeps (basis setting.now) table.old table.new run.old run.new) }
    ensures does { (q : Pair) → StandsFor (basis setting.now) field.now q
        → Executes (part.root_field (types_of (basis setting.now))
        (root_of (basis setting.now) root.entry) (path_of run.old) slot.field q) result run.old run.new }
    ensures effects { (q : Pair) → StandsFor (basis setting.now) field.now q
        → OnOk result (seen effects.new.items ≡ seen effects.old.items
        ++ effect_in (root_of (basis setting.now) root.entry) q) }
    ensures columns { OnOk result (AreColumnsOf (view root.entry.initial.now) columns.new) }
{
    match addition_of(setting, root.of_type, field) {
        Some(addition) => added_field(
            alloc,
            setting,
            table,
            slot,
            field,
            addition,
            root.stored,
            run,
            effects,
        ),
        None => execute_field(
            alloc,
            setting,
            table,
            slot,
            field,
            root.initial,
            columns,
            run,
        ),
    }
}

/// Executes the root fields, one after another, also after an error.
fn root_fields<'d>(
    alloc: Global,
    setting: &Setting<'d, '_>,
    table: &mut Table<'d>,
    entry: usize,
    root: Root<'_>,
    run: &mut Run<'d>,
    effects: &mut Vec<Effect>,
) -> Result<Ended, ExecRefusal>
    requires right { IsRight (basis setting.now) table.old }
    requires within { entry < length table.old.entries.items }
    ensures does { (qs : List Pair)
        → StandFor (basis setting.now) (fields_at table.old.entries.items entry) qs
        → Executes (part.root_fields (types_of (basis setting.now))
        (root_of (basis setting.now) root.entry) qs (path_of run.old)) result run.old run.new }
    ensures effects { (qs : List Pair)
        → StandFor (basis setting.now) (fields_at table.old.entries.items entry) qs
        → OnOk result (seen effects.new.items ≡ seen effects.old.items
        ++ effects_in (root_of (basis setting.now) root.entry) qs) }
{
    let shared = table.fields(entry)?;
    let fields = shared.get();
    let mut columns = Columns::new(alloc);
    let mut ended = Ended::Written;
    for i in 0..fields.len() {
        let slot = Slot { entry, field: i };
        let field = &fields[i];
        let field_ended = root_field(
            alloc,
            setting,
            table,
            slot,
            field,
            root,
            &mut columns,
            run,
            effects,
        )?;
        ended = ended.and(field_ended);
    }
    Ok(ended)
}

/// Executes the root fields of a mutation, which are those of an entry of the table.
pub fn execute_root<'d>(
    alloc: Global,
    setting: &Setting<'d, '_>,
    table: &mut Table<'d>,
    entry: usize,
    root: Root<'_>,
    run: &mut Run<'d>,
    effects: &mut Vec<Effect>,
) -> Result<Ended, ExecRefusal>
    requires right { IsRight (basis setting.now) table.old }
    requires within { entry < length table.old.entries.items }
    ensures does { (qs : List Pair)
        → StandFor (basis setting.now) (fields_at table.old.entries.items entry) qs
        → Executes (part.root_part (types_of (basis setting.now))
        (root_of (basis setting.now) root.entry) qs (path_of run.old)) result run.old run.new }
    ensures effects { (qs : List Pair)
        → StandFor (basis setting.now) (fields_at table.old.entries.items entry) qs
        → OnOk result (seen effects.new.items ≡ seen effects.old.items
        ++ effects_in (root_of (basis setting.now) root.entry) qs) }
{
    write_byte(run, b'{')?;
    let ended = root_fields(alloc, setting, table, entry, root, run, effects)?;
    write_byte(run, b'}')?;
    Ok(ended)
}
