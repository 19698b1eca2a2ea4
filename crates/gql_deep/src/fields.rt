//! The execution of the fields of objects (GraphQL specification, 4.2, 6.3 and 6.4).
ghost use Rattle.std.specs.Prelude.{◌<◌, length, IfSome};
ghost use Rattle.gql_steps.specs.Direct.{data_of};
ghost use Rattle.gql_steps.specs.DirectParts.{IsDirectField};
ghost use Rattle.gql_deep.specs.Frames.{AtFields, Begins, KeepsBegun, KeepsTurn, Turns, object_in};
ghost use Rattle.gql_steps.specs.Objects.{basis};
ghost use Rattle.gql_steps.specs.Parts.{Part};
ghost use Rattle.gql_steps.specs.Plans.{types_of};
ghost use Rattle.gql_steps.specs.States.{path_of};
ghost use Rattle.gql_steps.specs.Tables.{IsRight, Pair, StandsFor};
ghost use Rattle.gql_steps.specs.ValueParts as part;
ghost use Rattle.gql_steps.specs.ValueParts.{IsAt};
ghost use Rattle.gql_steps.specs.declared.run.Run.{Run as ARun};

use crate::done::begun;
use crate::field_values::reach_field;
use crate::frames::{AnyObject, Around, Begun, FieldsFrame, Frame, Group, Reached, Turn};
use crate::place::close;
use gql_inputs::is_non_null;
use gql_steps::direct::{Direct, write_direct};
use gql_steps::direct_field::direct_field;
use gql_steps::ended::Ended;
use gql_steps::outcome::Step;
use gql_steps::planning::FieldPlan;
use gql_steps::refusal::ExecRefusal;
use gql_steps::run::Run;
use gql_steps::setting::Setting;
use gql_steps::steps::{count, write, write_byte, write_comma};
use gql_steps::table::{Slot, Table};
use std::alloc::Global;

/// The value of a field, if it is written at once.
fn direct_value_of<'v>(field: &FieldPlan<'_>, object: AnyObject<'_, 'v>) -> Option<Direct<'v>>
    ensures { IfSome result
        (λ x. IsDirectField field.now (object_in object.entry) (data_of x)) }
{
    match object {
        AnyObject::Stored(value) => direct_field(field, value),
        AnyObject::Described(_) => None,
    }
}

/// The value of a field, at its path. It has its own errors.
fn begin_content<'d, 'v>(
    alloc: Global,
    setting: &Setting<'d, '_>,
    table: &mut Table<'d>,
    slot: Slot,
    field: &FieldPlan<'d>,
    object: AnyObject<'d, 'v>,
    run: &mut Run<'d>,
) -> Result<Begun<'d, 'v>, ExecRefusal>
    requires right { IsRight (basis setting.now) table.old }
    requires at { IsAt table.old slot field.now }
    ensures keeps { KeepsBegun (basis setting.now) table.old table.new 0 run.old run.new result }
    ensures does { (q : Pair) → StandsFor (basis setting.now) field.now q
        → Begins (basis setting.now) table.new (part.content_part (types_of (basis setting.now))
        (object_in object.entry) q (path_of run.old)) result run.old run.new }
{
    let mark = run.out.len();
    let depth = run.path.len();
    let around = Around {
        mark,
        depth,
        is_required: is_non_null(field.of_type),
        is_field: true,
        outer: run.raised,
    };
    run.raised = false;
    run.path.push(Step::Key(field.response_name))?;
    match reach_field(alloc, setting, table, slot, field, object, run)? {
        Reached::Ended(ended) => Ok(Begun::Ended(close(run, around, ended)?)),
        Reached::Inner(group) => Ok(Begun::Within(around, group)),
    }
}

/// A field, with its comma and its name.
pub fn begin_field<'d, 'v>(
    alloc: Global,
    setting: &Setting<'d, '_>,
    table: &mut Table<'d>,
    slot: Slot,
    field: &FieldPlan<'d>,
    object: AnyObject<'d, 'v>,
    run: &mut Run<'d>,
) -> Result<Begun<'d, 'v>, ExecRefusal>
    requires right { IsRight (basis setting.now) table.old }
    requires at { IsAt table.old slot field.now }
    ensures keeps { KeepsBegun (basis setting.now) table.old table.new 1 run.old run.new result }
    ensures does { (q : Pair) → StandsFor (basis setting.now) field.now q
        → Begins (basis setting.now) table.new (part.field_part (types_of (basis setting.now))
        (object_in object.entry) (path_of run.old) slot.field q) result run.old run.new }
{
    write_comma(run, slot.field)?;
    count(run)?;
    write(run, field.label.as_slice())?;
    if let Some(found) = direct_value_of(field, object) {
        return begun(write_direct(run, found));
    }
    begin_content(alloc, setting, table, slot, field, object, run)
}

/// Goes on with the fields of an object, one after another, also after an error, up to one whose
/// value is to be entered.
pub fn run_fields<'d, 'v>(
    alloc: Global,
    setting: &Setting<'d, '_>,
    table: &mut Table<'d>,
    frame: FieldsFrame<'d, 'v>,
    run: &mut Run<'d>,
) -> Result<Turn<'d, 'v>, ExecRefusal>
    requires right { IsRight (basis setting.now) table.old }
    requires within { frame.entry < length table.old.entries.items }
    ensures keeps { KeepsTurn (basis setting.now) table.old table.new run.old run.new result }
    ensures does { (whole : Part) (start : ARun)
        → AtFields (basis setting.now) table.old frame.entry whole start run.old
        → Turns (basis setting.now) table.new whole start result run.new }
{
    let shared = table.fields(frame.entry)?;
    let fields = shared.get();
    let mut ended = frame.ended;
    for i in frame.next..fields.len() {
        let slot = Slot {
            entry: frame.entry,
            field: i,
        };
        match begin_field(alloc, setting, table, slot, &fields[i], frame.object, run)? {
            Begun::Ended(field_ended) => ended = ended.and(field_ended),
            Begun::Within(around, inner) => {
                let group = Group::Fields(FieldsFrame {
                    next: i + 1,
                    ended,
                    ..frame
                });
                return Ok(Turn::Within(Frame { group, around }, inner));
            }
        }
    }
    write_byte(run, b'}')?;
    Ok(Turn::Ended(ended))
}
