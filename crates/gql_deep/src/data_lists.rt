//! The execution of the items of lists of the data (GraphQL specification, 6.4.3).
ghost use Rattle.std.specs.Prelude.{◌≡◌, ◌≤◌, IfErr, IfOk};
ghost use Rattle.serde_json.specs.View.{view};
ghost use Rattle.gql_inputs.specs.InputTypes.{name_in as name_of_type};
ghost use Rattle.gql_types.specs.Written.{written};
ghost use Rattle.gql_deep.specs.Frames.{AtItems, DoesItem, KeepsBegun, KeepsTurn, Turns, WritesFirst, WritesFirstStop};
ghost use Rattle.gql_steps.specs.Objects.{basis};
ghost use Rattle.gql_steps.specs.Parts.{Part};
ghost use Rattle.gql_steps.specs.States.{path_of};
ghost use Rattle.gql_steps.specs.Tables.{InTable, IsRight, below_at};
ghost use Rattle.gql_steps.specs.ValueParts as part;
ghost use Rattle.gql_steps.specs.declared.run.Run.{Run as ARun};

use crate::data_values::reach;
use crate::done::begun;
use crate::frames::{Around, Begun, Frame, Group, ItemsFrame, Reached, Turn};
use crate::place::close;
use gql_ast::TypeRef;
use gql_inputs::is_non_null;
use gql_steps::direct::{direct_value, write_direct};
use gql_steps::direct_items::write_direct_items;
use gql_steps::outcome::Step;
use gql_steps::refusal::ExecRefusal;
use gql_steps::run::Run;
use gql_steps::setting::Setting;
use gql_steps::site::Site;
use gql_steps::steps::{count, write_byte, write_comma};
use gql_steps::table::Table;
use serde_json::Value;
use std::alloc::Global;

/// The value of an item, at its path.
fn begin_content<'d, 'v>(
    alloc: Global,
    setting: &Setting<'d, '_>,
    table: &mut Table<'d>,
    site: Site,
    item: &'d TypeRef,
    i: usize,
    value: &'v Value,
    run: &mut Run<'d>,
) -> Result<Begun<'d, 'v>, ExecRefusal>
    requires right { IsRight (basis setting.now) table.old }
    requires within { InTable table.old site.slot }
    ensures keeps { KeepsBegun (basis setting.now) table.old table.new 0 run.old run.new result }
    ensures does { DoesItem (basis setting.now) table.new site (name_of_type (written item.now))
        (below_at table.old site.slot)
        (λ s. part.content_of_item (written item.now) s i (view value.now) (path_of run.old))
        result run.old run.new }
{
    let mark = run.out.len();
    let depth = run.path.len();
    let around = Around {
        mark,
        depth,
        is_required: is_non_null(item),
        is_field: false,
        outer: false,
    };
    run.path.push(Step::Index(i))?;
    match reach(alloc, setting, table, site, item, value, run)? {
        Reached::Ended(ended) => Ok(Begun::Ended(close(run, around, ended)?)),
        Reached::Inner(group) => Ok(Begun::Within(around, group)),
    }
}

/// An item, with its comma.
fn begin_item<'d, 'v>(
    alloc: Global,
    setting: &Setting<'d, '_>,
    table: &mut Table<'d>,
    site: Site,
    item: &'d TypeRef,
    i: usize,
    value: &'v Value,
    run: &mut Run<'d>,
) -> Result<Begun<'d, 'v>, ExecRefusal>
    requires right { IsRight (basis setting.now) table.old }
    requires within { InTable table.old site.slot }
    ensures keeps { KeepsBegun (basis setting.now) table.old table.new 1 run.old run.new result }
    ensures does { DoesItem (basis setting.now) table.new site (name_of_type (written item.now))
        (below_at table.old site.slot)
        (λ s. part.item_part (written item.now) s (path_of run.old) i (view value.now))
        result run.old run.new }
{
    write_comma(run, i)?;
    count(run)?;
    if let Some(found) = direct_value(site.kind, item, value) {
        return begun(write_direct(run, found));
    }
    begin_content(alloc, setting, table, site, item, i, value, run)
}

/// How many items of a list are done: at its beginning, those that are written at once.
fn first_items(run: &mut Run<'_>, frame: &ItemsFrame<'_, '_>) -> Result<usize, ExecRefusal>
    ensures written { IfOk result (λ k. WritesFirst frame.now k run.old run.new) }
    ensures left { IfOk result (λ k. run.new.left ≤ run.old.left) }
    ensures stops { IfErr result (WritesFirstStop frame.now run.old) }
{
    if frame.next > 0 {
        return Ok(frame.next);
    }
    write_direct_items(run, frame.site.kind, frame.item, frame.items.as_items())
}

/// Goes on with the items of a list, one after another, also after an error, up to one whose value
/// is to be entered.
pub fn run_items<'d, 'v>(
    alloc: Global,
    setting: &Setting<'d, '_>,
    table: &mut Table<'d>,
    frame: ItemsFrame<'d, 'v>,
    run: &mut Run<'d>,
) -> Result<Turn<'d, 'v>, ExecRefusal>
    requires right { IsRight (basis setting.now) table.old }
    requires within { InTable table.old frame.site.slot }
    ensures keeps { KeepsTurn (basis setting.now) table.old table.new run.old run.new result }
    ensures does { (whole : Part) (start : ARun)
        → AtItems (basis setting.now) table.old frame.entry whole start run.old
        → Turns (basis setting.now) table.new whole start result run.new }
{
    let first = first_items(run, &frame)?;
    let mut ended = frame.ended;
    for i in first..frame.items.count() {
        let value = frame.items.item(i);
        match begin_item(alloc, setting, table, frame.site, frame.item, i, value, run)? {
            Begun::Ended(item_ended) => ended = ended.and(item_ended),
            Begun::Within(around, inner) => {
                let group = Group::Items(ItemsFrame {
                    next: i + 1,
                    ended,
                    ..frame
                });
                return Ok(Turn::Within(Frame { group, around }, inner));
            }
        }
    }
    write_byte(run, b']')?;
    Ok(Turn::Ended(ended))
}
