//! The execution of objects and lists with all that is within them (GraphQL specification, 6.3 and
//! 6.4). The objects and the lists around the present value are on a stack of their own, so that
//! only memory limits how deep they nest.
ghost use Rattle.std.specs.Prelude.{◌≡◌, ◌+◌, ◌*◌, length, IfOk, Ok, OnOk};
ghost use Rattle.std.specs.List.{All};
ghost use Rattle.gql_deep.specs.Frames.{At, Enters, Fits, FitsFrame, FitsReached, FitsTurn, Holds, Inside, KeepsTurn, Reaches, Suspends, Turns, counted_by, inner_in};
ghost use Rattle.gql_steps.specs.Objects.{basis};
ghost use Rattle.gql_steps.specs.Parts.{Part};
ghost use Rattle.gql_steps.specs.Plans.{Basis};
ghost use Rattle.gql_steps.specs.States.{Done, Executes};
ghost use Rattle.gql_steps.specs.Tables.{IsRight};
ghost use Rattle.gql_steps.specs.ValueParts.{Keeps};
ghost use Rattle.gql_steps.specs.declared.run.Run.{Run as ARun};
ghost use Rattle.gql_steps.specs.declared.table.Table.{Table as ATable};

use crate::data_lists::run_items;
use crate::fields::run_fields;
use crate::frames::{Frame, Group, Reached, Turn};
use crate::node_lists::run_nodes;
use crate::place::close;
use gql_steps::ended::Ended;
use gql_steps::refusal::ExecRefusal;
use gql_steps::run::Run;
use gql_steps::setting::Setting;
use gql_steps::steps::write_byte;
use gql_steps::table::Table;
use std::alloc::{AllocError, Global};

/// Goes on with an object or a list.
fn run_group<'d, 'v>(
    alloc: Global,
    setting: &Setting<'d, '_>,
    table: &mut Table<'d>,
    group: Group<'d, 'v>,
    run: &mut Run<'d>,
) -> Result<Turn<'d, 'v>, ExecRefusal>
    requires right { IsRight (basis setting.now) table.old }
    requires fits { Fits table.old group }
    ensures keeps { KeepsTurn (basis setting.now) table.old table.new run.old run.new result }
    ensures does { (whole : Part) (start : ARun)
        → At (basis setting.now) table.old group.entry whole start run.old
        → Turns (basis setting.now) table.new whole start result run.new }
{
    match group {
        Group::Fields(fields) => run_fields(alloc, setting, table, fields, run),
        Group::Items(items) => run_items(alloc, setting, table, items, run),
        Group::Nodes(nodes) => run_nodes(alloc, setting, table, nodes, run),
    }
}

/// Enters an object or a list.
fn enter<'d, 'v>(
    alloc: Global,
    setting: &Setting<'d, '_>,
    table: &mut Table<'d>,
    group: Group<'d, 'v>,
    run: &mut Run<'d>,
) -> Result<Turn<'d, 'v>, ExecRefusal>
    requires right { IsRight (basis setting.now) table.old }
    requires fits { Fits table.old group }
    ensures keeps { KeepsTurn (basis setting.now) table.old table.new run.old run.new result }
    ensures does { (whole : Part)
        → Enters (basis setting.now) table.old group.entry whole run.old
        → Turns (basis setting.now) table.new whole run.old result run.new }
{
    write_byte(run, group.opening())?;
    run_group(alloc, setting, table, group, run)
}

/// Goes on with an object or a list, after the value within it has ended.
fn resume<'d, 'v>(
    alloc: Global,
    setting: &Setting<'d, '_>,
    table: &mut Table<'d>,
    frame: Frame<'d, 'v>,
    ended: Ended,
    run: &mut Run<'d>,
) -> Result<Turn<'d, 'v>, ExecRefusal>
    requires right { IsRight (basis setting.now) table.old }
    requires fits { Fits table.old frame.group }
    ensures keeps { KeepsTurn (basis setting.now) table.old table.new run.old run.new result }
    ensures does { (inner : Part) (began : ARun) (whole : Part) (start : ARun)
        → Suspends (basis setting.now) table.old frame.entry inner began whole start
        → Done inner ended began run.old
        → Turns (basis setting.now) table.new whole start result run.new }
{
    let Frame { group, around } = frame;
    let ended = close(run, around, ended)?;
    run_group(alloc, setting, table, group.and(ended), run)
}

/// Puts an object or a list on the stack that goes on after the one within it.
fn push_turn<'d, 'v>(
    stack: &mut Vec<Frame<'d, 'v>>,
    turn: Turn<'d, 'v>,
) -> Result<Reached<'d, 'v>, AllocError>
    ensures fits { IfOk result (λ reached. (t : ATable) → All (FitsFrame t) stack.old.items
        → FitsTurn t turn.entry
        → (All (FitsFrame t) stack.new.items) × FitsReached t reached) }
    ensures steps { IfOk result (λ reached. length stack.new.items + inner_in reached
        ≡ length stack.old.items + counted_by turn.entry * 2) }
    ensures does { IfOk result (λ reached. (g : Basis) (t : ATable) (whole : Part) (start : ARun)
        (inner : Part) (began now : ARun)
        → Inside g t stack.old.items inner began whole start
        → Turns g t inner began (Ok turn.entry) now
        → Holds g t stack.new.items reached now whole start) }
{
    match turn {
        Turn::Ended(ended) => Ok(Reached::Ended(ended)),
        Turn::Within(frame, group) => {
            stack.push(frame)?;
            Ok(Reached::Inner(group))
        }
    }
}

/// What a value has reached, and all that is within it. Each step enters an object or a list, or
/// goes on with the one around a value that has ended.
pub fn finish<'d, 'v>(
    alloc: Global,
    setting: &Setting<'d, '_>,
    table: &mut Table<'d>,
    reached: Reached<'d, 'v>,
    run: &mut Run<'d>,
) -> Result<Ended, ExecRefusal>
    requires right { IsRight (basis setting.now) table.old }
    requires fits { FitsReached table.old reached }
    ensures keeps { OnOk result (Keeps (basis setting.now) table.old table.new run.old run.new) }
    ensures does { (whole : Part) (start : ARun)
        → Reaches (basis setting.now) table.old whole (Ok reached.entry) start run.old
        → Executes whole result start run.new }
{
    let mut stack = Vec::new(alloc);
    let mut reached = reached;
    'steps: loop {
        let turn = match reached {
            Reached::Inner(group) => enter(alloc, setting, table, group, run)?,
            Reached::Ended(ended) => match stack.pop() {
                Some(frame) => resume(alloc, setting, table, frame, ended, run)?,
                None => return Ok(ended),
            },
        };
        reached = push_turn(&mut stack, turn)?;
    }
}
