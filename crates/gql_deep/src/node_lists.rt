//! The execution of the nodes of lists of introspection (GraphQL specification, 4.2 and 6.4.3).
ghost use Rattle.std.specs.Prelude.{◌≡◌, ◌<◌, ◌≤◌, IfOk, IfSome};
ghost use Rattle.gql_intro.specs.Borrowed.{elements, node_of};
ghost use Rattle.gql_deep.specs.Frames.{AtNodes, DoesBegin, Fits, Kept, KeepsTurn, NextIs, Turns};
ghost use Rattle.gql_steps.specs.Objects.{basis};
ghost use Rattle.gql_steps.specs.Parts.{Part};
ghost use Rattle.gql_steps.specs.States.{path_of};
ghost use Rattle.gql_steps.specs.Tables.{InTable, IsRight, below_at};
ghost use Rattle.gql_steps.specs.ValueParts as part;
ghost use Rattle.gql_steps.specs.declared.run.Run.{Run as ARun};

use crate::below::object_below;
use crate::frames::{AnyObject, Around, Frame, Group, NodesFrame, Turn};
use gql_intro::{IntroNode, IntroNodes};
use gql_steps::outcome::Step;
use gql_steps::refusal::ExecRefusal;
use gql_steps::run::Run;
use gql_steps::setting::Setting;
use gql_steps::steps::{count, write_byte, write_comma};
use gql_steps::table::{Slot, Table};
use gql_types::Schema;
use std::alloc::Global;

/// A node of a list, at its path.
fn begin_content<'d, 'v>(
    alloc: Global,
    setting: &Setting<'d, '_>,
    table: &mut Table<'d>,
    slot: Slot,
    name: &'d str,
    i: usize,
    node: IntroNode<'d>,
    run: &mut Run<'d>,
) -> Result<(Around, Group<'d, 'v>), ExecRefusal>
    requires right { IsRight (basis setting.now) table.old }
    requires within { InTable table.old slot }
    ensures keeps { IfOk result (λ w. Kept (basis setting.now) table.old table.new 0
        run.old run.new (Fits table.new w.1)) }
    ensures does { DoesBegin (basis setting.now) table.new name.now (below_at table.old slot)
        (λ s. part.content_of_node name.now s i (node_of node.entry) (path_of run.old))
        result run.old run.new }
{
    let mark = run.out.len();
    let depth = run.path.len();
    let around = Around {
        mark,
        depth,
        is_required: true,
        is_field: false,
        outer: false,
    };
    run.path.push(Step::Index(i))?;
    let node = AnyObject::Described(node);
    let group = object_below(alloc, setting, table, slot, name, node)?;
    Ok((around, group))
}

/// A node of a list, with its comma.
fn begin_node<'d, 'v>(
    alloc: Global,
    setting: &Setting<'d, '_>,
    table: &mut Table<'d>,
    slot: Slot,
    name: &'d str,
    i: usize,
    node: IntroNode<'d>,
    run: &mut Run<'d>,
) -> Result<(Around, Group<'d, 'v>), ExecRefusal>
    requires right { IsRight (basis setting.now) table.old }
    requires within { InTable table.old slot }
    ensures keeps { IfOk result (λ w. Kept (basis setting.now) table.old table.new 1
        run.old run.new (Fits table.new w.1)) }
    ensures does { DoesBegin (basis setting.now) table.new name.now (below_at table.old slot)
        (λ s. part.node_part name.now s (path_of run.old) i (node_of node.entry))
        result run.old run.new }
{
    write_comma(run, i)?;
    count(run)?;
    begin_content(alloc, setting, table, slot, name, i, node, run)
}

/// The next node of a list, from this element on, and how many elements are passed with it.
fn next_node<'d>(
    schema: &'d Schema,
    nodes: IntroNodes<'d>,
    passed: usize,
) -> Option<(usize, IntroNode<'d>)>
    ensures is { NextIs (elements schema.now nodes.entry) passed result }
    ensures later { IfSome result (λ found. passed < found.0) }
{
    for i in passed..nodes.len() {
        if let Some(node) = nodes.get(schema, i) {
            return Some((i + 1, node));
        }
    }
    None
}

/// Goes on with the nodes of a list: the next one is to be entered, or all are done.
pub fn run_nodes<'d, 'v>(
    alloc: Global,
    setting: &Setting<'d, '_>,
    table: &mut Table<'d>,
    frame: NodesFrame<'d>,
    run: &mut Run<'d>,
) -> Result<Turn<'d, 'v>, ExecRefusal>
    requires right { IsRight (basis setting.now) table.old }
    requires within { InTable table.old frame.slot }
    requires no_more { frame.next ≤ frame.passed }
    ensures keeps { KeepsTurn (basis setting.now) table.old table.new run.old run.new result }
    ensures does { (whole : Part) (start : ARun)
        → AtNodes (basis setting.now) table.old frame.entry whole start run.old
        → Turns (basis setting.now) table.new whole start result run.new }
{
    let NodesFrame {
        slot,
        name,
        next,
        ..
    } = frame;
    match next_node(setting.context.schema, frame.nodes, frame.passed) {
        Some((passed, node)) => {
            let (around, inner) = begin_node(alloc, setting, table, slot, name, next, node, run)?;
            let group = Group::Nodes(NodesFrame {
                passed,
                next: next + 1,
                ..frame
            });
            Ok(Turn::Within(Frame { group, around }, inner))
        }
        None => {
            write_byte(run, b']')?;
            Ok(Turn::Ended(frame.ended))
        }
    }
}
