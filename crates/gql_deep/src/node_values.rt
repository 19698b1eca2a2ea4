//! The values of fields of nodes of introspection (GraphQL specification, 4.2), up to the nodes and
//! the lists of nodes that are to be entered.
ghost use Rattle.std.specs.Prelude.{Ok, Some};
ghost use Rattle.serde_json.specs.View.{view};
ghost use Rattle.gql_inputs.specs.InputTypes.{name_in as name_of_type};
ghost use Rattle.gql_intro.specs.Borrowed.{answer_of, node_of};
ghost use Rattle.gql_types.specs.Written.{written};
ghost use Rattle.gql_steps.specs.Execution as spec;
ghost use Rattle.gql_steps.specs.Execution.{Plan};
ghost use Rattle.gql_deep.specs.Frames.{DoesReach, KeepsReached, Reaches};
ghost use Rattle.gql_steps.specs.Objects.{basis};
ghost use Rattle.gql_steps.specs.Plans.{Basis, IsPlan, types_of};
ghost use Rattle.gql_steps.specs.States.{path_of};
ghost use Rattle.gql_steps.specs.Tables.{InTable, IsRight, Pair, StandsFor, below_at};
ghost use Rattle.gql_steps.specs.Texts.{value_part};
ghost use Rattle.gql_steps.specs.ValueParts as part;
ghost use Rattle.gql_steps.specs.ValueParts.{IsAt};
ghost use Rattle.gql_steps.specs.declared.run.Run.{Run as ARun};
ghost use Rattle.gql_steps.specs.declared.table.Table.{Table as ATable};

use crate::below::object_below;
use crate::done::done;
use crate::frames::{AnyObject, Group, NodesFrame, Reached};
use gql_coerce::CoercedObject;
use gql_inputs::name_in;
use gql_intro::{IntroAnswer, IntroNode, IntroNodes};
use gql_steps::ended::Ended;
use gql_steps::introspection::{
    introspect, write_flag, write_literal, write_locations, write_name,
};
use gql_steps::nulls::complete_null;
use gql_steps::planning::FieldPlan;
use gql_steps::refusal::ExecRefusal;
use gql_steps::run::Run;
use gql_steps::setting::Setting;
use gql_steps::table::{Slot, Table};
use std::alloc::Global;

/// The list of the nodes that a field gives, each of the type of this name.
fn nodes_below<'d, 'v>(slot: Slot, name: &'d str, nodes: IntroNodes<'d>) -> Reached<'d, 'v>
    ensures keeps { (g : Basis) (t : ATable) (now : ARun) → IsRight g t → InTable t slot
        → KeepsReached g t t now now (Ok result) }
    ensures does { (g : Basis) (t : ATable) (now : ARun) → InTable t slot
        → DoesReach g t name.now (below_at t slot)
        (λ s. part.node_list_part name.now s (part.nodes_in g.given.schema nodes.entry)
        (path_of now)) (Ok result) now now }
{
    Reached::Inner(Group::Nodes(NodesFrame {
        slot,
        name,
        nodes,
        passed: 0,
        next: 0,
        ended: Ended::Written,
    }))
}

/// What introspection answers for a field. Its nodes have the type that the field's type names.
fn reach_answer<'d, 'v>(
    alloc: Global,
    setting: &Setting<'d, '_>,
    table: &mut Table<'d>,
    slot: Slot,
    field: &FieldPlan<'d>,
    answer: IntroAnswer<'d>,
    run: &mut Run<'d>,
) -> Result<Reached<'d, 'v>, ExecRefusal>
    requires right { IsRight (basis setting.now) table.old }
    requires within { InTable table.old slot }
    ensures keeps { KeepsReached (basis setting.now) table.old table.new run.old run.new result }
    ensures does { (x : Plan)
        → IsPlan (basis setting.now) (name_of_type (written field.now.of_type.now))
        (below_at table.old slot) x
        → Reaches (basis setting.now) table.new (value_part (spec.on_answer
        (part.site_of (types_of (basis setting.now)) field.now.place x)
        (written field.now.of_type.now) (path_of run.old)
        (Some (answer_of setting.now.context.schema.now answer.entry)))) result run.old run.new }
{
    match answer {
        IntroAnswer::Null => done(complete_null(alloc, field.place, field.of_type, run)),
        IntroAnswer::Text(text) => done(write_name(run, text)),
        IntroAnswer::Boolean(truth) => done(write_flag(run, truth)),
        IntroAnswer::EnumValue(value) => done(write_name(run, value)),
        IntroAnswer::Literal(literal) => done(write_literal(alloc, literal, run)),
        IntroAnswer::Node(node) => {
            let name = name_in(field.of_type);
            let node = AnyObject::Described(node);
            let group = object_below(alloc, setting, table, slot, name.as_str(), node)?;
            return Ok(Reached::Inner(group));
        }
        IntroAnswer::Nodes(nodes) => {
            let name = name_in(field.of_type);
            return Ok(nodes_below(slot, name.as_str(), nodes));
        }
        IntroAnswer::Locations(locations) => done(write_locations(run, locations)),
    }
}

/// The value of a field of a node, called with these arguments.
pub fn reach_value<'d, 'v>(
    alloc: Global,
    setting: &Setting<'d, '_>,
    table: &mut Table<'d>,
    slot: Slot,
    field: &FieldPlan<'d>,
    arguments: &CoercedObject,
    node: IntroNode<'d>,
    run: &mut Run<'d>,
) -> Result<Reached<'d, 'v>, ExecRefusal>
    requires right { IsRight (basis setting.now) table.old }
    requires at { IsAt table.old slot field.now }
    ensures keeps { KeepsReached (basis setting.now) table.old table.new run.old run.new result }
    ensures does { (q : Pair) → StandsFor (basis setting.now) field.now q
        → Reaches (basis setting.now) table.new (part.answer_part
        (types_of (basis setting.now)) (view arguments.now)
        (node_of node.entry) q (path_of run.old)) result run.old run.new }
{
    match introspect(setting, node, field.name, arguments) {
        Some(answer) => return reach_answer(alloc, setting, table, slot, field, answer, run),
        None => done(complete_null(alloc, field.place, field.of_type, run)),
    }
}
