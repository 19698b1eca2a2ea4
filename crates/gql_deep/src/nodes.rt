//! The execution of fields whose value introspection gives (GraphQL specification, 4.2).
ghost use Rattle.std.specs.Prelude.{OnOk};
ghost use Rattle.serde_json.specs.View.{view};
ghost use Rattle.gql_intro.specs.Borrowed.{node_of};
ghost use Rattle.gql_steps.specs.Objects.{basis};
ghost use Rattle.gql_steps.specs.Plans.{types_of};
ghost use Rattle.gql_steps.specs.States.{Executes, path_of};
ghost use Rattle.gql_steps.specs.Tables.{IsRight, Pair, StandsFor};
ghost use Rattle.gql_steps.specs.ValueParts as part;
ghost use Rattle.gql_steps.specs.ValueParts.{IsAt, Keeps};

use crate::machine::finish;
use crate::node_values::reach_value;
use gql_coerce::CoercedObject;
use gql_intro::IntroNode;
use gql_steps::ended::Ended;
use gql_steps::planning::FieldPlan;
use gql_steps::refusal::ExecRefusal;
use gql_steps::run::Run;
use gql_steps::setting::Setting;
use gql_steps::table::{Slot, Table};
use std::alloc::Global;

/// The value of a field of a node of introspection, called with these arguments. Each step enters a
/// node or a list of nodes, or goes on with the one around a value that has ended.
pub fn call_node<'d>(
    alloc: Global,
    setting: &Setting<'d, '_>,
    table: &mut Table<'d>,
    slot: Slot,
    field: &FieldPlan<'d>,
    arguments: &CoercedObject,
    node: IntroNode<'d>,
    run: &mut Run<'d>,
) -> Result<Ended, ExecRefusal>
    requires right { IsRight (basis setting.now) table.old }
    requires at { IsAt table.old slot field.now }
    ensures keeps { OnOk result (Keeps (basis setting.now) table.old table.new run.old run.new) }
    ensures does { (q : Pair) → StandsFor (basis setting.now) field.now q
        → Executes (part.answer_part (types_of (basis setting.now)) (view arguments.now)
        (node_of node.entry) q (path_of run.old)) result run.old run.new }
{
    let reached = reach_value(alloc, setting, table, slot, field, arguments, node, run)?;
    finish(alloc, setting, table, reached, run)
}
