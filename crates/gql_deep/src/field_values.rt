//! The values of fields of objects of the data and of nodes of introspection, up to the objects and
//! the lists that are to be entered (GraphQL specification, 6.4.2).
ghost use Rattle.std.specs.Prelude.{◌≡◌};
ghost use Rattle.serde_json.specs.View.{view};
ghost use Rattle.gql_inputs.specs.InputTypes.{name_in as name_of_type};
ghost use Rattle.gql_intro.specs.Borrowed.{node_of};
ghost use Rattle.gql_types.specs.Written.{written};
ghost use Rattle.gql_steps.specs.Execution as spec;
ghost use Rattle.gql_deep.specs.Frames.{DoesValue, KeepsReached, Reaches, object_in};
ghost use Rattle.gql_steps.specs.Objects.{basis};
ghost use Rattle.gql_steps.specs.Plans.{types_of};
ghost use Rattle.gql_steps.specs.States.{path_of};
ghost use Rattle.gql_steps.specs.Tables.{InTable, IsRight, Pair, StandsFor, below_at};
ghost use Rattle.gql_steps.specs.Texts.{value_part};
ghost use Rattle.gql_steps.specs.ValueParts as part;
ghost use Rattle.gql_steps.specs.ValueParts.{IsAt, IsOf, resolved_in};

use crate::below::items_below;
use crate::data_values::reach;
use crate::done::done;
use crate::frames::{AnyObject, Reached};
use crate::node_values::reach_value;
use gql_ast::TypeRef;
use gql_coerce::CoercedObject;
use gql_inputs::item_of;
use gql_intro::IntroNode;
use gql_steps::introspection::write_name;
use gql_steps::items::DataItems;
use gql_steps::nulls::complete_null;
use gql_steps::planning::{Called, FieldPlan, Source};
use gql_steps::refusal::ExecRefusal;
use gql_steps::resolve::{Resolved, resolve};
use gql_steps::run::{Reason, Run};
use gql_steps::setting::Setting;
use gql_steps::site::Site;
use gql_steps::steps::raise;
use gql_steps::table::{Slot, Table};
use serde_json::Value;
use std::alloc::Global;

/// What a field was resolved to.
fn reach_resolved<'d, 'v>(
    alloc: Global,
    setting: &Setting<'d, '_>,
    table: &mut Table<'d>,
    site: Site,
    of_type: &'d TypeRef,
    resolved: Resolved<'v>,
    run: &mut Run<'d>,
) -> Result<Reached<'d, 'v>, ExecRefusal>
    requires right { IsRight (basis setting.now) table.old }
    requires within { InTable table.old site.slot }
    requires of { IsOf (written of_type.now) resolved }
    ensures keeps { KeepsReached (basis setting.now) table.old table.new run.old run.new result }
    ensures does { DoesValue (basis setting.now) table.new site
        (name_of_type (written of_type.now)) (below_at table.old site.slot)
        (λ s. value_part (spec.complete s (written of_type.now) (path_of run.old)
        (resolved_in resolved.entry))) result run.old run.new }
{
    match resolved {
        Resolved::Null => done(complete_null(alloc, site.place, of_type, run)),
        Resolved::Value(value) => reach(alloc, setting, table, site, of_type, value, run),
        Resolved::Items(found) => match item_of(of_type) {
            Some(item) => Ok(items_below(site, item, DataItems::Kept(found))),
            None => done(raise(alloc, run, site.place, Reason::NotAList)),
        },
    }
}

/// The value of a field of an object of the data, called with these arguments.
fn reach_stored<'d, 'v>(
    alloc: Global,
    setting: &Setting<'d, '_>,
    table: &mut Table<'d>,
    slot: Slot,
    field: &FieldPlan<'d>,
    arguments: &CoercedObject,
    value: &'v Value,
    run: &mut Run<'d>,
) -> Result<Reached<'d, 'v>, ExecRefusal>
    requires right { IsRight (basis setting.now) table.old }
    requires at { IsAt table.old slot field.now }
    ensures keeps { KeepsReached (basis setting.now) table.old table.new run.old run.new result }
    ensures does { (q : Pair) → StandsFor (basis setting.now) field.now q
        → Reaches (basis setting.now) table.new (part.source_part (types_of (basis setting.now))
        (view arguments.now) (view value.now) q (path_of run.old)) result run.old run.new }
{
    match &field.source {
        Source::Stored => {
            let of_type = field.of_type;
            let resolved = resolve(alloc, field.name, of_type, arguments, value)?;
            let site = Site {
                slot,
                place: field.place,
                kind: field.kind,
            };
            reach_resolved(alloc, setting, table, site, of_type, resolved, run)
        }
        Source::TypeName(name) => return done(write_name(run, name.as_str())),
        Source::Root => {
            let root = IntroNode::QueryRoot;
            return reach_value(alloc, setting, table, slot, field, arguments, root, run);
        }
    }
}

/// The node that answers a field of an object that is this node.
fn answering<'d>(source: &Source, node: IntroNode<'d>) -> IntroNode<'d>
    ensures { node_of result ≡ spec.answering source.now (node_of node.entry) }
{
    match source {
        Source::Root => IntroNode::QueryRoot,
        Source::Stored => node,
        Source::TypeName(_) => node,
    }
}

/// The value of a field of an object, called with its arguments; arguments that are refused are an
/// error.
pub fn reach_field<'d, 'v>(
    alloc: Global,
    setting: &Setting<'d, '_>,
    table: &mut Table<'d>,
    slot: Slot,
    field: &FieldPlan<'d>,
    object: AnyObject<'d, 'v>,
    run: &mut Run<'d>,
) -> Result<Reached<'d, 'v>, ExecRefusal>
    requires right { IsRight (basis setting.now) table.old }
    requires at { IsAt table.old slot field.now }
    ensures keeps { KeepsReached (basis setting.now) table.old table.new run.old run.new result }
    ensures does { (q : Pair) → StandsFor (basis setting.now) field.now q
        → Reaches (basis setting.now) table.new (part.called_part (types_of (basis setting.now))
        (object_in object.entry) q (path_of run.old)) result run.old run.new }
{
    match &field.arguments {
        Called::Refused(message) => {
            return done(raise(alloc, run, field.place, Reason::Refused(message.as_str())));
        }
        Called::Given(given) => match object {
            AnyObject::Stored(value) => {
                reach_stored(alloc, setting, table, slot, field, given, value, run)
            }
            AnyObject::Described(node) => {
                let node = answering(&field.source, node);
                return reach_value(alloc, setting, table, slot, field, given, node, run);
            }
        },
    }
}
