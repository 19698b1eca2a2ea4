//! Values of the data (GraphQL specification, 6.4.3), up to the objects and the lists that are to
//! be entered.
ghost use Rattle.std.specs.Prelude.{◌≡◌, List, ℕ, codes, false, true};
ghost use Rattle.serde_json.specs.Find.{get};
ghost use Rattle.serde_json.specs.View.{view};
ghost use Rattle.gql_inputs.specs.InputTypes.{is_non_null, name_in as name_of_type};
ghost use Rattle.gql_types.specs.Schemas.{kind_named};
ghost use Rattle.gql_types.specs.Written.{written};
ghost use Rattle.gql_steps.specs.Execution as spec;
ghost use Rattle.gql_steps.specs.Execution.{Plan, stored};
ghost use Rattle.gql_deep.specs.Frames.{DoesValue, KeepsReached, Reaches};
ghost use Rattle.gql_steps.specs.Objects.{basis};
ghost use Rattle.gql_steps.specs.Plans.{IsPlan, is_met, possible_in, types_of};
ghost use Rattle.gql_steps.specs.States.{path_of};
ghost use Rattle.gql_steps.specs.Tables.{InTable, IsRight, below_at};
ghost use Rattle.gql_steps.specs.Texts.{value_part};
ghost use Rattle.gql_steps.specs.ValueParts as part;
ghost use Rattle.gql_steps.specs.declared.kinds.ValueKind.TheVariants as kind;

use crate::below::{items_below, object_below};
use crate::done::done;
use crate::frames::{AnyObject, Reached};
use gql_ast::TypeRef;
use gql_steps::items::DataItems;
use gql_steps::kinds::{ValueKind, type_name};
use gql_steps::leaves::{Leaf, complete_enum, complete_scalar};
use gql_steps::nulls::{complete_null, without_mark};
use gql_steps::refusal::ExecRefusal;
use gql_steps::run::{Reason, Run};
use gql_steps::setting::Setting;
use gql_steps::site::Site;
use gql_steps::steps::raise;
use gql_steps::table::{Slot, Table};
use serde_json::Value;
use std::alloc::Global;

/// What is selected below a field, on an object of a type.
fn reach_below<'d, 'v>(
    alloc: Global,
    setting: &Setting<'d, '_>,
    table: &mut Table<'d>,
    slot: Slot,
    of_type: &str,
    object: &'v Value,
    run: &mut Run<'d>,
) -> Result<Reached<'d, 'v>, ExecRefusal>
    requires right { IsRight (basis setting.now) table.old }
    requires within { InTable table.old slot }
    ensures keeps { KeepsReached (basis setting.now) table.old table.new run.old run.new result }
    ensures does { (name : List ℕ) → is_met (basis setting.now) of_type.now name ≡ true
        → (x : Plan) → IsPlan (basis setting.now) name (below_at table.old slot) x
        → Reaches (basis setting.now) table.new (value_part (spec.execute
        (types_of (basis setting.now)) x of_type.now (path_of run.old)
        (stored (view object.now)))) result run.old run.new }
{
    let stored = AnyObject::Stored(object);
    let group = object_below(alloc, setting, table, slot, of_type, stored)?;
    Ok(Reached::Inner(group))
}

/// A value at an object type.
fn reach_object<'d, 'v>(
    alloc: Global,
    setting: &Setting<'d, '_>,
    table: &mut Table<'d>,
    site: Site,
    name: &str,
    value: &'v Value,
    run: &mut Run<'d>,
) -> Result<Reached<'d, 'v>, ExecRefusal>
    requires right { IsRight (basis setting.now) table.old }
    requires within { InTable table.old site.slot }
    ensures keeps { KeepsReached (basis setting.now) table.old table.new run.old run.new result }
    ensures does { DoesValue (basis setting.now) table.new site name.now
        (below_at table.old site.slot)
        (λ s. value_part (spec.on_object s name.now (path_of run.old) (view value.now)))
        result run.old run.new }
{
    if value.is_object() {
        return reach_below(alloc, setting, table, site.slot, name, value, run);
    }
    done(raise(alloc, run, site.place, Reason::NotAnObject))
}

/// A value at an interface or a union (ResolveAbstractType).
fn reach_abstract<'d, 'v>(
    alloc: Global,
    setting: &Setting<'d, '_>,
    table: &mut Table<'d>,
    site: Site,
    name: &str,
    value: &'v Value,
    run: &mut Run<'d>,
) -> Result<Reached<'d, 'v>, ExecRefusal>
    requires right { IsRight (basis setting.now) table.old }
    requires within { InTable table.old site.slot }
    requires composite { site.kind ≡ kind.Abstract }
    ensures keeps { KeepsReached (basis setting.now) table.old table.new run.old run.new result }
    ensures does { DoesValue (basis setting.now) table.new site name.now
        (below_at table.old site.slot)
        (λ s. value_part (spec.on_abstract s name.now (path_of run.old) (view value.now)
        (spec.among (possible_in setting.now.context.schema.now name.now)
        (get (codes "__typename") (view value.now))))) result run.old run.new }
{
    let Some(of_type) = type_name(setting.context.schema, name, value) else {
        return done(raise(alloc, run, site.place, Reason::NoPossibleType(name)));
    };
    reach_below(alloc, setting, table, site.slot, of_type, value, run)
}

/// A value at the type of a name.
fn reach_named<'d, 'v>(
    alloc: Global,
    setting: &Setting<'d, '_>,
    table: &mut Table<'d>,
    site: Site,
    name: &str,
    value: &'v Value,
    run: &mut Run<'d>,
) -> Result<Reached<'d, 'v>, ExecRefusal>
    requires right { IsRight (basis setting.now) table.old }
    requires within { InTable table.old site.slot }
    ensures keeps { KeepsReached (basis setting.now) table.old table.new run.old run.new result }
    ensures does { DoesValue (basis setting.now) table.new site name.now
        (below_at table.old site.slot)
        (λ s. value_part (spec.of_kind s name.now (path_of run.old) (view value.now)
        (kind_named setting.now.context.schema.now name.now))) result run.old run.new }
{
    let leaf = Leaf {
        name,
        place: site.place,
    };
    match site.kind {
        ValueKind::Scalar(scalar) => done(complete_scalar(alloc, scalar, leaf, value, run)),
        ValueKind::Enum => done(complete_enum(alloc, setting.context.schema, leaf, value, run)),
        ValueKind::Object => {
            return reach_object(alloc, setting, table, site, name, value, run);
        }
        ValueKind::Abstract => {
            return reach_abstract(alloc, setting, table, site, name, value, run);
        }
        ValueKind::NoOutput => done(raise(alloc, run, site.place, Reason::NotOfType(name))),
    }
}

/// A value at a list type.
fn reach_list<'d, 'v>(
    alloc: Global,
    setting: &Setting<'d, '_>,
    table: &mut Table<'d>,
    site: Site,
    item: &'d TypeRef,
    value: &'v Value,
    run: &mut Run<'d>,
) -> Result<Reached<'d, 'v>, ExecRefusal>
    requires right { IsRight (basis setting.now) table.old }
    requires within { InTable table.old site.slot }
    ensures keeps { KeepsReached (basis setting.now) table.old table.new run.old run.new result }
    ensures does { DoesValue (basis setting.now) table.new site (name_of_type (written item.now))
        (below_at table.old site.slot)
        (λ s. value_part (spec.on_list s (part.item_at s (written item.now)) (path_of run.old)
        (view value.now))) result run.old run.new }
{
    let Some(values) = value.as_array() else {
        return done(raise(alloc, run, site.place, Reason::NotAList));
    };
    Ok(items_below(site, item, DataItems::All(values.as_slice())))
}

/// A value that is not null, at a type without a Non-Null mark.
fn reach_present<'d, 'v>(
    alloc: Global,
    setting: &Setting<'d, '_>,
    table: &mut Table<'d>,
    site: Site,
    of_type: &'d TypeRef,
    value: &'v Value,
    run: &mut Run<'d>,
) -> Result<Reached<'d, 'v>, ExecRefusal>
    requires right { IsRight (basis setting.now) table.old }
    requires within { InTable table.old site.slot }
    requires nullable { is_non_null (written of_type.now) ≡ false }
    requires present { spec.is_null (view value.now) ≡ false }
    ensures keeps { KeepsReached (basis setting.now) table.old table.new run.old run.new result }
    ensures does { DoesValue (basis setting.now) table.new site
        (name_of_type (written of_type.now)) (below_at table.old site.slot)
        (λ s. value_part (spec.complete s (written of_type.now) (path_of run.old)
        (view value.now))) result run.old run.new }
{
    match of_type {
        TypeRef::Named(name) => {
            reach_named(alloc, setting, table, site, name.as_str(), value, run)
        }
        TypeRef::List { item, .. } => {
            reach_list(alloc, setting, table, site, item.get(), value, run)
        }
        TypeRef::NonNull(_) => {
            return done(raise(alloc, run, site.place, Reason::NullForNonNull));
        }
    }
}

/// A value that is completed (CompleteValue), up to an object or a list that is to be entered.
pub fn reach<'d, 'v>(
    alloc: Global,
    setting: &Setting<'d, '_>,
    table: &mut Table<'d>,
    site: Site,
    of_type: &'d TypeRef,
    value: &'v Value,
    run: &mut Run<'d>,
) -> Result<Reached<'d, 'v>, ExecRefusal>
    requires right { IsRight (basis setting.now) table.old }
    requires within { InTable table.old site.slot }
    ensures keeps { KeepsReached (basis setting.now) table.old table.new run.old run.new result }
    ensures does { DoesValue (basis setting.now) table.new site
        (name_of_type (written of_type.now)) (below_at table.old site.slot)
        (λ s. value_part (spec.complete s (written of_type.now) (path_of run.old)
        (view value.now))) result run.old run.new }
{
    if value.is_null() {
        return done(complete_null(alloc, site.place, of_type, run));
    }
    let nullable = without_mark(of_type);
    reach_present(alloc, setting, table, site, nullable, value, run)
}
