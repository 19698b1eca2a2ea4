//! The completion of a value at the type of its field or of its list (GraphQL specification, 6.4.3).
//! `objects`, `fields`, `values` and `lists` recurse through each other, down to `MOST_LEVELS`.
ghost use Rattle.std.specs.Prelude.{◌≡◌, codes, false, OnOk};
ghost use Rattle.serde_json.specs.Find.{get};
ghost use Rattle.serde_json.specs.View.{view};
ghost use Rattle.gql_inputs.specs.InputTypes.{is_non_null, name_in as name_of_type};
ghost use Rattle.gql_types.specs.Schemas.{kind_named};
ghost use Rattle.gql_types.specs.Written.{written};
ghost use Rattle.gql_steps.specs.Execution as spec;
ghost use Rattle.gql_steps.specs.Objects.{basis};
ghost use Rattle.gql_steps.specs.Plans.{possible_in};
ghost use Rattle.gql_steps.specs.States.{path_of};
ghost use Rattle.gql_steps.specs.Tables.{InTable, IsRight, below_at};
ghost use Rattle.gql_steps.specs.Texts.{value_part};
ghost use Rattle.gql_steps.specs.declared.kinds.ValueKind.TheVariants as kind;
ghost use Rattle.gql_steps.specs.ValueParts.{Does, IsOf, Keeps, resolved_in};

use crate::lists::{complete_items, complete_list};
use crate::objects::execute_below;
use gql_ast::TypeRef;
use gql_deep::complete_deep;
use gql_inputs::item_of;
use gql_steps::ended::Ended;
use gql_steps::items::ListItems;
use gql_steps::kinds::{ValueKind, type_name};
use gql_steps::leaves::{Leaf, complete_enum, complete_scalar};
use gql_steps::nulls::{complete_null, without_mark};
use gql_steps::refusal::ExecRefusal;
use gql_steps::resolve::Resolved;
use gql_steps::run::{Reason, Run};
use gql_steps::setting::Setting;
use gql_steps::site::Site;
use gql_steps::steps::raise;
use gql_steps::table::Table;
use serde_json::Value;
use std::alloc::Global;

/// How deep the execution recurses. What is within so many objects and lists is executed without
/// recursion, which takes twice as long. Data that are put do not nest so deep.
const MOST_LEVELS: usize = 128;

/// Completes what a field was resolved to.
#[cycle(execute)]
pub fn complete_resolved<'d>(
    alloc: Global,
    setting: &Setting<'d, '_>,
    table: &mut Table<'d>,
    site: Site,
    of_type: &'d TypeRef,
    resolved: &Resolved<'_>,
    run: &mut Run<'d>,
) -> Result<Ended, ExecRefusal>
    requires right { IsRight (basis setting.now) table.old }
    requires within { InTable table.old site.slot }
    requires of { IsOf (written of_type.now) resolved.now }
    ensures keeps { OnOk result (Keeps (basis setting.now) table.old table.new run.old run.new) }
    ensures does { Does (basis setting.now) site (name_of_type (written of_type.now))
        (below_at table.old site.slot)
        (λ s. value_part (spec.complete s (written of_type.now) (path_of run.old)
        (resolved_in resolved.now))) result run.old run.new }
{
    match resolved {
        Resolved::Null => complete_null(alloc, site.place, of_type, run),
        Resolved::Value(value) => complete(alloc, setting, table, site, of_type, *value, run),
        Resolved::Items(found) => match item_of(of_type) {
            Some(item) => {
                let items = ListItems {
                    all: &[],
                    kept: found.as_slice(),
                };
                complete_items(alloc, setting, table, site, item, items, run)
            }
            None => raise(alloc, run, site.place, Reason::NotAList),
        },
    }
}

/// Completes a value (CompleteValue).
#[cycle(execute)]
pub fn complete<'d>(
    alloc: Global,
    setting: &Setting<'d, '_>,
    table: &mut Table<'d>,
    site: Site,
    of_type: &'d TypeRef,
    value: &Value,
    run: &mut Run<'d>,
) -> Result<Ended, ExecRefusal>
    requires right { IsRight (basis setting.now) table.old }
    requires within { InTable table.old site.slot }
    ensures keeps { OnOk result (Keeps (basis setting.now) table.old table.new run.old run.new) }
    ensures does { Does (basis setting.now) site (name_of_type (written of_type.now))
        (below_at table.old site.slot)
        (λ s. value_part (spec.complete s (written of_type.now) (path_of run.old)
        (view value.now))) result run.old run.new }
{
    if value.is_null() {
        return complete_null(alloc, site.place, of_type, run);
    }
    if run.path.len() > MOST_LEVELS {
        return complete_deep(alloc, setting, table, site, of_type, value, run);
    }
    let nullable = without_mark(of_type);
    complete_present(alloc, setting, table, site, nullable, value, run)
}

/// Completes a value that is not null, at a type without a Non-Null mark.
#[cycle(execute)]
fn complete_present<'d>(
    alloc: Global,
    setting: &Setting<'d, '_>,
    table: &mut Table<'d>,
    site: Site,
    of_type: &'d TypeRef,
    value: &Value,
    run: &mut Run<'d>,
) -> Result<Ended, ExecRefusal>
    requires right { IsRight (basis setting.now) table.old }
    requires within { InTable table.old site.slot }
    requires nullable { is_non_null (written of_type.now) ≡ false }
    requires present { spec.is_null (view value.now) ≡ false }
    ensures keeps { OnOk result (Keeps (basis setting.now) table.old table.new run.old run.new) }
    ensures does { Does (basis setting.now) site (name_of_type (written of_type.now))
        (below_at table.old site.slot)
        (λ s. value_part (spec.complete s (written of_type.now) (path_of run.old)
        (view value.now))) result run.old run.new }
{
    match of_type {
        TypeRef::Named(name) => {
            complete_named(alloc, setting, table, site, name.as_str(), value, run)
        }
        TypeRef::List { item, .. } => {
            complete_list(alloc, setting, table, site, item.get(), value, run)
        }
        TypeRef::NonNull(_) => raise(alloc, run, site.place, Reason::NullForNonNull),
    }
}

/// Completes a value at the type of a name.
#[cycle(execute)]
fn complete_named<'d>(
    alloc: Global,
    setting: &Setting<'d, '_>,
    table: &mut Table<'d>,
    site: Site,
    name: &str,
    value: &Value,
    run: &mut Run<'d>,
) -> Result<Ended, ExecRefusal>
    requires right { IsRight (basis setting.now) table.old }
    requires within { InTable table.old site.slot }
    ensures keeps { OnOk result (Keeps (basis setting.now) table.old table.new run.old run.new) }
    ensures does { Does (basis setting.now) site name.now (below_at table.old site.slot)
        (λ s. value_part (spec.of_kind s name.now (path_of run.old) (view value.now)
        (kind_named setting.now.context.schema.now name.now))) result run.old run.new }
{
    let leaf = Leaf {
        name,
        place: site.place,
    };
    match site.kind {
        ValueKind::Scalar(scalar) => complete_scalar(alloc, scalar, leaf, value, run),
        ValueKind::Enum => complete_enum(alloc, setting.context.schema, leaf, value, run),
        ValueKind::Object => complete_object(alloc, setting, table, site, name, value, run),
        ValueKind::Abstract => complete_abstract(alloc, setting, table, site, name, value, run),
        ValueKind::NoOutput => raise(alloc, run, site.place, Reason::NotOfType(name)),
    }
}

/// Completes a value at an object type.
#[cycle(execute)]
fn complete_object<'d>(
    alloc: Global,
    setting: &Setting<'d, '_>,
    table: &mut Table<'d>,
    site: Site,
    name: &str,
    value: &Value,
    run: &mut Run<'d>,
) -> Result<Ended, ExecRefusal>
    requires right { IsRight (basis setting.now) table.old }
    requires within { InTable table.old site.slot }
    ensures keeps { OnOk result (Keeps (basis setting.now) table.old table.new run.old run.new) }
    ensures does { Does (basis setting.now) site name.now (below_at table.old site.slot)
        (λ s. value_part (spec.on_object s name.now (path_of run.old) (view value.now)))
        result run.old run.new }
{
    if value.is_object() {
        execute_below(alloc, setting, table, site.slot, name, value, run)
    } else {
        raise(alloc, run, site.place, Reason::NotAnObject)
    }
}

/// Completes a value at an interface or a union (ResolveAbstractType).
#[cycle(execute)]
fn complete_abstract<'d>(
    alloc: Global,
    setting: &Setting<'d, '_>,
    table: &mut Table<'d>,
    site: Site,
    name: &str,
    value: &Value,
    run: &mut Run<'d>,
) -> Result<Ended, ExecRefusal>
    requires right { IsRight (basis setting.now) table.old }
    requires within { InTable table.old site.slot }
    requires composite { site.kind ≡ kind.Abstract }
    ensures keeps { OnOk result (Keeps (basis setting.now) table.old table.new run.old run.new) }
    ensures does { Does (basis setting.now) site name.now (below_at table.old site.slot)
        (λ s. value_part (spec.on_abstract s name.now (path_of run.old) (view value.now)
        (spec.among (possible_in setting.now.context.schema.now name.now)
        (get (codes "__typename") (view value.now))))) result run.old run.new }
{
    match type_name(setting.context.schema, name, value) {
        Some(of_type) => { execute_below(alloc, setting, table, site.slot, of_type, value, run) }
        None => raise(alloc, run, site.place, Reason::NoPossibleType(name)),
    }
}
