//! The completion of a list, item by item (GraphQL specification, 6.4.3).
//! `objects`, `fields`, `values` and `lists` recurse through each other.
ghost use Rattle.std.specs.Prelude.{OnOk};
ghost use Rattle.serde_json.specs.View.{view};
ghost use Rattle.gql_inputs.specs.InputTypes.{name_in as name_of_type};
ghost use Rattle.gql_types.specs.Written.{written};
ghost use Rattle.gql_steps.specs.Execution as spec;
ghost use Rattle.gql_steps.specs.Objects.{basis};
ghost use Rattle.gql_steps.specs.States.{path_of};
ghost use Rattle.gql_steps.specs.Tables.{InTable, IsRight, below_at};
ghost use Rattle.gql_steps.specs.Texts.{value_part};
ghost use Rattle.gql_steps.specs.ValueParts as part;
ghost use Rattle.gql_steps.specs.ValueParts.{Does, Keeps, items_in};

use crate::values::complete;
use gql_ast::TypeRef;
use gql_inputs::is_non_null;
use gql_steps::direct::{direct_value, write_direct};
use gql_steps::direct_items::write_direct_items;
use gql_steps::ended::Ended;
use gql_steps::items::ListItems;
use gql_steps::outcome::Step;
use gql_steps::refusal::ExecRefusal;
use gql_steps::run::{Reason, Run};
use gql_steps::setting::Setting;
use gql_steps::site::Site;
use gql_steps::steps::{count, cut_to_null, raise, write_byte, write_comma};
use gql_steps::table::Table;
use serde_json::Value;
use std::alloc::Global;

/// Completes a value at a list type.
#[cycle(execute)]
pub fn complete_list<'d>(
    alloc: Global,
    setting: &Setting<'d, '_>,
    table: &mut Table<'d>,
    site: Site,
    item: &'d TypeRef,
    value: &Value,
    run: &mut Run<'d>,
) -> Result<Ended, ExecRefusal>
    requires right { IsRight (basis setting.now) table.old }
    requires within { InTable table.old site.slot }
    ensures keeps { OnOk result (Keeps (basis setting.now) table.old table.new run.old run.new) }
    ensures does { Does (basis setting.now) site (name_of_type (written item.now))
        (below_at table.old site.slot)
        (λ s. value_part (spec.on_list s (part.item_at s (written item.now)) (path_of run.old)
        (view value.now))) result run.old run.new }
{
    match value.as_array() {
        Some(values) => {
            let items = ListItems {
                all: values.as_slice(),
                kept: &[],
            };
            complete_items(alloc, setting, table, site, item, items, run)
        }
        None => raise(alloc, run, site.place, Reason::NotAList),
    }
}

/// Completes the items of a list.
#[cycle(execute)]
pub fn complete_items<'d>(
    alloc: Global,
    setting: &Setting<'d, '_>,
    table: &mut Table<'d>,
    site: Site,
    item: &'d TypeRef,
    items: ListItems<'_, '_>,
    run: &mut Run<'d>,
) -> Result<Ended, ExecRefusal>
    requires right { IsRight (basis setting.now) table.old }
    requires within { InTable table.old site.slot }
    ensures keeps { OnOk result (Keeps (basis setting.now) table.old table.new run.old run.new) }
    ensures does { Does (basis setting.now) site (name_of_type (written item.now))
        (below_at table.old site.slot)
        (λ s. part.list_part (written item.now) s (items_in items.entry) (path_of run.old))
        result run.old run.new }
{
    write_byte(run, b'[')?;
    let ended = list_items(alloc, setting, table, site, item, items, run)?;
    write_byte(run, b']')?;
    Ok(ended)
}

/// Completes items, one after another, also after an error.
#[cycle(execute)]
fn list_items<'d>(
    alloc: Global,
    setting: &Setting<'d, '_>,
    table: &mut Table<'d>,
    site: Site,
    item: &'d TypeRef,
    items: ListItems<'_, '_>,
    run: &mut Run<'d>,
) -> Result<Ended, ExecRefusal>
    requires right { IsRight (basis setting.now) table.old }
    requires within { InTable table.old site.slot }
    ensures keeps { OnOk result (Keeps (basis setting.now) table.old table.new run.old run.new) }
    ensures does { Does (basis setting.now) site (name_of_type (written item.now))
        (below_at table.old site.slot)
        (λ s. part.items_part (written item.now) s (items_in items.entry) (path_of run.old))
        result run.old run.new }
{
    let mut ended = Ended::Written;
    let first = write_direct_items(run, site.kind, item, items)?;
    for i in first..items.count() {
        let value = items.item(i);
        ended = ended.and(list_item(alloc, setting, table, site, item, i, value, run)?);
    }
    Ok(ended)
}

/// Completes an item, with its comma.
#[cycle(execute)]
fn list_item<'d>(
    alloc: Global,
    setting: &Setting<'d, '_>,
    table: &mut Table<'d>,
    site: Site,
    item: &'d TypeRef,
    i: usize,
    value: &Value,
    run: &mut Run<'d>,
) -> Result<Ended, ExecRefusal>
    requires right { IsRight (basis setting.now) table.old }
    requires within { InTable table.old site.slot }
    ensures keeps { OnOk result (Keeps (basis setting.now) table.old table.new run.old run.new) }
    ensures does { Does (basis setting.now) site (name_of_type (written item.now))
        (below_at table.old site.slot)
        (λ s. part.item_part (written item.now) s (path_of run.old) i (view value.now))
        result run.old run.new }
{
    write_comma(run, i)?;
    count(run)?;
    if let Some(found) = direct_value(site.kind, item, value) {
        return write_direct(run, found);
    }
    item_content(alloc, setting, table, site, item, i, value, run)
}

/// The value of an item, at its path.
#[cycle(execute)]
fn item_content<'d>(
    alloc: Global,
    setting: &Setting<'d, '_>,
    table: &mut Table<'d>,
    site: Site,
    item: &'d TypeRef,
    i: usize,
    value: &Value,
    run: &mut Run<'d>,
) -> Result<Ended, ExecRefusal>
    requires right { IsRight (basis setting.now) table.old }
    requires within { InTable table.old site.slot }
    ensures keeps { OnOk result (Keeps (basis setting.now) table.old table.new run.old run.new) }
    ensures does { Does (basis setting.now) site (name_of_type (written item.now))
        (below_at table.old site.slot)
        (λ s. part.content_of_item (written item.now) s i (view value.now) (path_of run.old))
        result run.old run.new }
{
    let depth = run.path.len();
    run.path.push(Step::Index(i))?;
    let ended = place_item(alloc, setting, table, site, item, value, run)?;
    run.path.truncate(depth);
    Ok(ended)
}

/// The value of an item at its place. Where a null bubbles up to a nullable place, it stays there.
#[cycle(execute)]
fn place_item<'d>(
    alloc: Global,
    setting: &Setting<'d, '_>,
    table: &mut Table<'d>,
    site: Site,
    item: &'d TypeRef,
    value: &Value,
    run: &mut Run<'d>,
) -> Result<Ended, ExecRefusal>
    requires right { IsRight (basis setting.now) table.old }
    requires within { InTable table.old site.slot }
    ensures keeps { OnOk result (Keeps (basis setting.now) table.old table.new run.old run.new) }
    ensures does { Does (basis setting.now) site (name_of_type (written item.now))
        (below_at table.old site.slot)
        (λ s. part.placed_part (written item.now) (value_part (spec.complete s (written item.now)
        (path_of run.old) (view value.now)))) result run.old run.new }
{
    if is_non_null(item) {
        return complete(alloc, setting, table, site, item, value, run);
    }
    let start = run.out.len();
    match complete(alloc, setting, table, site, item, value, run)? {
        Ended::Written => Ok(Ended::Written),
        Ended::Bubbled => {
            cut_to_null(run, start)?;
            Ok(Ended::Written)
        }
    }
}
