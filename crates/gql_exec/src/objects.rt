//! The execution of an object's fields, one after another (GraphQL specification, 6.3).
//! `objects`, `fields`, `values` and `lists` recurse through each other.
ghost use Rattle.std.specs.Prelude.{◌≡◌, ◌<◌, List, ℕ, length, true, OnOk};
ghost use Rattle.gql_steps.specs.Execution as spec;
ghost use Rattle.gql_steps.specs.Execution.{Plan};
ghost use Rattle.gql_steps.specs.Objects.{basis, object_of};
ghost use Rattle.gql_steps.specs.Plans.{IsPlan, is_met, types_of};
ghost use Rattle.gql_steps.specs.States.{Executes, path_of};
ghost use Rattle.gql_steps.specs.Tables.{InTable, IsRight, Pair, StandFor, below_at, fields_at};
ghost use Rattle.gql_steps.specs.Texts.{value_part};
ghost use Rattle.gql_steps.specs.ValueParts as part;
ghost use Rattle.gql_steps.specs.ValueParts.{Keeps};

use crate::fields::execute_field;
use gql_steps::columns::Columns;
use gql_steps::ended::Ended;
use gql_steps::refusal::ExecRefusal;
use gql_steps::run::Run;
use gql_steps::setting::Setting;
use gql_steps::steps::write_byte;
use gql_steps::table::{Slot, Table};
use serde_json::Value;
use std::alloc::Global;

/// Executes the fields of an entry of the table on an object of the data.
#[cycle(execute)]
pub fn execute_object<'d>(
    alloc: Global,
    setting: &Setting<'d, '_>,
    table: &mut Table<'d>,
    entry: usize,
    object: &Value,
    run: &mut Run<'d>,
) -> Result<Ended, ExecRefusal>
    requires right { IsRight (basis setting.now) table.old }
    requires within { entry < length table.old.entries.items }
    ensures keeps { OnOk result (Keeps (basis setting.now) table.old table.new run.old run.new) }
    ensures does { (qs : List Pair)
        → StandFor (basis setting.now) (fields_at table.old.entries.items entry) qs
        → Executes (part.object_part (types_of (basis setting.now)) (object_of object.entry) qs
        (path_of run.old)) result run.old run.new }
{
    write_byte(run, b'{')?;
    let ended = execute_fields(alloc, setting, table, entry, object, run)?;
    write_byte(run, b'}')?;
    Ok(ended)
}

/// Executes the fields of an entry, one after another, also after an error.
#[cycle(execute)]
fn execute_fields<'d>(
    alloc: Global,
    setting: &Setting<'d, '_>,
    table: &mut Table<'d>,
    entry: usize,
    object: &Value,
    run: &mut Run<'d>,
) -> Result<Ended, ExecRefusal>
    requires right { IsRight (basis setting.now) table.old }
    requires within { entry < length table.old.entries.items }
    ensures keeps { OnOk result (Keeps (basis setting.now) table.old table.new run.old run.new) }
    ensures does { (qs : List Pair)
        → StandFor (basis setting.now) (fields_at table.old.entries.items entry) qs
        → Executes (part.fields_part (types_of (basis setting.now)) (object_of object.entry) qs
        (path_of run.old)) result run.old run.new }
{
    let shared = table.fields(entry)?;
    let fields = shared.get();
    let mut columns = Columns::new(alloc);
    let mut ended = Ended::Written;
    for i in 0..fields.len() {
        let slot = Slot { entry, field: i };
        let field_ended = execute_field(
            alloc,
            setting,
            table,
            slot,
            &fields[i],
            object,
            &mut columns,
            run,
        )?;
        ended = ended.and(field_ended);
    }
    Ok(ended)
}

/// Executes what is selected below a field on an object of a type.
#[cycle(execute)]
pub fn execute_below<'d>(
    alloc: Global,
    setting: &Setting<'d, '_>,
    table: &mut Table<'d>,
    slot: Slot,
    of_type: &str,
    object: &Value,
    run: &mut Run<'d>,
) -> Result<Ended, ExecRefusal>
    requires right { IsRight (basis setting.now) table.old }
    requires within { InTable table.old slot }
    ensures keeps { OnOk result (Keeps (basis setting.now) table.old table.new run.old run.new) }
    ensures does { (name : List ℕ) → is_met (basis setting.now) of_type.now name ≡ true
        → (x : Plan) → IsPlan (basis setting.now) name (below_at table.old slot) x
        → Executes (value_part (spec.execute (types_of (basis setting.now)) x of_type.now
        (path_of run.old) (object_of object.entry))) result run.old run.new }
{
    let entry = table.at(alloc, setting, slot, of_type)?;
    execute_object(alloc, setting, table, entry, object, run)
}
