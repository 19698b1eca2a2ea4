//! Values of the data that stand deep within others (GraphQL specification, 6.4.3).
ghost use Rattle.std.specs.Prelude.{OnOk};
ghost use Rattle.serde_json.specs.View.{view};
ghost use Rattle.gql_inputs.specs.InputTypes.{name_in as name_of_type};
ghost use Rattle.gql_types.specs.Written.{written};
ghost use Rattle.gql_steps.specs.Execution as spec;
ghost use Rattle.gql_steps.specs.Objects.{basis};
ghost use Rattle.gql_steps.specs.States.{path_of};
ghost use Rattle.gql_steps.specs.Tables.{InTable, IsRight, below_at};
ghost use Rattle.gql_steps.specs.Texts.{value_part};
ghost use Rattle.gql_steps.specs.ValueParts.{Does, Keeps};

use crate::data_values::reach;
use crate::machine::finish;
use gql_ast::TypeRef;
use gql_steps::ended::Ended;
use gql_steps::refusal::ExecRefusal;
use gql_steps::run::Run;
use gql_steps::setting::Setting;
use gql_steps::site::Site;
use gql_steps::table::Table;
use serde_json::Value;
use std::alloc::Global;

/// Completes a value (CompleteValue), with all that is within it, without recursion.
pub fn complete_deep<'d>(
    alloc: Global,
    setting: &Setting<'d, '_>,
    table: &mut Table<'d>,
    site: Site,
    of_type: &'d TypeRef,
    value: &Value,
    run: &mut Run<'d>,
) -> Result<Ended, ExecRefusal>
    requires right { IsRight (basis setting.now) table.old }
    requires within { InTable table.old site.slot }
    ensures keeps { OnOk result (Keeps (basis setting.now) table.old table.new run.old run.new) }
    ensures does { Does (basis setting.now) site (name_of_type (written of_type.now))
        (below_at table.old site.slot)
        (λ s. value_part (spec.complete s (written of_type.now) (path_of run.old)
        (view value.now))) result run.old run.new }
{
    let reached = reach(alloc, setting, table, site, of_type, value, run)?;
    finish(alloc, setting, table, reached, run)
}
