//! The execution of selection sets, taken as one, on the initial value (GraphQL specification, 6.2.1
//! and 6.2.2).
ghost use Rattle.std.specs.Prelude.{◌≡◌, ◌<◌, map, true, IfOk, IfErr};
ghost use Rattle.gql_collect.specs.Borrowed.{all_selections};
ghost use Rattle.gql_types.specs.Schemas.{append_of};
ghost use Rattle.serde_json.specs.View.{view};
ghost use Rattle.gql_steps.specs.Execution.{Plan, answer, mutation_answer};
ghost use Rattle.gql_steps.specs.Objects.{basis};
ghost use Rattle.gql_steps.specs.Outcomes.{error_of, outcome_of};
ghost use Rattle.gql_steps.specs.Plans.{IsPlan, is_met, types_of};
ghost use Rattle.gql_steps.specs.Requests as spec;
ghost use Rattle.gql_exec.specs.RootParts.{seen};
ghost use Rattle.gql_steps.specs.Runs.{Finishes, IsOutcomeOf, came_to};
ghost use Rattle.gql_steps.specs.States as states;

use crate::mutation::{Root, execute_root};
use crate::objects::execute_object;
use gql_collect::SelectionSet;
use gql_steps::ended::Ended;
use gql_steps::equal_sets::key_of;
use gql_steps::outcome::{Outcome, ResponseError};
use gql_steps::refusal::ExecRefusal;
use gql_steps::run::{FieldError, Run};
use gql_steps::setting::Setting;
use gql_steps::steps::cut_to_null;
use gql_steps::table::Table;
use gql_stored::Effect;
use serde_json::Value;
use std::alloc::{AllocError, Global};

/// The room for the text of a short answer.
const ROOM: usize = 256;

/// The errors of fields, as errors of an answer.
fn response_errors<'d>(
    alloc: Global,
    errors: Vec<FieldError<'d>>,
) -> Result<Vec<ResponseError<'d>>, AllocError>
    ensures { IfOk result (λ all. map error_of all.items
        ≡ map (λ e. spec.error_of (states.error_of e)) errors.entry.items) }
{
    let mut all = Vec::new(alloc);
    for error in errors {
        let FieldError {
            message,
            place,
            path,
        } = error;
        all.push(ResponseError {
            message,
            place,
            path: Some(path),
        })?;
    }
    Ok(all)
}

/// What a run came to, with these effects.
fn outcome<'d>(
    alloc: Global,
    run: Run<'d>,
    effects: Vec<Effect>,
) -> Result<Outcome<'d>, ExecRefusal>
    ensures came { IfOk result (λ o. outcome_of o ≡ came_to run.entry (seen effects.items)) }
    ensures err { IfErr result (λ e. e ≡ ExecRefusal.Memory) }
{
    let Run {
        out,
        errors,
        path: _,
        left: _,
        raised: _,
    } = run;
    Ok(Outcome {
        data: Some(out),
        errors: response_errors(alloc, errors)?,
        effects,
    })
}

/// What a run came to that ended in this way, with these effects: a null that bubbles up to the
/// data stays there.
fn finish<'d>(
    alloc: Global,
    ended: Ended,
    run: Run<'d>,
    effects: Vec<Effect>,
) -> Result<Outcome<'d>, ExecRefusal>
    ensures outcome { IfOk result
        (λ o. Finishes ended run.entry (seen effects.items) (outcome_of o)) }
    ensures err { IfErr result (λ e. e ≡ ExecRefusal.Memory) }
{
    match ended {
        Ended::Written => outcome(alloc, run, effects),
        Ended::Bubbled => {
            let mut run = run;
            cut_to_null(&mut run, 0)?;
            outcome(alloc, run, effects)
        }
    }
}

/// Executes selection sets, taken as one, on the initial value. At most `most` values are
/// completed.
pub fn execute_sets<'d>(
    alloc: Global,
    setting: &Setting<'d, '_>,
    root: &str,
    sets: &[SelectionSet<'d>],
    initial: &Value,
    most: usize,
) -> Result<Outcome<'d>, ExecRefusal>
    ensures outcome { IfOk result (λ o. is_met (basis setting.now) root.now root.now ≡ true
        → (x : Plan) → IsPlan (basis setting.now) root.now (all_selections sets.now) x
        → IsOutcomeOf most (outcome_of o)
        (answer (types_of (basis setting.now)) x root.now (view initial.now))) }
    ensures heavy { IfErr result (λ e. e ≡ ExecRefusal.TooHeavy
        → is_met (basis setting.now) root.now root.now ≡ true
        → (x : Plan) → IsPlan (basis setting.now) root.now (all_selections sets.now) x
        → most < (answer (types_of (basis setting.now)) x root.now (view initial.now)).weight) }
{
    let mut table = Table::new(alloc);
    let entry = table.add_sets(alloc, setting, key_of(root, sets), root, sets)?;
    let mut run = Run {
        out: Vec::with_capacity(alloc, ROOM)?,
        errors: Vec::new(alloc),
        path: Vec::new(alloc),
        left: most,
        raised: false,
    };
    let ended = execute_object(alloc, setting, &mut table, entry, initial, &mut run)?;
    finish(alloc, ended, run, Vec::new(alloc))
}

/// Executes selection sets, taken as one, as those of a mutation. At most `most` values are
/// completed.
pub fn mutate_sets<'d>(
    alloc: Global,
    setting: &Setting<'d, '_>,
    root: Root<'_>,
    sets: &[SelectionSet<'d>],
    most: usize,
) -> Result<Outcome<'d>, ExecRefusal>
    ensures outcome { IfOk result (λ o. is_met (basis setting.now) root.entry.of_type.now
        root.entry.of_type.now ≡ true
        → (x : Plan) → IsPlan (basis setting.now) root.entry.of_type.now (all_selections sets.now) x
        → IsOutcomeOf most (outcome_of o) (mutation_answer (types_of (basis setting.now))
        (append_of setting.now.context.schema.now root.entry.of_type.now) x root.entry.of_type.now
        (view root.entry.stored.now) (view root.entry.initial.now))) }
    ensures heavy { IfErr result (λ e. e ≡ ExecRefusal.TooHeavy
        → is_met (basis setting.now) root.entry.of_type.now root.entry.of_type.now ≡ true
        → (x : Plan) → IsPlan (basis setting.now) root.entry.of_type.now (all_selections sets.now) x
        → most < (mutation_answer (types_of (basis setting.now))
        (append_of setting.now.context.schema.now root.entry.of_type.now) x root.entry.of_type.now
        (view root.entry.stored.now) (view root.entry.initial.now)).weight) }
{
    let mut table = Table::new(alloc);
    let name = root.of_type;
    let entry = table.add_sets(alloc, setting, key_of(name, sets), name, sets)?;
    let mut run = Run {
        out: Vec::with_capacity(alloc, ROOM)?,
        errors: Vec::new(alloc),
        path: Vec::new(alloc),
        left: most,
        raised: false,
    };
    let mut effects = Vec::new(alloc);
    let ended = execute_root(
        alloc,
        setting,
        &mut table,
        entry,
        root,
        &mut run,
        &mut effects,
    )?;
    finish(alloc, ended, run, effects)
}
