//! The end of the value of a field or an item, and what was around it, where nodes of introspection
//! are executed.
ghost use Rattle.std.specs.Prelude.{◌≡◌, length, OnOk};
ghost use Rattle.gql_deep.specs.Frames.{Hole, placed_by};
ghost use Rattle.gql_steps.specs.Parts.{Part};
ghost use Rattle.gql_steps.specs.States.{Done, Executes};
ghost use Rattle.gql_steps.specs.declared.run.Run.{Run as ARun};

use crate::frames::Around;
use gql_steps::ended::Ended;
use gql_steps::refusal::ExecRefusal;
use gql_steps::run::Run;
use gql_steps::steps::cut_to_null;

/// A value that has ended, in its place. Where a null bubbles up to a nullable place, it stays
/// there.
fn place(run: &mut Run<'_>, around: Around, ended: Ended) -> Result<Ended, ExecRefusal>
    ensures does { (p : Part) (start : ARun) → around.mark ≡ length start.out.items
        → Done p ended start run.old
        → Executes (placed_by around.is_required p) result start run.new }
    ensures left { OnOk result (run.new.left ≡ run.old.left) }
{
    match ended {
        Ended::Written => Ok(Ended::Written),
        Ended::Bubbled => {
            if around.is_required {
                return Ok(Ended::Bubbled);
            }
            cut_to_null(run, around.mark)?;
            Ok(Ended::Written)
        }
    }
}

/// Ends a field or an item, the value of which has ended.
pub fn close(run: &mut Run<'_>, around: Around, ended: Ended) -> Result<Ended, ExecRefusal>
    ensures does { (p : Part) (start : ARun) (r : Part) (before : ARun)
        → Hole around p start r before → Done p ended start run.old
        → Executes r result before run.new }
    ensures left { OnOk result (run.new.left ≡ run.old.left) }
{
    let ended = place(run, around, ended)?;
    run.path.truncate(around.depth);
    if around.is_field {
        run.raised = around.outer;
    }
    Ok(ended)
}
