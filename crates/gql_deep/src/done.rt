//! Values, fields and items that are done without an object or a list being entered.
ghost use Rattle.std.specs.Prelude.{◌+◌, ◌≤◌, ℕ};
ghost use Rattle.gql_deep.specs.Frames.{Begins, KeepsBegun, KeepsReached, Reaches};
ghost use Rattle.gql_steps.specs.Parts.{Part};
ghost use Rattle.gql_steps.specs.Plans.{Basis};
ghost use Rattle.gql_steps.specs.States.{Executes};
ghost use Rattle.gql_steps.specs.Tables.{IsRight};
ghost use Rattle.gql_steps.specs.declared.run.Run.{Run as ARun};
ghost use Rattle.gql_steps.specs.declared.table.Table.{Table as ATable};

use crate::frames::{Begun, Reached};
use gql_steps::ended::Ended;
use gql_steps::refusal::ExecRefusal;

/// A value that is done.
pub fn done<'d, 'v>(outcome: Result<Ended, ExecRefusal>) -> Result<Reached<'d, 'v>, ExecRefusal>
    ensures keeps { (g : Basis) (t : ATable) (r : Part) (old now : ARun) → IsRight g t
        → Executes r outcome old now → KeepsReached g t t old now result }
    ensures does { (g : Basis) (t : ATable) (r : Part) (old now : ARun)
        → Executes r outcome old now → Reaches g t r result old now }
{
    match outcome {
        Ok(ended) => Ok(Reached::Ended(ended)),
        Err(refusal) => Err(refusal),
    }
}

/// A field or an item that is done; its value has been counted.
pub fn begun<'d, 'v>(outcome: Result<Ended, ExecRefusal>) -> Result<Begun<'d, 'v>, ExecRefusal>
    ensures keeps { (g : Basis) (t : ATable) (r : Part) (n : ℕ) (first old now : ARun)
        → IsRight g t → old.left + n ≤ first.left → Executes r outcome old now
        → KeepsBegun g t t n first now result }
    ensures does { (g : Basis) (t : ATable) (r : Part) (old now : ARun)
        → Executes r outcome old now → Begins g t r result old now }
{
    match outcome {
        Ok(ended) => Ok(Begun::Ended(ended)),
        Err(refusal) => Err(refusal),
    }
}
