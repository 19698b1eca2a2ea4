//! What an edit comes to, before it is prepared: its checks, and the plan of its files.
ghost use Rattle.std.specs.Prelude.{◌≡◌, ◌∷◌, [], None, Some, IfErr, IfOk};
ghost use Rattle.gql_registry.specs.Changes.{change_of, edit_of};
ghost use Rattle.gql_registry.specs.Checks.{IsChangeRefusal, IsListRefusal};
ghost use Rattle.gql_registry.specs.Edits as edits;
ghost use Rattle.gql_registry.specs.Edits.{MakesAll};
ghost use Rattle.gql_registry.specs.Planning.{IsPlannedFor};
ghost use Rattle.gql_registry.specs.State.{State, state_of};
ghost use Rattle.gql_registry.specs.Working.{state_in};
ghost use Rattle.gql_verdict.specs.FileOrder.{AreFilesPlaced};

use crate::change::{Change, EditRefusal};
use crate::edit_plan::{EditPlan, whole_plan};
use crate::loading::{Loading, changes_files, load_all};
use crate::reading::{copy_data, has_room, read_data, read_file};
use crate::refusal::Refusal;
use crate::registry::Registry;
use crate::sides::files_on;
use gql_ast::{FileName, FileSide};
use gql_parse_sdl::{one_answer, one_document_answer};
use serde_json::Value;
use std::alloc::{AllocError, Global};

/// What an accepted edit is to change: the files by a plan, if it changes some, and the data, if
/// there are new ones.
#[derive(Drop)]
pub struct Planned {
    pub files: Option<EditPlan>,
    pub new_data: Option<Value>,
}

impl Planned {
    ghost use Rattle.std.specs.Prelude.{◌≡◌, None, Some};

    /// The files are to be changed by a plan, and the data stay.
    fn of_files(plan: EditPlan) -> Planned
        ensures { result ≡ record { files = Some plan; new_data = None } }
    {
        Planned {
            files: Some(plan),
            new_data: None,
        }
    }

    /// There are new data, and the files stay.
    fn of_data(new_data: Value) -> Planned
        ensures { result ≡ record { files = None; new_data = Some new_data } }
    {
        Planned {
            files: None,
            new_data: Some(new_data),
        }
    }
}

/// What changes come to that left these files and these data, if there are new ones.
fn planned_with(alloc: Global, edit: &[Change<'_>], loading: Loading) -> Result<Planned, AllocError>
    requires { AreFilesPlaced loading.files.documents }
    ensures { IfOk result (λ p. (s : State) → MakesAll s (edit_of edit.now)
        (state_in s.stored s.revision loading) → IsPlannedFor s (edit_of edit.now) p) }
{
    let Loading { files, new_data } = loading;
    if !changes_files(edit) {
        return Ok(Planned {
            files: None,
            new_data,
        });
    }
    let plan = whole_plan(alloc, files)?;
    Ok(Planned {
        files: Some(plan),
        new_data,
    })
}

impl Registry {
    ghost use Rattle.std.specs.Prelude.{◌≡◌, ◌∷◌, [], IfErr, IfOk};
    ghost use Rattle.gql_registry.specs.Changes.{change_of, edit_of};
    ghost use Rattle.gql_registry.specs.Checks.{IsChangeRefusal, IsListRefusal};
    ghost use Rattle.gql_registry.specs.EditPlans.{IsEditPlanBy};
    ghost use Rattle.gql_registry.specs.Edits as edits;
    ghost use Rattle.gql_registry.specs.Planning.{IsPlannedFor};
    ghost use Rattle.gql_registry.specs.State.{state_of};

    /// The plan of a change that puts bytes as the file of a name on a side. The refusals are 203, 202,
    /// 201 and 205, in this order.
    #[tactic(none)]
    fn plan_put(&self, side: FileSide, name: &FileName, bytes: &[u8]) -> Result<EditPlan, Refusal>
        ensures plan { IfOk result
            (IsEditPlanBy (state_of self.now) (edits.put side name.now bytes.now)) }
        ensures err { IfErr result
            (IsChangeRefusal (state_of self.now) (edits.put side name.now bytes.now)) }
    {
        // The laws that a text has a tree or a fault, and never both.
        one_answer();
        one_document_answer();
        let present = self.kept.files();
        let document = read_file(self.alloc, present.profile, side, name, bytes)?;
        if !has_room(files_on(present, side), name, present.profile.limits.files) {
            return Err(Refusal::FilesFull);
        }
        Ok(self.kept.plan(self.alloc, side, name, Some(document))?)
    }

    /// The plan of a change that removes the file of a name from a side. The refusal is 204.
    #[tactic(none)]
    fn plan_removal(&self, side: FileSide, name: &FileName) -> Result<EditPlan, Refusal>
        ensures plan { IfOk result
            (IsEditPlanBy (state_of self.now) (edits.remove side name.now)) }
        ensures err { IfErr result
            (IsChangeRefusal (state_of self.now) (edits.remove side name.now)) }
    {
        if !files_on(self.kept.files(), side).has(name) {
            return Err(Refusal::NoFile);
        }
        Ok(self.kept.plan(self.alloc, side, name, None)?)
    }

    /// What one change comes to. The refusals are those of its kind.
    fn plan_change(&self, change: &Change<'_>) -> Result<Planned, Refusal>
        ensures planned { IfOk result
            (IsPlannedFor (state_of self.now) (change_of change.now ∷ [])) }
        ensures err { IfErr result (IsChangeRefusal (state_of self.now) (change_of change.now)) }
    {
        let profile = self.kept.files().profile;
        match change {
            Change::Put { side, name, bytes } => {
                Ok(Planned::of_files(self.plan_put(*side, name, bytes)?))
            }
            Change::Remove { side, name } => Ok(Planned::of_files(self.plan_removal(*side, name)?)),
            Change::PutData { bytes } => {
                Ok(Planned::of_data(read_data(self.alloc, profile, bytes)?))
            }
            Change::SetData { value } => Ok(Planned::of_data(copy_data(profile, value)?)),
        }
    }

    /// What changes come to, one after the other. Their files are examined anew.
    fn plan_all(&self, edit: &[Change<'_>]) -> Result<Planned, EditRefusal>
        ensures planned { IfOk result (IsPlannedFor (state_of self.now) (edit_of edit.now)) }
        ensures err { IfErr result (IsListRefusal (state_of self.now) (edit_of edit.now)) }
    {
        let loading = load_all(self.alloc, self.kept.files(), edit)?;
        Ok(planned_with(self.alloc, edit, loading)?)
    }

    /// What an edit comes to. The refusal is that of the first of its changes which is refused.
    pub fn plan_edit(&self, edit: &[Change<'_>]) -> Result<Planned, EditRefusal>
        ensures planned { IfOk result (IsPlannedFor (state_of self.now) (edit_of edit.now)) }
        ensures err { IfErr result (IsListRefusal (state_of self.now) (edit_of edit.now)) }
    {
        let [change] = edit else {
            return self.plan_all(edit);
        };
        Ok(self.plan_change(change)?)
    }
}
