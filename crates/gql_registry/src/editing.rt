//! Edits of the registry: what they come to is prepared, and then committed.
ghost use Rattle.std.specs.Prelude.{◌≡◌, ◌+◌, ◌∷◌, [], false, None, IfErr, IfOk, IfSome, OnErr, OnOk};
ghost use Rattle.gql_ast.specs.declared.fault.FileSide.TheVariants as side;
ghost use Rattle.gql_registry.specs.Changes.{change_of, edit_of};
ghost use Rattle.gql_registry.specs.EditPlans.{IsEditPlanOf, IsReportLength};
ghost use Rattle.gql_registry.specs.Edits as edits;
ghost use Rattle.gql_registry.specs.Edits.{IsRefused, Makes, Reports, changes_files, of_one};
ghost use Rattle.gql_registry.specs.Examining.{AreReadyOver};
ghost use Rattle.gql_registry.specs.Keeping.{HasPairsDue, IsShelfOf, IsWholeWorkOn, IsWorkOn, KeepsPairs};
ghost use Rattle.gql_registry.specs.Planning.{plan_files, planned_state};
ghost use Rattle.gql_registry.specs.PreparedEdits.{IsPreparedEditFor, IsReadyFor, KeepsFiles, after_of, edited_of, files_after};
ghost use Rattle.gql_registry.specs.State.{at_revision, pairs_of, shelf_of, state_of};
ghost use Rattle.gql_registry.specs.Works.{Works, WorksInVain};

use crate::change::{Change, EditRefusal};
use crate::edit_plan::EditPlan;
use crate::kept::{Kept, PreparedFiles};
use crate::loading::replace_data;
use crate::planning::Planned;
use crate::refusal::Refusal;
use crate::registry::{Edited, Registry};
use gql_ast::{FileName, FileSide};
use gql_verdict::Meter;
use serde_json::Value;
use std::alloc::AllocError;
use std::slice;

/// An edit that is prepared: what it answers, and what it is to change. It has the files only if it
/// changes some, and data only if they are new.
#[derive(Drop)]
pub struct PreparedEdit {
    edited: Edited,
    files: Option<PreparedFiles>,
    new_data: Option<Value>,
}

impl PreparedEdit {
    ghost use Rattle.gql_registry.specs.PreparedEdits.{edited_of};

    /// What the edit answers: the revision and how many faults the report has, once it is committed.
    pub fn edited(&self) -> Edited
        ensures { result ≡ edited_of self.now }
    {
        self.edited
    }
}

/// Commits files that are prepared, if there are some.
fn commit_files(kept: &mut Kept, files: Option<PreparedFiles>)
    requires { IfSome files (AreReadyOver kept.old.shelf kept.old.pairs) }
    ensures files { kept.new.files ≡ files_after kept.old.files files }
    ensures current { IsShelfOf kept.new.files kept.new.shelf }
    ensures pairs { KeepsPairs kept.new.files kept.old.pairs kept.new.pairs }
    ensures walked { HasPairsDue kept.new.files kept.old.shelf kept.new.pairs }
    ensures idle { files ≡ None → (kept.new.shelf ≡ kept.old.shelf)
        × (kept.new.pairs ≡ kept.old.pairs) }
{
    // The verdicts that are kept hold, so that none is due while the files stay.
    let _current = kept.shelf();
    if let Some(files) = files {
        kept.commit(files);
    }
}

impl Registry {
    ghost use Rattle.std.specs.Prelude.{◌≡◌, ◌+◌, ◌∷◌, [], false, None, IfErr, IfOk, IfSome, OnErr, OnOk};
    ghost use Rattle.gql_ast.specs.declared.fault.FileSide.TheVariants as side;
    ghost use Rattle.gql_registry.specs.Changes.{change_of, edit_of};
    ghost use Rattle.gql_registry.specs.EditPlans.{IsEditPlanOf, IsReportLength};
    ghost use Rattle.gql_registry.specs.Edits as edits;
    ghost use Rattle.gql_registry.specs.Edits.{IsRefused, Makes, Reports, changes_files, of_one};
    ghost use Rattle.gql_registry.specs.Examining.{AreReadyOver};
    ghost use Rattle.gql_registry.specs.Keeping.{HasPairsDue, IsShelfOf, IsWholeWorkOn, IsWorkOn, KeepsPairs};
    ghost use Rattle.gql_registry.specs.Planning.{plan_files, planned_state};
    ghost use Rattle.gql_registry.specs.PreparedEdits.{IsPreparedEditFor, IsReadyFor, KeepsFiles, after_of, edited_of, files_after};
    ghost use Rattle.gql_registry.specs.State.{at_revision, pairs_of, shelf_of, state_of};
    ghost use Rattle.gql_registry.specs.Works.{Works, WorksInVain};

    /// Prepares the files of a plan, if there is one.
    fn prepare_files(
        &self,
        plan: Option<EditPlan>,
        meter: &mut Meter,
    ) -> Result<Option<PreparedFiles>, AllocError>
        requires { IfSome plan (IsEditPlanOf (state_of self.now).files) }
        ensures files { IfOk result (λ files. files_after (state_of self.now).files files
            ≡ plan_files (state_of self.now).files plan) }
        ensures none { IfOk result (λ files. plan ≡ None → files ≡ None) }
        ensures ready { IfOk result (λ files.
            IfSome files (AreReadyOver (shelf_of self.now) (pairs_of self.now))) }
        ensures whole { OnOk result (IsWholeWorkOn (plan_files (state_of self.now).files plan)
            (shelf_of self.now) meter.old meter.new) }
        ensures work { OnErr result (IsWorkOn (plan_files (state_of self.now).files plan)
            (shelf_of self.now) meter.old meter.new) }
        ensures idle { plan ≡ None → meter.new ≡ meter.old }
    {
        // The verdicts that are kept hold, so that none is due while the files stay.
        let _current = self.kept.shelf();
        match plan {
            Some(plan) => {
                let files = self.kept.prepare(self.alloc, plan, meter)?;
                Ok(Some(files))
            }
            None => Ok(None),
        }
    }

    /// How many faults the report of the files that are prepared has, or if there are none, that of
    /// the files that are present.
    fn count_after(&self, files: &Option<PreparedFiles>) -> u64
        requires { IfSome files.now (AreReadyOver (shelf_of self.now) (pairs_of self.now)) }
        ensures { IsReportLength (files_after (state_of self.now).files files.now) result }
    {
        match files {
            Some(files) => files.count(),
            None => self.kept.count(),
        }
    }

    /// Prepares what is planned, at this revision.
    fn prepare_planned(
        &self,
        planned: Planned,
        revision: u64,
        meter: &mut Meter,
    ) -> Result<PreparedEdit, AllocError>
        requires revision { revision ≡ (state_of self.now).revision + 1 }
        requires plan { IfSome planned.files (IsEditPlanOf (state_of self.now).files) }
        ensures after { IfOk result (λ p. after_of (state_of self.now) p
            ≡ at_revision revision (planned_state (state_of self.now) planned)) }
        ensures reports { IfOk result (λ p.
            Reports (after_of (state_of self.now) p) (edited_of p)) }
        ensures ready { IfOk result (IsReadyFor self.now) }
        ensures files { IfOk result (λ p. planned.files ≡ None → KeepsFiles p) }
        ensures whole { OnOk result
            (IsWholeWorkOn (plan_files (state_of self.now).files planned.files)
            (shelf_of self.now) meter.old meter.new) }
        ensures work { OnErr result
            (IsWorkOn (plan_files (state_of self.now).files planned.files)
            (shelf_of self.now) meter.old meter.new) }
        ensures idle { planned.files ≡ None → meter.new ≡ meter.old }
    {
        let Planned { files, new_data } = planned;
        let files = self.prepare_files(files, meter)?;
        let faults = self.count_after(&files);
        Ok(PreparedEdit {
            edited: Edited { revision, faults },
            files,
            new_data,
        })
    }

    /// Prepares an edit: its changes, one after the other, each checked in the state that those before
    /// it leave. It may expect a revision. The meter gets an entry for each definition that is
    /// examined: those whose verdict no longer holds. The refusals, in this order: 206 and 212; then
    /// for each change 203, 202, 201 or 207, 204 and 205; and 211 if an allocation fails. Nothing is
    /// changed.
    pub fn prepare_edit(
        &self,
        edit: &[Change<'_>],
        expected: Option<u64>,
        meter: &mut Meter,
    ) -> Result<PreparedEdit, EditRefusal>
        ensures prepared { IfOk result
            (IsPreparedEditFor self.now expected (edit_of edit.now)) }
        ensures err { IfErr result (IsRefused (state_of self.now) expected (edit_of edit.now)) }
        ensures works { IfOk result (λ p. IsWholeWorkOn (after_of (state_of self.now) p).files
            (shelf_of self.now) meter.old meter.new) }
        ensures in_vain { IfErr result (λ r. WorksInVain (state_of self.now) expected
            (shelf_of self.now) (edit_of edit.now) r.refusal meter.old meter.new) }
        ensures idle { changes_files (edit_of edit.now) ≡ false → meter.new ≡ meter.old }
    {
        let revision = self.next_revision(expected)?;
        let planned = self.plan_edit(edit)?;
        Ok(self.prepare_planned(planned, revision, meter)?)
    }

    /// Commits a prepared edit, and returns what it answers. The verdicts and the revision are those
    /// of the registry when the edit was prepared. This takes no memory.
    pub fn commit_edit(&mut self, prepared: PreparedEdit) -> Edited
        requires { IsReadyFor self.old prepared }
        ensures state { state_of self.new ≡ after_of (state_of self.old) prepared }
        ensures edited { result ≡ edited_of prepared }
        ensures current { IsShelfOf (state_of self.new).files (shelf_of self.new) }
        ensures pairs { KeepsPairs (state_of self.new).files (pairs_of self.old) (pairs_of self.new) }
        ensures walked { HasPairsDue (state_of self.new).files (shelf_of self.old)
            (pairs_of self.new) }
        ensures idle { KeepsFiles prepared → (shelf_of self.new ≡ shelf_of self.old)
            × (pairs_of self.new ≡ pairs_of self.old) }
    {
        let PreparedEdit {
            edited,
            files,
            new_data,
        } = prepared;
        commit_files(&mut self.kept, files);
        replace_data(&mut self.stored, new_data);
        self.revision = edited.revision;
        edited
    }

    /// Makes an edit, as `prepare_edit` and `commit_edit` do, and returns the new revision and how
    /// many faults the report has then. A refused edit changes nothing.
    pub fn edit(
        &mut self,
        edit: &[Change<'_>],
        expected: Option<u64>,
        meter: &mut Meter,
    ) -> Result<Edited, EditRefusal>
        ensures makes { Makes (state_of self.old) expected (edit_of edit.now) result
            (state_of self.new) }
        ensures shelf { OnErr result (shelf_of self.new ≡ shelf_of self.old) }
        ensures pairs { KeepsPairs (state_of self.new).files (pairs_of self.old) (pairs_of self.new) }
        ensures walked { OnOk result (HasPairsDue (state_of self.new).files (shelf_of self.old)
            (pairs_of self.new)) }
        ensures works { Works (state_of self.old) expected (shelf_of self.old)
            (edit_of edit.now) result (state_of self.new) meter.old meter.new }
        ensures idle { changes_files (edit_of edit.now) ≡ false
            → (shelf_of self.new ≡ shelf_of self.old) × (pairs_of self.new ≡ pairs_of self.old)
            × (meter.new ≡ meter.old) }
    {
        let prepared = self.prepare_edit(edit, expected, meter)?;
        Ok(self.commit_edit(prepared))
    }

    /// Makes an edit of one change.
    fn edit_one(
        &mut self,
        change: Change<'_>,
        expected: Option<u64>,
        meter: &mut Meter,
    ) -> Result<Edited, Refusal>
        ensures makes { Makes (state_of self.old) expected (change_of change.entry ∷ [])
            (of_one result) (state_of self.new) }
        ensures shelf { OnErr result (shelf_of self.new ≡ shelf_of self.old) }
        ensures pairs { KeepsPairs (state_of self.new).files (pairs_of self.old) (pairs_of self.new) }
        ensures walked { OnOk result (HasPairsDue (state_of self.new).files (shelf_of self.old)
            (pairs_of self.new)) }
        ensures works { Works (state_of self.old) expected (shelf_of self.old)
            (change_of change.entry ∷ []) (of_one result) (state_of self.new) meter.old meter.new }
        ensures idle { changes_files (change_of change.entry ∷ []) ≡ false
            → (shelf_of self.new ≡ shelf_of self.old) × (pairs_of self.new ≡ pairs_of self.old)
            × (meter.new ≡ meter.old) }
    {
        match self.edit(slice::from_ref(&change), expected, meter) {
            Ok(edited) => Ok(edited),
            Err(refused) => Err(refused.refusal),
        }
    }

    /// Puts bytes as the schema file of a name, in place of any of that name, and returns the new
    /// revision and how many faults the report has then. An edit may expect a revision. The meter
    /// gets an entry for each definition that is examined: those whose verdict no longer holds. The
    /// refusals, in this order: 206, 212, 203, 202, 201 and 205, and 211 if an allocation fails. A
    /// refused edit changes nothing.
    #[tactic(none)]
    pub fn put_schema(
        &mut self,
        name: FileName,
        bytes: &[u8],
        expected: Option<u64>,
        meter: &mut Meter,
    ) -> Result<Edited, Refusal>
        ensures makes { Makes (state_of self.old) expected
            (edits.put side.Schema name bytes.now ∷ []) (of_one result) (state_of self.new) }
        ensures shelf { OnErr result (shelf_of self.new ≡ shelf_of self.old) }
        ensures pairs { KeepsPairs (state_of self.new).files (pairs_of self.old) (pairs_of self.new) }
        ensures walked { OnOk result (HasPairsDue (state_of self.new).files (shelf_of self.old)
            (pairs_of self.new)) }
        ensures works { Works (state_of self.old) expected (shelf_of self.old)
            (edits.put side.Schema name bytes.now ∷ []) (of_one result) (state_of self.new)
            meter.old meter.new }
    {
        let side = FileSide::Schema;
        self.edit_one(Change::Put { side, name, bytes }, expected, meter)
    }

    /// Puts bytes as the document file of a name, and returns what `put_schema` does. The
    /// definitions of the file are examined, unless the same definition was at the same place
    /// before, and so are the others whose verdict no longer holds. The refusals are those of
    /// `put_schema`.
    #[tactic(none)]
    pub fn put_document(
        &mut self,
        name: FileName,
        bytes: &[u8],
        expected: Option<u64>,
        meter: &mut Meter,
    ) -> Result<Edited, Refusal>
        ensures makes { Makes (state_of self.old) expected
            (edits.put side.Documents name bytes.now ∷ []) (of_one result) (state_of self.new) }
        ensures shelf { OnErr result (shelf_of self.new ≡ shelf_of self.old) }
        ensures pairs { KeepsPairs (state_of self.new).files (pairs_of self.old) (pairs_of self.new) }
        ensures walked { OnOk result (HasPairsDue (state_of self.new).files (shelf_of self.old)
            (pairs_of self.new)) }
        ensures works { Works (state_of self.old) expected (shelf_of self.old)
            (edits.put side.Documents name bytes.now ∷ []) (of_one result) (state_of self.new)
            meter.old meter.new }
    {
        let side = FileSide::Documents;
        self.edit_one(Change::Put { side, name, bytes }, expected, meter)
    }

    /// Removes a schema file, and returns what `put_schema` does. The refusals, in this order: 206,
    /// 212 and 204, and 211 if an allocation fails. A refused edit changes nothing.
    #[tactic(none)]
    pub fn remove_schema(
        &mut self,
        name: FileName,
        expected: Option<u64>,
        meter: &mut Meter,
    ) -> Result<Edited, Refusal>
        ensures makes { Makes (state_of self.old) expected
            (edits.remove side.Schema name ∷ []) (of_one result) (state_of self.new) }
        ensures shelf { OnErr result (shelf_of self.new ≡ shelf_of self.old) }
        ensures pairs { KeepsPairs (state_of self.new).files (pairs_of self.old) (pairs_of self.new) }
        ensures walked { OnOk result (HasPairsDue (state_of self.new).files (shelf_of self.old)
            (pairs_of self.new)) }
        ensures works { Works (state_of self.old) expected (shelf_of self.old)
            (edits.remove side.Schema name ∷ []) (of_one result) (state_of self.new)
            meter.old meter.new }
    {
        let side = FileSide::Schema;
        self.edit_one(Change::Remove { side, name }, expected, meter)
    }

    /// Removes a document file, and returns what `put_schema` does. The refusals are those of
    /// `remove_schema`.
    #[tactic(none)]
    pub fn remove_document(
        &mut self,
        name: FileName,
        expected: Option<u64>,
        meter: &mut Meter,
    ) -> Result<Edited, Refusal>
        ensures makes { Makes (state_of self.old) expected
            (edits.remove side.Documents name ∷ []) (of_one result) (state_of self.new) }
        ensures shelf { OnErr result (shelf_of self.new ≡ shelf_of self.old) }
        ensures pairs { KeepsPairs (state_of self.new).files (pairs_of self.old) (pairs_of self.new) }
        ensures walked { OnOk result (HasPairsDue (state_of self.new).files (shelf_of self.old)
            (pairs_of self.new)) }
        ensures works { Works (state_of self.old) expected (shelf_of self.old)
            (edits.remove side.Documents name ∷ []) (of_one result) (state_of self.new)
            meter.old meter.new }
    {
        let side = FileSide::Documents;
        self.edit_one(Change::Remove { side, name }, expected, meter)
    }

    /// Puts bytes as the data that operations are executed on, in place of the data before, and
    /// returns the new revision and how many faults the report has. The data is a JSON object whose
    /// members `query` and `mutation` are objects, and whose numbers are integers, unless the
    /// profile has Float. The refusals, in this order: 206, 212, 202 and 207, and 211 if an
    /// allocation fails. A refused edit changes nothing. No definition is examined.
    #[tactic(none)]
    pub fn put_data(
        &mut self,
        bytes: &[u8],
        expected: Option<u64>,
        meter: &mut Meter,
    ) -> Result<Edited, Refusal>
        ensures makes { Makes (state_of self.old) expected (edits.put_data bytes.now ∷ [])
            (of_one result) (state_of self.new) }
        ensures shelf { shelf_of self.new ≡ shelf_of self.old }
        ensures pairs { pairs_of self.new ≡ pairs_of self.old }
        ensures meter { meter.new ≡ meter.old }
    {
        self.edit_one(Change::PutData { bytes }, expected, meter)
    }
}
