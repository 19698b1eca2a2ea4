//! Types without their Non-Null marks, and null at a type.
ghost use Rattle.std.specs.Prelude.{◌≡◌, codes, false};
ghost use Rattle.serde_json.specs.Data.{Data, null};
ghost use Rattle.gql_inputs.specs.InputTypes.{is_non_null, name_in};
ghost use Rattle.gql_types.specs.Written.{written};
ghost use Rattle.gql_steps.specs.Execution.{Site as ASite, complete, is_null};
ghost use Rattle.gql_steps.specs.Parts.{plain};
ghost use Rattle.gql_steps.specs.Replies.{Path};
ghost use Rattle.gql_steps.specs.States.{Executes, path_of};
ghost use Rattle.gql_steps.specs.Texts.{value_part};

use crate::ended::Ended;
use crate::refusal::ExecRefusal;
use crate::run::{Reason, Run};
use crate::steps::{raise, write};
use gql_ast::TypeRef;
use gql_inputs::is_non_null;
use gql_text::Place;
use std::alloc::Global;

/// The type without its Non-Null marks. A value that is not null is completed the same.
#[tactic(auto, using(gql_types::specs::Written::written_named, gql_types::specs::Written::written_list, gql_types::specs::Written::written_non_null, crate::proofs::Completing::within_marks))]
pub fn without_mark(of_type: &TypeRef) -> &TypeRef
    ensures nullable { is_non_null (written result.now) ≡ false }
    ensures same { (s : ASite) → (p : Path) → (d : Data) → is_null d ≡ false
        → complete s (written of_type.now) p d ≡ complete s (written result.now) p d }
    ensures name { name_in (written of_type.now) ≡ name_in (written result.now) }
{
    match of_type {
        TypeRef::Named(_) => of_type,
        TypeRef::List { .. } => of_type,
        TypeRef::NonNull(inner) => without_mark(inner.get()),
    }
}

/// Writes null.
pub fn write_null(run: &mut Run<'_>) -> Result<Ended, ExecRefusal>
    ensures { Executes (plain (codes "null")) result run.old run.new }
{
    write(run, b"null")?;
    Ok(Ended::Written)
}

/// Completes null.
#[tactic(auto, using(crate::proofs::Completing::null_bubbles, crate::proofs::Completing::null_is_null))]
pub fn complete_null(
    alloc: Global,
    place: Place,
    of_type: &TypeRef,
    run: &mut Run<'_>,
) -> Result<Ended, ExecRefusal>
    ensures { (s : ASite) → s.place ≡ place
        → Executes (value_part (complete s (written of_type.now) (path_of run.old) null))
        result run.old run.new }
{
    if is_non_null(of_type) {
        raise(alloc, run, place, Reason::NullForNonNull)
    } else {
        write_null(run)
    }
}
