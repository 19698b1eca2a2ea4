//! The coercion of inputs (GraphQL specification, 3.5 to 3.12). The lists and objects around the
//! present input are on a stack of its own, so that only memory limits how deep they nest.
ghost use Rattle.std.specs.Prelude.{◌≡◌, ℕ, suc, Option, option_map, IfOk};
ghost use Rattle.std.specs.Option.{option_copied};
ghost use Rattle.gql_types.specs.Written.{written};
ghost use Rattle.gql_types.specs.declared.schema.Schema.{Schema as ASchema};
ghost use Rattle.serde_json.specs.Data.{Data};
ghost use Rattle.gql_coerce.specs.Coercion.{coerced as levels_of};
ghost use Rattle.gql_coerce.specs.Comes.{Eventually};
ghost use Rattle.gql_coerce.specs.Frames.{focus_at, step_at, frame_of, frames_of, frame_by, Holds, Inside};
ghost use Rattle.gql_coerce.specs.Outcomes.{Reached, said};
ghost use Rattle.gql_coerce.specs.Parts.{input_of};

use crate::coerced::Coerced;
use crate::forms::focus_of;
use crate::frame::{Focus, Frame, Step};
use crate::lists::{resume_list, start_list};
use crate::objects::{resume_default, resume_given, start_object};
use crate::part::Part;
use gql_ast::TypeRef;
use gql_types::Schema;
use std::alloc::{AllocError, Global};

/// A list or an object, a part of which came to this.
fn resume<'v>(
    alloc: Global,
    schema: &'v Schema,
    frame: Frame<'v>,
    coerced: Coerced,
) -> Result<Step<'v>, AllocError>
    ensures { IfOk result (λ step. (n : ℕ)
        → frame_by (levels_of (suc n) schema.now) (frame_of frame.entry) (said coerced)
        ≡ step_at (suc n) schema.now step) }
{
    match frame {
        Frame::Item(list) => resume_list(alloc, schema, list, coerced),
        Frame::Given(object, name, definition) => {
            resume_given(alloc, schema, object, name, definition, coerced)
        }
        Frame::Default(object, name) => resume_default(alloc, schema, object, name, coerced),
    }
}

/// Whether more defaults are open within one another than the schema has input fields, so that one
/// of them is within itself.
fn has_cycle(schema: &Schema, stack: &[Frame<'_>]) -> bool {
    let mut open = 0_usize;
    for frame in stack {
        if matches!(frame, Frame::Default(..)) {
            open = open.saturating_add(1);
        }
    }
    for of_type in schema.types() {
        open = open.saturating_sub(of_type.get().input_fields.as_slice().len());
    }
    // this field may have no default
    open > 1
}

/// If defaults lead back to themselves, an input may come to nothing: the walk gives up, although no
/// allocation failed. It checks for this each time the stack has doubled.
fn give_up(schema: &Schema, stack: &[Frame<'_>]) -> Result<(), AllocError> {
    let depth = stack.len();
    if depth >= 1024 && depth.is_power_of_two() && has_cycle(schema, stack) {
        return Err(AllocError);
    }
    Ok(())
}

/// Enters a list or an object, or takes the answer.
fn take_step<'v>(
    schema: &Schema,
    step: Step<'v>,
    stack: &mut Vec<Frame<'v>>,
) -> Result<Focus<'v>, AllocError>
    ensures { IfOk result (λ focus. (s : ASchema) (whole : ℕ → Reached (Option Data))
        → Inside s whole (frames_of stack.old.items) (λ n. step_at n s step.entry)
        → Holds s whole (frames_of stack.new.items) (λ n. focus_at n s focus)) }
{
    match step {
        Step::Within(frame, focus) => {
            stack.push(frame)?;
            give_up(schema, stack.as_slice())?;
            Ok(focus)
        }
        Step::Answer(coerced) => Ok(Focus::Answer(coerced)),
    }
}

/// What an input comes to. The walk gives up if the input takes a default within itself, and after
/// 2^64 - 1 steps, which no run reaches.
pub fn coerce<'v>(
    alloc: Global,
    schema: &'v Schema,
    part: Part<'v>,
    expected: Option<&'v TypeRef>,
) -> Result<Coerced, AllocError>
    ensures { IfOk result (λ c. Eventually (λ n. levels_of n schema.now
        (input_of part.entry) (option_map written (option_copied expected.entry)) ≡ said c)) }
{
    let mut stack = Vec::new(alloc);
    let mut focus = focus_of(alloc, schema, part, expected)?;
    'steps: for _ in 0..u64::MAX {
        let step = match focus {
            Focus::List(items, of_type) => start_list(alloc, schema, items, of_type)?,
            Focus::Object(fields, of_type) => start_object(alloc, schema, fields, of_type)?,
            Focus::Answer(coerced) => match stack.pop() {
                Some(frame) => resume(alloc, schema, frame, coerced)?,
                None => return Ok(coerced),
            },
        };
        focus = take_step(schema, step, &mut stack)?;
    }
    Err(AllocError)
}
