//! The smallest steps of an execution.
ghost use Rattle.std.specs.Prelude.{◌≡◌, ◌++◌, ◌∷◌, [], take, codes, string_bytes, IfOk, OnOk, IfErr};
ghost use Rattle.std.specs.Fmt.{signed_decimal};
ghost use Rattle.json.specs.Print.{quoted};
ghost use Rattle.serde_json.specs.View.{view};
ghost use Rattle.gql_steps.specs.JsonText.{json_text};
ghost use Rattle.gql_steps.specs.Parts as spec;
ghost use Rattle.gql_steps.specs.Parts.{comma, plain, one};
ghost use Rattle.gql_steps.specs.States.{Executes, Follows, message_of, path_of};

use crate::ended::Ended;
use crate::refusal::ExecRefusal;
use crate::run::{FieldError, Reason, Run};
use crate::strings::{write_quoted, write_string};
use crate::values::write_value;
use gql_text::Place;
use serde_json::Value;
use std::alloc::{AllocError, Global};

/// Writes bytes as they are.
pub fn write(run: &mut Run<'_>, bytes: &[u8]) -> Result<(), ExecRefusal>
    ensures follows { OnOk result (Follows (plain bytes.now) run.old run.new) }
    ensures err { IfErr result (λ e. e ≡ ExecRefusal.Memory) }
{
    run.out.extend_from_slice(bytes)?;
    Ok(())
}

/// Writes one byte.
pub fn write_byte(run: &mut Run<'_>, byte: u8) -> Result<(), ExecRefusal>
    ensures follows { OnOk result (Follows (plain (byte ∷ [])) run.old run.new) }
    ensures err { IfErr result (λ e. e ≡ ExecRefusal.Memory) }
{
    run.out.push(byte)?;
    Ok(())
}

/// Writes a comma, but not before the first part.
#[tactic(auto, using(crate::proofs::Parts::comma_first, crate::proofs::Parts::comma_later))]
pub fn write_comma(run: &mut Run<'_>, i: usize) -> Result<(), ExecRefusal>
    ensures follows { OnOk result (Follows (comma i) run.old run.new) }
    ensures err { IfErr result (λ e. e ≡ ExecRefusal.Memory) }
{
    if i == 0 {
        Ok(())
    } else {
        write_byte(run, b',')
    }
}

/// Writes a string.
pub fn write_text(run: &mut Run<'_>, text: &str) -> Result<(), ExecRefusal>
    ensures follows { OnOk result (Follows (plain (quoted text.now)) run.old run.new) }
    ensures err { IfErr result (λ e. e ≡ ExecRefusal.Memory) }
{
    write_string(text, &mut run.out)?;
    Ok(())
}

/// Writes a string of these bytes.
pub fn write_text_bytes(run: &mut Run<'_>, text: &[u8]) -> Result<(), ExecRefusal>
    ensures follows { OnOk result (Follows (plain (quoted text.now)) run.old run.new) }
    ensures err { IfErr result (λ e. e ≡ ExecRefusal.Memory) }
{
    write_quoted(text, &mut run.out)?;
    Ok(())
}

/// Writes a whole number.
pub fn write_whole(run: &mut Run<'_>, number: i64) -> Result<(), ExecRefusal>
    ensures follows { OnOk result (Follows (plain (signed_decimal number)) run.old run.new) }
    ensures err { IfErr result (λ e. e ≡ ExecRefusal.Memory) }
{
    let mut digits = itoa::Buffer::new();
    run.out.extend_from_slice(digits.format(number).as_bytes())?;
    Ok(())
}

/// Writes any value.
pub fn write_any(run: &mut Run<'_>, value: &Value) -> Result<(), ExecRefusal>
    ensures follows { OnOk result
        (Follows (plain (json_text (view value.now))) run.old run.new) }
    ensures err { IfErr result (λ e. e ≡ ExecRefusal.Memory) }
{
    write_value(value, &mut run.out)?;
    Ok(())
}

/// Counts one value, unless the limit is reached.
pub fn count(run: &mut Run<'_>) -> Result<(), ExecRefusal>
    ensures follows { OnOk result (Follows one run.old run.new) }
    ensures err { IfErr result (λ e. run.old.left ≡ 0) }
{
    if run.left == 0 {
        return Err(ExecRefusal::TooHeavy);
    }
    run.left -= 1;
    Ok(())
}

/// A text, and a name after it.
fn named(alloc: Global, text: &str, name: &str) -> Result<String, AllocError>
    ensures { IfOk result (λ m. string_bytes m ≡ text.now ++ name.now) }
{
    let mut message = String::from_str(alloc, text)?;
    message.push_str(name)?;
    Ok(message)
}

/// The message of an error.
fn message(alloc: Global, reason: Reason<'_>) -> Result<String, AllocError>
    ensures { IfOk result (λ m. string_bytes m ≡ message_of reason.entry) }
{
    match reason {
        Reason::NullForNonNull => String::from_str(alloc, "null for a Non-Null type"),
        Reason::NotAList => String::from_str(alloc, "value is not a list"),
        Reason::NotAnObject => String::from_str(alloc, "value is not an object"),
        Reason::NotOfType(name) => named(alloc, "value is not of type ", name),
        Reason::NoPossibleType(name) => named(alloc, "value names no possible type of ", name),
        Reason::NoList(name) => named(alloc, "no list named ", name),
        Reason::Refused(message) => String::from_str(alloc, message),
    }
}

/// Notes an error of the present value, if it is the first of its field.
pub fn raise(
    alloc: Global,
    run: &mut Run<'_>,
    place: Place,
    reason: Reason<'_>,
) -> Result<Ended, ExecRefusal>
    ensures { Executes (spec.raise (record {
      message = message_of reason.entry;
      place = place;
      path = path_of run.old;
    })) result run.old run.new }
{
    if !run.raised {
        let message = message(alloc, reason)?;
        let path = Vec::from_slice(alloc, run.path.as_slice())?;
        run.errors.push(FieldError {
            message,
            place,
            path,
        })?;
        run.raised = true;
    }
    Ok(Ended::Bubbled)
}

/// Cuts the text back to a mark, and writes null.
pub fn cut_to_null(run: &mut Run<'_>, mark: usize) -> Result<(), ExecRefusal>
    ensures out { OnOk result (run.new.out.items ≡ take mark run.old.out.items ++ codes "null") }
    ensures rest { OnOk result (run.new ≡ record run.old { out = run.new.out }) }
    ensures err { IfErr result (λ e. e ≡ ExecRefusal.Memory) }
{
    run.out.truncate(mark);
    run.out.extend_from_slice(b"null")?;
    Ok(())
}
