//! Whether the removal of a part of the schema leaves what was observed as it is.
ghost use Rattle.std.specs.Prelude.{IsTrue};
ghost use Rattle.gql_reads.specs.Observations.{about, about_all, observed, observed_in};
ghost use Rattle.gql_reads.specs.Readings.{flat, seen_in};
ghost use Rattle.gql_usage.specs.Untouched as untouched;

use gql_ast::Shared;
use gql_reads::{Answer, Part, Reading, TypeAnswers};
use gql_removal::{Removal, is_spared, is_type_spared};

/// Whether the removal leaves what was observed of this type as it is.
fn is_type_untouched(removal: &Removal, of_type: &TypeAnswers) -> bool
    ensures { IsTrue result → untouched.AreLeft removal.now (about of_type.now) }
{
    is_type_spared(
        removal,
        &of_type.name,
        &of_type.kind,
        &of_type.possible,
        &of_type.input,
        &of_type.values,
    )
}

/// Whether the removal leaves what was observed of these types as it is.
fn are_types_untouched(removal: &Removal, types: &[Shared<TypeAnswers>]) -> bool
    ensures { IsTrue result → untouched.AreLeft removal.now (about_all types.now) }
{
    for of_type in types {
        if !is_type_untouched(removal, of_type.get()) {
            return false;
        }
    }
    true
}

/// Whether the removal leaves an answer as it is, and those about the types that it leads to.
fn is_answer_untouched(removal: &Removal, answer: &Answer) -> bool
    ensures { IsTrue result → untouched.AreLeft removal.now (observed answer.now) }
{
    is_spared(removal, &answer.observation.key, &answer.observation.fact)
        && are_types_untouched(removal, answer.types.as_slice())
}

/// Whether the removal leaves these answers as they are.
fn are_answers_untouched(removal: &Removal, answers: &[Shared<Answer>]) -> bool
    ensures { IsTrue result → untouched.AreLeft removal.now (observed_in answers.now) }
{
    for answer in answers {
        if !is_answer_untouched(removal, answer.get()) {
            return false;
        }
    }
    true
}

/// Whether the removal leaves what was observed of these fragments as it is.
fn are_parts_untouched(removal: &Removal, parts: &[Part]) -> bool
    ensures { IsTrue result → untouched.AreLeft removal.now (seen_in parts.now) }
{
    for part in parts {
        if !are_answers_untouched(removal, part.seen().get().answers()) {
            return false;
        }
    }
    true
}

/// Whether the removal leaves all answers that were observed as they are.
pub fn is_untouched(removal: &Removal, reading: &Reading) -> bool
    ensures { IsTrue result → untouched.AreLeft removal.now (flat reading.now) }
{
    are_answers_untouched(removal, reading.own.record.get().answers())
        && are_parts_untouched(removal, reading.parts.as_slice())
}
